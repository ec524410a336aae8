use std::alloc::Global;
use std::test::Fail;
use zb_types::{
    ByteList, Call, Class, Copied, Fid, FragId, FragList, HeldUse, ItemList, LenList, Listed,
    LogId, LogUse, Mem, Name, NameList, Path, Piece, Ptr, Refusal, Reply, Request, Response,
    StoreFault, TreeEntry, bytes_from, bytes_resized, bytes_written,
};

const PTR: Ptr = Ptr {
    log: LogId(1),
    stripe: 2,
    offset: 3,
    len: 4,
};

fn path(alloc: Global, text: &[u8]) -> Result<Path, Fail> {
    Ok(Path::parse(alloc, text)?.ok_or("no path")?)
}

fn name(alloc: Global, text: &[u8]) -> Result<Name, Fail> {
    Ok(Name::parse(alloc, text)?.ok_or("no name")?)
}

// The call of this kind, from 1.
fn call(alloc: Global, kind: u8) -> Result<Call, Fail> {
    let fid = Fid(1);
    Ok(match kind {
        1 => Call::Create(path(alloc, b"/a")?),
        2 => Call::Mkdir(path(alloc, b"/a")?),
        3 => Call::Remove(path(alloc, b"/a")?),
        4 => Call::Rename(path(alloc, b"/b")?, path(alloc, b"/a")?),
        5 => Call::Write {
            fid,
            offset: 2,
            bytes: ByteList::from_slice(alloc, b"/a")?,
        },
        6 => Call::List(Some(path(alloc, b"/a")?)),
        7 => Call::Stat(path(alloc, b"/a")?),
        8 => Call::Find(path(alloc, b"/a")?),
        9 => Call::Truncate { fid, length: 2 },
        10 => Call::Read {
            fid,
            offset: 2,
            len: 3,
        },
        11 => Call::List(None),
        _ => Call::Sync,
    })
}

// The kind of a call, and the bytes that it has.
fn shown(call: &Call) -> (u8, &[u8]) {
    match call {
        Call::Create(path) => (1, path.slice()),
        Call::Mkdir(path) => (2, path.slice()),
        Call::Remove(path) => (3, path.slice()),
        Call::Rename(_, to) => (4, to.slice()),
        Call::Write { bytes, .. } => (5, bytes.slice()),
        Call::List(Some(path)) => (6, path.slice()),
        Call::Stat(path) => (7, path.slice()),
        Call::Find(path) => (8, path.slice()),
        Call::Truncate { .. } => (9, &[]),
        Call::Read { .. } => (10, &[]),
        Call::List(None) => (11, &[]),
        Call::Sync => (12, &[]),
    }
}

#[test]
fn each_call_is_copied(rt: HostRuntime) -> Result<(), Fail> {
    let alloc = rt.alloc();
    for kind in 1..13 {
        let copy = call(alloc, kind)?.copy(alloc)?;
        let bytes: &[u8] = if kind < 9 { b"/a" } else { b"" };
        assert_eq!(rt; shown(&copy), (kind, bytes));
        assert_eq!(rt; copy.is_bufferable(), kind == 5 || kind == 9);
    }
    Ok(())
}

// The reply of this kind, from 1.
fn reply(alloc: Global, kind: u8) -> Result<Reply, Fail> {
    Ok(match kind {
        1 => Reply::Done,
        2 => Reply::Made(Fid(2)),
        3 => Reply::Bytes(ByteList::from_slice(alloc, b"abc")?),
        4 => Reply::Names(NameList::from_slice(alloc, &[name(alloc, b"four")?])?),
        5 => Reply::Dir,
        6 => Reply::File {
            fid: Fid(1),
            length: 6,
        },
        _ => Reply::Refused(Refusal::Gone),
    })
}

// The kind of a reply, and a number that it has.
fn kind_of(reply: &Reply) -> (u8, usize) {
    match reply {
        Reply::Done => (1, 0),
        Reply::Made(fid) => (2, fid.0 as usize),
        Reply::Bytes(bytes) => (3, bytes.len()),
        Reply::Names(names) => (4, names.len()),
        Reply::Dir => (5, 0),
        Reply::File { length, .. } => (6, *length as usize),
        Reply::Refused(_) => (7, 0),
    }
}

#[test]
fn each_reply_is_copied(rt: HostRuntime) -> Result<(), Fail> {
    let alloc = rt.alloc();
    for (kind, number) in [(1, 0), (2, 2), (3, 3), (4, 1), (5, 0), (6, 6), (7, 0)] {
        let copy = reply(alloc, kind)?.copy(alloc)?;
        assert_eq!(rt; kind_of(&copy), (kind, number));
    }
    Ok(())
}

#[test]
fn a_list_gives_what_it_was_given(rt: HostRuntime) -> Result<(), Fail> {
    let alloc = rt.alloc();
    let mut list = ByteList::new(alloc)?;
    list.push(b'a')?;
    list.push(b'b')?;
    assert_eq!(rt; list.get(1), Some(&b'b'));
    let again = ByteList::of(list.into_items());
    assert_eq!(rt; again.slice(), b"ab".as_slice());
    Ok(())
}

// How many items there are in the copy of a list of one.
fn copied<T: Copied>(alloc: Global, item: T) -> Mem<usize> {
    let mut list = ItemList::new(alloc)?;
    list.push(item)?;
    Ok(list.copy(alloc)?.len())
}

#[test]
fn a_list_of_each_item_is_copied(rt: HostRuntime) -> Result<(), Fail> {
    let alloc = rt.alloc();
    let log = LogId(1);
    let fragment = FragId {
        log,
        stripe: 2,
        index: 0,
    };
    let used = LogUse {
        log,
        live: true,
        last: None,
        batch: 0,
    };
    let held = HeldUse {
        log,
        stripe: 2,
        end: 3,
        born: 4,
    };
    let entry = TreeEntry {
        path: path(alloc, b"/a")?,
        listed: Listed::Dir,
    };
    assert_eq!(rt; copied(alloc, 7u32), Ok(1));
    assert_eq!(rt; copied(alloc, fragment), Ok(1));
    assert_eq!(rt; copied(alloc, (5u32, PTR)), Ok(1));
    assert_eq!(rt; copied(alloc, used), Ok(1));
    assert_eq!(rt; copied(alloc, held), Ok(1));
    assert_eq!(rt; copied(alloc, entry), Ok(1));
    Ok(())
}

#[test]
fn a_path_and_a_name_are_copied(rt: HostRuntime) -> Result<(), Fail> {
    let alloc = rt.alloc();
    let path = path(alloc, b"/a/b")?.copy(alloc)?;
    assert_eq!(rt; path.slice(), b"/a/b".as_slice());
    let name = name(alloc, b"...")?.copy(alloc)?;
    assert_eq!(rt; name.slice(), b"...".as_slice());
    Ok(())
}
