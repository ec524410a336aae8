use crate::manager::path;
use std::alloc::Global;
use std::test::Fail;
use zb_history::Tree;
use zb_types::{ByteList, Call, Fid, Mem, Reply};

/// A write of five bytes behind two that nobody writes.
fn write(alloc: Global) -> Mem<Call> {
    Ok(Call::Write {
        fid: Fid(1),
        offset: 2,
        bytes: ByteList::from_slice(alloc, b"hello")?,
    })
}

/// A file with that write, cut behind its second byte.
fn written_and_cut(alloc: Global) -> Mem<Tree> {
    let mut tree = Tree::new(alloc)?;
    tree.apply(alloc, &Call::Create(path(alloc, b"/x")?))?;
    tree.apply(alloc, &write(alloc)?)?;
    let cut = Call::Truncate {
        fid: Fid(1),
        length: 4,
    };
    tree.apply(alloc, &cut)?;
    Ok(tree)
}

/// Whether the file has these bytes behind its first.
fn has_bytes(alloc: Global, tree: &Tree, wanted: &[u8]) -> Mem<bool> {
    let read = Call::Read {
        fid: Fid(1),
        offset: 1,
        len: 9,
    };
    match tree.answer(alloc, &read)? {
        Reply::Bytes(found) => Ok(found.slice() == wanted),
        _ => Ok(false),
    }
}

#[test]
fn a_write_past_the_end_is_read_back_after_zeros(rt: HostRuntime) -> Result<(), Fail> {
    let alloc = rt.alloc();
    let tree = written_and_cut(alloc)?;
    assert!(rt; has_bytes(alloc, &tree, b"\x00he")?);
    Ok(())
}
