use std::alloc::Global;
use std::test::Fail;
use zb_report::{outcome, tree};
use zb_types::{
    ByteList, Cause, Ended, EventAnswer, Fid, Listed, LogId, Mended, Name, NameList, Node, Outcome,
    Pass, Path, Reply, Said, ServerId, Told, TreeEntry, TreeList,
};

// What a line of a call says, of this kind.
fn said(alloc: Global, kind: u8) -> Result<Said, Fail> {
    Ok(match kind {
        1 => Said::Reply(Reply::Bytes(ByteList::from_slice(alloc, b"a\"\n\xff ~")?)),
        2 => {
            let b = Name::parse(alloc, b"b")?.ok_or("no name")?;
            let cc = Name::parse(alloc, b"cc")?.ok_or("no name")?;
            Said::Reply(Reply::Names(NameList::from_slice(alloc, &[b, cc])?))
        }
        3 => Said::Kept(Cause::Unreachable {
            a: ServerId(2),
            b: ServerId(3),
        }),
        _ => Said::Unfinished(Cause::NoSpace {
            server: ServerId(1),
        }),
    })
}

// The line of this kind.
fn line(alloc: Global, kind: u8) -> Result<Outcome, Fail> {
    Ok(match kind {
        5 => Outcome::Clean(Pass::Done {
            log: LogId(1),
            stripe: 0,
            copied: 3,
            rejected: 1,
            end: Ended::Retired,
        }),
        6 => Outcome::Rebuild {
            server: ServerId(2),
            end: Mended::Copied(1),
        },
        7 => Outcome::Event {
            event: Told::Up(Node::Manager),
            answer: EventAnswer::Stopped(Node::Manager),
        },
        _ => Outcome::Call {
            client: 2,
            number: 10,
            said: said(alloc, kind)?,
        },
    })
}

#[test]
fn lines_have_their_texts(rt: HostRuntime) -> Result<(), Fail> {
    let table: [(u8, &[u8]); 7] = [
        (1, b"c2 10 bytes \"a\\x22\\x0a\\xff ~\"\n"),
        (2, b"c2 10 names b cc\n"),
        (3, b"c2 10 kept unreachable s2 s3\n"),
        (4, b"c2 10 unfinished no space s1\n"),
        (5, b"clean 1 0 copied 3 rejected 1 retired\n"),
        (6, b"rebuild s2 copied 1\n"),
        (7, b"up fm failed stopped fm\n"),
    ];
    for (kind, text) in table {
        let line = line(rt.alloc(), kind)?;
        assert_eq!(rt; outcome(rt.alloc(), &line)?.slice(), text);
    }
    Ok(())
}

fn entry(alloc: Global, path: &[u8], listed: Listed) -> Result<TreeEntry, Fail> {
    Ok(TreeEntry {
        path: Path::parse(alloc, path)?.ok_or("no path")?,
        listed,
    })
}

#[test]
fn a_tree_has_a_line_for_each_path(rt: HostRuntime) -> Result<(), Fail> {
    let alloc = rt.alloc();
    let mut entries = TreeList::new(alloc)?;
    entries.push(entry(alloc, b"/d", Listed::Dir)?)?;
    let file = Listed::File {
        fid: Fid(1),
        length: 5,
    };
    entries.push(entry(alloc, b"/d/a", file)?)?;
    assert_eq!(rt;
        tree(alloc, &entries)?.slice(),
        b"dir /d\nfile /d/a 1 5\n".as_slice()
    );
    Ok(())
}
