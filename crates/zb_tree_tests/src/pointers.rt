use std::alloc::Global;
use std::test::Fail;
use zb_pointers::{FileHead, Pointers};
use zb_types::{Fid, Geometry, LogId, Mem, NoMemory, Ptr};

fn block_in(stripe: u64) -> Ptr {
    Ptr {
        log: LogId(1),
        stripe,
        offset: 0,
        len: 64,
    }
}

/// A file 2 without bytes, and room for three blocks.
fn file_2(alloc: Global) -> Mem<Pointers> {
    let Ok(geo) = Geometry::new(3, 1, 256, 64, 8) else {
        return Err(NoMemory);
    };
    let mut files = Pointers::new(alloc, &geo)?;
    files.reserve(alloc, Fid(2), 3)?;
    let head = FileHead {
        version: 5,
        length: 0,
    };
    files.load(alloc, Fid(2), head)?;
    Ok(files)
}

/// An empty file 1, and a file 2 of 250 bytes, each block of which stands in the stripe of its number.
fn some_files(alloc: Global) -> Mem<Pointers> {
    let mut files = file_2(alloc)?;
    files.add(alloc, Fid(1))?;
    for block in [2, 0, 3] {
        files.set(alloc, Fid(2), block, block_in(u64::from(block)))?;
    }
    files.raise(Fid(2), 250);
    Ok(files)
}

/// Whether block 2 alone is among blocks 1 and 2 of file 2.
fn is_among(alloc: Global, files: &Pointers) -> Mem<bool> {
    let among = files.among(alloc, Fid(2), 1, 2)?;
    Ok(among.slice() == [(2, block_in(2))].as_slice())
}

#[test]
fn files_have_their_blocks_in_order(rt: HostRuntime) -> Result<(), Fail> {
    let alloc = rt.alloc();
    let files = some_files(alloc)?;
    let head = FileHead {
        version: 6,
        length: 250,
    };
    assert!(rt; files.find(Fid(2)) == Some(head));
    assert!(rt; files.at(1) == Some(Fid(2)));
    assert!(rt; files.block(Fid(2), 1) == None);
    assert!(rt; files.block_at(Fid(2), 1) == Some((2, block_in(2))));
    assert!(rt; is_among(alloc, &files)?);
    assert!(rt; files.live(alloc, LogId(1), 3)?.len() == 1);
    Ok(())
}

/// How many blocks file 2 has once it is cut, and once it is dropped, and how many files there are then.
fn cut_and_dropped(files: &mut Pointers) -> (usize, usize, usize) {
    files.cut(Fid(2), 129);
    let cut = files.blocks(Fid(2));
    files.drop_file(Fid(2));
    (cut, files.blocks(Fid(2)), files.count())
}

#[test]
fn a_cut_and_a_drop_take_blocks_away(rt: HostRuntime) -> Result<(), Fail> {
    let mut files = some_files(rt.alloc())?;
    assert!(rt; cut_and_dropped(&mut files) == (2, 0, 1));
    Ok(())
}
