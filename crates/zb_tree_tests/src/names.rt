use crate::manager::path;
use std::alloc::Global;
use std::test::Fail;
use zb_names::{NameFault, Names};
use zb_types::{Call, Fid, Mem, Refusal};

/// Whether these are all names, each with a space behind it.
fn are_all(alloc: Global, names: &Names, wanted: &[u8]) -> Mem<bool> {
    let mut text = Vec::new(alloc);
    for (path, _) in names.entries() {
        text.extend_from_slice(path.slice())?;
        text.push(b' ')?;
    }
    Ok(text.as_slice() == wanted)
}

/// A directory with a file below it, and a file whose name stands between them.
fn some_names(alloc: Global) -> Result<Names, NameFault> {
    let mut names = Names::new(alloc)?;
    names.mkdir(alloc, &path(alloc, b"/a")?)?;
    for text in [b"/a!".as_slice(), b"/a/x"] {
        names.create(alloc, &path(alloc, text)?)?;
    }
    Ok(names)
}

/// The same, once the directory is renamed.
fn renamed(alloc: Global) -> Result<Names, NameFault> {
    let mut names = some_names(alloc)?;
    let from = path(alloc, b"/a")?;
    names.rename(alloc, &from, &path(alloc, b"/b")?)?;
    Ok(names)
}

/// Removes the name with this text.
fn remove(names: &mut Names, alloc: Global, text: &[u8]) -> Mem<Result<Option<Fid>, Refusal>> {
    let path = path(alloc, text)?;
    Ok(names.remove(&path))
}

/// A copy of what is loaded of these names.
fn loaded(alloc: Global, names: &Names) -> Mem<Option<Names>> {
    match Names::load(alloc, names.next(), names.entries())? {
        Some(names) => Ok(Some(names.copy(alloc)?)),
        None => Ok(None),
    }
}

#[test]
fn a_directory_is_renamed_with_what_lies_below(rt: HostRuntime) -> Result<(), Fail> {
    let alloc = rt.alloc();
    let mut names = renamed(alloc)?;
    assert!(rt; are_all(alloc, &names, b"/a! /b /b/x ")?);
    assert!(rt; names.list(alloc, None)?.len() == 2);
    assert!(rt; remove(&mut names, alloc, b"/b")? == Err(Refusal::NotEmpty));
    assert!(rt; remove(&mut names, alloc, b"/b/x")? == Ok(Some(Fid(2))));
    let same = loaded(alloc, &names)?.ok_or("no tree")?;
    assert!(rt; are_all(alloc, &same, b"/a! /b ")?);
    Ok(())
}

/// Prepares an operation, and carries it out.
fn carry(names: &mut Names, alloc: Global, call: &Call) -> Result<(), NameFault> {
    let prepared = names.prepare(alloc, call)?;
    names.apply(prepared);
    Ok(())
}

/// Makes a file, and moves it.
fn make_and_move(alloc: Global) -> Result<Names, NameFault> {
    let mut names = Names::new(alloc)?;
    carry(&mut names, alloc, &Call::Create(path(alloc, b"/a")?))?;
    let from = path(alloc, b"/a")?;
    carry(&mut names, alloc, &Call::Rename(from, path(alloc, b"/b")?))?;
    Ok(names)
}

#[test]
fn prepared_operations_are_carried_out(rt: HostRuntime) -> Result<(), Fail> {
    let alloc = rt.alloc();
    let mut names = make_and_move(alloc)?;
    assert!(rt; are_all(alloc, &names, b"/b ")?);
    carry(&mut names, alloc, &Call::Remove(path(alloc, b"/b")?))?;
    assert!(rt; names.count() == 0 && names.next() == 2);
    Ok(())
}
