ghost use Rattle.std.specs.Prelude.{◌≡◌, ◌++◌, IfOk, OnOk, length};
ghost use Rattle.std.specs.Option.{option_map};
ghost use Rattle.zb_numbers.specs.Fronts.{ReadsFront};
ghost use Rattle.zb_batch.specs.Spelling.{path_text, paths_text, kind_of_name};
ghost use Rattle.zb_batch.specs.Reading.{IsPath, IsNameOf};

use std::alloc::Global;
use zb_numbers::{append, push_u16, split_u16};
use zb_types::{ByteList, Call, Mem, NoMemory, Path};

fn read_path(alloc: Global, bytes: &[u8]) -> Mem<Option<(Path, &[u8])>>
    ensures { IfOk result (λ found.
        ReadsFront IsPath path_text bytes.now (option_map (λ f. (f.0, f.1.now)) found)) }
{
    if bytes.len() < 2 {
        return Ok(None);
    }
    let (len, rest) = split_u16(bytes);
    let len = usize::from(len);
    if rest.len() < len {
        return Ok(None);
    }
    let (path, rest) = rest.split_at(len);
    let Some(path) = Path::parse(alloc, path)? else {
        return Ok(None);
    };
    Ok(Some((path, rest)))
}

fn read_rename(alloc: Global, bytes: &[u8]) -> Mem<Option<(Call, &[u8])>>
    ensures { IfOk result (λ found.
        ReadsFront (IsNameOf 4) paths_text bytes.now (option_map (λ f. (f.0, f.1.now)) found)) }
{
    let Some((from, rest)) = read_path(alloc, bytes)? else {
        return Ok(None);
    };
    let Some((to, rest)) = read_path(alloc, rest)? else {
        return Ok(None);
    };
    Ok(Some((Call::Rename(from, to), rest)))
}

/// The name operation of this kind.
pub(crate) fn read_name(alloc: Global, kind: u8, bytes: &[u8]) -> Mem<Option<(Call, &[u8])>>
    ensures { IfOk result (λ found.
        ReadsFront (IsNameOf kind) paths_text bytes.now (option_map (λ f. (f.0, f.1.now)) found)) }
{
    if kind == 4 {
        return read_rename(alloc, bytes);
    }
    let Some((path, rest)) = read_path(alloc, bytes)? else {
        return Ok(None);
    };
    match kind {
        1 => Ok(Some((Call::Create(path), rest))),
        2 => Ok(Some((Call::Mkdir(path), rest))),
        3 => Ok(Some((Call::Remove(path), rest))),
        _ => Ok(None),
    }
}

fn push_path(alloc: Global, to: &mut ByteList, path: &Path) -> Mem<()>
    ensures { OnOk result (to.new ≡ to.old ++ path_text path.now) }
{
    let path = path.slice();
    push_u16(alloc, to, path.len() as u16)?;
    append(alloc, to, path)
}

/// Writes the paths of a name operation.
pub(crate) fn push_paths(alloc: Global, to: &mut ByteList, what: &Call) -> Mem<()>
    ensures { OnOk result (to.new ≡ to.old ++ paths_text what.now) }
{
    match what {
        Call::Create(path) | Call::Mkdir(path) | Call::Remove(path) => push_path(alloc, to, path),
        Call::Rename(from, behind) => {
            push_path(alloc, to, from)?;
            push_path(alloc, to, behind)
        }
        _ => Ok(()),
    }
}

/// The kind of a name operation, or 0.
pub(crate) fn kind_of_name(what: &Call) -> u8
    ensures { result ≡ kind_of_name what.now }
{
    match what {
        Call::Create(_) => 1,
        Call::Mkdir(_) => 2,
        Call::Remove(_) => 3,
        Call::Rename(..) => 4,
        _ => 0,
    }
}
