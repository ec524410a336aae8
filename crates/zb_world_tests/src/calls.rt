ghost use Rattle.std.specs.Prelude.{◌≡◌, IfOk, IsTrue};
ghost use Rattle.zb_types.specs.Limits.{within};
ghost use Rattle.zb_forming_laws.specs.Resting.{IsShort};

use std::alloc::Global;
use zb_types::{ByteList, Call, Fid, Mem, NoMemory, Path};

/// One of the two clients.
#[derive(Clone, Copy)]
pub enum Who {
    One,
    Two,
}

impl Who {
    /// The client's number.
    pub fn number(self) -> u8
        ensures { IsTrue (within 1 2 result) }
    {
        match self {
            Who::One => 1,
            Who::Two => 2,
        }
    }
}

/// A call of file 1, which has the name `/a`.
#[derive(Clone, Copy)]
pub enum Do {
    Create,
    /// Four of this byte at this offset.
    Write(u32, u8),
    Sync,
    /// The first eight bytes.
    Read,
    /// The names in the root.
    List,
}

fn path(alloc: Global) -> Mem<Path> {
    match Path::parse(alloc, b"/a")? {
        Some(path) => Ok(path),
        None => Err(NoMemory),
    }
}

fn write(alloc: Global, offset: u32, byte: u8) -> Mem<Call>
    ensures { IfOk result (λ call. IsShort call) }
{
    Ok(Call::Write {
        fid: Fid(1),
        offset,
        bytes: ByteList::from_slice(alloc, &[byte, byte, byte, byte])?,
    })
}

/// The call as a client is given it.
pub fn call_of(alloc: Global, what: Do) -> Mem<Call>
    ensures { IfOk result (λ call. IsShort call) }
{
    match what {
        Do::Create => Ok(Call::Create(path(alloc)?)),
        Do::Write(offset, byte) => write(alloc, offset, byte),
        Do::Sync => Ok(Call::Sync),
        Do::Read => Ok(Call::Read {
            fid: Fid(1),
            offset: 0,
            len: 8,
        }),
        Do::List => Ok(Call::List(None)),
    }
}
