ghost use Rattle.std.specs.Prelude.{◌≡◌, ◌≤◌, ◌++◌, length, drop, take, OnOk, OnErr, IfOk, IfErr, IsErr, Err, ◌==◌, ◌||◌};
ghost use Rattle.zebra.specs.Pending.{none_pending, wants_more};

use crate::ending::Halted;
use std::alloc::Global;
use std::marker::Model;
use zb_script::{MAX_LINE, line_end};
use zb_types::{Failed, Mem, NoMemory};

/// How many bytes are taken at once.
pub const PIECE: usize = 4_096;

/// The bytes of the script that were taken and not yet used.
#[derive(Drop)]
pub struct Source {
    bytes: Vec<u8>,
    start: usize,
    ended: bool,
}

impl Model for Source {
    ghost use Rattle.std.specs.Prelude.{◌≤◌, drop, length};
    ghost use Rattle.zebra.specs.Pending.{Pending};

    ghost Value = { Pending };

    ghost view = { λ a. record { rest = drop a.start a.bytes.items; ended = a.ended } };

    ghost invariant = { λ a. a.start ≤ length a.bytes.items };
}

impl Source {
    pub fn new(alloc: Global) -> Source
        ensures { result ≡ none_pending }
    {
        Source {
            bytes: Vec::new(alloc),
            start: 0,
            ended: false,
        }
    }

    /// The bytes that were taken and not yet used.
    pub fn rest(&self) -> &[u8]
        ensures { result.now ≡ self.now.rest }
    {
        let (_, rest) = self.bytes.split_at(self.start);
        rest
    }

    /// Whether the line at hand has no end yet, and more bytes of it may come.
    pub fn wants_more(&self) -> bool
        ensures { result ≡ wants_more self.now }
    {
        !self.ended && self.rest().len() <= MAX_LINE && line_end(self.rest()).is_none()
    }

    /// The first `len` bytes are used now.
    pub fn skip(&mut self, len: usize)
        requires { len ≤ length self.old.rest }
        ensures { self.new ≡ record self.old { rest = drop len self.old.rest } }
    {
        self.start += len;
    }

    // Adds bytes behind those that are there.
    fn add(&mut self, alloc: Global, more: &[u8]) -> Mem<()>
        ensures ok { OnOk result (self.new ≡ record self.old { rest = self.old.rest ++ more.now }) }
        ensures err { OnErr result (self.new ≡ self.old) }
    {
        let mut bytes = Vec::new(alloc);
        bytes.extend_from_slice(self.rest())?;
        bytes.extend_from_slice(more)?;
        self.bytes = bytes;
        self.start = 0;
        Ok(())
    }

    /// Adds what was taken into the front of `buf`; 0 bytes are the end of the script.
    pub fn accept(
        &mut self,
        alloc: Global,
        taken: Result<usize, Failed>,
        buf: &[u8],
    ) -> Result<(), Halted>
        requires bound { IfOk taken (λ n. n ≤ length buf.now) }
        ensures ok { OnOk result (IfOk taken (λ n. self.new ≡ record self.old { rest = self.old.rest ++ take n buf.now; ended = self.old.ended || n == 0 })) }
        ensures fault { IsErr taken → result ≡ Err Halted.ReadFault }
        ensures memory { OnOk taken (IfErr result (λ e. e ≡ Halted.Memory)) }
    {
        let Ok(n) = taken else {
            return Err(Halted::ReadFault);
        };
        self.add(alloc, &buf[..n])?;
        self.ended = self.ended || n == 0;
        Ok(())
    }
}
