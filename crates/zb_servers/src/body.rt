ghost use Rattle.std.specs.Prelude.{◌≡◌, ◌+◌, ◌^◌, ◌<◌, ◌++◌, IfOk, OnOk, OnErr, length, take, drop, replicate};
ghost use Rattle.zb_holding.specs.Rules.{stand_at};

use std::alloc::Global;
use std::marker::Model;
use zb_types::{ByteList, Mem};

/// The bytes of a fragment, fewer than 2^32.
#[derive(Drop)]
pub(crate) struct Body {
    bytes: Vec<u8>,
}

impl Model for Body {
    ghost use Rattle.std.specs.Prelude.{ℕ, List, ◌<◌, ◌^◌, length};

    ghost Value = { List ℕ };

    ghost view = { λ a. a.bytes.items };

    ghost invariant = { λ a. length a.bytes.items < 2 ^ 32 };
}

impl Body {
    pub(crate) fn new(alloc: Global, bytes: &[u8]) -> Mem<Body>
        requires { length bytes.now < 2 ^ 32 }
        ensures { IfOk result (λ body. body ≡ bytes.now) }
    {
        Ok(Body {
            bytes: Vec::from_slice(alloc, bytes)?,
        })
    }

    pub(crate) fn len(&self) -> u32
        ensures { result ≡ length self.now }
    {
        self.bytes.len() as u32
    }

    /// The bytes from a place on.
    fn rest(&self, place: u32) -> &[u8]
        ensures { result.now ≡ drop place self.now }
    {
        let (_, rest) = self
            .bytes
            .as_slice()
            .split_at((place as usize).min(self.bytes.len()));
        rest
    }

    /// At most `len` bytes from a place on.
    pub(crate) fn part(&self, alloc: Global, place: u32, len: u32) -> Mem<Vec<u8>>
        ensures { IfOk result (λ part. part.items ≡ take len (drop place self.now)) }
    {
        let rest = self.rest(place);
        let (front, _) = rest.split_at((len as usize).min(rest.len()));
        Ok(Vec::from_slice(alloc, front)?)
    }

    /// `len` bytes from a place on, zeros past the end.
    pub(crate) fn padded(&self, alloc: Global, place: u32, len: u32) -> Mem<ByteList>
        ensures { IfOk result (λ list. list ≡ take len (drop place self.now ++ replicate len 0)) }
    {
        let mut part = self.part(alloc, place, len)?;
        part.resize(len as usize, 0)?;
        Ok(ByteList::of(part))
    }

    /// Whether these bytes stand at a place already.
    pub(crate) fn stand_at(&self, place: u32, bytes: &[u8]) -> bool
        ensures { result ≡ stand_at self.now place bytes.now }
    {
        place <= self.len() && self.rest(place).starts_with(bytes)
    }

    /// Puts bytes to the end. Where memory runs out nothing has changed.
    pub(crate) fn extend(&mut self, bytes: &[u8]) -> Mem<()>
        requires { length self.old + length bytes.now < 2 ^ 32 }
        ensures ok { OnOk result (self.new ≡ self.old ++ bytes.now) }
        ensures err { OnErr result (self.new ≡ self.old) }
    {
        self.bytes.extend_from_slice(bytes)?;
        Ok(())
    }
}
