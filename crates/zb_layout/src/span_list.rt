ghost use Rattle.std.specs.Prelude.{◌≡◌, ◌+◌, ◌-◌, ◌*◌, ◌≤◌, length, slice_get};
ghost use Rattle.zb_layout.specs.Ranges.{spans_of};

use std::marker::Model;
use zb_types::{Geometry, Ptr};

/// `len` bytes of share `index`, from its byte `place` on.
#[derive(Clone, Copy, Debug, PartialEq, Eq)]
pub struct Span {
    pub index: u8,
    pub place: u32,
    pub len: u32,
}

/// The ranges of a pointer, which contracts see as a list. It takes no memory: each range is worked out when it is
/// asked for.
#[derive(Drop)]
pub struct Spans {
    fragment: u32,
    offset: u32,
    len: u32,
}

impl Model for Spans {
    ghost use Rattle.std.specs.Prelude.{ℕ, ◌+◌, ◌*◌, ◌≤◌, List};
    ghost use Rattle.zb_layout.specs.declared.span_list.Span.{Span};
    ghost use Rattle.zb_layout.specs.Ranges.{spans_of};

    ghost Value = { List Span };

    ghost view = { λ a. spans_of a.fragment a.offset a.len };

    ghost invariant = { λ a. (256 ≤ a.fragment) × (a.fragment ≤ 65536) × (a.offset + a.len ≤ 15 * a.fragment) };
}

impl Spans {
    pub(crate) fn of(geo: &Geometry, ptr: &Ptr) -> Spans
        requires { ptr.now.offset + ptr.now.len ≤ (geo.now.servers - 1) * geo.now.fragment }
        ensures { result ≡ spans_of geo.now.fragment ptr.now.offset ptr.now.len }
    {
        Spans {
            fragment: geo.fragment,
            offset: ptr.offset,
            len: ptr.len,
        }
    }

    /// How many ranges there are: none for a pointer of no bytes.
    pub fn len(&self) -> usize
        ensures { result ≡ length self.now }
    {
        if self.len == 0 {
            return 0;
        }
        let first = self.offset % self.fragment;
        ((first + self.len - 1) / self.fragment) as usize + 1
    }

    /// Range `i`, from 0.
    pub fn get(&self, i: usize) -> Option<Span>
        ensures { result ≡ slice_get self.now i }
    {
        if i >= self.len() {
            return None;
        }
        let index = self.offset / self.fragment + i as u32;
        let base = index * self.fragment;
        let from = self.offset.max(base);
        let to = (self.offset + self.len).min(base + self.fragment);
        Some(Span {
            index: index as u8,
            place: from - base,
            len: to - from,
        })
    }
}
