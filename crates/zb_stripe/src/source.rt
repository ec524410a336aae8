ghost use Rattle.std.specs.Prelude.{◌≡◌, ◌+◌, ◌-◌, ◌*◌, ◌≤◌};

use zb_types::{FragId, Geometry, Ptr};

/// A pointer that ends within its stripe.
#[derive(Clone, Copy)]
pub(crate) struct Source {
    pub(crate) geo: Geometry,
    pub(crate) ptr: Ptr,
    pub(crate) ghost room: { ptr.offset + ptr.len ≤ (geo.servers - 1) * geo.fragment },
}

impl Source {
    /// The fragment of the stripe with this index.
    pub(crate) fn fragment(&self, index: u8) -> FragId
        ensures log { result.log ≡ self.now.ptr.log }
        ensures stripe { result.stripe ≡ self.now.ptr.stripe }
        ensures index { result.index ≡ index }
    {
        FragId {
            log: self.ptr.log,
            stripe: self.ptr.stripe,
            index,
        }
    }

    /// The index of the parity.
    pub(crate) fn parity(&self) -> u8
        ensures { result ≡ self.now.geo.servers - 1 }
    {
        (self.geo.servers - 1) as u8
    }
}
