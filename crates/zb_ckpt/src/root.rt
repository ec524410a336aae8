use zb_types::Geometry;

/// Which slot has the checkpoint, of which system and how long it is, and the number of the first entry behind it.
#[derive(Clone, Copy, PartialEq, Eq)]
pub struct Root {
    /// 0 or 1.
    pub slot: u8,
    pub geo: Geometry,
    /// In bytes, at most 2^40.
    pub length: u64,
    /// From 1 to 2^48.
    pub first: u64,
}
