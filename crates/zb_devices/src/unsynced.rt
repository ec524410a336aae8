ghost use Rattle.std.specs.Prelude.{◌≤◌, ◌+◌, ◌^◌};

/// A range written since the last sync of a platter, and what stood in it before.
#[derive(Drop)]
pub struct Unsynced {
    pub place: usize,
    pub count: usize,
    // the bytes from there on that the range had, and how long the platter was
    pub from: usize,
    pub old: Vec<u8>,
    pub length: usize,
    ghost within: { place + count ≤ 2 ^ 63 },
}
