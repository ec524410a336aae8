/// Where a fragment stands: its slot, from 0; its turn, 0 to 2 of a parity and 0 of a share; its length in
/// bytes.
#[derive(Clone, Copy, Debug, PartialEq, Eq)]
pub struct Spot {
    pub slot: u32,
    pub turn: u8,
    pub len: u32,
}

/// Where a fragment stood that was renewed, and the slot that is taken for the next of its name.
#[derive(Clone, Copy, Debug, PartialEq, Eq)]
pub struct Renewed {
    pub former: Spot,
    pub slot: u32,
}
