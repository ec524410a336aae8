/// The number of a log, from 1.
#[derive(Clone, Copy, Debug, PartialEq, Eq, PartialOrd, Ord, Hash)]
pub struct LogId(pub u32);

/// The number of a file, from 1.
#[derive(Clone, Copy, Debug, PartialEq, Eq, PartialOrd, Ord, Hash)]
pub struct Fid(pub u32);

/// The number of a server, from 1.
#[derive(Clone, Copy, Debug, PartialEq, Eq, PartialOrd, Ord, Hash)]
pub struct ServerId(pub u8);

/// The name of a fragment: stripe `stripe` of log `log` has the fragments 0 to N - 1 of N servers, the last of
/// which is the parity. Ordered by its fields.
#[derive(Clone, Copy, Debug, PartialEq, Eq, PartialOrd, Ord, Hash)]
pub struct FragId {
    pub log: LogId,
    pub stripe: u64,
    pub index: u8,
}

/// `len` bytes of a stripe's data, from byte `offset` on.
#[derive(Clone, Copy, Debug, PartialEq, Eq, Hash)]
pub struct Ptr {
    pub log: LogId,
    pub stripe: u64,
    pub offset: u32,
    pub len: u32,
}

/// A part of a batch within a stripe of the batch's log.
#[derive(Clone, Copy, Debug, PartialEq, Eq, Hash)]
pub struct Piece {
    pub stripe: u64,
    pub offset: u32,
    pub len: u32,
}
