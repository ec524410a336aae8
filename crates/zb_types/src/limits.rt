/// The most bytes that a file may have.
pub const MAX_FILE: usize = 67_108_864;

/// The most calls that a client keeps: the write or truncation that would be the last of so many is carried out with
/// those before it, in place of being kept.
pub const MOST_KEPT: usize = 8;
