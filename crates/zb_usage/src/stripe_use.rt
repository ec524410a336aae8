use zb_types::LogId;

/// A held stripe of a log: its committed end and how many of its bytes pointers name, both in bytes, and the number of
/// the first journal entry that names it.
#[derive(Clone, Copy, Debug, PartialEq, Eq)]
pub struct StripeUse {
    pub log: LogId,
    pub stripe: u64,
    pub bytes: u32,
    pub live: u32,
    pub born: u64,
}
