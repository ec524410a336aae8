ghost use Rattle.std.specs.Prelude.{◌≡◌};
ghost use Rattle.zb_types.specs.Limits.{within};

/// The most bytes that a write or a read may have.
pub const MAX_PART: u32 = 4096;

/// The most steps that one line may ask for, and the latest write at which a platter may be armed.
pub const MAX_STEP: u32 = 1_000_000;

/// Whether a number is from `low` to `high`.
pub fn within(low: u64, high: u64, n: u64) -> bool
    ensures { result ≡ within low high n }
{
    low <= n && n <= high
}
