ghost use Rattle.std.specs.Prelude.{◌≡◌};
ghost use Rattle.std.specs.Option.{option_map};
ghost use Rattle.std.specs.Fmt.{decimal};
ghost use Rattle.zb_claims.specs.Reading.{Reads};
ghost use Rattle.zb_script.specs.Numbers.{IsNumber, IsUpTo, begins_plainly, IsField, field_text};

use crate::limits::within;
use crate::spaces::split;
use std::str;

// Whether a digit stands first, and not a zero with more behind it.
fn begins_plainly(word: &[u8]) -> bool
    ensures { result ≡ begins_plainly word.now }
{
    match word {
        [] => false,
        [digit] => *digit >= b'0' && *digit <= b'9',
        [digit, ..] => *digit >= b'1' && *digit <= b'9',
    }
}

/// The number that these bytes spell in decimal, with no sign and no leading zero.
pub fn number(word: &[u8]) -> Option<u32>
    ensures { Reads IsNumber decimal word.now result }
{
    if !begins_plainly(word) {
        return None;
    }
    let Ok(text) = str::from_utf8(word) else {
        return None;
    };
    text.parse().ok()
}

/// The number from 1 to `high` that these bytes spell.
pub fn up_to(high: u32, word: &[u8]) -> Option<u32>
    ensures { Reads (IsUpTo high) decimal word.now result }
{
    let n = number(word)?;
    if within(1, u64::from(high), u64::from(n)) {
        Some(n)
    } else {
        None
    }
}

/// The number before the first space, and what stands behind that space.
pub fn field(bytes: &[u8]) -> Option<(u32, &[u8])>
    ensures { Reads IsField field_text bytes.now (option_map (λ field. (field.0, field.1.now)) result) }
{
    let (word, rest) = split(bytes)?;
    Some((number(word)?, rest))
}
