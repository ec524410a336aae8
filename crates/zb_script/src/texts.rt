ghost use Rattle.std.specs.Prelude.{◌≡◌, ◌≢◌, ◌<◌, ℕ, MatchOption, IfOk};
ghost use Rattle.std.specs.Option.{option_map};
ghost use Rattle.zb_claims.specs.Reading.{Reads};
ghost use Rattle.zb_claims.specs.Text.{hex_digit, quoted, AreBytes};
ghost use Rattle.zb_script.specs.Texts.{IsDigitOf, is_plain, IsFront, front_text, IsEscaped, escape_text, ended_text, IsText};

use crate::limits::{MAX_PART, within};
use std::alloc::Global;
use zb_types::{ByteList, Mem, NoMemory};

// The value of a digit in hexadecimal, whose letters are small.
fn hex_value(letter: u8) -> Option<u8>
    ensures { MatchOption result ((d : ℕ) → d < 16 → hex_digit d ≢ letter) (λ d. IsDigitOf letter d) }
{
    match letter {
        b'0'..=b'9' => Some(letter - b'0'),
        b'a'..=b'f' => Some(letter - b'a' + 10),
        _ => None,
    }
}

// Whether a byte stands for itself.
fn is_plain(b: u8) -> bool
    ensures { result ≡ is_plain b }
{
    b >= b' ' && b <= b'~' && b != b'"' && b != b'\\'
}

// The byte that is escaped, behind its backslash, and what follows.
fn escaped(text: &[u8]) -> Option<(u8, &[u8])>
    ensures { Reads IsEscaped escape_text text.now (option_map (λ front. (front.0, front.1.now)) result) }
{
    let [x, high, low, rest @ ..] = text else {
        return None;
    };
    if *x != b'x' {
        return None;
    }
    let b = hex_value(*high)? * 16 + hex_value(*low)?;
    if is_plain(b) { None } else { Some((b, rest)) }
}

// The byte whose spelling stands first, and what follows.
fn front(text: &[u8]) -> Option<(u8, &[u8])>
    ensures { Reads IsFront front_text text.now (option_map (λ front. (front.0, front.1.now)) result) }
{
    let [first, rest @ ..] = text else {
        return None;
    };
    if is_plain(*first) {
        return Some((*first, rest));
    }
    if *first != b'\\' {
        return None;
    }
    escaped(rest)
}

// The bytes up to the quote that ends the text.
fn ended(alloc: Global, text: &[u8]) -> Mem<Option<Vec<u8>>>
    ensures { IfOk result (λ found. Reads AreBytes ended_text text.now (option_map (λ bytes. bytes.items) found)) }
{
    let mut bytes = Vec::new(alloc);
    let mut rest = text;
    while let Some((b, others)) = front(rest) {
        bytes.push(b)?;
        rest = others;
    }
    if rest == b"\"".as_slice() {
        Ok(Some(bytes))
    } else {
        Ok(None)
    }
}

/// The 1 to 4,096 bytes that stand between quotes: each for itself where it is printable and no quote or backslash,
/// and else as `\x` with two digits.
pub fn text(alloc: Global, word: &[u8]) -> Mem<Option<ByteList>>
    ensures { IfOk result (λ found. Reads IsText quoted word.now found) }
{
    let [quote, inside @ ..] = word else {
        return Ok(None);
    };
    if *quote != b'"' {
        return Ok(None);
    }
    let Some(bytes) = ended(alloc, inside)? else {
        return Ok(None);
    };
    if within(1, u64::from(MAX_PART), bytes.len() as u64) {
        Ok(Some(ByteList::of(bytes)))
    } else {
        Ok(None)
    }
}
