ghost use Rattle.std.specs.Prelude.{◌≡◌, ◌+◌, ◌≤◌, ◌++◌, ◌↔◌, length, IsTrue};
ghost use Rattle.zb_numbers.specs.Numbers.{number_text, zeros};

use byteorder::{BigEndian, ByteOrder};

/// The number in the first two bytes, and what stands behind them.
pub fn split_u16(bytes: &[u8]) -> (u16, &[u8])
    requires { 2 ≤ length bytes.now }
    ensures whole { number_text 2 result.0 ++ result.1.now ≡ bytes.now }
    ensures length { length result.1.now + 2 ≡ length bytes.now }
{
    let (front, rest) = bytes.split_at(2);
    (BigEndian::read_u16(front), rest)
}

/// The number in the first four bytes, and what stands behind them.
pub fn split_u32(bytes: &[u8]) -> (u32, &[u8])
    requires { 4 ≤ length bytes.now }
    ensures whole { number_text 4 result.0 ++ result.1.now ≡ bytes.now }
    ensures length { length result.1.now + 4 ≡ length bytes.now }
{
    let (front, rest) = bytes.split_at(4);
    (BigEndian::read_u32(front), rest)
}

/// The number in the first eight bytes, and what stands behind them.
pub fn split_u64(bytes: &[u8]) -> (u64, &[u8])
    requires { 8 ≤ length bytes.now }
    ensures whole { number_text 8 result.0 ++ result.1.now ≡ bytes.now }
    ensures length { length result.1.now + 8 ≡ length bytes.now }
{
    let (front, rest) = bytes.split_at(8);
    (BigEndian::read_u64(front), rest)
}

/// Whether each byte is zero.
pub fn are_zeros(bytes: &[u8]) -> bool
    ensures { IsTrue result ↔ (bytes.now ≡ zeros (length bytes.now)) }
{
    bytes.iter().all(|byte| *byte == 0)
}
