ghost use Rattle.std.specs.Prelude.{◌≡◌, ◌≤◌, ◌+◌, ◌*◌, ◌<◌, ℕ, IfOk, length, slice_index};
ghost use Rattle.zb_slots.specs.Area.{IsArea, lengths_in};

use std::alloc::Global;
use zb_types::Mem;

// The lengths in four bytes each, and zeros behind them.
fn spelled_lengths(lengths: &[u32]) -> [u8; 64]
    requires { length lengths.now ≤ 16 }
    ensures lengths { lengths_in (length lengths.now) result ≡ lengths.now }
    ensures zeros { (i : ℕ) → 4 * length lengths.now ≤ i → slice_index result i ≡ 0 }
    ensures size { length result ≡ 64 }
{
    let mut head = [0; 64];
    for (i, number) in lengths.iter().enumerate() {
        let four = number.to_be_bytes();
        head[4 * i] = four[0];
        head[4 * i + 1] = four[1];
        head[4 * i + 2] = four[2];
        head[4 * i + 3] = four[3];
    }
    head
}

/// A parity's lengths, at most 16 numbers of four bytes with zeros up to byte 64, and its bytes behind them: what is
/// written of it at once.
pub fn parity_area(alloc: Global, lengths: &[u32], bytes: &[u8]) -> Mem<Vec<u8>>
    requires { length lengths.now ≤ 16 }
    ensures { IfOk result (λ area. IsArea lengths.now bytes.now area.items) }
{
    let head = spelled_lengths(lengths);
    let mut area = Vec::from_slice(alloc, &head)?;
    area.extend_from_slice(bytes)?;
    Ok(area)
}
