ghost use Rattle.std.specs.Prelude.{◌≡◌};
ghost use Rattle.zb_tables.specs.Tables.{risen as next_value};

/// The last value of a number that rises, and the last stripe.
pub(crate) const LAST_VALUE: u64 = 281_474_976_710_656;

/// The next value of a number that rises; at its last value it stands still.
pub(crate) fn risen(number: u64) -> u64
    ensures { result ≡ next_value number }
{
    if number < LAST_VALUE {
        number + 1
    } else {
        number
    }
}
