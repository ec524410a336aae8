ghost use Rattle.std.specs.Prelude.{MatchOption, IsTrue};
ghost use Rattle.std.specs.Option.{option_map};
ghost use Rattle.zb_claims.specs.Reading.{Reads};
ghost use Rattle.zb_script.specs.Spaces.{is_word, Splits, IsRest, behind_text};

/// The bytes before the first space, and those behind it. None exactly where there is no space.
pub fn split(bytes: &[u8]) -> Option<(&[u8], &[u8])>
    ensures { MatchOption result (IsTrue (is_word bytes.now)) (λ parts. Splits bytes.now parts.0.now parts.1.now) }
{
    for (i, b) in bytes.iter().enumerate() {
        if *b == b' ' {
            return Some((&bytes[..i], &bytes[i + 1..]));
        }
    }
    None
}

/// What stands behind `front`, where that stands first.
pub fn behind<'a>(front: &[u8], bytes: &'a [u8]) -> Option<&'a [u8]>
    ensures { Reads IsRest (behind_text front.now) bytes.now (option_map (λ rest. rest.now) result) }
{
    bytes.strip_prefix(front)
}
