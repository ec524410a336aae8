ghost use Rattle.zb_claims.specs.Reading.{Reads};
ghost use Rattle.zb_script.specs.Lines.{IsHead, head_text};

use crate::nodes::numbered;
use std::str;

/// The first word of a line that has more words, without its plus.
#[derive(Clone, Copy, Debug, PartialEq, Eq)]
pub enum Head {
    Client(u8),
    Rebuild,
    Step,
    Crash,
    Arm,
    Up,
    Lose,
}

/// The first word that these bytes are.
pub fn read_head(word: &[u8]) -> Option<Head>
    ensures { Reads IsHead head_text word.now result }
{
    if let Some(i) = numbered(b'c', word) {
        return Some(Head::Client(i));
    }
    let Ok(text) = str::from_utf8(word) else {
        return None;
    };
    match text {
        "rebuild" => Some(Head::Rebuild),
        "step" => Some(Head::Step),
        "crash" => Some(Head::Crash),
        "arm" => Some(Head::Arm),
        "up" => Some(Head::Up),
        "lose" => Some(Head::Lose),
        _ => None,
    }
}
