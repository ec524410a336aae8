ghost use Rattle.zb_claims.specs.Reading.{Reads};
ghost use Rattle.zb_script.specs.Calls.{IsVerb, verb_text};

use std::str;

/// The first word of a call that has more words.
#[derive(Clone, Copy, Debug, PartialEq, Eq)]
pub enum Verb {
    Create,
    Mkdir,
    Remove,
    Rename,
    Write,
    Truncate,
    Read,
    List,
    Stat,
    Open,
}

/// The keyword that these bytes are.
pub fn read_verb(word: &[u8]) -> Option<Verb>
    ensures { Reads IsVerb verb_text word.now result }
{
    let Ok(text) = str::from_utf8(word) else {
        return None;
    };
    match text {
        "create" => Some(Verb::Create),
        "mkdir" => Some(Verb::Mkdir),
        "remove" => Some(Verb::Remove),
        "rename" => Some(Verb::Rename),
        "write" => Some(Verb::Write),
        "truncate" => Some(Verb::Truncate),
        "read" => Some(Verb::Read),
        "list" => Some(Verb::List),
        "stat" => Some(Verb::Stat),
        "open" => Some(Verb::Open),
        _ => None,
    }
}
