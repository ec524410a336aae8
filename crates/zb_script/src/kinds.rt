ghost use Rattle.zb_claims.specs.Reading.{Reads};
ghost use Rattle.zb_claims.specs.Text.{kind_text};
ghost use Rattle.zb_script.specs.Nodes.{IsKind};

use std::str;
use zb_types::Kind;

/// The kind of step that these bytes name.
pub fn read_kind(word: &[u8]) -> Option<Kind>
    ensures { Reads IsKind kind_text word.now result }
{
    let Ok(text) = str::from_utf8(word) else {
        return None;
    };
    match text {
        "idle" => Some(Kind::Idle),
        "call" => Some(Kind::Call),
        "lookup" => Some(Kind::Lookup),
        "fetch" => Some(Kind::Fetch),
        "store" => Some(Kind::Store),
        "mark" => Some(Kind::Mark),
        "commit" => Some(Kind::Commit),
        "pick" => Some(Kind::Pick),
        "retire" => Some(Kind::Retire),
        "sweep" => Some(Kind::Sweep),
        "delete" => Some(Kind::Delete),
        "begin" => Some(Kind::Begin),
        "fence" => Some(Kind::Fence),
        "wipe" => Some(Kind::Wipe),
        "finish" => Some(Kind::Finish),
        _ => None,
    }
}
