ghost use Rattle.zb_ledger.specs.Keeps.{CountsRead, KeepsCall, KeepsFinish, KeepsFirst, KeepsLegal, KeepsLine, KeepsLines, KeepsLook, KeepsOther, KeepsRead, TakesBack};

/// A new ledger keeps the history of nothing. It goes on where a call, a job or an event is given, and where a finish
/// begins. A call that is taken back, as it is where memory ran out, leaves the ledger as it was.
pub fn ledger_keeps_what_is_given()
    ensures first { KeepsFirst }
    ensures call { KeepsCall }
    ensures other { KeepsOther }
    ensures finish { KeepsFinish }
    ensures back { TakesBack }
{}

/// So it does where a client's read is looked up, which then has the updates of now counted.
pub fn ledger_keeps_lookups()
    ensures look { KeepsLook }
    ensures read { KeepsRead }
    ensures counts { CountsRead }
{}

/// And where lines of a client are told that fit, one or several, with a read answered from the tree at its lookup.
pub fn ledger_keeps_lines()
    ensures line { KeepsLine }
    ensures lines { KeepsLines }
{}

/// The history that a ledger keeps is legal.
pub fn ledger_history_is_legal()
    ensures { KeepsLegal }
{}
