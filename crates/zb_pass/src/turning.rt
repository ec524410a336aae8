ghost use Rattle.std.specs.Prelude.{◌≡◌, ℕ};
ghost use Rattle.zb_log.specs.Logs.{SeenLog};
ghost use Rattle.zb_pass.specs.Fitting.{Fits};
ghost use Rattle.zb_pass.specs.Going.{retires, two_gone, unmarked};
ghost use Rattle.zb_pass.specs.Turning.{committed, kind_of_work, looks, refused, retired};

use crate::copying::sweeps;
use crate::work::{Target, Work};
use zb_types::{Cause, Ended, Kind, MarkFault, Pass, ServerId, Status};

/// Two servers that don't serve, the one with the lesser number first.
fn two_gone(a: ServerId, b: ServerId) -> Pass
    ensures { result ≡ two_gone a b }
{
    if a.0 < b.0 {
        Pass::Failed(Cause::Unreachable { a, b })
    } else {
        Pass::Failed(Cause::Unreachable { a: b, b: a })
    }
}

/// A server isn't marked as out, since another doesn't serve either.
fn unmarked(server: ServerId, fault: MarkFault) -> Pass
    ensures { result ≡ unmarked server fault }
{
    match fault {
        MarkFault::Refused { other } => two_gone(server, other),
        MarkFault::Worn => Pass::Failed(Cause::Down),
    }
}

/// The stripe is retired or kept, and strays are swept.
fn retires(target: Target, copied: u64, rejected: u64, end: Ended, status: Status) -> Work
    ensures { result ≡ retires target copied rejected end status }
{
    let line = Pass::Done {
        log: target.log,
        stripe: target.stripe,
        copied,
        rejected,
        end,
    };
    sweeps(line, status)
}

impl Work {
    /// The kind of the work.
    pub fn kind(&self) -> Kind
        ensures { result ≡ kind_of_work self.now }
    {
        match self {
            Work::Lookup(_) => Kind::Lookup,
            Work::Fetch { .. } => Kind::Fetch,
            Work::Store { .. } => Kind::Store,
            Work::Mark { .. } => Kind::Mark,
            Work::Commit { .. } => Kind::Commit,
            Work::Retire { .. } => Kind::Retire,
            Work::Sweep { .. } => Kind::Sweep,
            Work::Delete { .. } => Kind::Delete,
        }
    }

    /// Looks the members up anew, behind a mark, or where they have changed before a commit. Other work stays.
    pub fn look(self) -> Work
        ensures looks { result ≡ looks self }

        // What is true of the work is true of it then.
        ensures fits { (n f b : ℕ) (log : SeenLog) → Fits n f b log self → Fits n f b log result }
    {
        match self {
            Work::Mark { cleaning, .. } => Work::Lookup(cleaning),
            Work::Commit {
                cleaning,
                sealed: _sealed,
            } => Work::Lookup(cleaning),
            other => other,
        }
    }

    /// The batch is committed: so many blocks were moved, and so many in vain. Other work stays.
    pub fn commit(self, copied: u64, rejected: u64) -> Work
        ensures committed { result ≡ committed copied rejected self }
        ensures fits { (n f b : ℕ) (log : SeenLog) → Fits n f b log self → Fits n f b log result }
    {
        match self {
            Work::Commit { cleaning, .. } => Work::Retire {
                target: cleaning.target,
                copied,
                rejected,
            },
            other => other,
        }
    }

    /// The stripe is retired or kept, and the strays by this status are swept. Other work stays.
    pub fn retire(self, end: Ended, status: Status) -> Work
        ensures retired { result ≡ retired end status self }
        ensures fits { (n f b : ℕ) (log : SeenLog) → Fits n f b log self → Fits n f b log result }
    {
        match self {
            Work::Retire {
                target,
                copied,
                rejected,
            } => retires(target, copied, rejected, end, status),
            other => other,
        }
    }

    /// The line of a pass whose server at hand isn't marked as out.
    pub fn refused(&self, fault: MarkFault) -> Pass
        ensures { result ≡ refused fault self.now }
    {
        match self {
            Work::Mark { server, .. } => unmarked(*server, fault),
            _ => Pass::Failed(Cause::Down),
        }
    }
}
