ghost use Rattle.std.specs.Prelude.{◌≡◌, ◌≢◌, ◌≤◌, ◌<◌, ◌^◌, ◌+◌, ◌↔◌, true, IsTrue, IsSomeAnd, [], IfOk, IfSome, IfErr, IsErrOf, OnOk, OnErr, option_map, Some, None};
ghost use Rattle.zb_types.specs.Names.{last_number};
ghost use Rattle.zb_types.specs.declared.tables.CommitFault.TheVariants.{NoMemory as OutOfMemory};
ghost use Rattle.zb_types.specs.Keyed.{look};
ghost use Rattle.zb_batch.specs.Batches.{IsBatch};
ghost use Rattle.zb_tables.specs.Tables.{first_tables};
ghost use Rattle.zb_tables.specs.Fold.{after_retire, attached, shelf_of, with_members};
ghost use Rattle.zb_tables.specs.Taking.{IsAnswer, MayCommit, below_mark as first_below, commit_refusal, regen_of, stripe_room};
ghost use Rattle.zb_tables.specs.Finding.{found, live, status, use_of};
ghost use Rattle.std.specs.List.{AllByRecursion};
ghost use Rattle.zb_tables.specs.Tables.{Tables};
ghost use Rattle.zb_tables.specs.Checkpoint.{CountsFit};
ghost use Rattle.zb_spelling.specs.Spelling.{spelling_of_tables};
ghost use Rattle.zb_spelling.specs.Unspelling.{IsCheckpoint, Unspells};
ghost use Rattle.zb_manager.specs.Drafts.{IsFileOp};
ghost use Rattle.zb_manager.specs.Works.{MayWork, RoomForWork};
ghost use Rattle.zb_manager.specs.Plans.{IsMovePlan, IsWork, Plans, worn_field};
ghost use Rattle.zb_manager.specs.Managers.{IsFreeFor, SameBesides, SameTables, sizes_of, tables_in};
ghost use Rattle.zb_manager.specs.Seen.{IsPrepared, IsReady, held_by, last_in, pointers_of, prepared_tables, with_work};

use crate::cleaning::plan_moves;
use crate::drafts::{StaleOp, plan_files};
use crate::fitting::{all_point_within, are_pieces, is_count};
use crate::planning::{Plan, plan_name};
use crate::prepared::Prepared;
use crate::reserving::room_for_work;
use crate::values::{LAST_VALUE, risen};
use crate::work::{Step, StepList, Work};
use crate::working::{run_moves, run_steps};
use std::alloc::Global;
use std::collections::BTreeMap;
use std::marker::Model;
use zb_batch::{Batch, Op};
use zb_conflict::{Decision, decide};
use zb_delta::{Body, Delta, DeltaList};
use zb_log_tables::{HeldTable, LogTable};
use zb_names::Names;
use zb_pointers::{FileHead, Pointers};
use zb_spelling::{Numbers, read, write};
use zb_types::{
    ByteList, CommitFault, Fid, Found, Geometry, HeldList, HeldUse, LogId, LogUse, LogUseList, Mem,
    Members, NoMemory, Piece, PieceList, Ptr, Reply, State, Status,
};

/// What a lookup tells of a file that isn't there.
const NO_FILE: FileHead = FileHead {
    version: 0,
    length: 0,
};

/// Another client holds.
#[derive(Clone, Copy, Debug, PartialEq, Eq)]
pub struct Blocked {
    pub holder: u8,
}

/// The file manager in memory: names, the files' blocks, logs, held stripes and members. Contracts see the tables, and
/// the room that was made beforehand.
#[derive(Drop)]
pub struct Manager {
    alloc: Global,
    sizes: Geometry,
    names: Names,
    pointers: Pointers,
    logs: LogTable,
    held: HeldTable,
    members: Members,
    next_log: u32,
    next_entry: u64,
    holder: Option<u8>,
}

impl Model for Manager {
    ghost use Rattle.zb_manager.specs.Managers.{SeenManager, IsManager, seen_manager};

    ghost Value = { SeenManager };

    ghost view = { λ a. seen_manager a.sizes a.names a.pointers a.logs a.held a.members a.next_log a.next_entry a.holder };

    ghost invariant = { λ a. IsManager a.sizes a.pointers a.logs a.next_log a.next_entry };
}

// The first piece in a stripe below the mark.
fn below_mark(mark: u64, pieces: &[Piece]) -> Option<CommitFault>
    ensures { result ≡ first_below mark pieces.now }
{
    let mut rest = pieces;
    while let Some((piece, others)) = rest.split_first() {
        if piece.stripe < mark {
            return Some(CommitFault::Regen {
                seen: piece.stripe,
                now: mark,
            });
        }
        rest = others;
    }
    None
}

impl Manager {
    /// The empty tables. All servers take part, in generation 1.
    pub fn new(alloc: Global, geo: &Geometry) -> Mem<Manager>
        ensures tables { IfOk result (λ manager. manager.tables ≡ first_tables) }
        ensures sizes { IfOk result (λ manager. manager.sizes ≡ sizes_of geo.now) }
        ensures holder { IfOk result (λ manager. manager.holder ≡ None) }
    {
        Ok(Manager {
            alloc,
            sizes: *geo,
            names: Names::new(alloc)?,
            pointers: Pointers::new(alloc, geo)?,
            logs: LogTable::new(alloc),
            held: HeldTable::new(alloc),
            members: Members {
                state: State::Whole,
                generation: 1,
            },
            next_log: 1,
            next_entry: 1,
            holder: None,
        })
    }

    // A commit is refused where members have changed since its batch was flushed.
    fn regen(&self, log: LogId, pieces: &[Piece], generation: u64) -> Option<CommitFault>
        ensures { result ≡ regen_of self.now.tables log pieces.now generation }
    {
        let now = self.members.generation;
        if generation != now {
            return Some(CommitFault::Regen {
                seen: generation,
                now,
            });
        }
        let mark = match self.logs.find(log) {
            Some(log) => log.mark,
            None => 0,
        };
        below_mark(mark, pieces)
    }

    // The number that an entry of this batch would raise past its last value.
    fn worn(&self, number: u64, version: bool) -> Option<u8>
        ensures { result ≡ worn_field self.now.tables.next_entry number version }
    {
        if self.next_entry >= LAST_VALUE {
            return Some(2);
        }
        if number > LAST_VALUE {
            return Some(3);
        }
        if version {
            return Some(4);
        }
        None
    }

    fn plan(&self, alloc: Global, ops: &[Op]) -> Mem<Result<Plan, StaleOp>>
        requires { IsWork ops.now }
        ensures { IfOk result (Plans self.now.sizes.block (shelf_of self.now.tables) ops.now) }
    {
        let Some((first, _)) = ops.split_first() else {
            return plan_files(alloc, &self.pointers, ops);
        };
        match first {
            Op::Name { what, .. } => Ok(Ok(plan_name(alloc, &self.names, what)?)),
            Op::Clean { deltas } => Ok(Ok(plan_moves(alloc, &self.pointers, deltas)?)),
            Op::Write { .. } | Op::Cut { .. } | Op::Sync { .. } => plan_files(
                alloc,
                &self.pointers,
                ops,
            ),
        }
    }

    // Whether the batch comes from a log that lives, with the number after its last.
    fn is_next(&self, batch: &Batch) -> bool
        requires { 1 ≤ batch.now.number }
        ensures { IsTrue result ↔ IsSomeAnd (look batch.now.log.0 self.now.tables.logs) (λ l. (l.live ≡ true) × (batch.now.number ≡ l.batch + 1)) }
    {
        match self.logs.find(batch.log) {
            Some(log) => log.live && log.batch == batch.number - 1,
            None => false,
        }
    }

    /// Whether `prepare` may be asked: the batch, which has to be one that can be read back, comes from a log that lives,
    /// with the number after its last; its new pointers and the pieces lie within stripes; and there are 1 to 4,093 pieces.
    pub fn may_commit(&self, batch: &Batch, pieces: &[Piece]) -> bool
        requires { IsBatch batch.now }
        ensures { IsTrue result ↔ MayCommit self.now.sizes self.now.tables batch.now pieces.now }
    {
        let sizes = &self.sizes;
        if !self.is_next(batch) {
            return false;
        }
        if !all_point_within(sizes, batch.ops.slice()) {
            return false;
        }
        if !is_count(pieces) {
            return false;
        }
        are_pieces(sizes, pieces)
    }

    fn make_room(&mut self, alloc: Global, work: &Work, pieces: usize) -> Mem<()>
        ensures same { SameTables self.old self.new }
        ensures work { OnOk result (RoomForWork (pointers_of self.new) work.now) }
        ensures held { OnOk result (pieces ≤ self.new.held_room) }
        ensures small { stripe_room self.old.sizes < 2 ^ 32 }
    {
        room_for_work(alloc, &mut self.pointers, work)?;
        self.held.reserve(pieces)
    }

    /// Looks at what a batch comes to, and makes room for it. The tables stay as they are. Its batch has to be one that can
    /// be spelled, with the number after the log's last, and its pointers and pieces have to lie within stripes.
    ///
    /// Answers `Regen` where the generation isn't that of the members, with both, or where a piece's stripe is below the
    /// log's mark, with both; then `Stale` for the first operation whose file has another version; then `Worn` where a number
    /// stands at its last value: 2 of the journal's entries, 3 of batches, 4 of a version. `NoMemory` may come in the place of
    /// any but `Regen`; the tables are as before then, and room that was made may stay. What was prepared may be applied
    /// while nothing but `hold`, `release` and calls that only look come between.
    pub fn prepare(
        &mut self,
        alloc: Global,
        batch: &Batch,
        pieces: &[Piece],
        generation: u64,
    ) -> Result<Prepared, CommitFault>
        requires { MayCommit self.old.sizes self.old.tables batch.now pieces.now }
        ensures refused { IsAnswer (commit_refusal self.old.sizes.block self.old.tables batch.now pieces.now generation) result }
        ensures members { IsErrOf result OutOfMemory → regen_of self.old.tables batch.now.log pieces.now generation ≡ None }
        ensures prepared { IfOk result (IsPrepared self.old.sizes.block self.old.tables batch.now pieces.now) }
        ensures ready { IfOk result (IsReady self.new) }
        ensures same { SameTables self.old self.new }
    {
        if let Some(fault) = self.regen(batch.log, pieces, generation) {
            return Err(fault);
        }
        let plan = match self.plan(alloc, batch.ops.slice()) {
            Err(_) => return Err(CommitFault::NoMemory),
            Ok(Err(stale)) => {
                return Err(CommitFault::Stale {
                    fid: stale.fid,
                    seen: stale.seen,
                    now: stale.now,
                });
            }
            Ok(Ok(plan)) => plan,
        };
        if let Some(field) = self.worn(batch.number, plan.worn) {
            return Err(CommitFault::Worn { field });
        }
        if self.make_room(alloc, &plan.work, pieces.len()).is_err() {
            return Err(CommitFault::NoMemory);
        }
        let Ok(pieces) = Vec::from_slice(alloc, pieces) else {
            return Err(CommitFault::NoMemory);
        };
        Ok(Prepared {
            replies: plan.replies,
            copied: plan.copied,
            rejected: plan.rejected,
            log: batch.log,
            number: batch.number,
            pieces: PieceList::of(pieces),
            work: plan.work,
        })
    }

    // Does the work on names and files.
    fn run(&mut self, work: Work)
        requires names { MayWork work self.old.tables.names }
        requires room { RoomForWork (pointers_of self.old) work }
        ensures tables { self.new.tables ≡ with_work self.old.sizes.block self.old.tables work }
        ensures same { SameBesides self.old self.new }
    {
        match work {
            Work::Nothing => {}
            Work::Add { change, fid } => {
                self.names.apply(change);
                let _ = self.pointers.add(self.alloc, fid);
            }
            Work::Remove { change, fid } => {
                self.names.apply(change);
                self.pointers.drop_file(fid);
            }
            Work::Rename { change } => self.names.apply(change),
            Work::Files(steps) => run_steps(self.alloc, &mut self.pointers, steps.slice()),
            Work::Move(deltas) => run_moves(self.alloc, &mut self.pointers, deltas.slice()),
        }
    }

    /// Commits what was prepared at these tables, without memory.
    pub fn apply(&mut self, prepared: Prepared)
        requires { IsReady self.old prepared }
        ensures tables { self.new.tables ≡ prepared_tables self.old.sizes.block self.old.tables prepared }
        ensures sizes { self.new.sizes ≡ self.old.sizes }
        ensures holder { self.new.holder ≡ self.old.holder }
    {
        let Prepared {
            log,
            number,
            pieces,
            work,
            replies,
            ..
        } = prepared;
        let born = self.next_entry;
        self.run(work);
        self.held.raise_all(log, born, pieces.slice());
        self.logs.commit(log, number, pieces.slice(), replies);
        self.next_entry = risen(born);
    }

    /// Makes room for one more log.
    pub fn room(&mut self, _alloc: Global) -> Mem<()>
        ensures same { SameTables self.old self.new }
        ensures ok { OnOk result (1 ≤ self.new.log_room) }
    {
        self.logs.reserve()
    }

    /// Gives an owner, 0 for the cleaner and else a client, a new log, without memory. Its former log ends. It needs room for
    /// a log (`room`) and a next number below 4,294,967,295. The number of the next entry rises too; at 2^48 it stands still,
    /// which `prepare` refuses.
    pub fn attach(&mut self, owner: u8) -> LogId
        requires room { 1 ≤ self.old.log_room }
        requires next { self.old.tables.next_log < last_number }
        ensures log { result.0 ≡ self.old.tables.next_log }
        ensures tables { self.new.tables ≡ attached self.old.tables owner result }
        ensures sizes { self.new.sizes ≡ self.old.sizes }
        ensures holder { self.new.holder ≡ self.old.holder }
    {
        let log = LogId(self.next_log);
        self.logs.end_of(owner);
        self.logs.keep(&self.held);
        self.logs.add(self.alloc, log, owner);
        self.next_log += 1;
        self.next_entry = risen(self.next_entry);
        log
    }

    /// Sets the members, without memory. While a server is out or mending, logs commit behind their last stripes alone.
    pub fn set_members(&mut self, members: Members)
        ensures tables { self.new.tables ≡ with_members self.old.tables members }
        ensures sizes { self.new.sizes ≡ self.old.sizes }
        ensures holder { self.new.holder ≡ self.old.holder }
    {
        match members.state {
            State::Whole => {}
            State::Out(_) | State::Mending(_) => self.logs.mark(),
        }
        self.members = members;
        self.next_entry = risen(self.next_entry);
    }

    /// A stripe isn't held any longer. Takes no memory.
    pub fn drop_stripe(&mut self, log: LogId, stripe: u64)
        ensures tables { self.new.tables ≡ after_retire self.old.tables log stripe }
        ensures sizes { self.new.sizes ≡ self.old.sizes }
        ensures holder { self.new.holder ≡ self.old.holder }
    {
        self.held.retire(log, stripe);
        self.logs.keep(&self.held);
        self.next_entry = risen(self.next_entry);
    }

    /// Has a client hold the file manager. Refused exactly where another holds.
    pub fn hold(&mut self, client: u8) -> Result<(), Blocked>
        ensures ok { OnOk result (self.new ≡ held_by (Some client) self.old) }
        ensures free { OnOk result (IsFreeFor client self.old.holder) }
        ensures blocked { IfErr result (λ blocked. (self.old.holder ≡ Some blocked.holder) × (blocked.holder ≢ client)) }
        ensures err { OnErr result (self.new ≡ self.old) }
    {
        if let Some(holder) = self.holder {
            if holder != client {
                return Err(Blocked { holder });
            }
        }
        self.holder = Some(client);
        Ok(())
    }

    /// The client that holds.
    pub fn holder(&self) -> Option<u8>
        ensures { result ≡ self.now.holder }
    {
        self.holder
    }

    /// Nobody holds.
    pub fn release(&mut self)
        ensures { self.new ≡ held_by None self.old }
    {
        self.holder = None;
    }

    /// The number that the next log gets, from 1. At 4,294,967,295 no log is attached any more.
    pub fn next_log(&self) -> u32
        ensures { result ≡ self.now.tables.next_log }
    {
        self.next_log
    }

    /// The number that the journal's next entry gets, from 1. At 2^48 it stands still, and no batch is prepared any more.
    pub fn next_entry(&self) -> u64
        ensures { result ≡ self.now.tables.next_entry }
    {
        self.next_entry
    }

    /// The servers that take part, with their generation.
    pub fn members(&self) -> Members
        ensures { result ≡ self.now.tables.members }
    {
        self.members
    }

    /// A log, as a status tells it. None where it neither lives nor has a held stripe.
    pub fn log(&self, log: LogId) -> Option<LogUse>
        ensures { result ≡ option_map (λ l. use_of (log.0, l)) (look log.0 self.now.tables.logs) }
    {
        let found = self.logs.find(log)?;
        Some(LogUse {
            log,
            live: found.live,
            last: found.last,
            batch: found.batch,
        })
    }

    /// The names.
    pub fn names(&self) -> &Names
        ensures { result.now ≡ self.now.tables.names }
    {
        &self.names
    }

    /// The last batch of a log, 0 for none, with its replies. None where the log neither lives nor has a held stripe.
    pub fn last(&self, log: LogId) -> Option<(u64, &[Reply])>
        ensures { option_map (λ l. (l.0, l.1.now)) result ≡ last_in (look log.0 self.now.tables.logs) }
    {
        let found = self.logs.find(log)?;
        Some((found.batch, found.replies.slice()))
    }

    /// A file's version, length and blocks with `count` numbers from `first` on, and the members.
    pub fn lookup(&self, alloc: Global, fid: Fid, first: u32, count: u32) -> Mem<Found>
        ensures { IfOk result (λ f. f ≡ found self.now.tables fid.0 first count) }
    {
        let head = self.pointers.find(fid).unwrap_or(NO_FILE);
        Ok(Found {
            version: head.version,
            length: head.length,
            blocks: self.pointers.among(alloc, fid, first, count)?,
            members: self.members,
        })
    }

    /// The pointers into a stripe, by file and block, each with its file's version and no old pointer. It goes through all
    /// blocks.
    pub fn live(&self, alloc: Global, log: LogId, stripe: u64) -> Mem<Vec<Body>>
        ensures { IfOk result (λ found. found.items ≡ live self.now.tables log stripe) }
    {
        self.pointers.live(alloc, log, stripe)
    }

    /// The logs and held stripes, the members and the next log's number. It goes through all logs and held stripes.
    pub fn status(&self, alloc: Global) -> Mem<Status>
        ensures { IfOk result (λ s. s ≡ status self.now.tables) }
    {
        Ok(Status {
            next: self.next_log,
            members: self.members,
            logs: self.logs.uses(alloc)?,
            held: HeldList::from_slice(alloc, self.held.slice())?,
        })
    }

    /// The bytes of the tables in a checkpoint, in as many steps as there are bytes, but for logarithms. `NoMemory` also
    /// where a list of the tables, or the blocks of a file or the replies of a log, has 2^32 items or more: its count has
    /// four bytes, and its text would have more than 2^34.
    pub fn spell(&self, alloc: Global) -> Mem<ByteList>
        ensures text { IfOk result (λ text. text ≡ spelling_of_tables self.now.tables) }

        // Tables that a checkpoint may have are read back from them.
        ensures counts { OnOk result (CountsFit self.now.tables) }
    {
        let numbers = Numbers {
            members: self.members,
            next_log: self.next_log,
            next_entry: self.next_entry,
        };
        write(
            alloc,
            &self.names,
            &self.pointers,
            &self.logs,
            &self.held,
            &numbers,
        )
    }

    /// The file manager with the tables of a checkpoint with these bytes; nobody holds. None exactly where the bytes are
    /// not those of a checkpoint in a system of these sizes.
    pub fn unspell(alloc: Global, geo: &Geometry, bytes: &[u8]) -> Mem<Option<Manager>>
        ensures found { IfOk result (λ found. Unspells (sizes_of geo.now) bytes.now (option_map tables_in found)) }
        ensures sizes { IfOk result (λ found. IfSome found (λ manager. manager.sizes ≡ sizes_of geo.now)) }
        ensures holder { IfOk result (λ found. IfSome found (λ manager. manager.holder ≡ None)) }

        // What is spelled is read.
        ensures again { (t : Tables) → IsCheckpoint (sizes_of geo.now) t → spelling_of_tables t ≡ bytes.now
            → IfOk result (λ found. option_map tables_in found ≡ Some t) }
    {
        let Some(parts) = read(alloc, geo, bytes)? else {
            return Ok(None);
        };
        Ok(Some(Manager {
            alloc,
            sizes: *geo,
            names: parts.names,
            pointers: parts.pointers,
            logs: parts.logs,
            held: parts.held,
            members: parts.numbers.members,
            next_log: parts.numbers.next_log,
            next_entry: parts.numbers.next_entry,
            holder: None,
        }))
    }
}
