ghost use Rattle.std.specs.Prelude.{◌≡◌, ◌↔◌, ℕ, List, IsTrue, IsErrOf, IfOk, OnOk};
ghost use Rattle.zb_batch.specs.declared.batch.Batch.{Batch as Meant};
ghost use Rattle.zb_entries.specs.declared.entry.Entry.{Entry as Told};
ghost use Rattle.zb_entries.specs.declared.entry.Entry.TheVariants.{Attach, Commit, Mark, Retire};
ghost use Rattle.zb_outside.specs.Counts.{GoesOn};
ghost use Rattle.zb_tables.specs.Tables.{Contents, risen};
ghost use Rattle.zb_tables.specs.Replay.{IsBatchIn};
ghost use Rattle.zb_tables.specs.Taking.{IsServer, IsState};
ghost use Rattle.zb_batch.specs.Batches.{IsBatch};
ghost use Rattle.zb_spelling.specs.Unspelling.{sizes_of};
ghost use Rattle.zb_replay.specs.Opening.{IsRefused, LeavesTables, NoneTakes, Takes};
ghost use Rattle.zb_replay.specs.Taking.{MayTake, SameOwner, TakesBatch};
ghost use Rattle.zb_replay.specs.declared.pieces.OpenFault.TheVariants as fault;

use crate::pieces::{OpenFault, PiecesFault, ReadPieces};
use std::alloc::Global;
use zb_batch::Batch;
use zb_entries::Entry;
use zb_manager::Manager;
use zb_outside::Bay;
use zb_platter::first_naming;
use zb_types::{CommitFault, Geometry, LogId, Members, Piece, ServerId, State};

const LAST: u64 = 281_474_976_710_656;

const LAST_LOG: u32 = 4_294_967_295;

const REFUSED: OpenFault = OpenFault::Foreign { field: 8 };

fn take_attach(
    alloc: Global,
    geo: &Geometry,
    manager: &mut Manager,
    owner: u8,
    log: LogId,
) -> Result<(), OpenFault>
    requires sizes { manager.old.sizes ≡ sizes_of geo.now }
    ensures taken { (contents : Contents) → (before : List Told) → OnOk result (Takes manager.old.sizes contents before manager.old.tables (Attach owner log) manager.new.tables) }
    ensures refused { (contents : Contents) → (before : List Told) → (field : ℕ) → IsErrOf result (fault.Foreign field) → (field ≡ 8) × NoneTakes manager.old.sizes contents before manager.old.tables (Attach owner log) }
    ensures stopped { IsErrOf result fault.Stopped → ⊥ }
    ensures next { OnOk result (manager.new.tables.next_entry ≡ risen manager.old.tables.next_entry) }
    ensures same { SameOwner manager.old manager.new }
{
    let next = manager.next_log();
    if log.0 != next || next >= LAST_LOG || u32::from(owner) > geo.clients {
        return Err(REFUSED);
    }
    manager.room(alloc)?;
    let _ = manager.attach(owner);
    Ok(())
}

fn is_server(geo: &Geometry, server: ServerId) -> bool
    ensures { IsTrue result ↔ IsServer geo.now.servers server }
{
    server.0 >= 1 && u32::from(server.0) <= geo.servers
}

fn is_state(geo: &Geometry, state: State) -> bool
    ensures { IsTrue result ↔ IsState geo.now.servers state }
{
    match state {
        State::Whole => true,
        State::Out(server) => is_server(geo, server),
        State::Mending(server) => is_server(geo, server),
    }
}

fn take_mark(geo: &Geometry, manager: &mut Manager, members: Members) -> Result<(), OpenFault>
    requires sizes { manager.old.sizes ≡ sizes_of geo.now }
    ensures taken { (contents : Contents) → (before : List Told) → OnOk result (Takes manager.old.sizes contents before manager.old.tables (Mark members) manager.new.tables) }
    ensures refused { (contents : Contents) → (before : List Told) → (field : ℕ) → IsErrOf result (fault.Foreign field) → (field ≡ 8) × NoneTakes manager.old.sizes contents before manager.old.tables (Mark members) }
    ensures stopped { IsErrOf result fault.Stopped → ⊥ }
    ensures next { OnOk result (manager.new.tables.next_entry ≡ risen manager.old.tables.next_entry) }
    ensures same { SameOwner manager.old manager.new }
{
    if !is_state(geo, members.state) {
        return Err(REFUSED);
    }
    if members.generation < manager.members().generation || members.generation > LAST {
        return Err(REFUSED);
    }
    manager.set_members(members);
    Ok(())
}

fn take_retire(
    alloc: Global,
    manager: &mut Manager,
    before: &[Entry],
    log: LogId,
    stripe: u64,
) -> Result<(), OpenFault>
    ensures taken { (contents : Contents) → OnOk result (Takes manager.old.sizes contents before.now manager.old.tables (Retire log stripe) manager.new.tables) }
    ensures refused { (contents : Contents) → (field : ℕ) → IsErrOf result (fault.Foreign field) → (field ≡ 8) × NoneTakes manager.old.sizes contents before.now manager.old.tables (Retire log stripe) }
    ensures stopped { IsErrOf result fault.Stopped → ⊥ }
    ensures next { OnOk result (manager.new.tables.next_entry ≡ risen manager.old.tables.next_entry) }
    ensures same { SameOwner manager.old manager.new }
{
    let found = manager.live(alloc, log, stripe)?;
    if found.len() > 0 {
        return Err(REFUSED);
    }
    if first_naming(before, 1, log, stripe).is_some() {
        return Err(REFUSED);
    }
    manager.drop_stripe(log, stripe);
    Ok(())
}

// The batch of this log and number that the bytes begin with.
fn batch_in(alloc: Global, bytes: &[u8], log: LogId, number: u64) -> Result<Batch, OpenFault>
    ensures is { IfOk result (λ batch. IsBatchIn bytes.now log number batch) }
    ensures none { (field : ℕ) → IsErrOf result (fault.Foreign field) → (field ≡ 8) × ((batch : Meant) → IsBatchIn bytes.now log number batch → ⊥) }
    ensures stopped { IsErrOf result fault.Stopped → ⊥ }
{
    let Some(batch) = Batch::read(alloc, bytes)? else {
        return Err(REFUSED);
    };
    if batch.log != log || batch.number != number {
        return Err(REFUSED);
    }
    Ok(batch)
}

// Takes a commit whose pieces have these bytes.
fn take_batch(
    alloc: Global,
    manager: &mut Manager,
    batch: &Batch,
    pieces: &[Piece],
    generation: u64,
) -> Result<(), OpenFault>
    requires { IsBatch batch.now }
    ensures taken { OnOk result (TakesBatch manager.old batch.now pieces.now generation manager.new) }
    ensures refused { (field : ℕ) → IsErrOf result (fault.Foreign field) → (field ≡ 8) × (MayTake manager.old batch.now pieces.now generation → ⊥) }
    ensures stopped { IsErrOf result fault.Stopped → ⊥ }
    ensures next { OnOk result (manager.new.tables.next_entry ≡ risen manager.old.tables.next_entry) }
    ensures same { SameOwner manager.old manager.new }
{
    if !manager.may_commit(batch, pieces) {
        return Err(REFUSED);
    }
    match manager.prepare(alloc, batch, pieces, generation) {
        Ok(prepared) => {
            manager.apply(prepared);
            Ok(())
        }
        Err(CommitFault::NoMemory) => Err(OpenFault::NoMemory),
        Err(_) => Err(REFUSED),
    }
}

// Takes a commit whose bytes are read from its pieces.
fn take_commit<B: Bay, S: ReadPieces<B>>(
    alloc: Global,
    bay: &mut B,
    servers: &mut S,
    geo: &Geometry,
    manager: &mut Manager,
    log: LogId,
    number: u64,
    generation: u64,
    pieces: &[Piece],
) -> Result<(), OpenFault>
    ensures taken { IsTrue B.tells → (before : List Told) → OnOk result (Takes manager.old.sizes (S.contents servers.old bay.old) before manager.old.tables (Commit log number generation pieces.now) manager.new.tables) }
    ensures refused { IsTrue B.tells → (before : List Told) → (field : ℕ) → IsErrOf result (fault.Foreign field) → (field ≡ 8) × IsRefused manager.old.sizes (S.contents servers.old bay.old) before manager.old.tables (Commit log number generation pieces.now) }
    ensures stopped { IsErrOf result fault.Stopped → ⊥ }
    ensures next { OnOk result (manager.new.tables.next_entry ≡ risen manager.old.tables.next_entry) }
    ensures same { SameOwner manager.old manager.new }
    ensures contents { IsTrue B.tells → S.contents servers.new bay.new ≡ S.contents servers.old bay.old }
    ensures alone { IsTrue B.tells → LeavesTables (B.meaning bay.old) (B.meaning bay.new) }
    ensures goes_on { GoesOn B.counts B.follows bay.old bay.new }
{
    let bytes = match servers.read(alloc, bay, geo, manager.members(), log, pieces) {
        Ok(bytes) => bytes,
        Err(PiecesFault::Missing) => return Err(REFUSED),
        Err(PiecesFault::Unreachable { a, b }) => return Err(OpenFault::Unreachable { a, b }),
        Err(PiecesFault::NoMemory) => return Err(OpenFault::NoMemory),
    };
    let batch = match batch_in(alloc, bytes.slice(), log, number) {
        Ok(batch) => batch,
        Err(fault) => return Err(fault),
    };
    take_batch(alloc, manager, &batch, pieces, generation)
}

/// Takes an entry that stands behind those before it into the tables.
pub(crate) fn take<B: Bay, S: ReadPieces<B>>(
    alloc: Global,
    bay: &mut B,
    servers: &mut S,
    geo: &Geometry,
    manager: &mut Manager,
    before: &[Entry],
    entry: &Entry,
) -> Result<(), OpenFault>
    requires sizes { manager.old.sizes ≡ sizes_of geo.now }
    ensures taken { IsTrue B.tells → OnOk result (Takes manager.old.sizes (S.contents servers.old bay.old) before.now manager.old.tables entry.now manager.new.tables) }
    ensures refused { IsTrue B.tells → (field : ℕ) → IsErrOf result (fault.Foreign field) → (field ≡ 8) × IsRefused manager.old.sizes (S.contents servers.old bay.old) before.now manager.old.tables entry.now }
    ensures stopped { IsErrOf result fault.Stopped → ⊥ }
    ensures next { OnOk result (manager.new.tables.next_entry ≡ risen manager.old.tables.next_entry) }
    ensures same { SameOwner manager.old manager.new }
    ensures contents { IsTrue B.tells → S.contents servers.new bay.new ≡ S.contents servers.old bay.old }
    ensures alone { IsTrue B.tells → LeavesTables (B.meaning bay.old) (B.meaning bay.new) }
    ensures goes_on { GoesOn B.counts B.follows bay.old bay.new }
{
    match entry {
        Entry::Attach { owner, log } => take_attach(alloc, geo, manager, *owner, *log),
        Entry::Mark { members } => take_mark(geo, manager, *members),
        Entry::Retire { log, stripe } => take_retire(alloc, manager, before, *log, *stripe),
        Entry::Commit {
            log,
            batch,
            generation,
            pieces,
        } => take_commit(
            alloc,
            bay,
            servers,
            geo,
            manager,
            *log,
            *batch,
            *generation,
            pieces.slice(),
        ),
    }
}
