ghost use Rattle.std.specs.Prelude.{◌≡◌, ◌≤◌, ℕ, Some, IfOk, OnOk, if◌then◌else◌, length};
ghost use Rattle.zb_types.specs.Keyed.{look};
ghost use Rattle.zb_delta.specs.declared.delta.Delta.TheVariants.{Clean};
ghost use Rattle.zb_tables.specs.Fold.{Files, is_movable};
ghost use Rattle.zb_pointers.specs.declared.head.FileHead.{FileHead};
ghost use Rattle.zb_conflict.specs.Table.{decided, is_set};
ghost use Rattle.zb_manager.specs.Cleanings.{LeadsTo, TakesMove, block_at, is_place, place_in};
ghost use Rattle.zb_manager.specs.Plans.{IsMovePlan};
ghost use Rattle.zb_manager.specs.Works.{movable_of};

use crate::planning::Plan;
use crate::work::Work;
use crate::working::body_of;
use std::alloc::Global;
use std::collections::BTreeMap;
use zb_conflict::{Decision, decide, table_moves_blocks};
use zb_delta::{Body, Delta, DeltaList};
use zb_log_tables::ReplyList;
use zb_pointers::{FileHead, Pointers};
use zb_types::{Fid, Mem, NoMemory, Ptr};

// Where moves have put a block, by its file and its number.
fn place_in(places: &BTreeMap<(u32, u32), Ptr>, place: (u32, u32)) -> Option<Ptr>
    ensures { result ≡ place_in places.now.entries place }
{
    places.get(&place).copied()
}

// A move puts a block to a place.
fn put_place(places: &mut BTreeMap<(u32, u32), Ptr>, place: (u32, u32), ptr: Ptr) -> Mem<()>
    ensures { OnOk result ((q : ℕ × ℕ) → place_in places.new.entries q ≡ (if is_place place q then Some ptr else place_in places.old.entries q)) }
{
    places.insert(place, ptr)?;
    Ok(())
}

// Whether the conflict table sets a move.
fn is_set(body: Body, head: Option<FileHead>, table: Option<Ptr>) -> bool
    ensures { result ≡ is_set (decided (Clean body) head table) }
{
    matches!(decide(&Delta::Clean(body), head, table), Decision::Set)
}

/// The moves of a batch that are carried out, so far, and where they put blocks.
#[derive(Drop)]
pub(crate) struct Cleaning {
    pub(crate) places: BTreeMap<(u32, u32), Ptr>,
    pub(crate) moves: DeltaList,
}

impl Cleaning {
    // Where a block stands, as the moves before leave it.
    fn block(&self, pointers: &Pointers, place: (u32, u32)) -> Option<Ptr>
        ensures { (now : Files) → LeadsTo self.now.places.entries pointers.now.files now → result ≡ block_at now place }
    {
        match place_in(&self.places, place) {
            Some(ptr) => Some(ptr),
            None => pointers.block(Fid(place.0), place.1),
        }
    }

    // Whether a move is carried out, on the files as the moves before leave them.
    fn is_movable(&self, pointers: &Pointers, body: Body) -> bool
        ensures { (now : Files) → LeadsTo self.now.places.entries pointers.now.files now → result ≡ is_movable body (look body.fid.0 now) }
    {
        table_moves_blocks();
        let table = self.block(pointers, (body.fid.0, body.block));
        is_set(body, pointers.find(body.fid), table)
    }

    // Goes through one more delta.
    fn take(&mut self, pointers: &Pointers, delta: &Delta) -> Mem<()>
        ensures { (now : Files) → LeadsTo self.old.places.entries pointers.now.files now
            → OnOk result (TakesMove self.old self.new pointers.now.files now delta.now) }
    {
        let body = body_of(delta);
        if !self.is_movable(pointers, body) {
            return Ok(());
        }
        put_place(&mut self.places, (body.fid.0, body.block), body.now)?;
        self.moves.push(*delta)
    }
}

// The moves that are carried out, each on the files as those before leave them.
fn movable(alloc: Global, pointers: &Pointers, deltas: &[Delta]) -> Mem<DeltaList>
    ensures moves { IfOk result (λ moves. moves ≡ movable_of deltas.now pointers.now.files) }
    ensures few { IfOk result (λ moves. length moves ≤ length deltas.now) }
{
    let mut cleaning = Cleaning {
        places: BTreeMap::new(alloc),
        moves: DeltaList::new(alloc)?,
    };
    let mut rest = deltas;
    while let Some((delta, others)) = rest.split_first() {
        cleaning.take(pointers, delta)?;
        rest = others;
    }
    Ok(cleaning.moves)
}

// So many, which no memory has 2 ^ 32 of.
fn count_of(count: usize) -> Mem<u32>
    ensures { IfOk result (λ number. number ≡ count) }
{
    u32::try_from(count).map_err(|_| NoMemory)
}

/// The cleaner's moves: those that are carried out, and how many are and aren't.
pub(crate) fn plan_moves(alloc: Global, pointers: &Pointers, deltas: &DeltaList) -> Mem<Plan>
    ensures { IfOk result (IsMovePlan pointers.now.files deltas.now) }
{
    let moves = movable(alloc, pointers, deltas.slice())?;
    let copied = count_of(moves.len())?;
    let rejected = count_of(deltas.len() - moves.len())?;
    Ok(Plan {
        work: Work::Move(moves),
        replies: ReplyList::new(alloc)?,
        copied,
        rejected,
        worn: false,
    })
}
