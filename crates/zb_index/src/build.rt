ghost use Rattle.std.specs.Prelude.{◌≡◌, ℕ, ◌+◌, ◌^◌, ◌<◌, ◌≤◌, length, IfOk, IfErr, IfSome, IfNone, OnOk};
ghost use Rattle.zb_types.specs.declared.ids.FragId.{FragId};
ghost use Rattle.zb_slots.specs.Slots.{Slot, Stored, full_slot};
ghost use Rattle.zb_slots.specs.Holding.{held};
ghost use Rattle.zb_index.specs.Drafting.{IsDraftOf};
ghost use Rattle.zb_index.specs.Gathering.{AreGathered, AreHolders, IsHeldBy, TellsBad, TellsNewest};
ghost use Rattle.zb_index.specs.Indexed.{IsIndexOf};
ghost use Rattle.zb_index.specs.Seen.{IsInOrder};
ghost use Rattle.zb_slots.specs.Shown.{Says, AreShownBy};
ghost use Rattle.zb_index.specs.Twins.{NoneIsBad, NamesFirstBad, IsFirstBad, AreOlder, AreFreed};

use crate::faults::IndexFault;
use crate::free::FreeSlots;
use crate::holders::{Holder, Holders, holder_of};
use crate::index::Index;
use crate::spot::Spot;
use std::alloc::Global;
use std::collections::BTreeMap;
use zb_slots::Header;
use zb_types::{FragId, ItemList, Mem};

/// Slots, by their numbers from 0.
pub type SlotList = ItemList<u32>;

/// An index, and the slots of older parities, in order: they are free in the index, and its caller frees them.
#[derive(Drop)]
pub struct Built {
    pub index: Index,
    pub older: SlotList,
}

/// The slots that hold each name.
type Names = BTreeMap<FragId, Holders>;

/// Enters one more holder of a name, in a later slot.
fn enter(names: &mut Names, id: FragId, holder: Holder) -> Mem<()>
    ensures { OnOk result ((n : ℕ) (slots : ℕ → Slot) → AreGathered n slots names.old.entries
        → IsHeldBy n (slots n) id holder → AreGathered (n + 1) slots names.new.entries) }
{
    let holders = match names.get(&id) {
        None => Holders::One { first: holder },
        Some(holders) => holders.joined(holder),
    };
    names.insert(id, holders)?;
    Ok(())
}

/// Enters what a header says of the next slot.
fn enter_slot(names: &mut Names, header: &Option<Header>, slot: u32) -> Mem<()>
    ensures { OnOk result ((slots : ℕ → Slot) → Says header.now (slots slot)
        → AreGathered slot slots names.old.entries → AreGathered (slot + 1) slots names.new.entries) }
{
    let Some(header) = header else {
        return Ok(());
    };
    let Some((id, holder)) = holder_of(header, slot) else {
        return Ok(());
    };
    enter(names, id, holder)
}

/// The slots that hold each name, by the headers.
fn gathered(alloc: Global, headers: &[Option<Header>]) -> Mem<Names>
    requires { length headers.now < 2 ^ 32 }
    ensures { IfOk result (λ names. (slots : ℕ → Slot) → AreShownBy headers.now slots
        → AreGathered (length headers.now) slots names.entries) }
{
    let mut names = BTreeMap::new(alloc);
    for (slot, header) in headers.iter().enumerate() {
        enter_slot(&mut names, header, slot as u32)?;
    }
    Ok(names)
}

/// The holders of a name with the next slot, if it holds the name.
fn with_next(
    holders: Option<Holders>,
    header: &Option<Header>,
    slot: u32,
    id: FragId,
) -> Option<Holders>
    ensures { (slots : ℕ → Slot) → Says header.now (slots slot) → AreHolders slot slots id holders
        → AreHolders (slot + 1) slots id result }
{
    let Some(header) = header else {
        return holders;
    };
    let Some((named, holder)) = holder_of(header, slot) else {
        return holders;
    };
    if named != id {
        return holders;
    }
    match holders {
        None => Some(Holders::One { first: holder }),
        Some(holders) => Some(holders.joined(holder)),
    }
}

/// The slots that hold a name, by a look at all headers.
fn holders_among(headers: &[Option<Header>], id: FragId) -> Option<Holders>
    requires { length headers.now < 2 ^ 32 }
    ensures { (slots : ℕ → Slot) → AreShownBy headers.now slots
        → AreHolders (length headers.now) slots id result }
{
    let mut holders = None;
    for (slot, header) in headers.iter().enumerate() {
        holders = with_next(holders, header, slot as u32, id);
    }
    holders
}

/// The slots that hold a name: as they were gathered, or else by a look at all headers.
fn holders_of(names: &Option<Names>, headers: &[Option<Header>], id: FragId) -> Option<Holders>
    requires { length headers.now < 2 ^ 32 }
    ensures { (slots : ℕ → Slot) → AreShownBy headers.now slots
        → IfSome names.now (λ names. AreGathered (length headers.now) slots names.entries)
        → AreHolders (length headers.now) slots id result }
{
    match names {
        Some(names) => names.get(&id).copied(),
        None => holders_among(headers, id),
    }
}

/// Whether a slot is bad.
fn is_bad(
    names: &Option<Names>,
    headers: &[Option<Header>],
    header: &Option<Header>,
    slot: u32,
) -> bool
    requires { length headers.now < 2 ^ 32 }
    ensures { (slots : ℕ → Slot) → AreShownBy headers.now slots
        → IfSome names.now (λ names. AreGathered (length headers.now) slots names.entries)
        → slot < length headers.now → Says header.now (slots slot)
        → TellsBad slots (length headers.now) slot result }
{
    let Some(header) = header else {
        return true;
    };
    let Some((id, _)) = holder_of(header, slot) else {
        return false;
    };
    match holders_of(names, headers, id) {
        None => false,
        Some(holders) => holders.is_bad(slot),
    }
}

/// The first slot that is bad.
fn first_bad(names: &Option<Names>, headers: &[Option<Header>]) -> Option<u32>
    requires { length headers.now < 2 ^ 32 }
    ensures bad { IfSome result (λ slot. (slots : ℕ → Slot) → AreShownBy headers.now slots
        → IfSome names.now (λ names. AreGathered (length headers.now) slots names.entries)
        → IsFirstBad slots (length headers.now) slot) }
    ensures good { IfNone result ((slots : ℕ → Slot) → AreShownBy headers.now slots
        → IfSome names.now (λ names. AreGathered (length headers.now) slots names.entries)
        → NoneIsBad slots (length headers.now)) }
{
    for (slot, header) in headers.iter().enumerate() {
        if is_bad(names, headers, header, slot as u32) {
            return Some(slot as u32);
        }
    }
    None
}

/// Whether a name stands for what this slot holds.
fn is_newest(names: &Names, id: FragId, slot: u32) -> bool
    ensures { (n : ℕ) (slots : ℕ → Slot) (stored : Stored) → AreGathered n slots names.now.entries
        → NoneIsBad slots n → slot < n → slots slot ≡ full_slot stored → stored.id ≡ id
        → TellsNewest slots n slot stored result }
{
    match names.get(&id) {
        None => false,
        Some(holders) => match holders.newest() {
            None => false,
            Some(spot) => spot.slot == slot,
        },
    }
}

/// The parts of an index while it is built, and the slots of older parities so far.
#[derive(Drop)]
struct Draft {
    spots: BTreeMap<FragId, Spot>,
    free: FreeSlots,
    older: SlotList,
}

impl Draft {
    /// Enters a slot that isn't bad.
    fn settle(&mut self, names: &Names, header: &Option<Header>, slot: u32) -> Mem<()>
        requires { length self.old.spots.entries + length self.old.free.slots < self.old.free.room }
        ensures draft { OnOk result ((n : ℕ) (slots : ℕ → Slot) → AreGathered n slots names.now.entries
            → NoneIsBad slots n → slot < n → Says header.now (slots slot)
            → IsDraftOf self.old.spots.entries self.old.free.slots self.old.older slots n slot
            → IsDraftOf self.new.spots.entries self.new.free.slots self.new.older slots n (slot + 1)) }
        ensures order { IsInOrder self.old.spots.entries → IsInOrder self.new.spots.entries }
        ensures count { length self.new.spots.entries + length self.new.free.slots
            ≤ length self.old.spots.entries + length self.old.free.slots + 1 }
        ensures room { self.new.free.room ≡ self.old.free.room }
        ensures few { length self.new.older ≤ length self.old.older + 1 }
    {
        let Some(header) = header else {
            return Ok(());
        };
        let Some((id, holder)) = holder_of(header, slot) else {
            self.free.give(slot);
            return Ok(());
        };
        if is_newest(names, id, slot) {
            self.spots.insert(id, holder.spot)?;
        } else {
            self.older.push(slot)?;
            self.free.give(slot);
        }
        Ok(())
    }
}

/// The index of slots none of which is bad.
fn settled(alloc: Global, names: &Names, headers: &[Option<Header>]) -> Mem<Built>
    requires { length headers.now < 2 ^ 32 }
    ensures few { IfOk result (λ built. length built.older ≤ length headers.now) }
    ensures draft { IfOk result (λ built. (slots : ℕ → Slot) → AreShownBy headers.now slots
        → AreGathered (length headers.now) slots names.now.entries → NoneIsBad slots (length headers.now)
        → IsDraftOf built.index.entries built.index.free built.older slots (length headers.now)
        (length headers.now)) }
{
    let mut draft = Draft {
        spots: BTreeMap::new(alloc),
        free: FreeSlots::with_room(alloc, headers.len() as u32)?,
        older: SlotList::new(alloc)?,
    };
    for (slot, header) in headers.iter().enumerate() {
        draft.settle(names, header, slot as u32)?;
    }
    let index = Index {
        spots: draft.spots,
        free: draft.free,
    };
    Ok(Built {
        index,
        older: draft.older,
    })
}

impl Index {
    /// The index of the slots with these headers, which are `None` for a bad one. Of two parities under one name,
    /// with different turns, the one counts whose turn follows the other's. `Bad` names the first slot that is
    /// bad, and `NoMemory` comes only where none is. Costs n log n for n slots; where memory runs out, each slot is
    /// compared with all others.
    pub fn build(alloc: Global, headers: &[Option<Header>]) -> Result<Built, IndexFault>
        requires { length headers.now < 2 ^ 32 }
        ensures good { IfOk result (λ _. (slots : ℕ → Slot) → AreShownBy headers.now slots
            → NoneIsBad slots (length headers.now)) }
        ensures few { IfOk result (λ built. length built.older ≤ length headers.now) }
        ensures older { IfOk result (λ built. (slots : ℕ → Slot) → AreShownBy headers.now slots
            → AreOlder slots (length headers.now) built.older) }
        ensures index { IfOk result (λ built. (slots now : ℕ → Slot) → AreShownBy headers.now slots
            → AreFreed (length headers.now) built.older slots now
            → IsIndexOf built.index (length headers.now) now) }
        ensures same { IfOk result (λ built. (slots now : ℕ → Slot) → AreShownBy headers.now slots
            → AreFreed (length headers.now) built.older slots now
            → (id : FragId) → held now (length headers.now) id ≡ held slots (length headers.now) id) }
        ensures bad { IfErr result (λ fault. (slots : ℕ → Slot) → AreShownBy headers.now slots
            → NamesFirstBad slots (length headers.now) fault) }
    {
        let names = gathered(alloc, headers).ok();
        if let Some(slot) = first_bad(&names, headers) {
            return Err(IndexFault::Bad { slot });
        }
        let Some(names) = names else {
            return Err(IndexFault::NoMemory);
        };
        let Ok(built) = settled(alloc, &names, headers) else {
            return Err(IndexFault::NoMemory);
        };
        Ok(built)
    }
}
