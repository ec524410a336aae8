ghost use Rattle.std.specs.Prelude.{◌≡◌, ℕ, ◌+◌, ◌<◌, ◌≤◌, nat_lt, if◌then◌else◌, [], length, IfOk, IfNone, IfSome};
ghost use Rattle.zb_index.specs.Free.{times, IsLeast, IsTaken, IsGiven};

use std::alloc::Global;
use std::cmp::Reverse;
use std::collections::BinaryHeap;
use std::marker::Model;
use zb_types::Mem;

/// Free slots, of which the least comes first, and the room for them.
#[derive(Drop)]
pub(crate) struct FreeSlots {
    heap: BinaryHeap<Reverse<u32>>,
    room: u32,
}

impl Model for FreeSlots {
    ghost use Rattle.std.specs.Prelude.{map, ◌≤◌, ◌<◌, ◌^◌};
    ghost use Rattle.std.specs.BinaryHeap.{IsHeap, heap_items, heap_len, heap_capacity};
    ghost use Rattle.std.specs.Ordering.{nat_cmp};
    ghost use Rattle.zb_index.specs.Free.{SeenFree};

    ghost Value = { SeenFree };

    ghost view = { λ a. record { slots = map (λ r. r.0) (heap_items a.heap); room = a.room } };

    ghost invariant = { λ a. IsHeap (λ x y. nat_cmp y.0 x.0) (heap_items a.heap)
        × ((heap_len a.heap ≤ a.room) × ((a.room ≤ heap_capacity a.heap) × (a.room < 2 ^ 32))) };
}

impl FreeSlots {
    /// No free slots, and room for so many.
    pub(crate) fn with_room(alloc: Global, room: u32) -> Mem<FreeSlots>
        ensures none { IfOk result (λ free. free.slots ≡ []) }
        ensures room { IfOk result (λ free. free.room ≡ room) }
    {
        Ok(FreeSlots {
            heap: BinaryHeap::with_capacity(alloc, room as usize)?,
            room,
        })
    }

    /// The slots below `room`, all of them free.
    pub(crate) fn all(alloc: Global, room: u32) -> Mem<FreeSlots>
        ensures each { IfOk result (λ free. (j : ℕ) → times j free.slots ≡ (if nat_lt j room then 1 else 0)) }
        ensures count { IfOk result (λ free. length free.slots ≡ room) }
        ensures room { IfOk result (λ free. free.room ≡ room) }
    {
        let mut free = FreeSlots::with_room(alloc, room)?;
        for slot in 0..room {
            free.give(slot);
        }
        Ok(free)
    }

    pub(crate) fn len(&self) -> u32
        ensures { result ≡ length self.now.slots }
    {
        self.heap.len() as u32
    }

    /// The least free slot.
    pub(crate) fn least(&self) -> Option<u32>
        ensures none { IfNone result (self.now.slots ≡ []) }
        ensures some { IfSome result (λ slot. IsLeast self.now.slots slot) }
    {
        let least = self.heap.peek()?;
        Some(least.0)
    }

    /// Takes the least free slot.
    pub(crate) fn take_least(&mut self) -> Option<u32>
        ensures none { IfNone result (self.old.slots ≡ []) }
        ensures same { IfNone result (self.new ≡ self.old) }
        ensures some { IfSome result (λ slot. IsTaken self.old.slots slot self.new.slots) }
        ensures room { self.new.room ≡ self.old.room }
    {
        let Reverse(slot) = self.heap.pop()?;
        Some(slot)
    }

    /// Puts a slot to the free ones.
    pub(crate) fn give(&mut self, slot: u32)
        requires { length self.old.slots < self.old.room }
        ensures given { IsGiven self.old.slots slot self.new.slots }
        ensures room { self.new.room ≡ self.old.room }
    {
        self.heap.push(Reverse(slot)).unwrap();
    }
}
