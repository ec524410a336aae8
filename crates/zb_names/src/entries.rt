ghost use Rattle.std.specs.Prelude.{◌≡◌, ◌+◌, ◌<◌, ◌≤◌, ◌++◌, List, [], ◌∷◌, false, true, not, length, take, drop, filter, option_map, IfOk, OnOk};
ghost use Rattle.std.specs.List.{AllByRecursion, list_any};
ghost use Rattle.std.specs.List.Sorted.{IsStrictlySortedBy};
ghost use Rattle.std.specs.Ordering.{nat_cmp};
ghost use Rattle.std.specs.Cmp.Lexicographic.{slice_cmp};
ghost use Rattle.std.specs.Map.{keys_of};
ghost use Rattle.zb_types.specs.Paths.{is_path};
ghost use Rattle.zb_types.specs.Names.{find, has, is_below, is_within, max_names, others, with_entries, with_entry};
ghost use Rattle.zb_names.specs.Shown.{listed, seen};
ghost use Rattle.zb_names.specs.Placing.{IsPlace, from_start};
ghost use Rattle.zb_names.specs.Changing.{AreNew, HasNoneBelow, LieBelow, fresh_of, staying};

use crate::comparing::is_less;
use std::alloc::Global;
use std::marker::Model;
use zb_types::{Fid, Mem, Path};

/// What stands at a path.
#[derive(Clone, Copy, Debug, PartialEq, Eq)]
pub enum Entry {
    Dir,
    File(Fid),
}

// The most names.
pub(crate) const MAX_NAMES: usize = 4096;

// Paths with what stands there, in the order of the paths' bytes. They lie in one piece of memory, which has room for
// the most names from the start, so that an entry is put in without memory. Contracts see for how many there is room.
#[derive(Drop)]
pub(crate) struct EntryList {
    items: Vec<(Path, Entry)>,
}

impl Model for EntryList {
    ghost use Rattle.std.specs.Prelude.{vec_capacity};
    ghost use Rattle.std.specs.List.Sorted.{IsStrictlySortedBy};
    ghost use Rattle.std.specs.Ordering.{nat_cmp};
    ghost use Rattle.std.specs.Cmp.Lexicographic.{slice_cmp};
    ghost use Rattle.std.specs.Map.{keys_of};
    ghost use Rattle.zb_names.specs.Shown.{listed};
    ghost use Rattle.zb_names.specs.Placing.{SeenEntries};

    ghost Value = { SeenEntries };

    ghost view = { λ a. record { entries = listed a.items.items; room = vec_capacity a.items } };

    ghost invariant = { λ a. IsStrictlySortedBy (slice_cmp nat_cmp) (keys_of (listed a.items.items)) };
}

// The same path once more.
pub(crate) fn copy_of(alloc: Global, path: &Path) -> Mem<Path>
    ensures same { IfOk result (λ copy. copy ≡ path.now) }
    ensures path { OnOk result (is_path path.now ≡ true) }
{
    let _ = path.slice();
    path.copy(alloc)
}

// Moves the last entries, so many, to a place before them.
fn move_last<T>(items: &mut [T], count: usize, place: usize)
    requires { place + count ≤ length items.old }
    ensures { (front back : List T) → items.old ≡ front ++ back → length back ≡ count → items.new ≡ take place front ++ (back ++ drop place front) }
{
    items[place..].rotate_right(count);
}

impl EntryList {
    // The entries with these paths, which rise.
    pub(crate) fn of(alloc: Global, list: &[(Path, Entry)]) -> Mem<EntryList>
        requires { IsStrictlySortedBy (slice_cmp nat_cmp) (keys_of (listed list.now)) }
        ensures same { IfOk result (λ made. made.entries ≡ listed list.now) }
        ensures room { IfOk result (λ made. max_names ≤ made.room) }
        ensures fits { IfOk result (λ made. length list.now ≤ made.room) }
        ensures paths { OnOk result (AllByRecursion (λ e. is_path e.0 ≡ true) (listed list.now)) }
    {
        let mut items = Vec::with_capacity(alloc, list.len().max(MAX_NAMES))?;
        for given in list {
            items.push((copy_of(alloc, &given.0)?, given.1))?;
        }
        Ok(EntryList { items })
    }

    pub(crate) fn slice(&self) -> &[(Path, Entry)]
        ensures same { listed result.now ≡ self.now.entries }
        ensures rising { IsStrictlySortedBy (slice_cmp nat_cmp) (keys_of self.now.entries) }
    {
        &self.items
    }

    // How many paths are less than the one with these two parts.
    fn place(&self, head: &[u8], tail: &[u8]) -> usize
        ensures bound { result ≤ length self.now.entries }
        ensures place { IsPlace (head.now ++ tail.now) (keys_of self.now.entries) result }
    {
        self.items
            .partition_point(|(path, _)| is_less(path.slice(), head, tail))
    }

    // The entries from the path with these two parts on.
    pub(crate) fn from_path(&self, head: &[u8], tail: &[u8]) -> &[(Path, Entry)]
        ensures rest { listed result.now ≡ from_start (head.now ++ tail.now) self.now.entries }
        ensures rising { IsStrictlySortedBy (slice_cmp nat_cmp) (keys_of self.now.entries) }
    {
        let i = self.place(head, tail);
        let (_, rest) = self.items.split_at(i);
        rest
    }

    // What stands at a path.
    pub(crate) fn find(&self, path: &[u8]) -> Option<Entry>
        ensures { option_map seen result ≡ find path.now self.now.entries }
    {
        let Some((first, entry)) = self.from_path(path, b"").first() else {
            return None;
        };
        if path != first.slice() {
            return None;
        }
        Some(*entry)
    }

    // Puts an entry in at a path at which there is none, without memory. What stands behind it moves by one place.
    pub(crate) fn put(&mut self, path: Path, entry: Entry)
        requires absent { has path self.old.entries ≡ false }
        requires room { length self.old.entries < self.old.room }
        ensures entries { self.new.entries ≡ with_entry path (seen entry) self.old.entries }
        ensures room { self.old.room ≤ self.new.room }
    {
        let i = self.place(path.slice(), b"");
        let _ = self.items.insert(i, (path, entry));
    }

    // Puts in entries that rise and are below a path with nothing below it, without memory. They go in as one, so what
    // stands behind them moves once.
    fn put_below(&mut self, path: &[u8], fresh: Vec<(Path, Entry)>)
        requires rising { IsStrictlySortedBy (slice_cmp nat_cmp) (keys_of (listed fresh.items)) }
        requires below { AllByRecursion (λ e. is_below path.now e.0 ≡ true) (listed fresh.items) }
        requires none { list_any (λ e. is_below path.now e.0) self.old.entries ≡ false }
        requires room { length fresh.items + length self.old.entries ≤ self.old.room }
        ensures entries { self.new.entries ≡ with_entries (listed fresh.items) self.old.entries }
        ensures room { self.old.room ≤ self.new.room }
    {
        let i = self.place(path, b"/");
        let count = fresh.len();
        let mut left = fresh;
        let _ = self.items.append(&mut left);
        move_last(&mut self.items, count, i);
    }

    // Puts in an entry, if there is one, and those that go with it below its path, without memory.
    pub(crate) fn put_all(&mut self, first: Option<(Path, Entry)>, below: Vec<(Path, Entry)>)
        requires new { AreNew (fresh_of first below.items) self.old.entries }
        requires lie { LieBelow (fresh_of first below.items) }
        requires none { HasNoneBelow (fresh_of first below.items) self.old.entries }
        requires room { length (fresh_of first below.items) + length self.old.entries ≤ self.old.room }
        ensures entries { self.new.entries ≡ with_entries (fresh_of first below.items) self.old.entries }
        ensures room { self.old.room ≤ self.new.room }
    {
        let Some((path, entry)) = first else {
            return;
        };
        self.put_below(path.slice(), below);
        self.put(path, entry);
    }

    // Takes out what stands at a path, if something does.
    pub(crate) fn remove(&mut self, path: &[u8])
        ensures entries { self.new.entries ≡ others path.now self.old.entries }
        ensures room { self.old.room ≤ self.new.room }
    {
        let i = self.place(path, b"");
        if i >= self.items.len() {
            return;
        }
        if path != self.items[i].0.slice() {
            return;
        }
        self.items.remove(i);
    }

    // Takes out what stands below a path, as one: what stands behind it moves once.
    fn remove_below(&mut self, path: &[u8])
        ensures entries { self.new.entries ≡ filter (λ e. not (is_below path.now e.0)) self.old.entries }
        ensures room { self.old.room ≤ self.new.room }
    {
        let start = self.place(path, b"/");
        let end = self.place(path, b"0");
        self.items.drain(start..end);
    }

    // Takes out what stands at a path and below it.
    fn remove_within(&mut self, path: &[u8])
        ensures entries { self.new.entries ≡ filter (λ e. not (is_within path.now e.0)) self.old.entries }
        ensures room { self.old.room ≤ self.new.room }
    {
        self.remove(path);
        self.remove_below(path);
    }

    // Takes out what stands at a path and below it, if there is one.
    pub(crate) fn remove_gone(&mut self, gone: &Option<Path>)
        ensures entries { self.new.entries ≡ staying gone.now self.old.entries }
        ensures room { self.old.room ≤ self.new.room }
    {
        if let Some(path) = gone {
            self.remove_within(path.slice());
        }
    }
}
