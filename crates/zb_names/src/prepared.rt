ghost use Rattle.std.specs.Prelude.{◌≡◌, [], ◌∷◌, None, true, IfOk, OnOk};
ghost use Rattle.zb_types.specs.Paths.{is_path};
ghost use Rattle.zb_names.specs.Shown.{seen};
ghost use Rattle.zb_types.specs.Names.{name_refusal, name_effect};
ghost use Rattle.zb_types.specs.declared.calls.Call.TheVariants.{Create, Mkdir, Remove, Rename};
ghost use Rattle.zb_names.specs.Changing.{MayCarry, carried};
ghost use Rattle.zb_names.specs.Answers.{IsAnswer};

use crate::entries::{Entry, copy_of};
use crate::faults::NameFault;
use crate::looking::refusal_of_new;
use crate::moving::{movable, moved_below};
use crate::names::Names;
use std::alloc::Global;
use std::marker::Model;
use zb_types::{Call, Fid, Mem, Path};

/// An operation on names with all memory that it takes: what it takes out with all that is below, what it puts in, and
/// the number that the next file gets then.
#[derive(Drop)]
pub struct Prepared {
    gone: Option<Path>,
    first: Option<(Path, Entry)>,
    below: Vec<(Path, Entry)>,
    next: u32,
}

impl Model for Prepared {
    ghost use Rattle.zb_names.specs.Changing.{Changed, LieBelow, fresh_of};

    ghost Value = { Changed };

    ghost view = { λ a. record { gone = a.gone; fresh = fresh_of a.first a.below.items; next = a.next } };

    ghost invariant = { λ a. LieBelow (fresh_of a.first a.below.items) };
}

impl Names {
    // What puts one entry in.
    fn prepare_new(&self, alloc: Global, path: &Path, entry: Entry, next: u32) -> Mem<Prepared>
        ensures made { IfOk result (λ made. made ≡ record { gone = None; fresh = (path.now, seen entry) ∷ []; next = next }) }
        ensures path { OnOk result (is_path path.now ≡ true) }
    {
        Ok(Prepared {
            gone: None,
            first: Some((copy_of(alloc, path)?, entry)),
            below: Vec::new(alloc),
            next,
        })
    }

    /// Takes all memory for a file that is made at the path: what `prepare` does for such a call.
    pub fn prepare_create(&self, alloc: Global, path: &Path) -> Result<Prepared, NameFault>
        ensures may { IfOk result (λ made. MayCarry made self.now) }
        ensures leads { IfOk result (λ made. carried made self.now ≡ name_effect self.now (Create path.now)) }
        ensures refused { IsAnswer (name_refusal self.now (Create path.now)) result }
    {
        if let Some(why) = self.refusal_of_create(path) {
            return Err(NameFault::Refused(why));
        }
        Ok(self.prepare_new(alloc, path, Entry::File(Fid(self.next)), self.next + 1)?)
    }

    // What makes a directory.
    pub(crate) fn prepare_mkdir(&self, alloc: Global, path: &Path) -> Result<Prepared, NameFault>
        ensures may { IfOk result (λ made. MayCarry made self.now) }
        ensures leads { IfOk result (λ made. carried made self.now ≡ name_effect self.now (Mkdir path.now)) }
        ensures refused { IsAnswer (name_refusal self.now (Mkdir path.now)) result }
    {
        if let Some(why) = refusal_of_new(&self.kept, path.slice()) {
            return Err(NameFault::Refused(why));
        }
        Ok(self.prepare_new(alloc, path, Entry::Dir, self.next)?)
    }

    // What removes an entry.
    fn prepare_remove(&self, alloc: Global, path: &Path) -> Result<Prepared, NameFault>
        ensures may { IfOk result (λ made. MayCarry made self.now) }
        ensures leads { IfOk result (λ made. carried made self.now ≡ name_effect self.now (Remove path.now)) }
        ensures refused { IsAnswer (name_refusal self.now (Remove path.now)) result }
    {
        self.removable(path)?;
        Ok(Prepared {
            gone: Some(path.copy(alloc)?),
            first: None,
            below: Vec::new(alloc),
            next: self.next,
        })
    }

    // What renames an entry with all that is below it.
    pub(crate) fn prepare_rename(
        &self,
        alloc: Global,
        from: &Path,
        to: &Path,
    ) -> Result<Prepared, NameFault>
        ensures may { IfOk result (λ made. MayCarry made self.now) }
        ensures leads { IfOk result (λ made. carried made self.now ≡ name_effect self.now (Rename from.now to.now)) }
        ensures refused { IsAnswer (name_refusal self.now (Rename from.now to.now)) result }
    {
        let entry = movable(&self.kept, from.slice(), to.slice())?;
        Ok(Prepared {
            gone: Some(from.copy(alloc)?),
            first: Some((to.copy(alloc)?, entry)),
            below: moved_below(alloc, &self.kept, from.slice(), to.slice())?,
            next: self.next,
        })
    }

    // What carries out a call that is no operation on names: nothing.
    fn prepare_other(&self, alloc: Global, call: &Call) -> Result<Prepared, NameFault>
        requires { name_effect self.now call.now ≡ self.now }
        ensures may { IfOk result (λ made. MayCarry made self.now) }
        ensures leads { IfOk result (λ made. carried made self.now ≡ name_effect self.now call.now) }
        ensures refused { IsAnswer (name_refusal self.now call.now) result }
    {
        if let Some(why) = self.refusal(call) {
            return Err(NameFault::Refused(why));
        }
        Ok(Prepared {
            gone: None,
            first: None,
            below: Vec::new(alloc),
            next: self.next,
        })
    }

    /// Takes all memory for an operation on names, which may be carried out as long as the names stay as they are. A
    /// call that isn't one changes nothing. Nothing has changed here yet.
    pub fn prepare(&self, alloc: Global, call: &Call) -> Result<Prepared, NameFault>
        ensures may { IfOk result (λ made. MayCarry made self.now) }
        ensures leads { IfOk result (λ made. carried made self.now ≡ name_effect self.now call.now) }
        ensures refused { IsAnswer (name_refusal self.now call.now) result }
    {
        match call {
            Call::Create(path) => self.prepare_create(alloc, path),
            Call::Mkdir(path) => self.prepare_mkdir(alloc, path),
            Call::Remove(path) => self.prepare_remove(alloc, path),
            Call::Rename(from, to) => self.prepare_rename(alloc, from, to),
            _ => self.prepare_other(alloc, call),
        }
    }

    /// Carries out an operation that was prepared at these names, without memory. What lies below a path goes out or in as
    /// one: a few passes over the names, however many a rename takes along.
    pub fn apply(&mut self, prepared: Prepared)
        requires { MayCarry prepared self.old }
        ensures { self.new ≡ carried prepared self.old }
    {
        let Prepared {
            gone,
            first,
            below,
            next,
        } = prepared;
        self.kept.remove_gone(&gone);
        self.kept.put_all(first, below);
        self.next = next;
    }
}
