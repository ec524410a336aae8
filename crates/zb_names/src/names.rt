ghost use Rattle.std.specs.Prelude.{◌≡◌, ◌+◌, ◌≤◌, [], ◌∷◌, None, Some, false, OnOk, OnErr, IfOk, IfErr, MatchResult, IfSome, IsSome, ◌↔◌, IsTrue, length, option_map, slice_get};
ghost use Rattle.std.specs.List.{list_any};
ghost use Rattle.zb_types.specs.Names.{first_names, walk, has, find, is_below, name_refusal, name_effect, name_change, name_reply, names_in};
ghost use Rattle.zb_types.specs.Tree.{or_none};
ghost use Rattle.std.specs.Option.{option_copied};
ghost use Rattle.zb_types.specs.declared.calls.Call.TheVariants.{Create, Mkdir, Remove, Rename, Stat, List as ListOf};
ghost use Rattle.zb_types.specs.declared.calls.Reply.TheVariants.{Made};
ghost use Rattle.zb_names.specs.Shown.{seen, listed, change_of};
ghost use Rattle.zb_names.specs.Sound.{IsTree};
ghost use Rattle.zb_names.specs.Answers.{IsAnswer};

use crate::entries::{Entry, EntryList};
use crate::faults::NameFault;
use crate::listing::names_behind;
use crate::loading::{all_hang, are_numbered, rise};
use crate::looking::{entry_at, has_below};
use std::alloc::Global;
use std::marker::Model;
use zb_types::{Fid, Mem, NameList, Path, Refusal};

pub(crate) const LAST_NUMBER: u32 = 4_294_967_295;

/// Files and directories under their paths, which contracts see as the names of the plain tree. There is room for the
/// most names from the start: an operation takes memory for new paths alone. They lie in one row in the order of their
/// bytes. A path is found by halving; what is put in or taken out moves each name behind it, once for an entry and once
/// for all that is below it.
#[derive(Drop)]
pub struct Names {
    pub(crate) next: u32,
    pub(crate) kept: EntryList,
}

impl Model for Names {
    ghost use Rattle.zb_types.specs.Names.{Names as PlainNames};
    ghost use Rattle.zb_names.specs.Sound.{IsSound};

    ghost Value = { PlainNames };

    ghost view = { λ a. record { next = a.next; entries = a.kept.entries } };

    ghost invariant = { λ a. IsSound a.next a.kept };
}

impl Names {
    /// No names; the first file gets number 1.
    pub fn new(alloc: Global) -> Mem<Names>
        ensures { IfOk result (λ names. names ≡ first_names) }
    {
        Ok(Names {
            next: 1,
            kept: EntryList::of(alloc, &[])?,
        })
    }

    /// The names with these entries and this number for the next file. None exactly where the number is 0, where the
    /// paths don't rise by their bytes, where a proper front of a path isn't that of a directory, or where the number
    /// of a file is 0 or not below the next. That no two files have one number, and that there are at most 4,096
    /// names, isn't looked at.
    pub fn load(alloc: Global, next: u32, list: &[(Path, Entry)]) -> Mem<Option<Names>>
        ensures same { IfOk result (λ found. IfSome found (λ names. names ≡ record { next = next; entries = listed list.now })) }
        ensures exact { IfOk result (λ found. IsSome found ↔ IsTree next (listed list.now)) }
    {
        if next == 0 || !rise(list) {
            return Ok(None);
        }
        if !are_numbered(next, list) {
            return Ok(None);
        }
        let kept = EntryList::of(alloc, list)?;
        if !all_hang(&kept, list) {
            return Ok(None);
        }
        Ok(Some(Names { next, kept }))
    }

    /// What stands at the path. Refused where a front of the path isn't a directory, and where nothing stands there.
    pub fn resolve(&self, path: &Path) -> Result<Entry, Refusal>
        ensures found { IfOk result (λ entry. find path.now self.now.entries ≡ Some (seen entry)) }
        ensures refused { MatchResult result (λ _. name_refusal self.now (Stat path.now) ≡ None) (λ why. name_refusal self.now (Stat path.now) ≡ Some why) }
    {
        entry_at(&self.kept, path.slice())
    }

    /// The number that the next file gets.
    pub fn next(&self) -> u32
        ensures { result ≡ self.now.next }
    {
        self.next
    }

    /// Makes an empty file, and gives its number.
    pub fn create(&mut self, alloc: Global, path: &Path) -> Result<Fid, NameFault>
        ensures ok { OnOk result (self.new ≡ name_effect self.old (Create path.now)) }
        ensures number { IfOk result (λ fid. Made fid ≡ name_reply self.old (Create path.now)) }
        ensures refused { IsAnswer (name_refusal self.old (Create path.now)) result }
        ensures err { OnErr result (self.new ≡ self.old) }
    {
        let number = self.next;
        let prepared = self.prepare_create(alloc, path)?;
        self.apply(prepared);
        Ok(Fid(number))
    }

    /// Makes a directory.
    pub fn mkdir(&mut self, alloc: Global, path: &Path) -> Result<(), NameFault>
        ensures ok { OnOk result (self.new ≡ name_effect self.old (Mkdir path.now)) }
        ensures refused { IsAnswer (name_refusal self.old (Mkdir path.now)) result }
        ensures err { OnErr result (self.new ≡ self.old) }
    {
        let prepared = self.prepare_mkdir(alloc, path)?;
        self.apply(prepared);
        Ok(())
    }

    // The number of the file that may be removed, or none for a directory.
    pub(crate) fn removable(&self, path: &Path) -> Result<Option<Fid>, Refusal>
        ensures none_below { OnOk result (list_any (λ e. is_below path.now e.0) self.now.entries ≡ false) }
        ensures file { IfOk result (λ fid. change_of fid ≡ name_change self.now (Remove path.now)) }
        ensures refused { MatchResult result (λ _. name_refusal self.now (Remove path.now) ≡ None) (λ why. name_refusal self.now (Remove path.now) ≡ Some why) }
    {
        let entry = entry_at(&self.kept, path.slice())?;
        if has_below(&self.kept, path.slice()) {
            return Err(Refusal::NotEmpty);
        }
        match entry {
            Entry::File(fid) => Ok(Some(fid)),
            Entry::Dir => Ok(None),
        }
    }

    /// Removes a file or an empty directory, without memory. Gives the number of a file.
    pub fn remove(&mut self, path: &Path) -> Result<Option<Fid>, Refusal>
        ensures ok { OnOk result (self.new ≡ name_effect self.old (Remove path.now)) }
        ensures file { IfOk result (λ fid. change_of fid ≡ name_change self.old (Remove path.now)) }
        ensures refused { MatchResult result (λ _. name_refusal self.old (Remove path.now) ≡ None) (λ why. name_refusal self.old (Remove path.now) ≡ Some why) }
        ensures err { OnErr result (self.new ≡ self.old) }
    {
        let fid = self.removable(path)?;
        self.kept.remove(path.slice());
        Ok(fid)
    }

    /// Renames a file, or a directory with what lies below it.
    pub fn rename(&mut self, alloc: Global, from: &Path, to: &Path) -> Result<(), NameFault>
        ensures ok { OnOk result (self.new ≡ name_effect self.old (Rename from.now to.now)) }
        ensures refused { IsAnswer (name_refusal self.old (Rename from.now to.now)) result }
        ensures err { OnErr result (self.new ≡ self.old) }
    {
        let prepared = self.prepare_rename(alloc, from, to)?;
        self.apply(prepared);
        Ok(())
    }

    /// How many names there are.
    pub fn count(&self) -> usize
        ensures count { result ≡ length self.now.entries }
        ensures tree { IsTree self.now.next self.now.entries }
    {
        self.kept.slice().len()
    }

    /// The same names once more.
    pub fn copy(&self, alloc: Global) -> Mem<Names>
        ensures { IfOk result (λ names. names ≡ self.now) }
    {
        Ok(Names {
            next: self.next,
            kept: EntryList::of(alloc, self.kept.slice())?,
        })
    }

    /// Each path with what stands there, in the order of the paths' bytes.
    pub fn entries(&self) -> &[(Path, Entry)]
        ensures { listed result.now ≡ self.now.entries }
    {
        self.kept.slice()
    }

    /// The path with this place in the order of the paths' bytes, from 0, and what stands there.
    pub fn at(&self, i: usize) -> Option<(&Path, Entry)>
        ensures { option_map (λ e. (e.0.now, seen e.1)) result ≡ slice_get self.now.entries i }
    {
        let (path, entry) = self.kept.slice().get(i)?;
        Some((path, *entry))
    }

    fn list_root(&self, alloc: Global) -> Mem<NameList>
        ensures { IfOk result (λ names. names ≡ names_in [] self.now.entries) }
    {
        names_behind(alloc, &self.kept, b"/")
    }

    fn list_at(&self, alloc: Global, path: &Path) -> Result<NameList, NameFault>
        ensures ok { IfOk result (λ names. names ≡ names_in path.now self.now.entries) }
        ensures refused { IsAnswer (name_refusal self.now (ListOf (Some path.now))) result }
    {
        if let Some(why) = self.refusal_of_list(path) {
            return Err(NameFault::Refused(why));
        }
        let mut front = Vec::from_slice(alloc, path.slice())?;
        front.push(b'/')?;
        Ok(names_behind(alloc, &self.kept, &front)?)
    }

    /// The names in a directory, or in the root, in the order of their paths.
    pub fn list(&self, alloc: Global, path: Option<&Path>) -> Result<NameList, NameFault>
        ensures ok { IfOk result (λ names. names ≡ names_in (or_none (option_copied path.entry)) self.now.entries) }
        ensures refused { IsAnswer (name_refusal self.now (ListOf (option_copied path.entry))) result }
    {
        match path {
            None => Ok(self.list_root(alloc)?),
            Some(path) => self.list_at(alloc, path),
        }
    }
}
