ghost use Rattle.std.specs.Prelude.{◌≡◌, Some};
ghost use Rattle.zb_types.specs.Names.{name_refusal};
ghost use Rattle.zb_types.specs.declared.calls.Call.TheVariants.{Create, Rename, List as ListOf, Find};

use crate::entries::Entry;
use crate::looking::refusal_of_new;
use crate::moving::movable;
use crate::names::{LAST_NUMBER, Names};
use zb_types::{Call, Path, Refusal};

impl Names {
    // Why no file is made at the path, if none is.
    pub(crate) fn refusal_of_create(&self, path: &Path) -> Option<Refusal>
        ensures { result ≡ name_refusal self.now (Create path.now) }
    {
        let why = refusal_of_new(&self.kept, path.slice());
        if why.is_some() {
            return why;
        }
        if self.next == LAST_NUMBER {
            return Some(Refusal::Full);
        }
        None
    }

    // Why no names are listed at the path, if none are.
    pub(crate) fn refusal_of_list(&self, path: &Path) -> Option<Refusal>
        ensures { result ≡ name_refusal self.now (ListOf (Some path.now)) }
    {
        match self.resolve(path) {
            Err(why) => Some(why),
            Ok(Entry::Dir) => None,
            Ok(Entry::File(_)) => Some(Refusal::NotDir),
        }
    }

    // Why no file is found at the path, if none is.
    fn refusal_of_find(&self, path: &Path) -> Option<Refusal>
        ensures { result ≡ name_refusal self.now (Find path.now) }
    {
        match self.resolve(path) {
            Err(why) => Some(why),
            Ok(Entry::Dir) => Some(Refusal::IsDir),
            Ok(Entry::File(_)) => None,
        }
    }

    // Why what stands at a path isn't renamed to another, if it isn't.
    fn refusal_of_rename(&self, from: &Path, to: &Path) -> Option<Refusal>
        ensures { result ≡ name_refusal self.now (Rename from.now to.now) }
    {
        movable(&self.kept, from.slice(), to.slice()).err()
    }

    /// Why the names refuse a call, if they do. Nothing changes.
    pub fn refusal(&self, call: &Call) -> Option<Refusal>
        ensures { result ≡ name_refusal self.now call.now }
    {
        match call {
            Call::Create(path) => self.refusal_of_create(path),
            Call::Mkdir(path) => refusal_of_new(&self.kept, path.slice()),
            Call::Remove(path) => self.removable(path).err(),
            Call::Rename(from, to) => self.refusal_of_rename(from, to),
            Call::List(Some(path)) => self.refusal_of_list(path),
            Call::Stat(path) => self.resolve(path).err(),
            Call::Find(path) => self.refusal_of_find(path),
            Call::Write { .. }
            | Call::Truncate { .. }
            | Call::Sync
            | Call::Read { .. }
            | Call::List(None) => None,
        }
    }
}
