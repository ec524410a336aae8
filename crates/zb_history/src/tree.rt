ghost use Rattle.std.specs.Prelude.{◌≡◌, ◌≤◌, false, length, IfOk, IfSome, OnOk, OnErr};
ghost use Rattle.std.specs.Option.{option_copied};
ghost use Rattle.zb_types.specs.declared.calls.Call.TheVariants.{Create, Mkdir, Remove, Rename, Write, Truncate, Read, List as ListOf, Stat, Find};
ghost use Rattle.zb_types.specs.Keyed.{look};
ghost use Rattle.zb_types.specs.Tree.{first_tree, stored};
ghost use Rattle.zb_types.specs.Apply.{is_update, max_file, applied, reply_to};

use std::alloc::Global;
use std::collections::BTreeMap;
use std::marker::Model;
use zb_names::{Entry, NameFault, Names};
use zb_types::{
    ByteList, Call, Fid, MAX_FILE, Mem, NoMemory, Path, Refusal, Reply, bytes_from, bytes_resized,
    bytes_written,
};

/// The plain tree, which contracts see as names, and bytes under the numbers of files.
#[derive(Drop)]
pub struct Tree {
    names: Names,
    files: BTreeMap<u32, ByteList>,
}

impl Model for Tree {
    ghost use Rattle.zb_types.specs.Tree.{Tree as PlainTree};
    ghost use Rattle.zb_history.specs.Files.{AreFiles};

    ghost Value = { PlainTree };

    ghost view = { λ a. record { names = a.names; files = a.files.entries } };

    ghost invariant = { λ a. AreFiles a.files.entries };
}

impl Tree {
    /// The empty tree; the first file gets number 1.
    pub fn new(alloc: Global) -> Mem<Tree>
        ensures { IfOk result (λ tree. tree ≡ first_tree) }
    {
        Ok(Tree {
            names: Names::new(alloc)?,
            files: BTreeMap::new(alloc),
        })
    }

    // The bytes of a file.
    fn file(&self, fid: Fid) -> Option<&ByteList>
        ensures found { option_copied result ≡ look fid.0 self.now.files }
        ensures short { IfSome result (λ bytes. length bytes.now ≤ max_file) }
    {
        self.files.get(&fid.0)
    }

    fn create(&mut self, alloc: Global, path: &Path) -> Mem<Reply>
        ensures reply { IfOk result (λ reply. reply ≡ reply_to self.old (Create path.now)) }
        ensures ok { OnOk result (self.new ≡ applied self.old (Create path.now)) }
        ensures err { OnErr result (self.new ≡ self.old) }
    {
        match self.names.prepare_create(alloc, path) {
            Err(NameFault::NoMemory) => Err(NoMemory),
            Err(NameFault::Refused(why)) => Ok(Reply::Refused(why)),
            Ok(prepared) => {
                let fid = Fid(self.names.next());
                let empty = ByteList::new(alloc)?;
                self.files.insert(fid.0, empty)?;
                self.names.apply(prepared);
                Ok(Reply::Made(fid))
            }
        }
    }

    fn mkdir(&mut self, alloc: Global, path: &Path) -> Mem<Reply>
        ensures reply { IfOk result (λ reply. reply ≡ reply_to self.old (Mkdir path.now)) }
        ensures ok { OnOk result (self.new ≡ applied self.old (Mkdir path.now)) }
        ensures err { OnErr result (self.new ≡ self.old) }
    {
        match self.names.mkdir(alloc, path) {
            Err(NameFault::NoMemory) => Err(NoMemory),
            Err(NameFault::Refused(why)) => Ok(Reply::Refused(why)),
            Ok(()) => Ok(Reply::Done),
        }
    }

    fn remove(&mut self, path: &Path) -> Reply
        ensures reply { result ≡ reply_to self.old (Remove path.now) }
        ensures tree { self.new ≡ applied self.old (Remove path.now) }
    {
        match self.names.remove(path) {
            Err(why) => Reply::Refused(why),
            Ok(None) => Reply::Done,
            Ok(Some(fid)) => {
                self.files.remove(&fid.0);
                Reply::Done
            }
        }
    }

    fn rename(&mut self, alloc: Global, from: &Path, to: &Path) -> Mem<Reply>
        ensures reply { IfOk result (λ reply. reply ≡ reply_to self.old (Rename from.now to.now)) }
        ensures ok { OnOk result (self.new ≡ applied self.old (Rename from.now to.now)) }
        ensures err { OnErr result (self.new ≡ self.old) }
    {
        match self.names.rename(alloc, from, to) {
            Err(NameFault::NoMemory) => Err(NoMemory),
            Err(NameFault::Refused(why)) => Ok(Reply::Refused(why)),
            Ok(()) => Ok(Reply::Done),
        }
    }

    fn write(&mut self, alloc: Global, fid: Fid, offset: u32, bytes: &ByteList) -> Mem<Reply>
        ensures reply { IfOk result (λ reply. reply ≡ reply_to self.old (Write fid offset bytes.now)) }
        ensures ok { OnOk result (self.new ≡ applied self.old (Write fid offset bytes.now)) }
        ensures err { OnErr result (self.new ≡ self.old) }
    {
        let Some(old) = self.file(fid) else {
            return Ok(Reply::Refused(Refusal::Gone));
        };
        let place = offset as usize;
        if bytes.len() > MAX_FILE || place + bytes.len() > MAX_FILE {
            return Ok(Reply::Refused(Refusal::TooBig));
        }
        let new = bytes_written(alloc, old.slice(), place, bytes.slice())?;
        self.files.insert(fid.0, new)?;
        Ok(Reply::Done)
    }

    fn truncate(&mut self, alloc: Global, fid: Fid, length: u32) -> Mem<Reply>
        ensures reply { IfOk result (λ reply. reply ≡ reply_to self.old (Truncate fid length)) }
        ensures ok { OnOk result (self.new ≡ applied self.old (Truncate fid length)) }
        ensures err { OnErr result (self.new ≡ self.old) }
    {
        let Some(old) = self.file(fid) else {
            return Ok(Reply::Refused(Refusal::Gone));
        };
        if length as usize > MAX_FILE {
            return Ok(Reply::Refused(Refusal::TooBig));
        }
        let new = bytes_resized(alloc, old.slice(), length as usize)?;
        self.files.insert(fid.0, new)?;
        Ok(Reply::Done)
    }

    fn read(&self, alloc: Global, fid: Fid, offset: u32, len: u32) -> Mem<Reply>
        ensures { IfOk result (λ reply. reply ≡ reply_to self.now (Read fid offset len)) }
    {
        match self.file(fid) {
            None => Ok(Reply::Refused(Refusal::Gone)),
            Some(bytes) => {
                let found = bytes_from(alloc, bytes.slice(), offset as usize, len as usize)?;
                Ok(Reply::Bytes(found))
            }
        }
    }

    fn list(&self, alloc: Global, path: Option<&Path>) -> Mem<Reply>
        ensures { IfOk result (λ reply. reply ≡ reply_to self.now (ListOf (option_copied path.entry))) }
    {
        match self.names.list(alloc, path) {
            Err(NameFault::NoMemory) => Err(NoMemory),
            Err(NameFault::Refused(why)) => Ok(Reply::Refused(why)),
            Ok(names) => Ok(Reply::Names(names)),
        }
    }

    // How many bytes a file has, none where there is no such file.
    fn length(&self, fid: Fid) -> u32
        ensures { result ≡ length (stored self.now.files fid.0) }
    {
        match self.file(fid) {
            None => 0,
            Some(bytes) => bytes.len() as u32,
        }
    }

    fn stat(&self, path: &Path) -> Reply
        ensures { result ≡ reply_to self.now (Stat path.now) }
    {
        match self.names.resolve(path) {
            Err(why) => Reply::Refused(why),
            Ok(Entry::Dir) => Reply::Dir,
            Ok(Entry::File(fid)) => Reply::File {
                fid,
                length: self.length(fid),
            },
        }
    }

    fn find(&self, path: &Path) -> Reply
        ensures { result ≡ reply_to self.now (Find path.now) }
    {
        match self.names.resolve(path) {
            Err(why) => Reply::Refused(why),
            Ok(Entry::Dir) => Reply::Refused(Refusal::IsDir),
            Ok(Entry::File(fid)) => Reply::Made(fid),
        }
    }

    /// Answers a read.
    pub fn answer(&self, alloc: Global, call: &Call) -> Mem<Reply>
        requires { is_update call.now ≡ false }
        ensures { IfOk result (λ reply. reply ≡ reply_to self.now call.now) }
    {
        match call {
            Call::Read { fid, offset, len } => self.read(alloc, *fid, *offset, *len),
            Call::List(path) => self.list(alloc, path.as_ref()),
            Call::Stat(path) => Ok(self.stat(path)),
            Call::Find(path) => Ok(self.find(path)),
            _ => unreachable!(),
        }
    }

    /// Carries out an update, and answers it; answers a read, which changes nothing.
    pub fn apply(&mut self, alloc: Global, call: &Call) -> Mem<Reply>
        ensures reply { IfOk result (λ reply. reply ≡ reply_to self.old call.now) }
        ensures ok { OnOk result (self.new ≡ applied self.old call.now) }
        ensures err { OnErr result (self.new ≡ self.old) }
    {
        match call {
            Call::Create(path) => self.create(alloc, path),
            Call::Mkdir(path) => self.mkdir(alloc, path),
            Call::Remove(path) => Ok(self.remove(path)),
            Call::Rename(from, to) => self.rename(alloc, from, to),
            Call::Write { fid, offset, bytes } => self.write(alloc, *fid, *offset, bytes),
            Call::Truncate { fid, length } => self.truncate(alloc, *fid, *length),
            Call::Sync => Ok(Reply::Done),
            Call::Read { .. } | Call::List(_) | Call::Stat(_) | Call::Find(_) => {
                self.answer(alloc, call)
            }
        }
    }
}
