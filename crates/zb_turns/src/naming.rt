ghost use Rattle.std.specs.Prelude.{◌≡◌, true, length, IfOk};
ghost use Rattle.std.specs.Option.{option_copied};
ghost use Rattle.zb_types.specs.declared.calls.Call.TheVariants.{List as ListOf, Stat, Find};
ghost use Rattle.zb_types.specs.Tree.{stored};
ghost use Rattle.zb_types.specs.Apply.{reply_to};
ghost use Rattle.zb_tables.specs.Tables.{Contents, shown_tree};
ghost use Rattle.zb_turns.specs.Turns.{reads_names};

use std::alloc::Global;
use zb_manager::Manager;
use zb_names::{Entry, NameFault};
use zb_types::{Call, Fid, Mem, NoMemory, Path, Refusal, Reply};

fn list(alloc: Global, manager: &Manager, path: Option<&Path>) -> Mem<Reply>
    ensures { IfOk result (λ reply. (contents : Contents)
        → reply ≡ reply_to (shown_tree manager.now.sizes.block manager.now.tables contents) (ListOf (option_copied path.entry))) }
{
    match manager.names().list(alloc, path) {
        Err(NameFault::NoMemory) => Err(NoMemory),
        Err(NameFault::Refused(why)) => Ok(Reply::Refused(why)),
        Ok(names) => Ok(Reply::Names(names)),
    }
}

/// How many bytes a file has, none where there is no such file.
fn file_length(alloc: Global, manager: &Manager, fid: Fid) -> Mem<u32>
    ensures { IfOk result (λ len. (contents : Contents)
        → len ≡ length (stored (shown_tree manager.now.sizes.block manager.now.tables contents).files fid.0)) }
{
    Ok(manager.lookup(alloc, fid, 0, 0)?.length)
}

fn stat(alloc: Global, manager: &Manager, path: &Path) -> Mem<Reply>
    ensures { IfOk result (λ reply. (contents : Contents)
        → reply ≡ reply_to (shown_tree manager.now.sizes.block manager.now.tables contents) (Stat path.now)) }
{
    match manager.names().resolve(path) {
        Err(why) => Ok(Reply::Refused(why)),
        Ok(Entry::Dir) => Ok(Reply::Dir),
        Ok(Entry::File(fid)) => Ok(Reply::File {
            fid,
            length: file_length(alloc, manager, fid)?,
        }),
    }
}

fn find(manager: &Manager, path: &Path) -> Reply
    ensures { (contents : Contents)
        → result ≡ reply_to (shown_tree manager.now.sizes.block manager.now.tables contents) (Find path.now) }
{
    match manager.names().resolve(path) {
        Err(why) => Reply::Refused(why),
        Ok(Entry::Dir) => Reply::Refused(Refusal::IsDir),
        Ok(Entry::File(fid)) => Reply::Made(fid),
    }
}

/// Whether `answer_names` may be asked: a list, a stat or an open.
pub fn reads_names(call: &Call) -> bool
    ensures { result ≡ reads_names call.now }
{
    matches!(call, Call::List(_) | Call::Stat(_) | Call::Find(_))
}

/// The reply to a call that names alone answer: that of the tree which the tables show, whatever bytes stripes have.
pub fn answer_names(alloc: Global, manager: &Manager, call: &Call) -> Mem<Reply>
    requires { reads_names call.now ≡ true }
    ensures { IfOk result (λ reply. (contents : Contents)
        → reply ≡ reply_to (shown_tree manager.now.sizes.block manager.now.tables contents) call.now) }
{
    match call {
        Call::List(path) => list(alloc, manager, path.as_ref()),
        Call::Stat(path) => stat(alloc, manager, path),
        Call::Find(path) => Ok(find(manager, path)),
        _ => unreachable!(),
    }
}
