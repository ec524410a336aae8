ghost use Rattle.std.specs.Prelude.{◌≡◌, [], ◌∷◌, None, Some, false, IfOk, length};
ghost use Rattle.zb_types.specs.declared.calls.Call.TheVariants.{Remove};
ghost use Rattle.zb_types.specs.Names.{name_change, name_effect, name_refusal};
ghost use Rattle.zb_batch.specs.Batches.{IsNameCall};
ghost use Rattle.zb_names.specs.Changing.{MayCarry, carried};
ghost use Rattle.zb_manager.specs.Plans.{IsNamePlan, name_plan, removal};

use crate::work::Work;
use std::alloc::Global;
use zb_log_tables::ReplyList;
use zb_names::{Entry, NameFault, Names, Prepared as NameChange};
use zb_types::{Call, Fid, Mem, NoMemory, Path, Reply};

/// What a batch comes to, before its numbers and its room are looked at.
#[derive(Drop)]
pub(crate) struct Plan {
    pub(crate) work: Work,
    pub(crate) replies: ReplyList,
    pub(crate) copied: u32,
    pub(crate) rejected: u32,
    pub(crate) worn: bool,
}

// The plan of one operation on names.
fn make_name_plan(alloc: Global, work: Work, reply: Reply) -> Mem<Plan>
    ensures { IfOk result (λ plan. plan ≡ name_plan work reply) }
{
    let mut replies = ReplyList::new(alloc)?;
    replies.push(reply)?;
    Ok(Plan {
        work,
        replies,
        copied: 0,
        rejected: 0,
        worn: false,
    })
}

// What a removal that nothing refuses does: a file goes with its entry.
fn removal(names: &Names, path: &Path, change: NameChange) -> Work
    requires { name_refusal names.now (Remove path.now) ≡ None }
    ensures { result ≡ removal change (name_change names.now (Remove path.now)) }
{
    match names.resolve(path) {
        Ok(Entry::File(fid)) => Work::Remove { change, fid },
        Ok(Entry::Dir) | Err(_) => Work::Rename { change },
    }
}

// What an operation on names that nothing refuses comes to.
fn plan_change(alloc: Global, names: &Names, what: &Call, change: NameChange) -> Mem<Plan>
    requires call { IsNameCall what.now }
    requires free { name_refusal names.now what.now ≡ None }
    requires may { MayCarry change names.now }
    requires leads { carried change names.now ≡ name_effect names.now what.now }
    ensures { IfOk result (IsNamePlan names.now what.now None) }
{
    match what {
        Call::Create(_) => {
            let fid = Fid(names.next());
            make_name_plan(alloc, Work::Add { change, fid }, Reply::Made(fid))
        }
        Call::Remove(path) => make_name_plan(alloc, removal(names, path, change), Reply::Done),
        _ => make_name_plan(alloc, Work::Rename { change }, Reply::Done),
    }
}

/// What an operation on names comes to.
pub(crate) fn plan_name(alloc: Global, names: &Names, what: &Call) -> Mem<Plan>
    requires { IsNameCall what.now }
    ensures { IfOk result (IsNamePlan names.now what.now (name_refusal names.now what.now)) }
{
    match names.prepare(alloc, what) {
        Ok(change) => plan_change(alloc, names, what, change),
        Err(NameFault::Refused(why)) => make_name_plan(alloc, Work::Nothing, Reply::Refused(why)),
        Err(NameFault::NoMemory) => Err(NoMemory),
    }
}
