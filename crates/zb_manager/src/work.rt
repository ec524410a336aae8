use zb_delta::DeltaList;
use zb_names::Prepared as NameChange;
use zb_types::{Fid, ItemList};

/// A change of one file, made at the version that it has.
#[derive(Drop)]
pub(crate) enum Step {
    /// It reaches to this end at least.
    Raise {
        fid: Fid,
        end: u32,
        deltas: DeltaList,
    },
    /// It gets this length.
    Shorten {
        fid: Fid,
        size: u32,
        deltas: DeltaList,
    },
}

/// Changes of files, one behind the other.
pub(crate) type StepList = ItemList<Step>;

/// What a batch does to names and files.
#[derive(Drop)]
pub(crate) enum Work {
    Nothing,
    /// The names change, and this file is added.
    Add { change: NameChange, fid: Fid },
    /// The names change, and this file is dropped.
    Remove { change: NameChange, fid: Fid },
    /// The names change, and the files stay.
    Rename { change: NameChange },
    Files(StepList),
    Move(DeltaList),
}
