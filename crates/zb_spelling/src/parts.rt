use zb_log_tables::{HeldTable, LogTable};
use zb_names::Names;
use zb_pointers::Pointers;
use zb_types::Members;

/// What the tables have beside names, files, logs and held stripes: the members, and the numbers of the next log and of
/// the journal's next entry.
#[derive(Clone, Copy)]
pub struct Numbers {
    pub members: Members,
    pub next_log: u32,
    pub next_entry: u64,
}

/// The parts of the file manager's tables. The number of the next file is that of the names.
#[derive(Drop)]
pub struct Parts {
    pub names: Names,
    pub pointers: Pointers,
    pub logs: LogTable,
    pub held: HeldTable,
    pub numbers: Numbers,
}
