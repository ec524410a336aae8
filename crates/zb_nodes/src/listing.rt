ghost use Rattle.std.specs.Prelude.{◌≡◌, IfOk};
ghost use Rattle.zb_types.specs.Tree.{listed, listing};
ghost use Rattle.zb_names.specs.Shown.{seen};
ghost use Rattle.zb_tables.specs.Tables.{Contents, shown_tree};

use std::alloc::Global;
use zb_manager::Manager;
use zb_names::Entry;
use zb_types::{Listed, Mem, TreeEntry, TreeList};

/// What the tree shows of an entry.
fn listed(alloc: Global, manager: &Manager, entry: Entry) -> Mem<Listed>
    ensures { IfOk result (λ shown. (contents : Contents)
        → shown ≡ listed (shown_tree manager.now.sizes.block manager.now.tables contents).files (seen entry)) }
{
    match entry {
        Entry::Dir => Ok(Listed::Dir),
        Entry::File(fid) => Ok(Listed::File {
            fid,
            length: manager.lookup(alloc, fid, 0, 0)?.length,
        }),
    }
}

/// The tree that the tables show, in the order of path bytes, with the files' lengths.
pub(crate) fn list(alloc: Global, manager: &Manager) -> Mem<TreeList>
    ensures { IfOk result (λ list. (contents : Contents)
        → list ≡ listing (shown_tree manager.now.sizes.block manager.now.tables contents)) }
{
    let mut entries = Vec::new(alloc);
    for (path, entry) in manager.names().entries() {
        entries.push(TreeEntry {
            path: path.copy(alloc)?,
            listed: listed(alloc, manager, *entry)?,
        })?;
    }
    Ok(TreeList::of(entries))
}
