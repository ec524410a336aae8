ghost use Rattle.std.specs.Prelude.{◌≡◌, ◌≤◌, ◌<◌, ◌+◌, ◌^◌, min, IsTrue, OnOk, is_err, length};
ghost use Rattle.zb_outside.specs.Counts.{Touches, HasWritten};
ghost use Rattle.zb_outside.specs.Runs.{IsSettled, SparesOthers};
ghost use Rattle.zb_ckpt.specs.Says.{pages_of};
ghost use Rattle.zb_ckpt.specs.Write.{FillTold, FillSyncedTold};

use zb_outside::Bay;
use zb_types::Failed;

/// Where the pages begin on platter 0.
pub(crate) const START: u64 = 1_048_576;

/// The bytes of a page.
pub(crate) const PAGE: usize = 65_536;

/// How many of so many bytes stand in one page.
pub(crate) fn page_len(left: usize) -> usize
    ensures { result ≡ min left 65536 }
{
    if left < PAGE {
        return left;
    }
    PAGE
}

// Writes these bytes into the pages of this slot, each page by one write.
fn write_pages<B: Bay>(bay: &mut B, slot: u8, bytes: &[u8]) -> Result<(), Failed>
    requires slot { slot < 2 }
    requires size { length bytes.now ≤ 2 ^ 40 }
    ensures told { IsTrue B.tells → IsSettled 0 (B.meaning bay.old).now → FillTold slot bytes.now result (B.meaning bay.old) (B.meaning bay.new) }
    ensures others { IsTrue B.tells → SparesOthers 0 (B.meaning bay.old) (B.meaning bay.new) }
    ensures touches { Touches B.counts B.follows 0 (pages_of (length bytes.now)) (is_err result) bay.old bay.new }
    ensures written { OnOk result (HasWritten 0 (pages_of (length bytes.now)) (B.counts bay.old) (B.counts bay.new)) }
{
    let pages = (bytes.len() + (PAGE - 1)) / PAGE;
    for page in 0..pages {
        let from = page * PAGE;
        let (_, rest) = bytes.split_at(from);
        let (part, _) = rest.split_at(page_len(rest.len()));
        let place = START + (2 * page as u64 + u64::from(slot)) * PAGE as u64;
        bay.write_at(0, place, part)?;
    }
    Ok(())
}

/// Writes these bytes into the pages of this slot of platter 0, and syncs them.
///
/// `Failed` comes only where a call of the platter failed.
pub(crate) fn fill<B: Bay>(bay: &mut B, slot: u8, bytes: &[u8]) -> Result<(), Failed>
    requires slot { slot < 2 }
    requires size { length bytes.now ≤ 2 ^ 40 }
    ensures told { IsTrue B.tells → IsSettled 0 (B.meaning bay.old).now → FillSyncedTold slot bytes.now result (B.meaning bay.old) (B.meaning bay.new) }
    ensures others { IsTrue B.tells → SparesOthers 0 (B.meaning bay.old) (B.meaning bay.new) }
    ensures touches { Touches B.counts B.follows 0 (pages_of (length bytes.now)) (is_err result) bay.old bay.new }
    ensures written { OnOk result (HasWritten 0 (pages_of (length bytes.now)) (B.counts bay.old) (B.counts bay.new)) }
{
    write_pages(bay, slot, bytes)?;
    bay.sync(0)
}
