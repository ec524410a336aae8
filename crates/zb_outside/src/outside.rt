ghost use Rattle.std.specs.Prelude.{◌≤◌, IsTrue, IfOk, is_err, length};
ghost use Rattle.zb_outside.specs.Counts.{TouchesScript, TouchesReport};
ghost use Rattle.zb_outside.specs.Streams.{AreCounted, TakeTold, PutTold};

use crate::bay::Bay;
use zb_types::Failed;

/// The outside of the program: platters, a script to take and a report to print.
pub trait Outside: Bay {
    /// Takes bytes of the script into the front of `buf`, and answers how many. 0 at a buffer that isn't empty is the
    /// end of the script.
    ///
    /// `Failed` comes only where the count of failed takes rose. Then nothing was taken.
    fn take(&mut self, buf: &mut [u8]) -> Result<usize, Failed>
        ensures bound { IfOk result (λ n. n ≤ length buf.new) }
        ensures told { IsTrue Self.tells → TakeTold buf.new result (Self.counts self.old).streams (Self.counts self.new).streams (Self.meaning self.old) (Self.meaning self.new) }
        ensures touches { TouchesScript Self.counts Self.follows (is_err result) self.old self.new };

    /// Prints all of the bytes.
    ///
    /// `Failed` comes only where the count of failed puts rose. Then a front of the bytes was printed.
    fn put(&mut self, bytes: &[u8]) -> Result<(), Failed>
        ensures told { IsTrue Self.tells → PutTold bytes.now result (Self.counts self.old).streams (Self.counts self.new).streams (Self.meaning self.old) (Self.meaning self.new) }
        ensures touches { TouchesReport Self.counts Self.follows (is_err result) self.old self.new };

    /// The moments count what the streams count, as long as there is memory for the record.
    ghost counted: { (o : Self) → IsTrue Self.tells → IsTrue (Self.meaning o).is_recording → AreCounted (Self.meaning o).now (Self.counts o).streams };
}
