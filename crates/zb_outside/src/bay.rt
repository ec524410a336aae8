ghost use Rattle.std.specs.Prelude.{◌≡◌, ◌≤◌, ◌+◌, ◌^◌, Bool, IsTrue, is_err, length};
ghost use Rattle.zb_outside.specs.Meaning.{Meaning};
ghost use Rattle.zb_outside.specs.Platters.{ReadTold, WriteTold, SyncTold, RestartTold, BlankTold};
ghost use Rattle.zb_outside.specs.Counts.{Counts, Touches, HasWritten, AreExact};

use zb_types::Failed;

/// A bay of platters, named 0 to 255 and empty until written. Bytes are at places up to 2^63. A read past the end of a
/// platter gives zeros.
///
/// A crash may leave, of the ranges written since the last sync of a platter and of the part past its old end, any
/// bytes. Each call leaves the other platters and the streams as they were. It fails only where the count of failed
/// calls of its platter rose in it, or a part of that count stands at its last value.
pub trait Bay {
    /// Whether it tells what its platters hold.
    ghost tells: { Bool };

    /// What it tells: how it stands, and the moments that it has been through.
    ghost meaning: { Self → Meaning };

    /// How many calls of each platter and of each stream have failed, how many writes each platter was asked for, and
    /// what is left of a script. All but the last is always told.
    ghost counts: { Self → Counts };

    /// Whether moments count these very faults and writes. A fuse adds its own to those of its device.
    ghost is_exact: { Bool };

    /// What any run of calls may do to it.
    ghost follows: { Self → Self → Type 0 };

    /// Fills the buffer with the bytes that stand from that place on.
    fn read_at(&mut self, platter: usize, place: u64, buf: &mut [u8]) -> Result<(), Failed>
        requires platter { platter ≤ 255 }
        requires range { place + length buf.old ≤ 2 ^ 63 }
        ensures told { IsTrue tells → ReadTold platter place buf.new result (meaning self.old) (meaning self.new) }
        ensures touches { Touches counts follows platter 0 (is_err result) self.old self.new };

    /// Writes the bytes from that place on, after zeros from the platter's end up to there. A write that failed may
    /// have left any bytes in its range.
    fn write_at(&mut self, platter: usize, place: u64, bytes: &[u8]) -> Result<(), Failed>
        requires platter { platter ≤ 255 }
        requires range { place + length bytes.now ≤ 2 ^ 63 }
        ensures told { IsTrue tells → WriteTold platter place bytes.now result (meaning self.old) (meaning self.new) }
        ensures touches { Touches counts follows platter 1 (is_err result) self.old self.new }
        ensures written { HasWritten platter 1 (counts self.old) (counts self.new) };

    /// Makes what a read gives the one image that a crash may leave.
    fn sync(&mut self, platter: usize) -> Result<(), Failed>
        requires platter { platter ≤ 255 }
        ensures told { IsTrue tells → SyncTold platter result (meaning self.old) (meaning self.new) }
        ensures touches { Touches counts follows platter 0 (is_err result) self.old self.new };

    /// Makes the platter one of the images that a crash now may leave.
    fn restart(&mut self, platter: usize) -> Result<(), Failed>
        requires platter { platter ≤ 255 }
        ensures told { IsTrue tells → RestartTold platter result (meaning self.old) (meaning self.new) }
        ensures touches { Touches counts follows platter 0 (is_err result) self.old self.new };

    /// Makes the platter empty. After a blank that failed it is empty or one of its images.
    fn blank(&mut self, platter: usize) -> Result<(), Failed>
        requires platter { platter ≤ 255 }
        ensures told { IsTrue tells → BlankTold platter result (meaning self.old) (meaning self.new) }
        ensures touches { Touches counts follows platter 0 (is_err result) self.old self.new };

    /// What no calls do is what a run of calls may do.
    ghost follows_same: { (a : Self) → follows a a };

    /// A run of calls after another is a run of calls.
    ghost follows_then: { (a b c : Self) → follows a b → follows b c → follows a c };

    /// Moments count the faults and writes that are told, as long as there is memory for the record.
    ghost exact: { (b : Self) → IsTrue tells → IsTrue is_exact → IsTrue (meaning b).is_recording → AreExact (meaning b).now (counts b) };
}
