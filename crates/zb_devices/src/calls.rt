// The calls of a device in memory.
ghost use Rattle.std.specs.Prelude.{◌≡◌, ◌≢◌, ◌≤◌, ◌+◌, ◌^◌, ℕ, not, IsTrue, if◌then◌else◌, length, slice_index, IfOk, OnErr, is_err};
ghost use Rattle.zb_outside.specs.Counts.{Raises, Touches, TouchesScript, TouchesReport, HasWritten, raised};
ghost use Rattle.zb_outside.specs.Platters.{ReadTold, WriteTold, SyncTold, RestartTold, BlankTold};
ghost use Rattle.zb_outside.specs.Runs.{Held};
ghost use Rattle.zb_outside.specs.Streams.{TakeTold, PutTold};
ghost use Rattle.zb_devices.specs.Memory.{IsKept, meaning_of_device, counts_of_device, streams_of_device, platter_of_device, AnswersOf, RefusesOf, StreamAnswersOf, AnyFollows, FailsTake, FailsPut, Spoils};
ghost use Rattle.zb_devices.specs.Record.{written, write_failed, failed, synced, restarted, blanked};

use crate::device::Device;
use zb_outside::raise;
use zb_types::Failed;

impl Device {
    // Counts a call that failed for want of memory.
    fn starve(&mut self, is_starved: bool)
        ensures { self.new ≡ record self.old { starved = if is_starved then raised self.old.starved else self.old.starved } }
    {
        if is_starved {
            self.starved = self.starved.saturating_add(1);
        }
    }

    // A call of a platter fails. True where there was memory to note it, and else no call works from now on.
    fn fail(&mut self, platter: usize) -> bool
        requires platter { platter ≤ 255 }
        requires kept { IsKept self.old }
        ensures kept { IsKept self.new }
        ensures held { Held platter (meaning_of_device self.old) (meaning_of_device self.new) }
        ensures faults { Raises platter (slice_index self.old.counts.faults) (slice_index self.new.counts.faults) }
        ensures writes { self.new.counts.writes ≡ self.old.counts.writes }
        ensures streams { streams_of_device self.new ≡ streams_of_device self.old }
        ensures starved { self.new.starved ≡ self.old.starved }
        ensures records { result ≡ not self.new.is_frozen }
        ensures noted { IsTrue result → platter_of_device self.new platter ≡ failed (platter_of_device self.old platter) }
        ensures others { (q : ℕ) → q ≢ platter → platter_of_device self.new q ≡ platter_of_device self.old q }
    {
        match self.note_fault(platter) {
            Ok(()) => return true,
            Err(_) => {}
        }
        self.is_frozen = true;
        raise(&mut self.counts.faults, platter);
        false
    }

    // A write fails, and its range may hold any bytes. True where there was memory to note it.
    fn fail_write(&mut self, platter: usize, place: usize, bytes: &[u8]) -> bool
        requires platter { platter ≤ 255 }
        requires range { place + length bytes.now ≤ 2 ^ 63 }
        requires kept { IsKept self.old }
        ensures kept { IsKept self.new }
        ensures told { Spoils platter place bytes.now (meaning_of_device self.old) (meaning_of_device self.new) }
        ensures faults { Raises platter (slice_index self.old.counts.faults) (slice_index self.new.counts.faults) }
        ensures writes { Raises platter (slice_index self.old.counts.writes) (slice_index self.new.counts.writes) }
        ensures streams { streams_of_device self.new ≡ streams_of_device self.old }
        ensures starved { self.new.starved ≡ self.old.starved }
        ensures records { result ≡ not self.new.is_frozen }
        ensures noted { IsTrue result → platter_of_device self.new platter ≡ write_failed place (length bytes.now) (platter_of_device self.old platter) }
        ensures others { (q : ℕ) → q ≢ platter → platter_of_device self.new q ≡ platter_of_device self.old q }
    {
        match self.note_write_fault(platter, place, bytes.len()) {
            Ok(()) => return true,
            Err(_) => {}
        }
        self.is_frozen = true;
        raise(&mut self.counts.faults, platter);
        raise(&mut self.counts.writes, platter);
        false
    }

    // A take fails. True where there was memory to note it.
    fn fail_take(&mut self) -> bool
        requires kept { IsKept self.old }
        ensures kept { IsKept self.new }
        ensures told { FailsTake self.old self.new }
        ensures starved { self.new.starved ≡ self.old.starved }
        ensures records { result ≡ not self.new.is_frozen }
    {
        match self.note_take_fault() {
            Ok(()) => return true,
            Err(_) => {}
        }
        self.is_frozen = true;
        self.counts.read_faults = self.counts.read_faults.saturating_add(1);
        false
    }

    // A put fails. True where there was memory to note it.
    fn fail_put(&mut self) -> bool
        requires kept { IsKept self.old }
        ensures kept { IsKept self.new }
        ensures told { FailsPut self.old self.new }
        ensures starved { self.new.starved ≡ self.old.starved }
        ensures records { result ≡ not self.new.is_frozen }
    {
        match self.note_put_fault() {
            Ok(()) => return true,
            Err(_) => {}
        }
        self.is_frozen = true;
        self.counts.write_faults = self.counts.write_faults.saturating_add(1);
        false
    }

    // A call of a platter fails, since it is due or for want of memory.
    fn refuse(&mut self, platter: usize, is_due: bool)
        requires platter { platter ≤ 255 }
        requires kept { IsKept self.old }
        ensures kept { IsKept self.new }
        ensures held { Held platter (meaning_of_device self.old) (meaning_of_device self.new) }
        ensures faults { Raises platter (slice_index self.old.counts.faults) (slice_index self.new.counts.faults) }
        ensures writes { self.new.counts.writes ≡ self.old.counts.writes }
        ensures streams { streams_of_device self.new ≡ streams_of_device self.old }
        ensures starved { self.old.starved ≤ self.new.starved }
        ensures refuses { RefusesOf platter is_due self.old self.new failed }
    {
        let is_noted = self.fail(platter);
        self.starve(!is_due || !is_noted);
    }

    // A write fails, since it is due or for want of memory.
    fn refuse_write(&mut self, platter: usize, place: usize, bytes: &[u8], is_due: bool)
        requires platter { platter ≤ 255 }
        requires range { place + length bytes.now ≤ 2 ^ 63 }
        requires kept { IsKept self.old }
        ensures kept { IsKept self.new }
        ensures told { Spoils platter place bytes.now (meaning_of_device self.old) (meaning_of_device self.new) }
        ensures faults { Raises platter (slice_index self.old.counts.faults) (slice_index self.new.counts.faults) }
        ensures writes { Raises platter (slice_index self.old.counts.writes) (slice_index self.new.counts.writes) }
        ensures streams { streams_of_device self.new ≡ streams_of_device self.old }
        ensures starved { self.old.starved ≤ self.new.starved }
        ensures refuses { RefusesOf platter is_due self.old self.new (write_failed place (length bytes.now)) }
    {
        let is_noted = self.fail_write(platter, place, bytes);
        self.starve(!is_due || !is_noted);
    }

    /// As the outside's own call. `fails` says whether it is due to fail.
    pub fn read(
        &mut self,
        fails: bool,
        platter: usize,
        place: usize,
        buf: &mut [u8],
    ) -> Result<(), Failed>
        requires platter { platter ≤ 255 }
        requires range { place + length buf.old ≤ 2 ^ 63 }
        requires kept { IsKept self.old }
        ensures kept { IsKept self.new }
        ensures told { ReadTold platter place buf.new result (meaning_of_device self.old) (meaning_of_device self.new) }
        ensures touches { Touches counts_of_device AnyFollows platter 0 (is_err result) self.old self.new }
        ensures starved { self.old.starved ≤ self.new.starved }
        ensures answers { AnswersOf platter fails result self.old self.new (λ s. s) failed }
    {
        if fails {
            self.refuse(platter, true);
            return Err(Failed);
        }
        self.plates[platter].read(place, buf);
        Ok(())
    }

    /// As the outside's own call. `fails` says whether it is due to fail.
    pub fn write(
        &mut self,
        fails: bool,
        platter: usize,
        place: usize,
        bytes: &[u8],
    ) -> Result<(), Failed>
        requires platter { platter ≤ 255 }
        requires range { place + length bytes.now ≤ 2 ^ 63 }
        requires kept { IsKept self.old }
        ensures kept { IsKept self.new }
        ensures told { WriteTold platter place bytes.now result (meaning_of_device self.old) (meaning_of_device self.new) }
        ensures touches { Touches counts_of_device AnyFollows platter 1 (is_err result) self.old self.new }
        ensures written { HasWritten platter 1 (counts_of_device self.old) (counts_of_device self.new) }
        ensures starved { self.old.starved ≤ self.new.starved }
        ensures answers { AnswersOf platter fails result self.old self.new (written place bytes.now) (write_failed place (length bytes.now)) }
    {
        if fails {
            self.refuse_write(platter, place, bytes, true);
            return Err(Failed);
        }
        match self.note_write(platter, place, bytes) {
            Ok(()) => Ok(()),
            Err(_) => {
                self.refuse_write(platter, place, bytes, false);
                Err(Failed)
            }
        }
    }

    /// As the outside's own call. `fails` says whether it is due to fail.
    pub fn sync(&mut self, fails: bool, platter: usize) -> Result<(), Failed>
        requires platter { platter ≤ 255 }
        requires kept { IsKept self.old }
        ensures kept { IsKept self.new }
        ensures told { SyncTold platter result (meaning_of_device self.old) (meaning_of_device self.new) }
        ensures touches { Touches counts_of_device AnyFollows platter 0 (is_err result) self.old self.new }
        ensures starved { self.old.starved ≤ self.new.starved }
        ensures answers { AnswersOf platter fails result self.old self.new synced failed }
    {
        if fails {
            self.refuse(platter, true);
            return Err(Failed);
        }
        match self.note_sync(platter) {
            Ok(()) => Ok(()),
            Err(_) => {
                self.refuse(platter, false);
                Err(Failed)
            }
        }
    }

    /// As the outside's own call. `fails` says whether it is due to fail.
    pub fn restart(&mut self, fails: bool, platter: usize, choice: u8) -> Result<(), Failed>
        requires platter { platter ≤ 255 }
        requires kept { IsKept self.old }
        ensures kept { IsKept self.new }
        ensures told { RestartTold platter result (meaning_of_device self.old) (meaning_of_device self.new) }
        ensures touches { Touches counts_of_device AnyFollows platter 0 (is_err result) self.old self.new }
        ensures starved { self.old.starved ≤ self.new.starved }
        ensures answers { AnswersOf platter fails result self.old self.new (restarted choice) failed }
    {
        if fails {
            self.refuse(platter, true);
            return Err(Failed);
        }
        match self.note_restart(platter, choice) {
            Ok(()) => Ok(()),
            Err(_) => {
                self.refuse(platter, false);
                Err(Failed)
            }
        }
    }

    /// As the outside's own call. `fails` says whether it is due to fail.
    pub fn blank(&mut self, fails: bool, platter: usize) -> Result<(), Failed>
        requires platter { platter ≤ 255 }
        requires kept { IsKept self.old }
        ensures kept { IsKept self.new }
        ensures told { BlankTold platter result (meaning_of_device self.old) (meaning_of_device self.new) }
        ensures touches { Touches counts_of_device AnyFollows platter 0 (is_err result) self.old self.new }
        ensures starved { self.old.starved ≤ self.new.starved }
        ensures answers { AnswersOf platter fails result self.old self.new blanked failed }
    {
        if fails {
            self.refuse(platter, true);
            return Err(Failed);
        }
        match self.note_blank(platter) {
            Ok(()) => Ok(()),
            Err(_) => {
                self.refuse(platter, false);
                Err(Failed)
            }
        }
    }

    /// As the outside's own call. `fails` says whether it is due to fail.
    pub fn take(&mut self, fails: bool, buf: &mut [u8]) -> Result<usize, Failed>
        requires kept { IsKept self.old }
        ensures kept { IsKept self.new }
        ensures bound { IfOk result (λ n. n ≤ length buf.new) }
        ensures told { TakeTold buf.new result (streams_of_device self.old) (streams_of_device self.new) (meaning_of_device self.old) (meaning_of_device self.new) }
        ensures touches { TouchesScript counts_of_device AnyFollows (is_err result) self.old self.new }
        ensures starved { self.old.starved ≤ self.new.starved }
        ensures answers { StreamAnswersOf fails result self.old self.new }
    {
        if fails {
            let is_noted = self.fail_take();
            self.starve(!is_noted);
            return Err(Failed);
        }
        match self.note_take(buf) {
            Ok(n) => Ok(n),
            Err(_) => {
                self.fail_take();
                self.starve(true);
                Err(Failed)
            }
        }
    }

    /// As the outside's own call. `fails` says whether it is due to fail. A put that fails prints nothing.
    pub fn put(&mut self, fails: bool, bytes: &[u8]) -> Result<(), Failed>
        requires kept { IsKept self.old }
        ensures kept { IsKept self.new }
        ensures told { PutTold bytes.now result (streams_of_device self.old) (streams_of_device self.new) (meaning_of_device self.old) (meaning_of_device self.new) }
        ensures none { OnErr result ((meaning_of_device self.new).now.printed ≡ (meaning_of_device self.old).now.printed) }
        ensures touches { TouchesReport counts_of_device AnyFollows (is_err result) self.old self.new }
        ensures starved { self.old.starved ≤ self.new.starved }
        ensures answers { StreamAnswersOf fails result self.old self.new }
    {
        if fails {
            let is_noted = self.fail_put();
            self.starve(!is_noted);
            return Err(Failed);
        }
        match self.note_put(bytes) {
            Ok(()) => Ok(()),
            Err(_) => {
                self.fail_put();
                self.starve(true);
                Err(Failed)
            }
        }
    }
}
