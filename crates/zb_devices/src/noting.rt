// What a device in memory does, with its note in the record. Each of these fails only for want of memory, and then all
// is as it was.
ghost use Rattle.std.specs.Prelude.{◌≡◌, ◌≤◌, ◌+◌, ◌^◌, min, ℕ, if◌then◌else◌, true, false, [], ◌∷◌, ◌++◌, length, take, drop, slice_index, IfOk, OnOk, OnErr};
ghost use Rattle.zb_outside.specs.Counts.{Raises, raised};
ghost use Rattle.zb_devices.specs.Memory.{Keeps, IsKept, Noted, Same, Leaves};
ghost use Rattle.zb_devices.specs.declared.device.Change.{Change};
ghost use Rattle.zb_devices.specs.declared.device.Event.{Event};

use crate::device::{Change, Device, Event};
use zb_outside::raise;
use zb_types::{Mem, NoMemory};

// Copies as many bytes from that place on as there are and as there is room for.
fn copy_from(script: &[u8], place: usize, to: &mut [u8]) -> usize
    requires { place ≤ length script.now }
    ensures count { result ≡ min (length (drop place script.now)) (length to.old) }
    ensures copied { take result to.new ≡ take result (drop place script.now) }
{
    let (_, rest) = script.split_at(place);
    let n = rest.len().min(to.len());
    to[..n].copy_from_slice(&rest[..n]);
    n
}

impl Device {
    /// Writes the bytes.
    pub fn note_write(&mut self, platter: usize, place: usize, bytes: &[u8]) -> Mem<()>
        requires platter { platter ≤ 255 }
        requires range { place + length bytes.now ≤ 2 ^ 63 }
        requires kept { IsKept self.old }
        ensures kept { IsKept self.new }
        ensures noted { OnOk result ((copy : _) × (copy.items ≡ bytes.now) × Noted (Event.At platter (Change.Wrote place copy)) self.old self.new) }
        ensures faults { OnOk result (self.new.counts.faults ≡ self.old.counts.faults) }
        ensures writes { OnOk result (Raises platter (slice_index self.old.counts.writes) (slice_index self.new.counts.writes)) }
        ensures leaves { OnOk result (Leaves self.old self.new) }
        ensures err { OnErr result (Same self.old self.new) }
    {
        if self.is_frozen {
            return Err(NoMemory);
        }
        let copy = Vec::from_slice(self.alloc, bytes)?;
        self.events.reserve(1)?;
        self.plates[platter].write(self.alloc, place, bytes)?;
        self.events
            .push(Event::At(platter, Change::Wrote(place, copy)))?;
        raise(&mut self.counts.writes, platter);
        Ok(())
    }

    /// Counts a range as written by a write that fails.
    pub fn note_write_fault(&mut self, platter: usize, place: usize, count: usize) -> Mem<()>
        requires platter { platter ≤ 255 }
        requires range { place + count ≤ 2 ^ 63 }
        requires kept { IsKept self.old }
        ensures kept { IsKept self.new }
        ensures noted { OnOk result (Noted (Event.At platter (Change.WriteFault place count)) self.old self.new) }
        ensures faults { OnOk result (Raises platter (slice_index self.old.counts.faults) (slice_index self.new.counts.faults)) }
        ensures writes { OnOk result (Raises platter (slice_index self.old.counts.writes) (slice_index self.new.counts.writes)) }
        ensures leaves { OnOk result (Leaves self.old self.new) }
        ensures err { OnErr result (Same self.old self.new) }
    {
        if self.is_frozen {
            return Err(NoMemory);
        }
        self.events.reserve(1)?;
        self.plates[platter].mark(self.alloc, place, count)?;
        self.events
            .push(Event::At(platter, Change::WriteFault(place, count)))?;
        raise(&mut self.counts.writes, platter);
        raise(&mut self.counts.faults, platter);
        Ok(())
    }

    /// Notes that another call of a platter fails.
    pub fn note_fault(&mut self, platter: usize) -> Mem<()>
        requires platter { platter ≤ 255 }
        requires kept { IsKept self.old }
        ensures kept { IsKept self.new }
        ensures noted { OnOk result (Noted (Event.At platter Change.Fault) self.old self.new) }
        ensures faults { OnOk result (Raises platter (slice_index self.old.counts.faults) (slice_index self.new.counts.faults)) }
        ensures writes { OnOk result (self.new.counts.writes ≡ self.old.counts.writes) }
        ensures leaves { OnOk result (Leaves self.old self.new) }
        ensures err { OnErr result (Same self.old self.new) }
    {
        if self.is_frozen {
            return Err(NoMemory);
        }
        self.events.push(Event::At(platter, Change::Fault))?;
        raise(&mut self.counts.faults, platter);
        Ok(())
    }

    /// Keeps for good what a read gives.
    pub fn note_sync(&mut self, platter: usize) -> Mem<()>
        requires platter { platter ≤ 255 }
        requires kept { IsKept self.old }
        ensures kept { IsKept self.new }
        ensures noted { OnOk result (Noted (Event.At platter Change.Synced) self.old self.new) }
        ensures faults { OnOk result (self.new.counts.faults ≡ self.old.counts.faults) }
        ensures writes { OnOk result (self.new.counts.writes ≡ self.old.counts.writes) }
        ensures leaves { OnOk result (Leaves self.old self.new) }
        ensures err { OnErr result (Same self.old self.new) }
    {
        if self.is_frozen {
            return Err(NoMemory);
        }
        self.events.push(Event::At(platter, Change::Synced))?;
        self.plates[platter].sync();
        Ok(())
    }

    /// Makes a platter what a choice leaves of it.
    pub fn note_restart(&mut self, platter: usize, choice: u8) -> Mem<()>
        requires platter { platter ≤ 255 }
        requires kept { IsKept self.old }
        ensures kept { IsKept self.new }
        ensures noted { OnOk result (Noted (Event.At platter (Change.Restarted choice)) self.old self.new) }
        ensures faults { OnOk result (self.new.counts.faults ≡ self.old.counts.faults) }
        ensures writes { OnOk result (self.new.counts.writes ≡ self.old.counts.writes) }
        ensures leaves { OnOk result (Leaves self.old self.new) }
        ensures err { OnErr result (Same self.old self.new) }
    {
        if self.is_frozen {
            return Err(NoMemory);
        }
        self.events.reserve(1)?;
        self.plates[platter].restart(self.alloc, choice)?;
        self.events
            .push(Event::At(platter, Change::Restarted(choice)))?;
        Ok(())
    }

    /// Makes a platter empty.
    pub fn note_blank(&mut self, platter: usize) -> Mem<()>
        requires platter { platter ≤ 255 }
        requires kept { IsKept self.old }
        ensures kept { IsKept self.new }
        ensures noted { OnOk result (Noted (Event.At platter Change.Blanked) self.old self.new) }
        ensures faults { OnOk result (self.new.counts.faults ≡ self.old.counts.faults) }
        ensures writes { OnOk result (self.new.counts.writes ≡ self.old.counts.writes) }
        ensures leaves { OnOk result (Leaves self.old self.new) }
        ensures err { OnErr result (Same self.old self.new) }
    {
        if self.is_frozen {
            return Err(NoMemory);
        }
        self.events.push(Event::At(platter, Change::Blanked))?;
        self.plates[platter].blank();
        Ok(())
    }

    /// Takes bytes of the script into the front of the buffer, and answers how many.
    pub fn note_take(&mut self, buf: &mut [u8]) -> Mem<usize>
        requires kept { IsKept self.old }
        ensures kept { IsKept self.new }
        ensures count { IfOk result (λ n. n ≡ min (length (drop self.old.taken self.old.script.items)) (length buf.new)) }
        ensures copied { IfOk result (λ n. take n buf.new ≡ take n (drop self.old.taken self.old.script.items)) }
        ensures noted { IfOk result (λ n. Noted (Event.Took n) self.old self.new) }
        ensures faults { OnOk result (self.new.counts.faults ≡ self.old.counts.faults) }
        ensures writes { OnOk result (self.new.counts.writes ≡ self.old.counts.writes) }
        ensures read_faults { OnOk result (self.new.counts.read_faults ≡ self.old.counts.read_faults) }
        ensures write_faults { OnOk result (self.new.counts.write_faults ≡ self.old.counts.write_faults) }
        ensures err { OnErr result (Same self.old self.new) }
    {
        if self.is_frozen {
            return Err(NoMemory);
        }
        let n = copy_from(&self.script, self.taken, buf);
        self.events.push(Event::Took(n))?;
        self.taken += n;
        Ok(n)
    }

    /// Prints the bytes.
    pub fn note_put(&mut self, bytes: &[u8]) -> Mem<()>
        requires kept { IsKept self.old }
        ensures kept { IsKept self.new }
        ensures noted { OnOk result ((copy : _) × (copy.items ≡ bytes.now) × Noted (Event.Printed copy) self.old self.new) }
        ensures faults { OnOk result (self.new.counts.faults ≡ self.old.counts.faults) }
        ensures writes { OnOk result (self.new.counts.writes ≡ self.old.counts.writes) }
        ensures leaves { OnOk result (Leaves self.old self.new) }
        ensures err { OnErr result (Same self.old self.new) }
    {
        if self.is_frozen {
            return Err(NoMemory);
        }
        let copy = Vec::from_slice(self.alloc, bytes)?;
        self.events.reserve(1)?;
        self.printed.extend_from_slice(bytes)?;
        self.events.push(Event::Printed(copy))?;
        Ok(())
    }

    /// Notes that a take fails.
    pub fn note_take_fault(&mut self) -> Mem<()>
        requires kept { IsKept self.old }
        ensures kept { IsKept self.new }
        ensures noted { OnOk result (Noted Event.TakeFault self.old self.new) }
        ensures faults { OnOk result (self.new.counts.faults ≡ self.old.counts.faults) }
        ensures writes { OnOk result (self.new.counts.writes ≡ self.old.counts.writes) }
        ensures read_faults { OnOk result (self.new.counts.read_faults ≡ raised self.old.counts.read_faults) }
        ensures write_faults { OnOk result (self.new.counts.write_faults ≡ self.old.counts.write_faults) }
        ensures taken { OnOk result (self.new.taken ≡ self.old.taken) }
        ensures err { OnErr result (Same self.old self.new) }
    {
        if self.is_frozen {
            return Err(NoMemory);
        }
        self.events.push(Event::TakeFault)?;
        self.counts.read_faults = self.counts.read_faults.saturating_add(1);
        Ok(())
    }

    /// Notes that a put fails.
    pub fn note_put_fault(&mut self) -> Mem<()>
        requires kept { IsKept self.old }
        ensures kept { IsKept self.new }
        ensures noted { OnOk result (Noted Event.PutFault self.old self.new) }
        ensures faults { OnOk result (self.new.counts.faults ≡ self.old.counts.faults) }
        ensures writes { OnOk result (self.new.counts.writes ≡ self.old.counts.writes) }
        ensures read_faults { OnOk result (self.new.counts.read_faults ≡ self.old.counts.read_faults) }
        ensures write_faults { OnOk result (self.new.counts.write_faults ≡ raised self.old.counts.write_faults) }
        ensures taken { OnOk result (self.new.taken ≡ self.old.taken) }
        ensures err { OnErr result (Same self.old self.new) }
    {
        if self.is_frozen {
            return Err(NoMemory);
        }
        self.events.push(Event::PutFault)?;
        self.counts.write_faults = self.counts.write_faults.saturating_add(1);
        Ok(())
    }
}
