ghost use Rattle.std.specs.Prelude.{◌≡◌, ◌≤◌, ◌+◌, ◌^◌, ℕ, replicate, IfOk, OnOk, OnErr, MatchResult, [], ◌∷◌, ◌++◌, length};
ghost use Rattle.zb_outside.specs.Ranges.{Reads};
ghost use Rattle.zb_devices.specs.Record.{PlatterState, overlaid, filled, written, synced, restarted, blanked, write_failed};
ghost use Rattle.zb_devices.specs.Plates.{Saves, Shows, restored, undone, ranges_of};

use crate::unsynced::Unsynced;
use std::alloc::Global;
use zb_types::Mem;

/// A platter in memory: what a read gives, and the ranges written since its last sync, the oldest first.
#[derive(Drop)]
pub struct Plate {
    pub seen: Vec<u8>,
    pub unsynced: Vec<Unsynced>,
}

// What stands in a range, as far as the image goes.
fn saved(alloc: Global, image: &[u8], place: usize, count: usize) -> Mem<Unsynced>
    requires range { place + count ≤ 2 ^ 63 }
    ensures { IfOk result (λ u. Saves place count image.now u) }
{
    let from = place.min(image.len());
    let end = (place + count).min(image.len());
    Ok(Unsynced {
        place,
        count,
        from,
        old: Vec::from_slice(alloc, &image[from..end])?,
        length: image.len(),
    })
}

// Writes the bytes over an image.
fn overlay(image: &mut Vec<u8>, place: usize, bytes: &[u8]) -> Mem<()>
    requires range { place + length bytes.now ≤ 2 ^ 63 }
    ensures ok { OnOk result (image.new.items ≡ overlaid image.old.items place bytes.now) }
    ensures err { OnErr result (image.new.items ≡ image.old.items) }
{
    let end = place + bytes.len();
    if image.len() < end {
        image.resize(end, 0)?;
    }
    image[place..end].copy_from_slice(bytes);
    Ok(())
}

// Makes an image what it was before this range was written.
fn restore(image: &mut Vec<u8>, range: &Unsynced)
    ensures { image.new.items ≡ restored range.now image.old.items }
{
    image.truncate(range.length);
    let count = range.old.len();
    if image.len() < range.from || image.len() - range.from < count {
        return;
    }
    image[range.from..range.from + count].copy_from_slice(&range.old);
}

// Makes an image what it was before these ranges were written.
fn undo(image: &mut Vec<u8>, ranges: &[Unsynced])
    ensures { image.new.items ≡ undone ranges.now image.old.items }
{
    let mut rest = ranges;
    while let Some((last, others)) = rest.split_last() {
        restore(image, last);
        rest = others;
    }
}

// Fills each of these ranges of an image with a byte.
fn fill(alloc: Global, image: &mut Vec<u8>, ranges: &[Unsynced], byte: u8) -> Mem<()>
    ensures { OnOk result (image.new.items ≡ filled byte (ranges_of ranges.now) image.old.items) }
{
    let mut rest = ranges;
    while let [range, others @ ..] = rest {
        let mut filling = Vec::new(alloc);
        filling.resize(range.count, byte)?;
        overlay(image, range.place, &filling)?;
        rest = others;
    }
    Ok(())
}

impl Plate {
    /// A platter that was never written.
    pub fn new(alloc: Global) -> Plate
        ensures seen { result.seen.items ≡ [] }
        ensures unsynced { result.unsynced.items ≡ [] }
    {
        Plate {
            seen: Vec::new(alloc),
            unsynced: Vec::new(alloc),
        }
    }

    /// Fills the buffer with the bytes from that place on, and with zeros past the end.
    pub fn read(&self, place: usize, buf: &mut [u8])
        requires range { place + length buf.old ≤ 2 ^ 63 }
        ensures { Reads self.now.seen.items place buf.new }
    {
        let from = place.min(self.seen.len());
        let count = buf.len().min(self.seen.len() - from);
        let (front, rest) = buf.split_at_mut(count);
        front.copy_from_slice(&self.seen[from..from + count]);
        rest.fill(0);
    }

    /// Writes the bytes from that place on. After want of memory it is as it was.
    pub fn write(&mut self, alloc: Global, place: usize, bytes: &[u8]) -> Mem<()>
        requires range { place + length bytes.now ≤ 2 ^ 63 }
        ensures { (s : PlatterState) → Shows self.old s → MatchResult result (λ _. Shows self.new (written place bytes.now s)) (λ _. Shows self.new s) }
    {
        let range = saved(alloc, &self.seen, place, bytes.len())?;
        self.unsynced.reserve(1)?;
        overlay(&mut self.seen, place, bytes)?;
        self.unsynced.push(range)?;
        Ok(())
    }

    /// Counts a range as written, with its bytes as they are. After want of memory it is as it was.
    pub fn mark(&mut self, alloc: Global, place: usize, count: usize) -> Mem<()>
        requires range { place + count ≤ 2 ^ 63 }
        ensures { (s : PlatterState) → Shows self.old s → MatchResult result (λ _. Shows self.new (write_failed place count s)) (λ _. Shows self.new s) }
    {
        let range = saved(alloc, &self.seen, place, count)?;
        self.unsynced.push(range)?;
        Ok(())
    }

    /// Keeps what a read gives for good.
    pub fn sync(&mut self)
        ensures { (s : PlatterState) → Shows self.old s → Shows self.new (synced s) }
    {
        self.unsynced.clear();
    }

    /// Makes it the image that a choice leaves. After want of memory it is as it was.
    pub fn restart(&mut self, alloc: Global, choice: u8) -> Mem<()>
        ensures { (s : PlatterState) → Shows self.old s → MatchResult result (λ _. Shows self.new (restarted choice s)) (λ _. Shows self.new s) }
    {
        if choice != 1 {
            let mut image = Vec::from_slice(alloc, &self.seen)?;
            undo(&mut image, &self.unsynced);
            if choice != 0 {
                fill(alloc, &mut image, &self.unsynced, choice)?;
            }
            self.seen = image;
        }
        self.unsynced.clear();
        Ok(())
    }

    /// Makes it empty.
    pub fn blank(&mut self)
        ensures { (s : PlatterState) → Shows self.new (blanked s) }
    {
        self.seen.clear();
        self.unsynced.clear();
    }
}
