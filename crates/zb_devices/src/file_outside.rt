ghost use Rattle.std.specs.Prelude.{◌≡◌, ◌≢◌, ◌<◌, ◌≤◌, ◌+◌, ◌-◌, ◌^◌, min, max, ℕ, true, false, IsTrue, IfOk, OnOk, OnErr, is_err, length, take, slice_index};
ghost use Rattle.std.specs.Io.KnownBytes.{Appends, ReadConsumes};
ghost use Rattle.zb_outside.specs.Counts.{TouchesScript, TouchesReport};
ghost use Rattle.zb_outside.specs.Streams.{TakeTold, PutTold};
ghost use Rattle.zb_devices.specs.Faults.{CountsFault};
ghost use Rattle.zb_devices.specs.Untold.{untold};

use crate::platter_file::{create_file, open_file, read_file, settle_file, sync_file, write_file};
use crate::streams::{print_all, read_some};
use std::alloc::Global;
use std::fs::File;
use std::io::{Read, Write};
use std::rt::Files;
use zb_outside::{Bay, Outside, raise};
use zb_types::Failed;

/// An outside over files and over a reader of the script and a writer of the report, as standard input and output. It
/// tells nothing.
///
/// Platter i is the file `platter` followed by i in the current folder. It is opened at the first call of the platter and
/// kept open. A write or sync is one call of the system, and a write of no bytes past the end makes the file longer. A
/// path that can't be opened, a full disk, a short write and a want of memory are faults of that platter. After a sync that
/// failed, what was written may be lost though a later one works: from then on each call of the platter fails, until it is
/// blanked, or another outside reads the file anew. A read or write that was interrupted is made again. A writer that takes
/// nothing of a piece fails the put, and one that holds bytes back is flushed in each put.
#[derive(Drop)]
pub struct FileOutside<F, R, W> {
    files: F,
    alloc: Global,
    open: Vec<Option<File>>,
    // whether a sync of the platter failed
    lost: [bool; 256],
    faults: [u64; 256],
    writes: [u64; 256],
    reader: R,
    writer: W,
    read_faults: u64,
    write_faults: u64,
}

// Makes room for the file of a platter, where there is memory.
fn has_room(places: &mut Vec<Option<File>>, platter: usize) -> bool
    ensures { IsTrue result → platter < length places.new.items }
{
    while places.len() <= platter {
        if places.push(None).is_err() {
            return false;
        }
    }
    true
}

// Counts a call of a platter that failed.
fn counted(
    answer: Result<(), Failed>,
    faults: &mut [u64; 256],
    platter: usize,
) -> Result<(), Failed>
    requires { platter ≤ 255 }
    ensures same { result ≡ answer }
    ensures cause { CountsFault platter (is_err result) (slice_index faults.old) (slice_index faults.new) }
    ensures works { OnOk result (faults.new ≡ faults.old) }
{
    if answer.is_err() {
        raise(faults, platter);
    }
    answer
}

impl<F: Files<File = File> + Drop, R: Read + Drop, W: Write + Drop> FileOutside<F, R, W> {
    ghost use Rattle.zb_devices.specs.FileOutside.{reader_of, writer_of, counts_of};

    /// An outside over these files, this reader and this writer: in a program `&rt`, `rt.reader()` and
    /// `io::writer(&rt)`.
    pub fn new(files: F, alloc: Global, reader: R, writer: W) -> FileOutside<F, R, W>
        ensures reader { reader_of result ≡ reader }
        ensures writer { writer_of result ≡ writer }
        ensures read_faults { (counts_of result).streams.read_faults ≡ 0 }
        ensures write_faults { (counts_of result).streams.write_faults ≡ 0 }
        ensures faults { (p : ℕ) → (counts_of result).faults p ≡ 0 }
        ensures writes { (p : ℕ) → (counts_of result).writes p ≡ 0 }
    {
        FileOutside {
            files,
            alloc,
            open: Vec::new(alloc),
            lost: [false; 256],
            faults: [0; 256],
            writes: [0; 256],
            reader,
            writer,
            read_faults: 0,
            write_faults: 0,
        }
    }
}

impl<F: Files<File = File> + Drop, R: Read + Drop, W: Write + Drop> FileOutside<F, R, W> {
    ghost use Rattle.zb_devices.specs.FileOutside.{SameButOpen};

    // Keeps the file of a platter open, where it lasts, and else keeps none.
    fn keep(&mut self, platter: usize, file: File, lasts: bool)
        requires { platter ≤ 255 }
        ensures { SameButOpen self.old self.new }
    {
        self.lost[platter] = !lasts;
        if platter < self.open.len() {
            self.open[platter] = if lasts { Some(file) } else { None };
        }
    }

    // Makes the file of a platter anew, so that it and its name last, and keeps it open.
    fn make(&mut self, platter: usize) -> Result<(), Failed>
        requires { platter ≤ 255 }
        ensures { SameButOpen self.old self.new }
    {
        if !has_room(&mut self.open, platter) {
            return Err(Failed);
        }
        let file = create_file(&self.files, self.alloc, platter)?;
        let settled = settle_file(&self.files, &file);
        self.keep(platter, file, settled.is_ok());
        settled
    }

    // Opens the file of a platter, where it isn't open and nothing of it may be lost.
    fn ready(&mut self, platter: usize)
        requires { platter ≤ 255 }
        ensures { SameButOpen self.old self.new }
    {
        if self.lost[platter] || !has_room(&mut self.open, platter) {
            return;
        }
        if self.open[platter].is_none() {
            match open_file(&self.files, self.alloc, platter) {
                Ok(Some(file)) => self.keep(platter, file, true),
                Ok(None) => {
                    let _ = self.make(platter);
                }
                Err(_) => {}
            }
        }
    }

    // Gives the file of a platter up after a sync that failed.
    fn lose(&mut self, platter: usize)
        requires { platter ≤ 255 }
        ensures { SameButOpen self.old self.new }
    {
        self.lost[platter] = true;
        if platter < self.open.len() {
            self.open[platter] = None;
        }
    }

    // Syncs the file of a platter.
    fn settle(&mut self, platter: usize) -> Result<(), Failed>
        requires { platter ≤ 255 }
        ensures { SameButOpen self.old self.new }
    {
        self.ready(platter);
        let answer = match self.open.get(platter) {
            Some(Some(file)) => sync_file(file),
            _ => return Err(Failed),
        };
        if answer.is_err() {
            self.lose(platter);
        }
        answer
    }
}

impl<F: Files<File = File> + Drop, R: Read + Drop, W: Write + Drop> Bay for FileOutside<F, R, W> {
    ghost use Rattle.zb_devices.specs.FileOutside.{counts_of};
    ghost use Rattle.std.proofs.lemmas.Bool.{false≢true};

    ghost tells = { false };

    ghost meaning = { λ _. untold };

    ghost counts = { counts_of };

    ghost is_exact = { true };

    ghost follows = { λ _ _. Unit {0} };

    fn read_at(&mut self, platter: usize, place: u64, buf: &mut [u8]) -> Result<(), Failed> {
        self.ready(platter);
        let answer = match self.open.get(platter) {
            Some(Some(file)) => read_file(file, place, buf),
            _ => Err(Failed),
        };
        counted(answer, &mut self.faults, platter)
    }

    fn write_at(&mut self, platter: usize, place: u64, bytes: &[u8]) -> Result<(), Failed> {
        self.ready(platter);
        raise(&mut self.writes, platter);
        let answer = match self.open.get(platter) {
            Some(Some(file)) => write_file(file, place, bytes),
            _ => Err(Failed),
        };
        counted(answer, &mut self.faults, platter)
    }

    fn sync(&mut self, platter: usize) -> Result<(), Failed> {
        let answer = self.settle(platter);
        counted(answer, &mut self.faults, platter)
    }

    fn restart(&mut self, platter: usize) -> Result<(), Failed> {
        self.sync(platter)
    }

    fn blank(&mut self, platter: usize) -> Result<(), Failed> {
        let answer = self.make(platter);
        counted(answer, &mut self.faults, platter)
    }

    ghost follows_same = { λ _. tt };

    ghost follows_then = { λ _ _ _ _ _. tt };

    ghost exact = { λ _ told. absurd (false≢true told) };
}

impl<F: Files<File = File> + Drop, R: Read + Drop, W: Write + Drop> Outside
    for FileOutside<F, R, W> {
    ghost use Rattle.zb_devices.specs.FileOutside.{reader_of, writer_of, counts_of};
    ghost use Rattle.std.proofs.lemmas.Bool.{false≢true};

    fn take(&mut self, buf: &mut [u8]) -> Result<usize, Failed>
        ensures bound { IfOk result (λ n. n ≤ length buf.new) }
        ensures told { IsTrue false → TakeTold buf.new result (counts_of self.old).streams (counts_of self.new).streams untold untold }
        ensures touches { TouchesScript counts_of (λ _ _. Unit {0}) (is_err result) self.old self.new }
        ensures read { ReadConsumes (R.remaining (reader_of self.old)) (R.remaining (reader_of self.new)) result buf.new }
        ensures works { OnOk result ((counts_of self.new).streams.read_faults ≡ (counts_of self.old).streams.read_faults) }
        ensures writer { writer_of self.new ≡ writer_of self.old }
    {
        let taken = read_some(&mut self.reader, buf);
        if taken.is_err() {
            self.read_faults = self.read_faults.saturating_add(1);
        }
        taken
    }

    fn put(&mut self, bytes: &[u8]) -> Result<(), Failed>
        ensures told { IsTrue false → PutTold bytes.now result (counts_of self.old).streams (counts_of self.new).streams untold untold }
        ensures touches { TouchesReport counts_of (λ _ _. Unit {0}) (is_err result) self.old self.new }
        ensures written { OnOk result (Appends (W.contents (writer_of self.old)) (W.contents (writer_of self.new)) bytes.now) }
        ensures front { OnErr result ((n : ℕ) × Appends (W.contents (writer_of self.old)) (W.contents (writer_of self.new)) (take n bytes.now)) }
        ensures works { OnOk result ((counts_of self.new).streams.write_faults ≡ (counts_of self.old).streams.write_faults) }
        ensures reader { reader_of self.new ≡ reader_of self.old }
    {
        let put = print_all(&mut self.writer, bytes);
        if put.is_err() {
            self.write_faults = self.write_faults.saturating_add(1);
        }
        put
    }

    ghost counted = { λ _ told. absurd (false≢true told) };
}
