use std::fs;
use std::io::{self, Write};
use std::test::Fail;
use zb_devices::{FileOutside, MemOutside};
use zb_outside::{Bay, Fused, Outside};
use zb_types::Failed;

// A writer that holds all bytes back until it is flushed, and counts them.
#[derive(Drop)]
struct Holding {
    held: usize,
    passed: usize,
}

impl Write for Holding {
    fn write(&mut self, buf: &[u8]) -> io::Result<usize> {
        self.held = self.held.saturating_add(buf.len());
        Ok(buf.len())
    }

    fn flush(&mut self) -> io::Result<()> {
        self.passed = self.passed.saturating_add(self.held);
        self.held = 0;
        Ok(())
    }
}

// Prints what one take gives.
fn echo<O: Outside>(mut outside: O) -> Result<usize, Failed>
where
    O: Drop,
{
    let mut buf = [0; 8];
    let n = outside.take(&mut buf)?;
    let (bytes, _) = buf.split_at(n);
    outside.put(bytes)?;
    Ok(n)
}

// Makes platter 9 anew, writes two pieces with a gap between them, syncs them, and reads from the first on.
fn write_and_read<B: Bay>(bay: &mut B) -> Result<[u8; 8], Failed> {
    bay.blank(9)?;
    bay.write_at(9, 2, b"abc")?;
    bay.sync(9)?;
    bay.write_at(9, 6, b"d")?;
    let mut buf = [7; 8];
    bay.read_at(9, 2, &mut buf)?;
    Ok(buf)
}

#[test]
fn memory_gives_and_takes_until_a_call_is_due(rt: HostRuntime) {
    let mut outside = MemOutside::new(rt.alloc(), b"a script", b"", &[4]).expect(&rt, "memory");
    assert_eq!(rt; echo(&mut outside), Ok(8));
    assert_eq!(rt; echo(&mut outside), Err(Failed));
    assert_eq!(rt; outside.printed(), b"a script".as_slice());
    assert_eq!(rt; outside.starved(), 0);
}

#[test]
fn each_choice_leaves_its_image(rt: HostRuntime) {
    let wanted: [(u8, &[u8]); 3] = [(0, b"\0\0abc"), (1, b"\0\0abc\0d"), (7, b"\0\0abc\0\x07")];
    for (choice, image) in wanted {
        let mut outside = MemOutside::new(rt.alloc(), b"", &[choice], &[]).expect(&rt, "memory");
        assert_eq!(rt; write_and_read(&mut outside), Ok(*b"abc\0d\0\0\0"));
        assert_eq!(rt; outside.restart(9), Ok(()));
        assert_eq!(rt; outside.platter(9), image);
    }
}

#[test]
fn a_fuse_stops_its_platter_at_the_second_write(rt: HostRuntime) {
    let memory = MemOutside::new(rt.alloc(), b"", b"", &[]).expect(&rt, "memory");
    let mut bay = Fused::new(memory);
    bay.arm(9, 2);
    assert_eq!(rt; write_and_read(&mut bay), Err(Failed));
    bay.disarm(9);
    assert_eq!(rt; bay.inner().platter(9), b"\0\0abc\0d".as_slice());
}

#[test]
fn files_give_back_what_they_took(rt: HostRuntime) {
    let script: &[u8] = b"a script";
    let mut report = Vec::new(rt.alloc());
    let mut outside = FileOutside::new(&rt, rt.alloc(), script, &mut report);
    assert_eq!(rt; write_and_read(&mut outside), Ok(*b"abc\0d\0\0\0"));
    assert_eq!(rt; outside.restart(9), Ok(()));
    assert_eq!(rt; echo(outside), Ok(8));
    assert_eq!(rt; report.as_slice(), b"a script".as_slice());
}

#[test]
fn an_opening_keeps_the_file_and_zeros_stand_behind_it(rt: HostRuntime) {
    let mut first = FileOutside::new(&rt, rt.alloc(), io::empty(), io::sink());
    assert_eq!(rt; write_and_read(&mut first), Ok(*b"abc\0d\0\0\0"));
    let mut again = FileOutside::new(&rt, rt.alloc(), io::empty(), io::sink());
    for (place, wanted) in [(2, *b"abc"), (6, *b"d\0\0"), (100, [0; 3])] {
        let mut buf = [7; 3];
        assert_eq!(rt; again.read_at(9, place, &mut buf), Ok(()));
        assert_eq!(rt; buf, wanted);
    }
}

#[test]
fn a_write_of_no_bytes_makes_a_platter_longer(rt: HostRuntime) -> Result<(), Fail> {
    let mut files = FileOutside::new(&rt, rt.alloc(), io::empty(), io::sink());
    files.blank(8)?;
    files.write_at(8, 5, b"")?;
    assert_eq!(rt; fs::metadata(&rt, "platter8")?.len(), 5);
    files.write_at(8, 4, b"")?;
    assert_eq!(rt; fs::metadata(&rt, "platter8")?.len(), 5);
    let mut memory = MemOutside::new(rt.alloc(), b"", b"", &[])?;
    memory.write_at(8, 5, b"")?;
    assert_eq!(rt; memory.platter(8), [0; 5].as_slice());
    Ok(())
}

// Prints a text.
fn put_once<O: Outside + Drop>(mut outside: O) -> Result<(), Failed> {
    outside.put(b"abc")
}

#[test]
fn a_put_leaves_no_bytes_with_its_writer(rt: HostRuntime) {
    let mut writer = Holding { held: 0, passed: 0 };
    let outside = FileOutside::new(&rt, rt.alloc(), io::empty(), &mut writer);
    assert_eq!(rt; put_once(outside), Ok(()));
    assert_eq!(rt; (writer.held, writer.passed), (0, 3));
}
