use crate::program::{Status, zebra_run};
use std::alloc::Global;
use zb_devices::MemOutside;
use zb_types::Mem;

/// A run: the word, the script, and then the report and the status that are wanted.
type Row = (&'static str, &'static [u8], &'static [u8], u8);

const HELLO: &[u8] =
    b"zebra 1 servers 3 clients 1 fragment 256 block 64 slots 32\nc1 create /a\nc1 write 1 0 \"hello\"\nc1 sync\nc1 read 1 0 5\n";

const ROWS: [Row; 24] = [
    (
        "run",
        HELLO,
        b"c1 1 fid 1\nc1 2 kept buffered\nc1 2 done\nc1 3 done\nc1 4 bytes \"hello\"\nfile /a 1 5\nend 0\n",
        0,
    ),
    (
        "run",
        b"zebra 1 servers 3 clients 1 fragment 256 block 64 slots 32\n",
        b"end 0\n",
        0,
    ),
    (
        "run",
        b"zebra 1 servers 3 clients 1 fragment 256 block 64 slots 32\nc1 create /a\nc1 write 1 100 \"x\"\nc1 sync\nc1 read 1 96 16\n",
        b"c1 1 fid 1\nc1 2 kept buffered\nc1 2 done\nc1 3 done\nc1 4 bytes \"\\x00\\x00\\x00\\x00x\"\nfile /a 1 101\nend 0\n",
        0,
    ),
    (
        "run",
        b"zebra 1 servers 3 clients 1 fragment 256 block 64 slots 32\nc1 create /a\nc1 write 1 0 \"he",
        b"c1 1 fid 1\nscript 3\n",
        2,
    ),
    (
        "run",
        b"zebra 1 servers 3 clients 1 fragment 256 block 64 slots 32\nc1 create a/b\n",
        b"script 2\n",
        2,
    ),
    (
        "run",
        b"zebra 1 servers 3 clients 1 fragment 256 block 64 slots 32\nc1 mkdir /d\nc1 create /d/f\nc1 rename /d /d/x\nc1 rename /d /e\nc1 list /\nc1 list /e\nc1 remove /e\nc1 open /d/f\nc1 stat /e/f\nc1 stat /e/f/g\nc1 open /e\n",
        b"c1 1 done\nc1 2 fid 1\nc1 3 inside\nc1 4 done\nc1 5 names e\nc1 6 names f\nc1 7 not empty\nc1 8 no entry\nc1 9 file 1 0\nc1 10 not a directory\nc1 11 is a directory\ndir /e\nfile /e/f 1 0\nend 0\n",
        0,
    ),
    (
        "run",
        b"zebra 1 servers 3 clients 1 fragment 256 block 64 slots 32\nc1 create /a\nc1 write 1 0 \"hello world\"\nc1 truncate 1 5\nc1 truncate 1 7\nc1 sync\nc1 read 1 0 20\n",
        b"c1 1 fid 1\nc1 2 kept buffered\nc1 3 kept buffered\nc1 4 kept buffered\nc1 2 done\nc1 3 done\nc1 4 done\nc1 5 done\nc1 6 bytes \"hello\\x00\\x00\"\nfile /a 1 7\nend 0\n",
        0,
    ),
    (
        "run",
        b"zebra 1 servers 3 clients 1 fragment 256 block 64 slots 32\nc1 create /a\nc1 create /a\nc1 list /a\nc1 stat /b/c\n",
        b"c1 1 fid 1\nc1 2 exists\nc1 3 not a directory\nc1 4 no entry\nfile /a 1 0\nend 0\n",
        0,
    ),
    (
        "run",
        b"zebra 1 servers 3 clients 1 fragment 256 block 64 slots 32\nc1 write 9 0 \"x\"\nc1 sync\n",
        b"c1 1 kept buffered\nc1 1 gone\nc1 2 done\nend 0\n",
        0,
    ),
    (
        "run",
        b"zebra 1 servers 3 clients 1 fragment 256 block 64 slots 32\nc1 create /a\nclean\n",
        b"c1 1 fid 1\nlater 3\n",
        10,
    ),
    (
        "run",
        b"# first\n\nzebra 1 servers 16 clients 1 fragment 512 block 64 slots 8\n\n# then\nc1 list /\n# last\nc1 lost /\n",
        b"c1 1 names\nscript 8\n",
        2,
    ),
    (
        "run",
        b"zebra 1 servers 5 clients 2 fragment 65536 block 4096 slots 512\nc1 create /a\nc1 write 1 67108863 \"x\"\nc1 write 1 67108864 \"y\"\nc1 sync\nc1 stat /a\n",
        b"c1 1 fid 1\nc1 2 kept buffered\nc1 3 kept buffered\nc1 2 done\nc1 3 too big\nc1 4 done\nc1 5 file 1 67108864\nfile /a 1 67108864\nend 0\n",
        0,
    ),
    (
        "run",
        b"zebra 1 servers 3 clients 2 fragment 256 block 64 slots 32\nc1 create /a\nc1 write 1 0 \"aaaaaa\"\nc1 sync\n+c1 write 1 0 \"X\"\n+c1 sync\n+c2 write 1 1 \"Y\"\n+c2 sync\nstep c1 to commit\nstep c2 to commit\nc1 sync\nc2 sync\nc1 read 1 0 6\n",
        b"c1 1 fid 1\nc1 2 kept buffered\nc1 2 done\nc1 3 done\nc1 4 kept buffered\nc2 1 kept buffered\nc1 4 done\nc1 5 done\nc1 6 done\nc2 1 done\nc2 2 done\nc2 3 done\nc1 7 bytes \"XYaaaa\"\nfile /a 1 6\nend 0\n",
        0,
    ),
    (
        "run",
        b"zebra 1 servers 3 clients 2 fragment 256 block 64 slots 32\nc1 create /a\nc2 write 1 0 \"x\"\nc1 remove /a\nc2 sync\n",
        b"c1 1 fid 1\nc2 1 kept buffered\nc1 2 done\nc2 1 gone\nc2 2 done\nend 0\n",
        0,
    ),
    (
        "run",
        b"zebra 1 servers 3 clients 1 fragment 256 block 64 slots 8\nc1 create /a\nc1 write 1 0 \"aaaaaaaaaaaaaaaaaaaaaaaaaaaaaaaaaaaaaaaaaaaaaaaaaaaaaaaaaaaaaaaaaaaaaaaaaaaaaaaaaaaaaaaaaaaaaaaaaaaaaaaaaaaaaaaaaaaaaaaaaaaaaaaaaaaaaaaaaaaaaaaaaaaaaaaaaaaaaaaaaaaaaaaaaaaaaaaaaaaaaaaaaaaaaaaaaaaaaaaaaaaaaaaaaaaaaaaaaaaaaaaaaaaaaaaaaaaaaaaaaaaaaaaaaaaaaaaaaaaaaaaaaaaaaaaaaaaaaaaaaaaaaaaaaaaaaaaaaaaaaaaaaaaaaaaaaaaaaaaaaaaaaaaaaaaaaaaaaaaaaaaaaaaaaaaaaaaaaaaaaaaaaaaaaaaaaaaaaaaaaaaaaaaaaaaaaaaaaaaa\"\nc1 sync\nc1 write 1 0 \"aaaaaaaaaaaaaaaaaaaaaaaaaaaaaaaaaaaaaaaaaaaaaaaaaaaaaaaaaaaaaaaaaaaaaaaaaaaaaaaaaaaaaaaaaaaaaaaaaaaaaaaaaaaaaaaaaaaaaaaaaaaaaaaaaaaaaaaaaaaaaaaaaaaaaaaaaaaaaaaaaaaaaaaaaaaaaaaaaaaaaaaaaaaaaaaaaaaaaaaaaaaaaaaaaaaaaaaaaaaaaaaaaaaaaaaaaaaaaaaaaaaaaaaaaaaaaaaaaaaaaaaaaaaaaaaaaaaaaaaaaaaaaaaaaaaaaaaaaaaaaaaaaaaaaaaaaaaaaaaaaaaaaaaaaaaaaaaaaaaaaaaaaaaaaaaaaaaaaaaaaaaaaaaaaaaaaaaaaaaaaaaaaaaaaaaaaaaaaaaa\"\nc1 sync\nc1 write 1 0 \"aaaaaaaaaaaaaaaaaaaaaaaaaaaaaaaaaaaaaaaaaaaaaaaaaaaaaaaaaaaaaaaaaaaaaaaaaaaaaaaaaaaaaaaaaaaaaaaaaaaaaaaaaaaaaaaaaaaaaaaaaaaaaaaaaaaaaaaaaaaaaaaaaaaaaaaaaaaaaaaaaaaaaaaaaaaaaaaaaaaaaaaaaaaaaaaaaaaaaaaaaaaaaaaaaaaaaaaaaaaaaaaaaaaaaaaaaaaaaaaaaaaaaaaaaaaaaaaaaaaaaaaaaaaaaaaaaaaaaaaaaaaaaaaaaaaaaaaaaaaaaaaaaaaaaaaaaaaaaaaaaaaaaaaaaaaaaaaaaaaaaaaaaaaaaaaaaaaaaaaaaaaaaaaaaaaaaaaaaaaaaaaaaaaaaaaaaaaaaaaa\"\nc1 sync\n",
        b"c1 1 fid 1\nc1 2 kept buffered\nc1 2 done\nc1 3 done\nc1 4 kept buffered\nc1 4 done\nc1 5 done\nc1 6 kept buffered\nc1 7 kept no space s3\nc1 6 unfinished no space s1\nc1 7 unfinished no space s1\nfile /a 1 400\nend 7\n",
        7,
    ),
    (
        "run",
        b"zebra 1 servers 3 clients 3 fragment 256 block 64 slots 32\n+c1 create /a\n+c2 create /b\n+c3 mkdir /d\nstep c2 1000\nstep c1 to idle\nc2 list /\n",
        b"c2 1 fid 1\nc1 1 fid 2\nc2 2 names a b\nc3 1 done\nfile /a 2 0\nfile /b 1 0\ndir /d\nend 0\n",
        0,
    ),
    (
        "run",
        b"zebra 1 servers 3 clients 2 fragment 256 block 64 slots 32\n+c2 write 1 0 \"x\"\nstep c2 1\nc1 create /a\n+c1 write 1 1 \"y\"\nstep c1 1\nc1 sync\nc2 sync\nc1 read 1 0 4\n",
        b"c2 1 kept buffered\nc1 1 fid 1\nc1 2 kept buffered\nc1 2 done\nc1 3 done\nc2 1 done\nc2 2 done\nc1 4 bytes \"xy\"\nfile /a 1 2\nend 0\n",
        0,
    ),
    (
        "run",
        b"zebra 1 servers 3 clients 1 fragment 256 block 64 slots 32\n+c1 create /a\nstep c1 0\n",
        b"script 3\n",
        2,
    ),
    (
        "run",
        b"zebra 1 servers 3 clients 2 fragment 256 block 64 slots 32\nc2 create /a\nstep cl 3\n",
        b"c2 1 fid 1\nlater 3\n",
        10,
    ),
    (
        "run",
        b"zebra 1 servers 3 clients 1 fragment 256 block 64 slots 32\ncrash c1\n",
        b"later 2\n",
        10,
    ),
    ("run", b"# first\n", b"script 2\n", 2),
    ("run", b"zebra 1\n", b"script 1\n", 2),
    ("run", b"", b"script 1\n", 2),
    ("walk", HELLO, b"usage\n", 5),
];

/// The status of the run of `HELLO` in which this device call fails. The last number has no call.
const FAULTS: [(u64, u8); 9] = [
    (1, 3),
    (2, 4),
    (3, 4),
    (4, 4),
    (5, 4),
    (6, 3),
    (7, 4),
    (8, 4),
    (9, 0),
];

fn run(alloc: Global, word: &str, script: &[u8], failing: &[u64]) -> Mem<(u8, MemOutside)> {
    let words = vec![in alloc; word.to_string(alloc)?]?;
    let out = MemOutside::new(alloc, script, b"", failing)?;
    let (Status(status), out) = zebra_run(alloc, &words, out);
    Ok((status, out))
}

#[test]
fn each_row_prints_its_report(rt: HostRuntime) {
    for (word, script, report, wanted) in ROWS {
        let (status, out) = run(rt.alloc(), word, script, &[]).expect(&rt, "memory");
        assert_eq!(rt; out.printed(), report);
        assert_eq!(rt; status, wanted);
    }
}

#[test]
fn a_device_call_that_fails_ends_the_run(rt: HostRuntime) {
    for (number, wanted) in FAULTS {
        let (status, _) = run(rt.alloc(), "run", HELLO, &[number]).expect(&rt, "memory");
        assert_eq!(rt; status, wanted);
    }
}

/// The blocks of a file that spans many stripes.
const BLOCKS: u32 = 128;

/// A script that fills a file on so many servers, block by block, and then reads each block, and its report.
fn many_stripes(alloc: Global, servers: u8) -> Mem<(String, String)> {
    let mut script = format!(in alloc;
        "zebra 1 servers {servers} clients 1 fragment 256 block 64 slots 512\nc1 create /a\n"
    )?;
    let mut report = format!(in alloc; "c1 1 fid 1\n")?;
    for number in 0..BLOCKS {
        let offset = number * 64;
        let write = number * 2 + 2;
        let sync = write + 1;
        script.push_str(&format!(in alloc; "c1 write 1 {offset} \"{number:064}\"\nc1 sync\n")?)?;
        report.push_str(&format!(in alloc;
            "c1 {write} kept buffered\nc1 {write} done\nc1 {sync} done\n"
        )?)?;
    }
    for number in 0..BLOCKS {
        let offset = number * 64;
        let read = BLOCKS * 2 + 2 + number;
        script.push_str(&format!(in alloc; "c1 read 1 {offset} 64\n")?)?;
        report.push_str(&format!(in alloc; "c1 {read} bytes \"{number:064}\"\n")?)?;
    }
    report.push_str("file /a 1 8192\nend 0\n")?;
    Ok((script, report))
}

#[test]
fn a_file_spans_many_stripes(rt: HostRuntime) {
    for servers in [3, 4, 16] {
        let (script, report) = many_stripes(rt.alloc(), servers).expect(&rt, "memory");
        let (status, out) = run(rt.alloc(), "run", script.as_bytes(), &[]).expect(&rt, "memory");
        assert_eq!(rt; out.printed(), report.as_bytes());
        assert_eq!(rt; status, 0);
    }
}
