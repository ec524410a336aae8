use std::test::Fail;
use zb_script::{Parsed, Script, print, read_header, read_line};

#[test]
fn lines_are_read_or_refused(rt: HostRuntime) -> Result<(), Fail> {
    let alloc = rt.alloc();
    let header = b"zebra 1 servers 3 clients 2 fragment 512 block 64 slots 8";
    let geo = read_header(header).ok_or("no system")?;
    for (line, good) in [
        ("c1 create /a", true),
        ("+c2 rename /a/b /c", true),
        ("c1 write 1 0 \"a\\x22\\x0a\\xff ~\"", true),
        ("c1 truncate 4294967295 0", true),
        ("c1 sync", true),
        ("c1 read 1 0 4096", true),
        ("c1 list /", true),
        ("c2 open /a", true),
        ("+rebuild s3", true),
        ("step c1 1000000", true),
        ("step me to finish", true),
        ("arm fm 1", true),
        ("crash cl", true),
        ("lose s1", true),
        ("checkpoint", true),
        ("clean", true),
        ("+clean", true),
        (
            "c1 mkdir /aaaaaaaaaaaaaaaaaaaaaaaaaaaaaaaaaaaaaaaaaaaaaaaaaaaaaaaaaaaaaaaa",
            true,
        ),
        (
            "c1 mkdir /aaaaaaaaaaaaaaaaaaaaaaaaaaaaaaaaaaaaaaaaaaaaaaaaaaaaaaaaaaaaaaaaa",
            false,
        ),
        ("c1 remove /./a", false),
        ("c1 read 1 0 4097", false),
        ("step cl 1000001", false),
        ("arm s3 1000000", true),
        ("arm s3 1000001", false),
        ("c1 rename /a", false),
        ("step fm 1", false),
        ("c3 sync", false),
        ("c01 sync", false),
        ("c1  sync", false),
        ("c1 sync ", false),
        ("c1 open /", false),
        ("c1 write 1 0 \"\"", false),
        ("c1 write 1 0 \"\\x41\"", false),
        ("c1 write 1 0 \"\\xFF\"", false),
        ("c1 truncate 4294967296 0", false),
        ("c1 read 1 00 1", false),
        ("c1 read 1 0 0", false),
        ("step s1 1", false),
        ("+checkpoint", false),
        ("arm c1 1", false),
        ("up s4", false),
    ] {
        let found = read_line(alloc, &geo, line.as_bytes())?;
        assert_eq!(rt; found.is_some(), good, "{line}");
    }
    Ok(())
}

#[test]
fn a_script_may_come_in_pieces(rt: HostRuntime) -> Result<(), Fail> {
    let alloc = rt.alloc();
    let mut script = Script::new();
    for row in [
        "# a comment\n",
        "zebra 1 servers 3 clients 1 fragment 256 block 64 slots 32\n",
        "\n",
        "c1 create /a\n",
        "+c1 write 1 0 \"hello\"\n",
        "step me to finish\n",
        "arm s1 7\n",
    ] {
        let row = row.as_bytes();
        for (end, _) in row.iter().enumerate() {
            let front = script.next(alloc, &row[..end])?;
            assert!(rt; matches!(&front, Parsed::More));
        }
        if let Parsed::Line { line, used } = script.next(alloc, row)? {
            assert_eq!(rt; used, row.len());
            assert_eq!(rt; print(alloc, &line)?.slice(), row);
        }
    }
    assert_eq!(rt; script.line_number(), 8);
    Ok(())
}

#[test]
fn headers_are_read_or_refused(rt: HostRuntime) {
    for (header, good) in [
        (
            "zebra 1 servers 16 clients 8 fragment 65536 block 4096 slots 1024",
            true,
        ),
        (
            "zebra 1 servers 2 clients 1 fragment 512 block 64 slots 8",
            false,
        ),
        (
            "zebra 1 servers 3 clients 1 fragment 512 block 64 slots 08",
            false,
        ),
        (
            "zebra 2 servers 3 clients 1 fragment 512 block 64 slots 8",
            false,
        ),
    ] {
        assert_eq!(rt; read_header(header.as_bytes()).is_some(), good, "{header}");
    }
}
