use std::alloc::Global;
use std::test::Fail;
use zb_devices::MemOutside;
use zb_entries::Entry;
use zb_journal::{EntryList, Journal, JournalFault, entries};
use zb_outside::{Bay, Fused};
use zb_types::{Failed, LogId, Mem, Piece, PieceList};

// A settled platter 0 with room for the journal, all zeros, whose restart leaves what this choice says.
fn platter(alloc: Global, choice: u8) -> Result<Fused<MemOutside>, Failed> {
    let Ok(memory) = MemOutside::new(alloc, b"", &[choice], &[]) else {
        return Err(Failed);
    };
    let mut bay = Fused::new(memory);
    bay.write_at(0, 69_631, &[0])?;
    bay.sync(0)?;
    Ok(bay)
}

fn retire(stripe: u64) -> Entry {
    Entry::Retire {
        log: LogId(1),
        stripe,
    }
}

// The stripes that the entries give up, which are all of the journal; 0 behind them.
fn stripes(list: &EntryList) -> [u64; 2] {
    let mut found = [0; 2];
    for (stripe, entry) in found.iter_mut().zip(list.slice()) {
        if let Entry::Retire { stripe: one, .. } = entry {
            *stripe = *one;
        }
    }
    found
}

// A journal without entries.
const FIRST: Journal = Journal {
    place: 0,
    number: 1,
};

const CREATE: [u8; 49] = [
    1, 2, 0, 1, 0, 0, 0, 1, 0, 0, 0, 0, 0, 0, 0, 1, 0, 0, 0, 0, 0, 0, 0, 1, 0, 0, 0, 0, 0, 0, 0, 3,
    0, 0, 0, 0, 0, 0, 0, 0, 0, 0, 0, 0, 0, 0, 0, 45, 0,
];

// The commit of a batch with one piece.
fn commit(alloc: Global) -> Mem<Entry> {
    let piece = Piece {
        stripe: 0,
        offset: 0,
        len: 45,
    };
    Ok(Entry::Commit {
        log: LogId(1),
        batch: 1,
        generation: 1,
        pieces: PieceList::from_slice(alloc, &[piece])?,
    })
}

// Where a journal goes on once it has that commit as its entry 3, from place 64 on, and the bytes there.
fn committed(alloc: Global) -> Result<(Journal, [u8; 49]), JournalFault> {
    let mut bay = platter(alloc, 0)?;
    let mut journal = Journal {
        place: 64,
        number: 3,
    };
    journal.append(alloc, &mut bay, &commit(alloc)?)?;
    let mut bytes = [9; 49];
    bay.read_at(0, 4_160, &mut bytes)?;
    Ok((journal, bytes))
}

#[test]
fn a_commit_has_its_bytes(rt: HostRuntime) -> Result<(), Fail> {
    let journal = Journal {
        place: 112,
        number: 4,
    };
    let (found, bytes) = committed(rt.alloc())?;
    assert!(rt; found == journal);
    assert!(rt; bytes == CREATE);
    Ok(())
}

// The choice, whether an entry of before a cut stands there, the writes that pass before the one that stops the append, and
// whether its entry is found.
const STOPS: [(u8, bool, u8, bool); 15] = [
    (0, false, 0, false),
    (1, false, 0, false),
    (7, false, 0, false),
    (0, false, 1, false),
    (1, false, 1, true),
    (7, false, 1, false),
    (0, true, 0, false),
    (1, true, 0, false),
    (7, true, 0, false),
    (0, true, 1, false),
    (1, true, 1, false),
    (7, true, 1, false),
    (0, true, 2, false),
    (1, true, 2, true),
    (7, true, 2, false),
];

// A journal that is to have its second entry; before it one was cut away, or none was there.
fn begun(alloc: Global, bay: &mut Fused<MemOutside>, cut: bool) -> Result<Journal, JournalFault> {
    let mut journal = FIRST;
    if cut {
        journal.append(alloc, bay, &retire(5))?;
        journal.cut();
    }
    journal.number = 2;
    Ok(journal)
}

// The append of the second entry has stopped, at the write behind so many that pass.
fn stop(
    alloc: Global,
    bay: &mut Fused<MemOutside>,
    cut: bool,
    passed: u8,
) -> Result<(), JournalFault> {
    let mut journal = begun(alloc, bay, cut)?;
    bay.arm(0, u64::from(passed) + 1);
    match journal.append(alloc, bay, &retire(6)) {
        Err(JournalFault::Stopped) => Ok(()),
        _ => Err(JournalFault::Worn),
    }
}

// The platter, restarted after such a stop.
fn stopped(
    alloc: Global,
    choice: u8,
    cut: bool,
    passed: u8,
) -> Result<Fused<MemOutside>, JournalFault> {
    let mut bay = platter(alloc, choice)?;
    stop(alloc, &mut bay, cut, passed)?;
    bay.disarm(0);
    bay.restart(0)?;
    Ok(bay)
}

// The stripes of the entries from number 2 on, before and after one more is added; no more than these two are told.
fn found(alloc: Global, bay: &mut Fused<MemOutside>) -> Result<[[u64; 2]; 2], JournalFault> {
    let (mut journal, list) = entries(alloc, bay, 2)?;
    journal.append(alloc, bay, &retire(7))?;
    let (again, more) = entries(alloc, bay, 2)?;
    if again != journal {
        return Err(JournalFault::Worn);
    }
    Ok([stripes(&list), stripes(&more)])
}

#[test]
fn a_stop_leaves_the_entries_before_or_with_the_new_one(rt: HostRuntime) -> Result<(), Fail> {
    for (choice, cut, passed, added) in STOPS {
        let mut bay = stopped(rt.alloc(), choice, cut, passed)?;
        let wanted = if added {
            [[6, 0], [6, 7]]
        } else {
            [[0, 0], [7, 0]]
        };
        assert!(rt; found(rt.alloc(), &mut bay)? == wanted);
    }
    Ok(())
}

// A byte of the second of two entries, where it stands, and whether the entry is bad with it.
const BYTES: [(u64, u8, bool); 11] = [
    (0, 0, false),
    (1, 0, true),
    (1, 5, true),
    (3, 1, true),
    (23, 1, true),
    (1, 1, false),
    (1, 2, false),
    (1, 3, true),
    (31, 3, false),
    (24, 1, false),
    (7, 9, false),
];

// What is read of two entries, of which the second has this byte.
fn with_byte(alloc: Global, at: u64, byte: u8) -> Result<(Journal, EntryList), JournalFault> {
    let mut bay = platter(alloc, 0)?;
    let mut journal = FIRST;
    for stripe in [5, 6] {
        journal.append(alloc, &mut bay, &retire(stripe))?;
    }
    if at < 32 {
        bay.write_at(0, 4_128 + at, &[byte])?;
    }
    entries(alloc, &mut bay, 1)
}

#[test]
fn a_bad_entry_is_told_by_its_place(rt: HostRuntime) {
    for (at, byte, bad) in BYTES {
        let fault = with_byte(rt.alloc(), at, byte).err();
        let wanted = if bad {
            Some(JournalFault::Bad { place: 32 })
        } else {
            None
        };
        assert!(rt; fault == wanted);
    }
}

// Adds entries until one has no room, and gives how many were added.
fn filled(
    alloc: Global,
    bay: &mut Fused<MemOutside>,
    journal: &mut Journal,
) -> Result<u32, JournalFault> {
    for count in 0..3_000 {
        match journal.append(alloc, bay, &retire(8)) {
            Ok(()) => {}
            Err(JournalFault::Full { place: 65_504 }) => return Ok(count),
            Err(fault) => return Err(fault),
        }
    }
    Err(JournalFault::Worn)
}

// Fills a journal, and cuts it, twice; how many entries there were, and where it goes on.
fn filled_twice(alloc: Global) -> Result<([u32; 2], Journal), JournalFault> {
    let mut bay = platter(alloc, 0)?;
    let mut journal = FIRST;
    let mut counts = [0; 2];
    for count in counts.iter_mut() {
        *count = filled(alloc, &mut bay, &mut journal)?;
        journal.cut();
    }
    let (found, _) = entries(alloc, &mut bay, 4_095)?;
    if found != journal {
        return Err(JournalFault::Worn);
    }
    Ok((counts, journal))
}

#[test]
fn a_journal_fills_and_is_cut_twice(rt: HostRuntime) -> Result<(), Fail> {
    let journal = Journal {
        place: 0,
        number: 4_095,
    };
    assert!(rt; filled_twice(rt.alloc())? == ([2_047, 2_047], journal));
    Ok(())
}

// The last entry that has a number, and why none comes behind it.
fn worn(alloc: Global) -> Result<Option<JournalFault>, JournalFault> {
    let mut bay = platter(alloc, 0)?;
    let mut journal = Journal {
        place: 65_503,
        number: 281_474_976_710_655,
    };
    journal.append(alloc, &mut bay, &retire(5))?;
    journal.cut();
    Ok(journal.append(alloc, &mut bay, &retire(5)).err())
}

#[test]
fn the_last_number_is_given_to_no_entry(rt: HostRuntime) -> Result<(), Fail> {
    assert!(rt; worn(rt.alloc())? == Some(JournalFault::Worn));
    Ok(())
}
