use std::alloc::Global;
use zb_cell::{CellFault, get, set};
use zb_devices::MemOutside;
use zb_outside::{Bay, Fused};

// A settled platter 3 of 130 zeros, whose restart leaves what this choice says.
fn platter(alloc: Global, choice: u8) -> Result<Fused<MemOutside>, CellFault> {
    let Ok(memory) = MemOutside::new(alloc, b"", &[choice], &[]) else {
        return Err(CellFault::Stopped);
    };
    let mut bay = Fused::new(memory);
    bay.write_at(3, 0, &[0; 130])?;
    bay.sync(3)?;
    Ok(bay)
}

// A value of the same byte everywhere is set.
fn set_to<B: Bay>(bay: &mut B, byte: u8) -> Result<(), CellFault> {
    set(bay, 3, 1, &[byte; 40])
}

// The cell at byte 1 of that platter was set twice.
fn set_twice(alloc: Global, choice: u8) -> Result<Fused<MemOutside>, CellFault> {
    let mut bay = platter(alloc, choice)?;
    set_to(&mut bay, 5)?;
    set_to(&mut bay, 6)?;
    Ok(bay)
}

#[test]
fn a_value_is_given_back(rt: HostRuntime) {
    let mut bay = platter(rt.alloc(), 0).expect(&rt, "memory");
    assert!(rt; get(&mut bay, 3, 1) == Err(CellFault::Blank));
    let mut bay = set_twice(rt.alloc(), 0).expect(&rt, "memory");
    assert!(rt; get(&mut bay, 3, 1) == Ok([6; 40]));
}

// The third set has stopped, at the write behind so many that pass.
fn stopped(alloc: Global, choice: u8, passed: u8) -> Result<Fused<MemOutside>, CellFault> {
    let mut bay = set_twice(alloc, choice)?;
    bay.arm(3, u64::from(passed) + 1);
    match set_to(&mut bay, 9) {
        Err(CellFault::Stopped) => Ok(bay),
        _ => Err(CellFault::Blank),
    }
}

// The value that is found after such a stop.
fn found(alloc: Global, choice: u8, passed: u8) -> Result<[u8; 40], CellFault> {
    let mut bay = stopped(alloc, choice, passed)?;
    bay.disarm(3);
    bay.restart(3)?;
    get(&mut bay, 3, 1)
}

// The choice, the writes that pass before the one that stops the set, and the value that is found.
const STOPS: [(u8, u8, u8); 9] = [
    (0, 0, 6),
    (1, 0, 6),
    (7, 0, 6),
    (0, 1, 6),
    (1, 1, 6),
    (7, 1, 6),
    (0, 2, 6),
    (1, 2, 9),
    (7, 2, 6),
];

#[test]
fn a_stop_leaves_the_former_value_or_the_new(rt: HostRuntime) {
    for (choice, passed, wanted) in STOPS {
        assert!(rt; found(rt.alloc(), choice, passed) == Ok([wanted; 40]));
    }
}

// The 64 bytes of a copy whose payload is this byte everywhere.
fn copy(gate: u8, turn: u8, byte: u8) -> [u8; 64] {
    let mut bytes = [0; 64];
    bytes[0] = gate;
    bytes[1] = turn;
    bytes[8..48].fill(byte);
    bytes
}

// The writes that pass before the one that stops the third set, and the gate, the turn and the payload of its copy then.
const GATES: [(u8, u8, u8, u8); 3] = [(0, 0, 0, 5), (1, 0, 2, 9), (2, 1, 2, 9)];

// Whether the cell has these two copies, and no byte stands behind the platter's last.
fn has_copies(platter: &[u8], first: &[u8; 64], second: &[u8; 64]) -> bool {
    platter.len() == 130
        && platter.get(1..65) == Some(first.as_slice())
        && platter.get(65..129) == Some(second.as_slice())
}

#[test]
fn a_cell_has_the_bytes_of_its_format(rt: HostRuntime) {
    for (passed, gate, turn, byte) in GATES {
        let memory = stopped(rt.alloc(), 0, passed).expect(&rt, "memory").inner();
        assert!(rt; has_copies(memory.platter(3), &copy(gate, turn, byte), &copy(1, 1, 6)));
    }
}
