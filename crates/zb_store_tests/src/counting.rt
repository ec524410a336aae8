ghost use Rattle.std.specs.Prelude.{◌≡◌};

use crate::system::system;
use std::alloc::Global;
use std::marker::Model;
use std::test::Fail;
use zb_devices::MemOutside;
use zb_fragstore::FragStore;
use zb_outside::Bay;
use zb_types::{Class, Failed, FragId, LogId, ServerId, StoreFault};

/// A bay that counts its writes and its syncs.
#[derive(Drop)]
struct Counting<B: Bay> {
    inner: B,
    writes: u32,
    syncs: u32,
}

impl<B: Bay> Bay for Counting<B> {
    ghost tells = { B.tells };

    ghost meaning = { λ c. B.meaning c.inner };

    ghost counts = { λ c. B.counts c.inner };

    ghost is_exact = { B.is_exact };

    ghost follows = { λ a b. B.follows a.inner b.inner };

    fn read_at(&mut self, platter: usize, place: u64, buf: &mut [u8]) -> Result<(), Failed> {
        self.inner.read_at(platter, place, buf)
    }

    fn write_at(&mut self, platter: usize, place: u64, bytes: &[u8]) -> Result<(), Failed> {
        self.writes = self.writes.saturating_add(1);
        self.inner.write_at(platter, place, bytes)
    }

    fn sync(&mut self, platter: usize) -> Result<(), Failed> {
        self.syncs = self.syncs.saturating_add(1);
        self.inner.sync(platter)
    }

    fn restart(&mut self, platter: usize) -> Result<(), Failed> {
        self.inner.restart(platter)
    }

    fn blank(&mut self, platter: usize) -> Result<(), Failed> {
        self.inner.blank(platter)
    }

    ghost follows_same = { λ a. B.follows_same a.inner };

    ghost follows_then = { λ a b c. B.follows_then a.inner b.inner c.inner };

    ghost exact = { λ c. B.exact c.inner };
}

// A call of a store: of the first share of stripe 0, of that stripe's parity, or of the fence.
#[derive(Clone, Copy)]
enum Call {
    Store,
    Append(u32),
    Delete,
    Parity,
    Fence(u64),
}

fn id(index: u8) -> FragId
    ensures { result.index ≡ index }
{
    FragId {
        log: LogId(1),
        stripe: 0,
        index,
    }
}

fn make<B: Bay>(
    store: &mut FragStore,
    alloc: Global,
    bay: &mut B,
    call: Call,
) -> Result<(), StoreFault>
    requires servers { store.old.geo.servers ≡ 3 }
    requires fragment { store.old.geo.fragment ≡ 256 }
    ensures { store.new.geo ≡ store.old.geo }
{
    let client = Class::Client;
    match call {
        Call::Store => store.store(alloc, bay, id(0), b"abc", client, 9),
        Call::Append(place) => store.append(bay, id(0), place.min(254), b"xy", 9),
        Call::Delete => store.delete(bay, id(0)),
        Call::Parity => store.replace_parity(alloc, bay, id(2), &[3, 0], b"abc", client, 9),
        Call::Fence(generation) => store.fence(bay, generation),
    }
}

// Each call with how many writes and syncs it makes. A cell is set by two of each the first two times, and by three when
// a copy is used again; what is written before it is one of each.
fn calls() -> [(Call, u32, u32); 14] {
    [
        (Call::Store, 3, 3),
        (Call::Append(3), 3, 3),
        (Call::Append(5), 4, 4),
        (Call::Append(5), 0, 0),
        (Call::Delete, 3, 3),
        (Call::Store, 4, 4),
        (Call::Parity, 3, 3),
        (Call::Parity, 5, 5),
        (Call::Parity, 6, 6),
        (Call::Parity, 7, 7),
        (Call::Fence(2), 2, 2),
        (Call::Fence(2), 0, 0),
        (Call::Fence(3), 3, 3),
        (Call::Delete, 3, 3),
    ]
}

// A store on a platter whose writes and syncs are counted.
#[derive(Drop)]
struct Bench {
    bay: Counting<MemOutside>,
    store: FragStore,
}

impl Model for Bench {
    ghost use Rattle.std.specs.Prelude.{◌≡◌};
    ghost use Rattle.zb_types.specs.declared.geometry.Geometry.{Geometry};

    ghost Value = { Geometry };

    ghost view = { λ a. a.store.geo };

    ghost invariant = { λ a. (a.store.geo.servers ≡ 3) × (a.store.geo.fragment ≡ 256) };
}

impl Bench {
    fn new(alloc: Global) -> Result<Bench, Fail> {
        let mut bay = Counting {
            inner: MemOutside::new(alloc, b"", b"", &[])?,
            writes: 0,
            syncs: 0,
        };
        let store = FragStore::format(alloc, &mut bay, &system()?, ServerId(1), 1)?;
        Ok(Bench { bay, store })
    }

    // How many writes and syncs there were since the last count.
    fn count(&mut self) -> (u32, u32) {
        let counted = (self.bay.writes, self.bay.syncs);
        self.bay.writes = 0;
        self.bay.syncs = 0;
        counted
    }

    fn make(&mut self, alloc: Global, call: Call) -> Result<(), StoreFault> {
        make(&mut self.store, alloc, &mut self.bay, call)
    }
}

#[test]
fn a_change_writes_and_syncs_so_often(rt: HostRuntime) -> Result<(), Fail> {
    let mut bench = Bench::new(rt.alloc())?;
    assert_eq!(rt; bench.count(), (3, 3));
    for (i, (call, writes, syncs)) in calls().iter().copied().enumerate() {
        bench.make(rt.alloc(), call)?;
        assert_eq!(rt; bench.count(), (writes, syncs), "at call {i}");
    }
    Ok(())
}
