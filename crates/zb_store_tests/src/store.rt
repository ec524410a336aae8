ghost use Rattle.std.specs.Prelude.{◌≡◌, ◌≤◌, ◌+◌, IfOk, length};

use crate::system::system;
use std::alloc::Global;
use std::marker::Model;
use std::test::Fail;
use zb_devices::MemOutside;
use zb_fragstore::FragStore;
use zb_outside::{Bay, Fused};
use zb_types::{Class, FragId, LogId, Mem, Response, ServerId, StoreFault};

const SERVER: ServerId = ServerId(1);

// The fragment of this index of a stripe of log 1.
fn id(stripe: u64, index: u8) -> FragId
    ensures { result.index ≡ index }
{
    FragId {
        log: LogId(1),
        stripe,
        index,
    }
}

// What of these bytes fits into a fragment from this place on.
fn fitting(place: u8, bytes: &[u8]) -> &[u8]
    ensures { place + length result.now ≤ 256 }
{
    let room = 256 - usize::from(place);
    &bytes[..bytes.len().min(room)]
}

// A store of that system, on a platter in memory behind a fuse.
#[derive(Drop)]
struct Bench {
    bay: Fused<MemOutside>,
    store: FragStore,
}

impl Model for Bench {
    ghost use Rattle.std.specs.Prelude.{◌≡◌};
    ghost use Rattle.zb_types.specs.declared.geometry.Geometry.{Geometry};

    ghost Value = { Geometry };

    ghost view = { λ a. a.store.geo };

    ghost invariant = { λ a. (a.store.geo.servers ≡ 3) × (a.store.geo.fragment ≡ 256) };
}

impl Bench {
    // The platter leaves the image of this choice at its restart.
    fn new(alloc: Global, choice: u8) -> Result<Bench, Fail> {
        let mut bay = Fused::new(MemOutside::new(alloc, b"", &[choice], &[])?);
        let store = FragStore::format(alloc, &mut bay, &system()?, SERVER, 1)?;
        Ok(Bench { bay, store })
    }

    // Stores the first share of a stripe, for a client.
    fn store(
        &mut self,
        alloc: Global,
        stripe: u64,
        bytes: &[u8],
        generation: u64,
    ) -> Result<(), StoreFault> {
        let client = Class::Client;
        let bytes = fitting(0, bytes);
        self.store.store(
            alloc,
            &mut self.bay,
            id(stripe, 0),
            bytes,
            client,
            generation,
        )
    }

    // Appends to the first share of stripe 0.
    fn append(&mut self, place: u8, bytes: &[u8], generation: u64) -> Result<(), StoreFault> {
        let bytes = fitting(place, bytes);
        self.store.append(&mut self.bay, id(0, 0), u32::from(place), bytes, generation)
    }

    // Stores or replaces the parity of a stripe, for a client.
    fn parity(
        &mut self,
        alloc: Global,
        stripe: u64,
        lengths: [u32; 2],
        bytes: &[u8],
    ) -> Result<(), StoreFault> {
        let (id, client) = (id(stripe, 2), Class::Client);
        let bytes = fitting(0, bytes);
        self.store
            .replace_parity(alloc, &mut self.bay, id, &lengths, bytes, client, 1)
    }

    fn retrieve(
        &mut self,
        alloc: Global,
        id: FragId,
        place: u8,
        end: u8,
        generation: u64,
    ) -> Result<Response, StoreFault> {
        let len = end.saturating_sub(place);
        self.store.retrieve(
            alloc,
            &mut self.bay,
            id,
            u32::from(place),
            u32::from(len),
            generation,
        )
    }

    fn delete(&mut self) -> Result<(), StoreFault> {
        self.store.delete(&mut self.bay, id(0, 0))
    }

    fn fence(&mut self, generation: u64) -> Result<(), StoreFault> {
        self.store.fence(&mut self.bay, generation)
    }

    // The n-th write from now stops the platter.
    fn arm(&mut self, n: u64)
        requires { 1 ≤ n }
    {
        self.bay.arm(1, n);
    }

    // Whether the names above this one are these.
    fn has_names(&self, alloc: Global, after: Option<FragId>, wanted: &[FragId]) -> Mem<bool> {
        let names = self.store.identify(alloc, after)?;
        Ok(names.slice() == wanted)
    }

    // Stores a share and a parity of stripe 0.
    fn fill(&mut self, alloc: Global) -> Result<(), StoreFault> {
        self.store(alloc, 0, b"abc", 1)?;
        self.parity(alloc, 0, [3, 0], b"abc")
    }

    // Restarts the platter, and opens the store again.
    fn reopen(&mut self, alloc: Global) -> Result<(), Fail> {
        self.bay.disarm(1);
        self.bay.restart(1)?;
        self.store = FragStore::open(alloc, &mut self.bay, &system()?, SERVER)?;
        Ok(())
    }

    // The length of a fragment, which an append at a place that isn't its end tells.
    fn length_of(&mut self, id: FragId, fence: u64) -> Result<Option<u32>, Fail> {
        match self.store.append(&mut self.bay, id, 255, b"x", fence) {
            Err(StoreFault::NoFragment) => Ok(None),
            Err(StoreFault::Offset { len }) => Ok(Some(len)),
            _ => Err(Fail::new("another answer than its length")),
        }
    }

    // The length of a fragment, and its last byte.
    fn last_of(
        &mut self,
        alloc: Global,
        id: FragId,
        fence: u64,
    ) -> Result<Option<(u32, u8)>, Fail> {
        let Some(len) = self.length_of(id, fence)? else {
            return Ok(None);
        };
        let end = len.min(255) as u8;
        let response = self.retrieve(alloc, id, end.saturating_sub(1), end, fence)?;
        Ok(Some((len, first_byte(&response))))
    }

    // The fence, which is told to a generation below it.
    fn fence_of(&mut self, alloc: Global) -> Result<u64, Fail> {
        match self.retrieve(alloc, id(0, 0), 0, 0, 0) {
            Err(StoreFault::OldGeneration { now }) => Ok(now),
            _ => Err(Fail::new("generation 0 is taken")),
        }
    }

    fn view(&mut self, alloc: Global) -> Result<View, Fail> {
        let fence = self.fence_of(alloc)?;
        let mut fragments = [None; 4];
        for (i, (stripe, index)) in [(0, 0), (0, 2), (1, 0), (1, 2)].iter().enumerate() {
            fragments[i] = self.last_of(alloc, id(*stripe, *index), fence)?;
        }
        Ok(View {
            fence,
            free: self.store.free(),
            fragments,
        })
    }
}

// The first byte that was read.
fn first_byte(response: &Response) -> u8 {
    let byte = match response {
        Response::Bytes(bytes) | Response::Parity { bytes, .. } => bytes.get(0),
        _ => None,
    };
    byte.copied().unwrap_or(0)
}

// What a store shows: its fence, its free slots, and four of its fragments.
#[derive(Clone, Copy, PartialEq, Eq)]
struct View {
    fence: u64,
    free: u32,
    fragments: [Option<(u32, u8)>; 4],
}

// A call by a client on the first shares of the stripes of log 1; all but `Store` on that of stripe 0.
#[derive(Clone, Copy)]
enum Call {
    Store {
        stripe: u64,
        bytes: &'static [u8],
        generation: u64,
    },
    Append {
        place: u8,
        bytes: &'static [u8],
        generation: u64,
    },
    Retrieve {
        place: u8,
        end: u8,
        generation: u64,
    },
    Fence {
        generation: u64,
    },
    Delete,
}

// Makes a call, and tells how many slots are free then.
fn free_after(bench: &mut Bench, alloc: Global, call: Call) -> Result<u64, StoreFault> {
    match call {
        Call::Store {
            stripe,
            bytes,
            generation,
        } => bench.store(alloc, stripe, bytes, generation)?,
        Call::Append {
            place,
            bytes,
            generation,
        } => bench.append(place, bytes, generation)?,
        Call::Retrieve {
            place,
            end,
            generation,
        } => {
            bench.retrieve(alloc, id(0, 0), place, end, generation)?;
        }
        Call::Fence { generation } => bench.fence(generation)?,
        Call::Delete => bench.delete()?,
    }
    Ok(u64::from(bench.store.free()))
}

fn share(stripe: u64, bytes: &'static [u8], generation: u64) -> Call {
    Call::Store {
        stripe,
        bytes,
        generation,
    }
}

fn behind(place: u8, bytes: &'static [u8]) -> Call {
    Call::Append {
        place,
        bytes,
        generation: 1,
    }
}

fn bytes(place: u8, end: u8, generation: u64) -> Call {
    Call::Retrieve {
        place,
        end,
        generation,
    }
}

// Calls, each with how many slots are free then, or why it is refused.
fn rows() -> [(Call, Result<u64, StoreFault>); 14] {
    [
        (share(0, b"abc", 1), Ok(7)),
        (share(0, b"abc", 1), Err(StoreFault::Exists)),
        (behind(3, b"de"), Ok(7)),
        (behind(3, b"de"), Ok(7)),
        (behind(4, b"x"), Err(StoreFault::Offset { len: 5 })),
        (bytes(3, 6, 1), Err(StoreFault::Short { len: 5 })),
        (Call::Fence { generation: 2 }, Ok(7)),
        (behind(5, b"x"), Err(StoreFault::OldGeneration { now: 2 })),
        (share(1, b"z", 2), Ok(6)),
        (share(2, b"z", 2), Ok(5)),
        (share(3, b"z", 2), Ok(4)),
        (share(4, b"z", 2), Err(StoreFault::NoSlot { free: 4 })),
        (Call::Delete, Ok(5)),
        (bytes(0, 1, 2), Err(StoreFault::NoFragment)),
    ]
}

#[test]
fn shares_are_answered_by_the_rules(rt: HostRuntime) -> Result<(), Fail> {
    let mut bench = Bench::new(rt.alloc(), 0)?;
    for (call, wanted) in rows() {
        assert_eq!(rt; free_after(&mut bench, rt.alloc(), call), wanted);
    }
    let names = [id(1, 0), id(2, 0), id(3, 0)];
    assert!(rt; bench.has_names(rt.alloc(), None, &names)?);
    assert!(rt; bench.has_names(rt.alloc(), Some(id(1, 0)), &names[1..])?);
    Ok(())
}

// Whether a parity was read with these lengths and bytes.
fn is_parity(response: &Response, covered: &[u32], wanted: &[u8]) -> bool {
    match response {
        Response::Parity { lengths, bytes } => {
            lengths.slice() == covered && bytes.slice() == wanted
        }
        _ => false,
    }
}

// Whether bytes 1 to 5 of a parity of three bytes are read with its lengths.
fn reads_past_its_end(bench: &mut Bench, alloc: Global) -> Result<bool, StoreFault> {
    bench.parity(alloc, 0, [3, 2], b"xyz")?;
    let response = bench.retrieve(alloc, id(0, 2), 1, 5, 1)?;
    Ok(is_parity(&response, &[3, 2], b"yz\0\0"))
}

#[test]
fn a_parity_is_read_with_its_lengths_and_zeros_past_its_end(rt: HostRuntime) -> Result<(), Fail> {
    let mut bench = Bench::new(rt.alloc(), 0)?;
    assert!(rt; reads_past_its_end(&mut bench, rt.alloc())?);
    assert!(rt; bench.has_names(rt.alloc(), None, &[id(0, 2)])?);
    Ok(())
}

// A call that changes the map or the fence.
#[derive(Clone, Copy)]
enum Change {
    Store,
    Append,
    FirstParity,
    NextParity,
    Delete,
    Fence,
}

fn make(bench: &mut Bench, alloc: Global, change: Change) -> Result<(), StoreFault> {
    match change {
        Change::Store => bench.store(alloc, 1, b"new", 1),
        Change::Append => bench.append(3, b"de", 1),
        Change::FirstParity => bench.parity(alloc, 1, [1, 0], b"p"),
        Change::NextParity => bench.parity(alloc, 0, [5, 5], b"abcde"),
        Change::Delete => bench.delete(),
        Change::Fence => bench.fence(2),
    }
}

// A store with one share and one parity.
fn prepared(alloc: Global, choice: u8) -> Result<Bench, Fail> {
    let mut bench = Bench::new(alloc, choice)?;
    bench.fill(alloc)?;
    Ok(bench)
}

// What is shown after a change that isn't stopped.
fn view_after(alloc: Global, change: Change) -> Result<View, Fail> {
    let mut bench = prepared(alloc, 0)?;
    make(&mut bench, alloc, change)?;
    bench.view(alloc)
}

// Whether a change is stopped at its n-th write.
fn is_stopped(bench: &mut Bench, alloc: Global, change: Change, n: u64) -> bool
    requires { 1 ≤ n }
{
    bench.arm(n);
    make(bench, alloc, change).is_err()
}

// What is shown where a change is stopped at its n-th write, and the store is opened again: none where it has fewer.
fn view_after_stop(alloc: Global, change: Change, n: u64, choice: u8) -> Result<Option<View>, Fail>
    requires { 1 ≤ n }
{
    let mut bench = prepared(alloc, choice)?;
    if !is_stopped(&mut bench, alloc, change, n) {
        return Ok(None);
    }
    bench.reopen(alloc)?;
    Ok(Some(bench.view(alloc)?))
}

// Stops a change at each of its writes, and counts these.
fn stop_each(alloc: Global, change: Change, choice: u8) -> Result<u64, Fail> {
    let before = prepared(alloc, choice)?.view(alloc)?;
    let after = view_after(alloc, change)?;
    for n in 1..20 {
        match view_after_stop(alloc, change, n, choice)? {
            None => return Ok(n - 1),
            Some(now) if now == before || now == after => {}
            Some(_) => return Err(Fail::new("neither before nor after")),
        }
    }
    Ok(20)
}

#[test]
fn a_stop_at_any_write_leaves_the_map_before_or_after(rt: HostRuntime) -> Result<(), Fail> {
    let writes = [
        (Change::Store, 3),
        (Change::Append, 3),
        (Change::FirstParity, 3),
        (Change::NextParity, 5),
        (Change::Delete, 2),
        (Change::Fence, 2),
    ];
    for (change, count) in writes {
        for choice in [0, 1, 7] {
            assert_eq!(rt; stop_each(rt.alloc(), change, choice)?, count);
        }
    }
    Ok(())
}
