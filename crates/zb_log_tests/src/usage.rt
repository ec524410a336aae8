ghost use Rattle.std.specs.Prelude.{◌≤◌, ◌<◌};
ghost use Rattle.zb_conflict.specs.Table.{IsNoReject};

use std::alloc::Global;
use std::collections::BTreeMap;
use std::test::Fail;
use zb_conflict::{Decision, decide};
use zb_delta::{Body, Delta};
use zb_pointers::FileHead;
use zb_types::{
    Fid, HeldList, HeldUse, LogId, LogUse, LogUseList, Mem, Members, NoMemory, Ptr, State, Status,
};
use zb_usage::{Chooses, Policy, StripeUse, Usage, most_dead, oldest};

const LOG: LogId = LogId(1);

/// How many blocks the file has.
const BLOCKS: u32 = 12;

/// Numbers without a pattern.
#[derive(Drop)]
struct Dice {
    state: u64,
}

impl Dice {
    /// A number below this one.
    fn roll(&mut self, below: u32) -> u32
        requires { 1 ≤ below }
        ensures { result < below }
    {
        let mut x = self.state;
        x ^= x << 13;
        x ^= x >> 7;
        x ^= x << 17;
        self.state = x;
        (x % u64::from(below)) as u32
    }
}

/// The blocks of a file in the stripes of one log, four pointers in each, and the use of these as notes tell it.
#[derive(Drop)]
struct Bench {
    table: BTreeMap<u32, Ptr>,
    held: BTreeMap<u64, u64>,
    usage: Usage,
    given: u32,
    dice: Dice,
}

impl Bench {
    /// A pointer that wasn't given before.
    fn new_ptr(&mut self) -> Mem<Ptr> {
        let given = self.given;
        self.given = given.saturating_add(1);
        let stripe = u64::from(given / 4);
        self.held.insert(stripe, stripe)?;
        Ok(Ptr {
            log: LOG,
            stripe,
            offset: given,
            len: 1 + self.dice.roll(64),
        })
    }

    /// A block of the file at version 1, that is made of an old pointer.
    fn new_body(&mut self, block: u32, was: Option<Ptr>) -> Mem<Body> {
        Ok(Body {
            fid: Fid(1),
            version: 1,
            block,
            was,
            now: self.new_ptr()?,
        })
    }

    fn reject(&mut self, alloc: Global, body: Body, dead: Ptr, table: Option<Ptr>) -> Mem<()> {
        let body = Body { now: dead, ..body };
        self.usage.note(alloc, &Delta::Reject { body, table })
    }

    fn set(&mut self, alloc: Global, delta: Delta, body: Body) -> Mem<()> {
        self.table.insert(body.block, body.now)?;
        self.usage.note(alloc, &delta)
    }

    /// Takes a delta as the file manager does.
    fn take(&mut self, alloc: Global, delta: Delta, body: Body) -> Result<(), Fail>
        requires { IsNoReject delta }
    {
        let head = FileHead {
            version: 1,
            length: 0,
        };
        let table = self.table.get(&body.block).copied();
        match decide(&delta, Some(head), table) {
            Decision::Set => self.set(alloc, delta, body)?,
            Decision::SetAndReject { dead } => {
                self.set(alloc, delta, body)?;
                self.reject(alloc, body, dead, table)?;
            }
            Decision::Drop { dead } => self.reject(alloc, body, dead, table)?,
            Decision::Stale { .. } => {}
        }
        Ok(())
    }

    fn update(&mut self, alloc: Global, block: u32, was: Option<Ptr>) -> Result<(), Fail> {
        let body = self.new_body(block, was)?;
        self.take(alloc, Delta::Update(body), body)
    }

    fn clean(&mut self, alloc: Global, block: u32, was: Option<Ptr>) -> Result<(), Fail> {
        let body = self.new_body(block, was)?;
        self.take(alloc, Delta::Clean(body), body)
    }

    /// The file loses a block.
    fn drop_block(&mut self, alloc: Global, block: u32) -> Result<(), Fail> {
        let Some(dead) = self.table.remove(&block) else {
            return Ok(());
        };
        let body = Body {
            fid: Fid(1),
            version: 1,
            block,
            was: None,
            now: dead,
        };
        self.usage.note(
            alloc,
            &Delta::Reject {
                body,
                table: Some(dead),
            },
        )?;
        Ok(())
    }

    /// A stripe into which no pointer is isn't held any longer.
    fn retire(&mut self, stripe: u64) {
        if self.table.values().all(|ptr| ptr.stripe != stripe) {
            self.held.remove(&stripe);
        }
    }

    /// One change of a block, or of what is held.
    fn step(&mut self, alloc: Global) -> Result<(), Fail> {
        let block = self.dice.roll(BLOCKS);
        let table = self.table.get(&block).copied();
        match self.dice.roll(6) {
            0 => self.drop_block(alloc, block),
            1 if table.is_some() => {
                self.clean(alloc, block, table)?;
                self.update(alloc, block, table)
            }
            2 if table.is_some() => {
                self.update(alloc, block, table)?;
                self.clean(alloc, block, table)
            }
            3 => self.clean(alloc, block, table),
            4 => {
                let stripe = u64::from(self.dice.roll(1 + self.given / 4));
                self.retire(stripe);
                Ok(())
            }
            _ => self.update(alloc, block, table),
        }
    }

    /// The pointers of the file.
    fn live(&self, alloc: Global) -> Result<Vec<Body>, Fail> {
        let mut live = Vec::new(alloc);
        for (block, now) in &self.table {
            live.push(Body {
                fid: Fid(1),
                version: 1,
                block: *block,
                was: None,
                now: *now,
            })?;
        }
        Ok(live)
    }

    fn status(&self, alloc: Global) -> Result<Status, Fail> {
        let mut logs = LogUseList::new(alloc)?;
        logs.push(LogUse {
            log: LOG,
            live: true,
            last: Some(u64::from(self.given.saturating_sub(1) / 4)),
            batch: 1,
        })?;
        let mut held = HeldList::new(alloc)?;
        for (stripe, born) in &self.held {
            held.push(HeldUse {
                log: LOG,
                stripe: *stripe,
                end: 256,
                born: *born,
            })?;
        }
        let members = Members {
            state: State::Whole,
            generation: 1,
        };
        Ok(Status {
            next: 2,
            members,
            logs,
            held,
        })
    }

    /// Whether the candidates by notes are those that a new count gives.
    fn agrees(&mut self, alloc: Global) -> Result<bool, Fail> {
        let status = self.status(alloc)?;
        self.usage.renew(alloc, &status)?;
        let noted = self.usage.candidates(alloc)?;
        let live = self.live(alloc)?;
        let counted = Usage::scratch(alloc, &status, &live)?;
        Ok(noted == counted.candidates(alloc)?)
    }
}

fn new_bench(alloc: Global) -> Result<Bench, Fail> {
    let status = Status {
        next: 2,
        members: Members {
            state: State::Whole,
            generation: 1,
        },
        logs: LogUseList::new(alloc)?,
        held: HeldList::new(alloc)?,
    };
    Ok(Bench {
        table: BTreeMap::new(alloc),
        held: BTreeMap::new(alloc),
        usage: Usage::scratch(alloc, &status, &[])?,
        given: 0,
        dice: Dice {
            state: 88_172_645_463_325_252,
        },
    })
}

#[test]
fn notes_lead_to_what_a_new_count_gives(rt: HostRuntime) -> Result<(), Fail> {
    let alloc = rt.alloc();
    let mut bench = new_bench(alloc)?;
    for _ in 0..1_000 {
        bench.step(alloc)?;
        assert_eq!(rt; bench.agrees(alloc)?, true);
    }
    let status = bench.status(alloc)?;
    bench.usage.renew(alloc, &status)?;
    assert_eq!(rt; bench.usage.candidates(alloc)?.is_empty(), false);
    Ok(())
}

fn use_of(bytes: u32, live: u32, born: u64) -> StripeUse {
    StripeUse {
        log: LOG,
        stripe: born,
        bytes,
        live,
        born,
    }
}

#[test]
fn a_policy_takes_the_most_dead_or_the_oldest(rt: HostRuntime) -> Result<(), Fail> {
    let alloc = rt.alloc();
    let list = [use_of(256, 56, 9), use_of(256, 156, 4)];
    let by_dead = Policy::new(Box::new(alloc, |list: &[StripeUse]| most_dead(list))?);
    let by_age = Policy::new(Box::new(alloc, |list: &[StripeUse]| oldest(list))?);
    assert_eq!(rt; by_dead.choose(&list), 0);
    assert_eq!(rt; by_age.choose(&list), 1);
    assert_eq!(rt; most_dead(&[]), 0);
    assert_eq!(rt; oldest(&[]), 0);
    Ok(())
}
