ghost use Rattle.std.specs.Prelude.{◌≡◌, None};

use crate::calls::{Do, Who, call_of};
use std::alloc::Global;
use zb_devices::MemOutside;
use zb_types::{Geometry, Kind, Node};
use zb_world::{Halt, Step, World};

/// A world of two clients, no line of which waits.
#[derive(Drop)]
pub struct Bench {
    pub world: World<MemOutside>,
    /// What the last step came to.
    pub came: Step,
    pub ghost settled: { world.course.untold ≡ None },
    pub ghost clients: { world.geo.clients ≡ 2 },
}

/// More steps than any client makes before its next one is of the kind that is waited for.
const MANY: u32 = 64;

impl Bench {
    /// Three servers with fragments of 1,024 bytes, blocks of 64 and 64 slots each, and clients that were given nothing.
    pub fn new(alloc: Global) -> Result<Bench, Halt> {
        let Ok(geo) = Geometry::new(3, 2, 1024, 64, 64) else {
            return Err(Halt::NoMemory);
        };
        let out = MemOutside::new(alloc, b"", b"", &[])?;
        match World::new(alloc, geo, out) {
            Ok(world) => Ok(Bench {
                world,
                came: Step::Idle,
            }),
            Err(_) => Err(Halt::NoMemory),
        }
    }

    /// Gives a client a call.
    pub fn give(self, alloc: Global, who: Who, what: Do) -> Result<Bench, Halt> {
        let Bench { mut world, came } = self;
        let call = call_of(alloc, what)?;
        world.call(alloc, who.number(), call)?;
        Ok(Bench { world, came })
    }

    /// The kind of a client's next step.
    pub fn kind(&self, who: Who) -> Kind {
        self.world.kind(Node::Client(who.number()))
    }

    /// One step of a client.
    pub fn step(self, alloc: Global, who: Who) -> Result<Bench, Halt> {
        let Bench { mut world, .. } = self;
        let came = world.step(alloc, Node::Client(who.number()))?;
        Ok(Bench { world, came })
    }

    // One step of a client whose next one isn't of this kind.
    fn step_before(self, alloc: Global, who: Who, kind: Kind) -> Result<Bench, Halt> {
        if self.kind(who) == kind {
            return Ok(self);
        }
        self.step(alloc, who)
    }

    /// Steps of a client until its next one is of this kind.
    pub fn step_to(self, alloc: Global, who: Who, kind: Kind) -> Result<Bench, Halt> {
        let mut bench = self;
        for _ in 0..MANY {
            bench = bench.step_before(alloc, who, kind)?;
        }
        Ok(bench)
    }

    /// Steps of all clients until none has work and none keeps a call.
    pub fn finish(self, alloc: Global) -> Result<Bench, Halt> {
        let Bench { mut world, came } = self;
        world.finish(alloc)?;
        Ok(Bench { world, came })
    }

    /// Prints the lines that were told. All but the outside is given up.
    pub fn print(self) -> MemOutside {
        let Bench { mut world, .. } = self;
        let _ = world.put_report();
        world.outside()
    }
}
