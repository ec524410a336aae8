use crate::bench::Bench;
use crate::calls::{Do, Who};
use std::alloc::Global;
use zb_types::Kind;
use zb_world::{Halt, Step};

/// What is done with a client.
#[derive(Clone, Copy)]
pub enum Act {
    Give(Do),
    /// Steps until the next one is of this kind.
    To(Kind),
    /// One step, which comes to this, and the kind of the next one.
    Step(Step, Kind),
    /// All clients run until nothing is left.
    Finish,
}

/// A client, and what is done with it.
pub type Row = (Who, Act);

fn carry_out(bench: Bench, alloc: Global, who: Who, act: Act) -> Result<Bench, Halt> {
    match act {
        Act::Give(what) => bench.give(alloc, who, what),
        Act::To(kind) => bench.step_to(alloc, who, kind),
        Act::Step(..) => bench.step(alloc, who),
        Act::Finish => bench.finish(alloc),
    }
}

/// Whether the client has come to what was wanted.
fn is_met(bench: &Bench, who: Who, act: Act) -> bool {
    match act {
        Act::Give(_) => true,
        Act::To(kind) => bench.kind(who) == kind,
        Act::Step(came, kind) => bench.came == came && bench.kind(who) == kind,
        Act::Finish => bench.kind(who) == Kind::Idle,
    }
}

/// The bench behind all rows, and how many of them came out as wanted.
pub fn follow(alloc: Global, start: Bench, rows: &[Row]) -> Result<(Bench, usize), Halt> {
    let mut bench = start;
    let mut met = 0usize;
    for (who, what) in rows {
        bench = carry_out(bench, alloc, *who, *what)?;
        met = met.wrapping_add(usize::from(is_met(&bench, *who, *what)));
    }
    Ok((bench, met))
}
