use crate::client_bench::{Do, Give, answer, flush, hear, made, push, settle, wish};
use crate::servers::Says;
use std::alloc::Global;
use std::test::Fail;
use zb_client::{Answer, Client, Lookup, Told, Turn, Wish};
use zb_types::{Kind, Mem, Outcome, Said};

/// Answers, each for the draws below its number that no earlier one takes.
type Chances = &'static [(u32, Give)];

const LOOKUPS: Chances = &[
    (1, Give::Doubt),
    (3, Give::ManagerDown),
    (33, Give::Found),
    (64, Give::Blocks),
];

const LOOKUPS_OF_NAMES: Chances = &[(1, Give::Doubt), (3, Give::ManagerDown), (64, Give::Named)];

/// While a batch is in doubt the file manager doesn't answer.
const LOOKUPS_IN_DOUBT: Chances = &[(8, Give::Doubt), (64, Give::ManagerDown)];

const FETCHES: Chances = &[
    (2, Give::Server(Says::Gone)),
    (3, Give::Server(Says::Old)),
    (10, Give::Server(Says::Down)),
    (64, Give::Server(Says::Bytes)),
];

const STORES: Chances = &[
    (1, Give::Server(Says::NoSlot)),
    (2, Give::Server(Says::Old)),
    (5, Give::Server(Says::Down)),
    (64, Give::Server(Says::Done)),
];

const MARKS: Chances = &[
    (16, Give::NotMarked),
    (32, Give::ManagerDown),
    (64, Give::Marked),
];

const COMMITS: Chances = &[
    (10, Give::Stale),
    (15, Give::Regen),
    (17, Give::ManagerDown),
    (21, Give::Doubt),
    (64, Give::Committed),
];

const MOVES: Chances = &[(64, Give::Inside)];

fn is_of_names(wish: &Wish) -> bool {
    matches!(wish, Wish::Turn(Turn::Lookup(Lookup::Names(_))))
}

fn lookups(client: &Client, wish: &Wish) -> Chances {
    if client.doubt().is_some() {
        LOOKUPS_IN_DOUBT
    } else if is_of_names(wish) {
        LOOKUPS_OF_NAMES
    } else {
        LOOKUPS
    }
}

/// What may answer the client's step.
fn chances(client: &Client, wish: &Wish) -> Chances {
    match client.kind() {
        Kind::Lookup => lookups(client, wish),
        Kind::Fetch => FETCHES,
        Kind::Store => STORES,
        Kind::Mark => MARKS,
        Kind::Commit => COMMITS,
        _ => MOVES,
    }
}

fn pick(chances: Chances, draw: u32) -> Give {
    for (below, give) in chances {
        if draw < *below {
            return *give;
        }
    }
    Give::Inside
}

fn call(draw: u32) -> Do {
    match draw % 8 {
        0 => Do::Create,
        1 => Do::Truncate(draw),
        2 => Do::Sync,
        3 => Do::Read(draw, 70),
        4 => Do::Stat,
        _ => Do::Write(draw),
    }
}

/// The next of numbers as if by chance.
fn next(state: u64) -> u64 {
    let x = state ^ (state << 13);
    let y = x ^ (x >> 7);
    y ^ (y << 17)
}

/// A draw below 64.
fn draw(state: u64) -> u32 {
    (state >> 33) as u32 % 64
}

/// The calls that are kept, few, and the first that is queued.
fn standing(alloc: Global, client: &Client) -> Mem<Vec<u64>> {
    let mut numbers = Vec::new(alloc);
    for i in 0..100 {
        let Some(number) = client.kept(i) else {
            break;
        };
        numbers.push(number)?;
    }
    if let Some(number) = client.queued(0) {
        numbers.push(number)?;
    }
    Ok(numbers)
}

/// Those of some calls that aren't among these.
fn others(alloc: Global, calls: &[u64], these: &[u64]) -> Mem<Vec<u64>> {
    let mut numbers = Vec::new(alloc);
    for number in calls {
        if !these.contains(number) {
            numbers.push(*number)?;
        }
    }
    Ok(numbers)
}

/// The call whose last line this is.
fn ended(line: &Outcome) -> Option<u64> {
    match line {
        Outcome::Call {
            number,
            said: Said::Reply(_) | Said::Failed(_) | Said::Unfinished(_),
            ..
        } => Some(*number),
        _ => None,
    }
}

/// The calls whose last line was told, in order. None where nothing was answered.
fn told_last(alloc: Global, told: Option<Told>) -> Mem<Option<Vec<u64>>> {
    let mut numbers = Vec::new(alloc);
    let Some(told) = told else {
        return Ok(None);
    };
    if let Told::Lines(lines) = &told {
        for line in lines.slice() {
            if let Some(number) = ended(line) {
                numbers.push(number)?;
            }
        }
    }
    Ok(Some(numbers))
}

/// Whether the calls that left are those whose last line was told, in order. One in doubt that is told as unfinished stays
/// until the doubt is over.
fn all_told(alloc: Global, before: &[u64], after: &[u64], told: &[u64]) -> Mem<bool> {
    let left = others(alloc, before, after)?;
    let ended = others(alloc, told, after)?;
    Ok(left == ended)
}

/// What answers the client's step.
fn drawn(client: &mut Client, alloc: Global, draw: u32) -> Mem<Answer> {
    let wish = wish(client, alloc)?;
    let give = pick(chances(client, &wish), draw);
    let serving = if draw % 2 == 0 { 7 } else { 0 };
    answer(alloc, &wish, give, serving)
}

/// One step. The calls whose last line is told, or none where the answer doesn't fit.
fn heard(client: &mut Client, alloc: Global, draw: u32) -> Mem<Option<Vec<u64>>> {
    let answer = drawn(client, alloc, draw)?;
    told_last(alloc, hear(client, alloc, answer)?)
}

/// One step. False where the answer doesn't fit, or another call than one that left is told its last line.
fn turn(client: &mut Client, alloc: Global, draw: u32) -> Mem<bool> {
    let before = standing(alloc, client)?;
    let Some(told) = heard(client, alloc, draw)? else {
        return Ok(false);
    };
    let after = standing(alloc, client)?;
    all_told(alloc, &before, &after, &told)
}

/// Ends the doubt, seldom.
fn end_doubt(client: &mut Client, draw: u32) {
    if draw < 8 {
        settle(client, draw < 4);
    }
}

/// Queues a call of this number. The number of the next call, or none where the call doesn't stand.
fn queue(client: &mut Client, alloc: Global, number: u64, draw: u32) -> Mem<Option<u64>> {
    push(client, alloc, number, call(draw))?;
    if client.queued(0) == Some(number) {
        return Ok(Some(number.wrapping_add(1)));
    }
    Ok(None)
}

/// What begins where the client is idle: seldom the commit of all that is kept, else a call.
fn begin(client: &mut Client, alloc: Global, number: u64, state: u64) -> Mem<Option<u64>> {
    if client.kind() != Kind::Idle {
        return Ok(Some(number));
    }
    if draw(state) == 20 {
        flush(client);
        return Ok(Some(number));
    }
    queue(client, alloc, number, draw(state >> 6))
}

/// What begins, and one step. The number of the next call, or none where the step comes out otherwise than it should.
fn go(client: &mut Client, alloc: Global, number: u64, state: u64) -> Mem<Option<u64>> {
    end_doubt(client, draw(state));
    let number = begin(client, alloc, number, state)?;
    if client.kind() != Kind::Idle && !turn(client, alloc, draw(state >> 12))? {
        return Ok(None);
    }
    Ok(number)
}

/// So many steps. The number of the next call, or none where a step comes out otherwise than it should.
fn run(client: &mut Client, alloc: Global, steps: u32) -> Mem<Option<u64>> {
    let mut state = 88_172_645_463_325_252u64;
    let mut number = 1u64;
    for _ in 0..steps {
        state = next(state);
        let Some(next) = go(client, alloc, number, state)? else {
            return Ok(None);
        };
        number = next;
    }
    Ok(Some(number))
}

/// The same, of a new client.
fn next_call(alloc: Global, steps: u32) -> Mem<Option<u64>> {
    let mut client = made(alloc)?;
    run(&mut client, alloc, steps)
}

#[test]
fn each_call_ends_once(rt: HostRuntime) -> Result<(), Fail> {
    let number = next_call(rt.alloc(), 10_000)?;
    assert!(rt; number.is_some(), "a step comes out otherwise");
    assert!(rt; number > Some(500), "many calls are made");
    Ok(())
}
