ghost use Rattle.std.specs.Prelude.{◌≡◌, ◌≤◌, ◌<◌, ◌+◌, ◌^◌, IsErrOf, IfOk, OnOk, None, Some, length, not, ◌&&◌, ◌||◌, ◌==◌};
ghost use Rattle.zb_types.specs.declared.ids.ServerId.{ServerId};
ghost use Rattle.zb_types.specs.declared.nodes.State.{State};
ghost use Rattle.zb_types.specs.declared.tables.MarkFault.TheVariants as fault;
ghost use Rattle.zb_members.specs.Away.{first_away, names};

use zb_types::{MarkFault, Members, ServerId, State};

// The last generation.
const LAST: u64 = 281_474_976_710_656;

// Whether this server is out or is mended.
fn is_named(state: &State, other: u8) -> bool
    ensures { result ≡ names state.now other }
{
    match state {
        State::Whole => false,
        State::Out(server) => server.0 == other,
        State::Mending(server) => server.0 == other,
    }
}

// Whether this server, which serves or not, hinders that another is set out.
fn is_away(state: &State, server: ServerId, other: u8, serves: bool) -> bool
    ensures { result ≡ (not (other == server.0) && (names state.now other || not serves)) }
{
    if other == server.0 {
        return false;
    }
    is_named(state, other) || !serves
}

// The least other server that is out, is mended, or doesn't serve.
fn other_away(state: &State, server: ServerId, serving: &[bool]) -> Option<ServerId>
    requires { length serving.now ≤ 254 }
    ensures { result ≡ first_away state.now server.0 1 serving.now }
{
    let mut rest = serving;
    let mut other = 1;
    while let [serves, others @ ..] = rest {
        if is_away(state, server, other, *serves) {
            return Some(ServerId(other));
        }
        other += 1;
        rest = others;
    }
    None
}

// The members in this state, of the next generation.
fn changed(
    members: &Members,
    server: ServerId,
    serving: &[bool],
    state: State,
) -> Result<Members, MarkFault>
    requires { length serving.now ≤ 254 }
    ensures ok { IfOk result (λ new. new ≡ record { state = state; generation = members.now.generation + 1 }) }
    ensures taken { OnOk result (first_away members.now.state server.0 1 serving.now ≡ None) }
    ensures room { OnOk result (members.now.generation < 2 ^ 48) }
    ensures refused { (other : ServerId) → IsErrOf result (fault.Refused other) → first_away members.now.state server.0 1 serving.now ≡ Some other }
    ensures hindered { IsErrOf result fault.Worn → first_away members.now.state server.0 1 serving.now ≡ None }
    ensures worn { IsErrOf result fault.Worn → 2 ^ 48 ≤ members.now.generation }
{
    if let Some(other) = other_away(&members.state, server, serving) {
        return Err(MarkFault::Refused { other });
    }
    if members.generation >= LAST {
        return Err(MarkFault::Worn);
    }
    Ok(Members {
        state,
        generation: members.generation + 1,
    })
}

/// The members once this server is out: of the next generation. `serving` says of each server, from 1 on, whether it
/// serves; there are at most 16.
///
/// `Refused` comes exactly where another server is out, is mended or doesn't serve, with the least such, and `Worn`
/// exactly where none is so and the generation is 2^48.
pub fn mark_out(members: &Members, server: ServerId, serving: &[bool]) -> Result<Members, MarkFault>
    requires { length serving.now ≤ 16 }
    ensures ok { IfOk result (λ new. new ≡ record { state = State.Out server; generation = members.now.generation + 1 }) }
    ensures taken { OnOk result (first_away members.now.state server.0 1 serving.now ≡ None) }
    ensures room { OnOk result (members.now.generation < 2 ^ 48) }
    ensures refused { (other : ServerId) → IsErrOf result (fault.Refused other) → first_away members.now.state server.0 1 serving.now ≡ Some other }
    ensures hindered { IsErrOf result fault.Worn → first_away members.now.state server.0 1 serving.now ≡ None }
    ensures worn { IsErrOf result fault.Worn → 2 ^ 48 ≤ members.now.generation }
{
    changed(members, server, serving, State::Out(server))
}

/// The members once this server is mended: of the next generation. `serving` says of each server, from 1 on, whether it
/// serves; there are at most 16.
///
/// `Refused` comes exactly where another server is out, is mended or doesn't serve, with the least such, and `Worn`
/// exactly where none is so and the generation is 2^48.
pub fn begin_mend(
    members: &Members,
    server: ServerId,
    serving: &[bool],
) -> Result<Members, MarkFault>
    requires { length serving.now ≤ 16 }
    ensures ok { IfOk result (λ new. new ≡ record { state = State.Mending server; generation = members.now.generation + 1 }) }
    ensures taken { OnOk result (first_away members.now.state server.0 1 serving.now ≡ None) }
    ensures room { OnOk result (members.now.generation < 2 ^ 48) }
    ensures refused { (other : ServerId) → IsErrOf result (fault.Refused other) → first_away members.now.state server.0 1 serving.now ≡ Some other }
    ensures hindered { IsErrOf result fault.Worn → first_away members.now.state server.0 1 serving.now ≡ None }
    ensures worn { IsErrOf result fault.Worn → 2 ^ 48 ≤ members.now.generation }
{
    changed(members, server, serving, State::Mending(server))
}

/// The members once the server that was mended takes part again: of the same generation.
pub fn finish_mend(members: &Members) -> Members
    ensures { result ≡ record { state = State.Whole; generation = members.now.generation } }
{
    Members {
        state: State::Whole,
        generation: members.generation,
    }
}
