ghost use Rattle.std.specs.Prelude.{◌≡◌, ◌++◌, OnOk};
ghost use Rattle.zb_claims.specs.Text.{node_text, server_text, told_text, answer_text};

use crate::text::{node_into, server_into};
use std::alloc::Global;
use zb_types::{EventAnswer, Mem, NoMemory, Node, ServerId, Told};

fn of_node_into(alloc: Global, out: &mut Vec<u8>, words: &[u8], node: Node) -> Mem<()>
    ensures { OnOk result (out.new.items ≡ out.old.items ++ (words.now ++ node_text node)) }
{
    out.extend_from_slice(words)?;
    node_into(alloc, out, node)
}

fn of_server_into(alloc: Global, out: &mut Vec<u8>, words: &[u8], server: ServerId) -> Mem<()>
    ensures { OnOk result (out.new.items ≡ out.old.items ++ (words.now ++ server_text server)) }
{
    out.extend_from_slice(words)?;
    server_into(alloc, out, server)
}

/// Adds the event that a line answers.
pub fn told_into(alloc: Global, out: &mut Vec<u8>, event: Told) -> Mem<()>
    ensures { OnOk result (out.new.items ≡ out.old.items ++ told_text event) }
{
    match event {
        Told::Crash(node) => of_node_into(alloc, out, b"crash ", node),
        Told::Arm(node) => of_node_into(alloc, out, b"arm ", node),
        Told::Up(node) => of_node_into(alloc, out, b"up ", node),
        Told::Lose(server) => of_server_into(alloc, out, b"lose ", server),
        Told::Checkpoint => Ok(out.extend_from_slice(b"checkpoint")?),
    }
}

/// Adds what an event came to.
pub fn answer_into(alloc: Global, out: &mut Vec<u8>, answer: EventAnswer) -> Mem<()>
    ensures { OnOk result (out.new.items ≡ out.old.items ++ answer_text answer) }
{
    match answer {
        EventAnswer::Done => Ok(out.extend_from_slice(b"done")?),
        EventAnswer::Down(node) => of_node_into(alloc, out, b"refused down ", node),
        EventAnswer::ManagerDown => Ok(out.extend_from_slice(b"refused manager down")?),
        EventAnswer::Up(node) => of_node_into(alloc, out, b"refused up ", node),
        EventAnswer::Blank(server) => of_server_into(alloc, out, b"refused blank ", server),
        EventAnswer::Out(server) => of_server_into(alloc, out, b"refused out ", server),
        EventAnswer::Another(server) => of_server_into(alloc, out, b"refused another ", server),
        EventAnswer::Unreachable { a, b } => {
            of_server_into(alloc, out, b"failed unreachable ", a)?;
            of_server_into(alloc, out, b" ", b)
        }
        EventAnswer::Stopped(node) => of_node_into(alloc, out, b"failed stopped ", node),
    }
}
