ghost use Rattle.std.specs.Prelude.{◌≡◌, ◌++◌, ◌<◌, ◌&&◌, ◌||◌, ◌==◌, not, nat_le, OnErr, OnOk};
ghost use Rattle.std.specs.List.{flat_map};
ghost use Rattle.std.specs.Fmt.{decimal};
ghost use Rattle.zb_claims.specs.Text.{hex_digit, byte_text, quoted, num, node_text, server_text, AreBytes};

use std::alloc::Global;
use zb_types::{Mem, NoMemory, Node, ServerId};

/// Adds the decimal digits of a number. Without memory nothing is added.
pub fn number_into(alloc: Global, out: &mut Vec<u8>, n: u64) -> Mem<()>
    ensures ok { OnOk result (out.new.items ≡ out.old.items ++ decimal n) }
    ensures err { OnErr result (out.new.items ≡ out.old.items) }
{
    let digits = n.to_string(alloc)?;
    Ok(out.extend_from_slice(digits.as_bytes())?)
}

/// Adds a space and a number.
pub fn spaced_into(alloc: Global, out: &mut Vec<u8>, n: u64) -> Mem<()>
    ensures { OnOk result (out.new.items ≡ out.old.items ++ num n) }
{
    out.push(b' ')?;
    number_into(alloc, out, n)
}

fn hex_digit(d: u8) -> u8
    requires { d < 16 }
    ensures { result ≡ hex_digit d }
{
    if d < 10 { b'0' + d } else { b'a' + (d - 10) }
}

fn is_plain(b: u8) -> bool
    ensures { result ≡ (nat_le 32 b && nat_le b 126 && not (b == 34 || b == 92)) }
{
    b >= b' ' && b <= b'~' && b != b'"' && b != b'\\'
}

fn byte_into(out: &mut Vec<u8>, b: u8) -> Mem<()>
    ensures { OnOk result (out.new.items ≡ out.old.items ++ byte_text b) }
{
    if is_plain(b) {
        out.push(b)?;
    } else {
        out.push(b'\\')?;
        out.push(b'x')?;
        out.push(hex_digit(b / 16))?;
        out.push(hex_digit(b % 16))?;
    }
    Ok(())
}

fn bytes_into(out: &mut Vec<u8>, bytes: &[u8]) -> Mem<()>
    ensures text { OnOk result (out.new.items ≡ out.old.items ++ flat_map byte_text bytes.now) }
    ensures values { OnOk result (AreBytes bytes.now) }
{
    let mut rest = bytes;
    while let [b, others @ ..] = rest {
        byte_into(out, *b)?;
        rest = others;
    }
    Ok(())
}

/// Adds bytes in quotes.
pub fn quoted_into(out: &mut Vec<u8>, bytes: &[u8]) -> Mem<()>
    ensures text { OnOk result (out.new.items ≡ out.old.items ++ quoted bytes.now) }
    ensures values { OnOk result (AreBytes bytes.now) }
{
    out.push(b'"')?;
    bytes_into(out, bytes)?;
    Ok(out.push(b'"')?)
}

/// Adds the name of a server.
pub fn server_into(alloc: Global, out: &mut Vec<u8>, server: ServerId) -> Mem<()>
    ensures { OnOk result (out.new.items ≡ out.old.items ++ server_text server) }
{
    out.push(b's')?;
    number_into(alloc, out, u64::from(server.0))
}

/// Adds the name of a client.
pub fn client_into(alloc: Global, out: &mut Vec<u8>, client: u8) -> Mem<()>
    ensures { OnOk result (out.new.items ≡ out.old.items ++ node_text (Node.Client client)) }
{
    out.push(b'c')?;
    number_into(alloc, out, u64::from(client))
}

/// Adds the name of a node.
pub fn node_into(alloc: Global, out: &mut Vec<u8>, node: Node) -> Mem<()>
    ensures { OnOk result (out.new.items ≡ out.old.items ++ node_text node) }
{
    match node {
        Node::Server(number) => server_into(alloc, out, ServerId(number)),
        Node::Client(number) => client_into(alloc, out, number),
        Node::Manager => Ok(out.extend_from_slice(b"fm")?),
        Node::Cleaner => Ok(out.extend_from_slice(b"cl")?),
        Node::Mender => Ok(out.extend_from_slice(b"me")?),
    }
}
