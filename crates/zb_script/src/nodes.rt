ghost use Rattle.std.specs.Prelude.{◌≡◌};
ghost use Rattle.std.specs.Fmt.{decimal};
ghost use Rattle.zb_types.specs.Limits.{within};
ghost use Rattle.zb_claims.specs.Reading.{Reads};
ghost use Rattle.zb_claims.specs.Text.{node_text, server_text, is_node, is_actor, is_disk};
ghost use Rattle.zb_script.specs.Nodes.{IsByte, numbered_text, IsNamed, IsMember, IsActor, IsDisk, IsServer};

use crate::limits::within;
use crate::numbers::number;
use zb_types::{Geometry, Node, ServerId};

// The number below 256 that these bytes spell.
fn byte(word: &[u8]) -> Option<u8>
    ensures { Reads IsByte decimal word.now result }
{
    u8::try_from(number(word)?).ok()
}

/// The number of a node that is named by a letter and a number below 256.
pub fn numbered(letter: u8, word: &[u8]) -> Option<u8>
    ensures { Reads IsByte (numbered_text letter) word.now result }
{
    let [first, digits @ ..] = word else {
        return None;
    };
    if *first != letter {
        return None;
    }
    byte(digits)
}

// The node with this name, in a system that is large enough.
fn read_node(word: &[u8]) -> Option<Node>
    ensures { Reads IsNamed node_text word.now result }
{
    if let Some(i) = numbered(b's', word) {
        return Some(Node::Server(i));
    }
    if let Some(i) = numbered(b'c', word) {
        return Some(Node::Client(i));
    }
    if word == b"fm".as_slice() {
        return Some(Node::Manager);
    }
    if word == b"cl".as_slice() {
        return Some(Node::Cleaner);
    }
    if word == b"me".as_slice() {
        return Some(Node::Mender);
    }
    None
}

fn has_server(geo: &Geometry, i: u8) -> bool
    ensures { result ≡ within 1 geo.now.servers i }
{
    within(1, u64::from(geo.servers), u64::from(i))
}

/// Whether the system has the client with this number.
pub fn has_client(geo: &Geometry, i: u8) -> bool
    ensures { result ≡ within 1 geo.now.clients i }
{
    within(1, u64::from(geo.clients), u64::from(i))
}

fn is_node(geo: &Geometry, node: Node) -> bool
    ensures { result ≡ is_node geo.now node }
{
    match node {
        Node::Server(i) => has_server(geo, i),
        Node::Client(i) => has_client(geo, i),
        Node::Manager | Node::Cleaner | Node::Mender => true,
    }
}

fn is_actor(geo: &Geometry, node: Node) -> bool
    ensures { result ≡ is_actor geo.now node }
{
    match node {
        Node::Client(i) => has_client(geo, i),
        Node::Cleaner | Node::Mender => true,
        Node::Server(_) | Node::Manager => false,
    }
}

fn is_disk(geo: &Geometry, node: Node) -> bool
    ensures { result ≡ is_disk geo.now node }
{
    match node {
        Node::Server(i) => has_server(geo, i),
        Node::Manager => true,
        Node::Client(_) | Node::Cleaner | Node::Mender => false,
    }
}

/// The node of this system with this name.
pub fn read_member(geo: &Geometry, word: &[u8]) -> Option<Node>
    ensures { Reads (IsMember geo.now) node_text word.now result }
{
    let node = read_node(word)?;
    if is_node(geo, node) { Some(node) } else { None }
}

/// The node of this system with this name, where it is one that takes steps.
pub fn read_actor(geo: &Geometry, word: &[u8]) -> Option<Node>
    ensures { Reads (IsActor geo.now) node_text word.now result }
{
    let node = read_node(word)?;
    if is_actor(geo, node) {
        Some(node)
    } else {
        None
    }
}

/// The node of this system with this name, where it is one that has a platter.
pub fn read_disk(geo: &Geometry, word: &[u8]) -> Option<Node>
    ensures { Reads (IsDisk geo.now) node_text word.now result }
{
    let node = read_node(word)?;
    if is_disk(geo, node) { Some(node) } else { None }
}

/// The server of this system with this name.
pub fn read_server(geo: &Geometry, word: &[u8]) -> Option<ServerId>
    ensures { Reads (IsServer geo.now) server_text word.now result }
{
    let i = numbered(b's', word)?;
    if has_server(geo, i) {
        Some(ServerId(i))
    } else {
        None
    }
}
