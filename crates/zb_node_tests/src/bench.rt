ghost use Rattle.std.specs.Prelude.{◌≡◌, IfOk};

use crate::stripes::{LONG, SECOND, batch, bytes_of, holding, stripe};
use std::alloc::Global;
use std::test::Fail;
use zb_batch::Batch;
use zb_devices::MemOutside;
use zb_outside::{Bay, Fused};
use zb_platter::NodeFault;
use zb_replay::ManagerNode;
use zb_types::{
    ByteList, CommitFault, Failed, Geometry, LogId, Members, NoMemory, Piece, RetireFault,
    ServerId, State,
};

/// Platter 0 in memory, which may be stopped at a write.
pub type Device = Fused<MemOutside>;

/// Why a change isn't made.
#[derive(Clone, Copy, PartialEq, Eq)]
pub enum Broken {
    Memory,
    Stopped,
    Refused,
}

impl From<NoMemory> for Broken {
    fn from(_: NoMemory) -> Broken {
        Broken::Memory
    }
}

impl From<Failed> for Broken {
    fn from(_: Failed) -> Broken {
        Broken::Stopped
    }
}

impl From<NodeFault> for Broken {
    fn from(fault: NodeFault) -> Broken {
        match fault {
            NodeFault::Stopped => Broken::Stopped,
            NodeFault::NoMemory => Broken::Memory,
            NodeFault::Worn { .. } => Broken::Refused,
        }
    }
}

impl From<CommitFault> for Broken {
    fn from(fault: CommitFault) -> Broken {
        if fault == CommitFault::Stopped {
            return Broken::Stopped;
        }
        Broken::Refused
    }
}

impl From<RetireFault> for Broken {
    fn from(fault: RetireFault) -> Broken {
        if fault == RetireFault::Stopped {
            return Broken::Stopped;
        }
        Broken::Refused
    }
}

impl From<Broken> for Fail {
    fn from(_: Broken) -> Fail {
        Fail::new("a call of the node")
    }
}

/// A change of the tables.
#[derive(Clone, Copy)]
pub enum Do {
    /// A batch that makes a directory.
    Commit,
    /// A new log for client 1.
    Attach,
    /// Server 2 is out, in generation 2.
    Mark,
    /// Stripe 0 of log 1 is given up.
    Retire,
    Checkpoint,
}

/// Three servers, whose fragments have 256 bytes, and one client.
pub fn system() -> Result<Geometry, Broken>
    ensures servers { IfOk result (λ geo. geo.servers ≡ 3) }
    ensures fragment { IfOk result (λ geo. geo.fragment ≡ 256) }
{
    match Geometry::new(3, 1, 256, 64, 8) {
        Ok(geo) => Ok(geo),
        Err(_) => Err(Broken::Refused),
    }
}

/// A settled platter 0 of zeros, whose restart leaves what this choice says.
pub fn device(alloc: Global, choice: u8) -> Result<Device, Broken> {
    let mut bay = Fused::new(MemOutside::new(alloc, b"", &[choice], &[])?);
    bay.write_at(0, 69_631, &[0])?;
    bay.sync(0)?;
    Ok(bay)
}

fn commit(
    alloc: Global,
    bay: &mut Device,
    node: &mut ManagerNode,
    batch: &Batch,
) -> Result<(), Broken> {
    let pieces = [Piece {
        stripe: 0,
        offset: if batch.number == 1 { 0 } else { SECOND },
        len: LONG,
    }];
    bytes_of(alloc, batch)?;
    if batch.number == 0 || !node.manager().may_commit(batch, &pieces) {
        return Err(Broken::Refused);
    }
    node.commit(alloc, bay, batch, &pieces, 1)?;
    Ok(())
}

fn attach(
    alloc: Global,
    bay: &mut Device,
    node: &mut ManagerNode,
    owner: u8,
) -> Result<(), Broken> {
    node.know_node();
    if u32::from(owner) > node.system().clients {
        return Err(Broken::Refused);
    }
    node.attach(alloc, bay, owner)?;
    Ok(())
}

/// Marks server 2 as out, in this generation.
pub fn mark(
    alloc: Global,
    bay: &mut Device,
    node: &mut ManagerNode,
    generation: u64,
) -> Result<(), Broken> {
    node.know_node();
    if node.system().servers < 2 {
        return Err(Broken::Refused);
    }
    if generation < node.manager().members().generation || generation > 1_000_000 {
        return Err(Broken::Refused);
    }
    let members = Members {
        state: State::Out(ServerId(2)),
        generation,
    };
    node.mark(alloc, bay, members)?;
    Ok(())
}

/// Makes a change.
pub fn change(
    alloc: Global,
    bay: &mut Device,
    node: &mut ManagerNode,
    what: Do,
) -> Result<(), Broken> {
    match what {
        Do::Commit => commit(alloc, bay, node, &batch(alloc, 2, b"/b")?),
        Do::Attach => attach(alloc, bay, node, 1),
        Do::Mark => mark(alloc, bay, node, 2),
        Do::Retire => Ok(node.retire(alloc, bay, LogId(1), 0)?),
        Do::Checkpoint => Ok(node.checkpoint(alloc, bay)?),
    }
}

// Client 1 takes log 1 and commits its first batch.
fn begin(alloc: Global, bay: &mut Device, node: &mut ManagerNode) -> Result<(), Broken> {
    attach(alloc, bay, node, 1)?;
    commit(alloc, bay, node, &batch(alloc, 1, b"/a")?)
}

/// The node of client 1 with log 1, whose first batch is in the journal.
pub fn started(alloc: Global, bay: &mut Device) -> Result<ManagerNode, Broken> {
    let mut node = ManagerNode::format(alloc, bay, &system()?)?;
    begin(alloc, bay, &mut node)?;
    Ok(node)
}

/// The bytes of the tables.
pub fn tables(alloc: Global, node: &ManagerNode) -> Result<ByteList, Broken> {
    Ok(node.manager().spell(alloc)?)
}

/// The node of what the platter says, opened where this server is lost.
pub fn reopened(
    alloc: Global,
    bay: &mut Device,
    lost: Option<ServerId>,
) -> Result<ManagerNode, Broken> {
    let mut servers = holding(alloc, stripe(alloc)?.slice(), lost)?;
    match ManagerNode::open(alloc, bay, &mut servers) {
        Ok(node) => Ok(node),
        Err(_) => Err(Broken::Refused),
    }
}

/// Whether the node of what the platter says has these tables, where this server is lost.
pub fn finds(
    alloc: Global,
    bay: &mut Device,
    lost: Option<ServerId>,
    wanted: &ByteList,
) -> Result<bool, Broken> {
    let node = reopened(alloc, bay, lost)?;
    Ok(tables(alloc, &node)?.slice() == wanted.slice())
}
