ghost use Rattle.std.specs.Prelude.{◌≡◌};

use zb_basis::{Formed, Sealed};
use zb_delta::Body;
use zb_stripe::ReadPlan;
use zb_types::{ByteList, FragId, FragList, ItemList, LogId, Members, Pass, ServerId, Status};

/// Pointers to blocks of files.
pub type BodyList = ItemList<Body>;

/// The bytes of blocks, in order.
pub type BlocksList = ItemList<ByteList>;

/// The stripe that a pass cleans, and the number of its batch, from 1.
#[derive(Clone, Copy, PartialEq, Eq)]
pub struct Target {
    pub log: LogId,
    pub stripe: u64,
    pub number: u64,
}

/// The pointers into the stripe, by file and block, and the bytes of the first of these blocks, as far as they have come.
#[derive(Drop)]
pub struct Copies {
    pub live: BodyList,
    pub blocks: BlocksList,
}

/// What a pass cleans: its stripe, the members that it saw last, and the blocks that it copies.
#[derive(Drop)]
pub struct Cleaning {
    pub target: Target,
    pub members: Members,
    pub copies: Copies,
}

/// What a pass sweeps for: the line that ends it, the status by which fragments are strays, and the server at hand.
#[derive(Drop)]
pub struct Sweeping {
    pub line: Pass,
    pub status: Status,
    pub server: ServerId,
}

/// What a pass is at, behind its pick.
#[derive(Drop)]
pub enum Work {
    /// The members are to be looked up anew.
    Lookup(Cleaning),
    /// The first block that hasn't come is being read.
    Fetch {
        cleaning: Cleaning,
        plan: ReadPlan,
    },
    /// All blocks have come, and the requests of the batch that moves them store what is left of it.
    Store {
        cleaning: Cleaning,
        formed: Formed,
    },
    /// A server didn't answer a store of this generation.
    Mark {
        cleaning: Cleaning,
        server: ServerId,
        generation: u64,
    },
    /// The batch is stored.
    Commit {
        cleaning: Cleaning,
        sealed: Sealed,
    },
    /// The blocks are moved: so many of them, and so many in vain.
    Retire {
        target: Target,
        copied: u64,
        rejected: u64,
    },
    /// The server at hand is asked for its fragments behind this one.
    Sweep {
        sweep: Sweeping,
        after: Option<FragId>,
    },
    /// The first of these strays of the server at hand is deleted. Behind the last one the same server is asked again,
    /// behind this fragment; with none, the next one.
    Delete {
        sweep: Sweeping,
        left: FragList,
        again: Option<FragId>,
    },
}

/// How a pass goes on.
#[derive(Drop)]
pub enum Next {
    Work(Work),
    /// It ends with this line.
    End(Pass),
}

/// How a pass goes on with the blocks that have come, with all the memory that it takes.
#[derive(Drop)]
pub(crate) enum Ahead {
    Fetch(ReadPlan),
    Store(Formed),
}

/// The first block that hasn't come, and what reads it.
#[derive(Drop)]
pub(crate) struct Fetching {
    pub(crate) cleaning: Cleaning,
    pub(crate) plan: ReadPlan,
}

impl Fetching {
    /// The work at which the block is being read.
    pub(crate) fn work(self) -> Work
        ensures { result ≡ Work.Fetch self.cleaning self.plan }
    {
        Work::Fetch {
            cleaning: self.cleaning,
            plan: self.plan,
        }
    }
}
