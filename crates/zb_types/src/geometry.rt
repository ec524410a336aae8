ghost use Rattle.std.specs.Prelude.{◌≡◌, MatchResult, IfOk, None, Some};
ghost use Rattle.zb_types.specs.Limits.{InLimits, first_bad};

use thiserror::Error;

/// The sizes of a system, each within its limits.
#[derive(Clone, Copy, PartialEq, Eq)]
pub struct Geometry {
    /// How many storage servers, 3 to 16.
    pub servers: u32,
    /// How many clients, 1 to 8.
    pub clients: u32,
    /// The bytes of a fragment, 256 to 65,536, and a multiple of the block.
    pub fragment: u32,
    /// The bytes of a block, 64 to 4,096.
    pub block: u32,
    /// The slots of a server, 8 or more; slots times fragment at most 67,108,864.
    pub slots: u32,
    pub ghost limits: { InLimits servers clients fragment block slots },
}

/// A size is out of its limits: the first of the five, from 1.
#[derive(Clone, Copy, Debug, PartialEq, Eq, Error)]
#[error("size {field} is out of its limits")]
pub struct BadGeometry {
    pub field: u8,
}

const MAX_SPACE: u64 = 67_108_864;

impl Geometry {
    /// The system of these sizes, or the first size that is out of its limits.
    pub fn new(
        servers: u32,
        clients: u32,
        fragment: u32,
        block: u32,
        slots: u32,
    ) -> Result<Geometry, BadGeometry>
        ensures servers { IfOk result (λ geo. geo.servers ≡ servers) }
        ensures clients { IfOk result (λ geo. geo.clients ≡ clients) }
        ensures fragment { IfOk result (λ geo. geo.fragment ≡ fragment) }
        ensures block { IfOk result (λ geo. geo.block ≡ block) }
        ensures slots { IfOk result (λ geo. geo.slots ≡ slots) }
        ensures exact { let bad = first_bad servers clients fragment block slots in MatchResult result (λ _. bad ≡ None) (λ e. bad ≡ Some e.field) }
    {
        if servers < 3 || servers > 16 {
            return Err(BadGeometry { field: 1 });
        }
        if clients < 1 || clients > 8 {
            return Err(BadGeometry { field: 2 });
        }
        if fragment < 256 || fragment > 65_536 || block == 0 || fragment % block != 0 {
            return Err(BadGeometry { field: 3 });
        }
        if block < 64 || block > 4_096 {
            return Err(BadGeometry { field: 4 });
        }
        if slots < 8 || u64::from(slots) * u64::from(fragment) > MAX_SPACE {
            return Err(BadGeometry { field: 5 });
        }
        Ok(Geometry {
            servers,
            clients,
            fragment,
            block,
            slots,
        })
    }
}
