ghost use Rattle.zb_fetching.specs.Stores.{contents_of};
ghost use Rattle.std.specs.Prelude.{refl};

use crate::servers::StripeServers;
use std::alloc::Global;
use zb_outside::Bay;
use zb_replay::{PiecesFault, ReadPieces};
use zb_types::{ByteList, Geometry, LogId, Members, Piece};

/// Reads the pieces by the servers' own sizes, and without a look at the bay and the members: which server doesn't serve is
/// known here. `Unreachable` never comes.
impl<B: Bay> ReadPieces<B> for StripeServers {
    ghost contents = { λ servers bay. contents_of servers };

    fn read(
        &mut self,
        alloc: Global,
        _bay: &mut B,
        _geo: &Geometry,
        _members: Members,
        log: LogId,
        pieces: &[Piece],
    ) -> Result<ByteList, PiecesFault> {
        self.read_pieces(alloc, log, pieces)
    }

    ghost apart = { λ servers a b tells spares. refl };
}
