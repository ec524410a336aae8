ghost use Rattle.std.specs.Prelude.{◌≡◌, ◌⊎◌, ℕ, List, ◌+◌, ◌-◌, ◌*◌, ◌<◌, ◌≤◌, ◌++◌, ◌∷◌, [], length, take, drop, Some, None, Ok, Err, IfOk, OnOk, IsErrOf};
ghost use Rattle.zb_types.specs.declared.ids.LogId.{LogId as Logged};
ghost use Rattle.zb_types.specs.declared.ids.ServerId.{ServerId as Numbered};
ghost use Rattle.zb_tables.specs.Tables.{end_at};
ghost use Rattle.zb_tables.specs.Replay.{joined};
ghost use Rattle.zb_replay.specs.Opening.{HaveNotAll};
ghost use Rattle.zb_replay.specs.declared.pieces.PiecesFault.TheVariants as fault;
ghost use Rattle.zb_fetching.specs.Stores.{IsSoundStore, contents_of};

use crate::asking::read_range;
use crate::storing::first_bytes_of;
use std::alloc::Global;
use std::marker::Model;
use zb_plain::PlainServers;
use zb_replay::PiecesFault;
use zb_stripe::Got;
use zb_types::{ByteList, Class, Geometry, HeldList, HeldUse, LogId, Mem, Piece, Ptr, ServerId};

/// Servers in memory with stripes, each committed up to an end, and perhaps the one server that doesn't serve: each of its
/// answers is that it is down.
#[derive(Drop)]
pub struct StripeServers {
    geo: Geometry,
    plain: PlainServers,
    held: HeldList,
    lost: Option<ServerId>,
}

impl Model for StripeServers {
    ghost use Rattle.zb_fetching.specs.Stores.{SeenServers, IsSoundStore};

    ghost Value = { SeenServers };

    ghost view = { λ a. record { geo = a.geo; kept = a.plain; held = a.held; lost = a.lost } };

    ghost invariant = { λ a. IsSoundStore (record { geo = a.geo; kept = a.plain; held = a.held; lost = a.lost }) };
}

/// Up to where a stripe is committed, 0 where it isn't held.
fn end_in(held: &[HeldUse], log: LogId, stripe: u64) -> u32
    ensures { result ≡ end_at held.now log stripe }
{
    for one in held {
        if one.log.0 == log.0 && one.stripe == stripe {
            return one.end;
        }
    }
    0
}

/// The list with one more stripe, before the others.
fn with_first(held: HeldList, one: HeldUse) -> Mem<HeldList>
    ensures { IfOk result (λ list. list ≡ one ∷ held) }
{
    let mut all = held.into_items();
    all.insert(0, one)?;
    Ok(HeldList::of(all))
}

/// What a read comes to where bytes are asked for.
fn bytes_of(read: Mem<Got>) -> Result<ByteList, PiecesFault>
    ensures { (bytes : List ℕ) → IfOk read (λ got. got ≡ Got.Bytes bytes) → (result ≡ Ok bytes) ⊎ (result ≡ Err fault.NoMemory) }
{
    match read {
        Ok(Got::Bytes(bytes)) => Ok(bytes),
        Ok(Got::Unreachable { a, b }) => Err(PiecesFault::Unreachable { a, b }),
        Ok(_) => Err(PiecesFault::Missing),
        Err(_) => Err(PiecesFault::NoMemory),
    }
}

/// Puts bytes behind others.
fn extend(bytes: &mut ByteList, more: &[u8]) -> Mem<()>
    ensures { OnOk result (bytes.new ≡ bytes.old ++ more.now) }
{
    for byte in more {
        bytes.push(*byte)?;
    }
    Ok(())
}

impl StripeServers {
    /// Servers that keep nothing, each of which serves.
    pub fn new(alloc: Global, geo: &Geometry) -> Mem<StripeServers>
        ensures geo { IfOk result (λ servers. servers.geo ≡ geo.now) }
        ensures held { IfOk result (λ servers. servers.held ≡ []) }
        ensures lost { IfOk result (λ servers. servers.lost ≡ None) }
    {
        Ok(StripeServers {
            geo: *geo,
            plain: PlainServers::new(alloc, geo.servers as u8)?,
            held: HeldList::new(alloc)?,
            lost: None,
        })
    }

    /// These servers, of which those that serve hold each stripe up to its committed end. One at most doesn't serve, and
    /// nothing stands of any other stripe.
    pub fn of(
        geo: &Geometry,
        plain: PlainServers,
        held: HeldList,
        lost: Option<ServerId>,
    ) -> StripeServers
        requires { IsSoundStore (record { geo = geo.now; kept = plain; held = held; lost = lost }) }
        ensures { result ≡ record { geo = geo.now; kept = plain; held = held; lost = lost } }
    {
        StripeServers {
            geo: *geo,
            plain,
            held,
            lost,
        }
    }

    /// Up to where a stripe is committed, 0 where it isn't held.
    pub fn end(&self, log: LogId, stripe: u64) -> u32
        ensures { result ≡ end_at self.now.held log stripe }
    {
        end_in(self.held.slice(), log, stripe)
    }

    /// The server that doesn't serve.
    pub fn lost(&self) -> Option<ServerId>
        ensures { result ≡ self.now.lost }
    {
        self.lost
    }

    /// A stripe of these bytes, of which nothing stands yet, is written and committed. Where memory runs out the servers are
    /// given up.
    pub fn store(self, alloc: Global, log: LogId, stripe: u64, bytes: &[u8]) -> Mem<StripeServers>
        requires new { end_at self.held log stripe ≡ 0 }
        requires some { 0 < length bytes.now }
        requires room { length bytes.now ≤ (self.geo.servers - 1) * self.geo.fragment }
        ensures geo { IfOk result (λ servers. servers.geo ≡ self.geo) }
        ensures held { IfOk result (λ servers. servers.held ≡ record { log = log; stripe = stripe; end = length bytes.now; born = 0 } ∷ self.held) }
        ensures lost { IfOk result (λ servers. servers.lost ≡ self.lost) }
        ensures bytes { IfOk result (λ servers. contents_of servers log stripe ≡ bytes.now) }
        ensures others { IfOk result (λ servers. (other : Logged) (place : ℕ) → 0 < end_at self.held other place → contents_of servers other place ≡ contents_of self other place) }
    {
        let StripeServers {
            geo,
            mut plain,
            held,
            lost,
        } = self;
        let fresh = first_bytes_of(alloc, &geo, log, stripe, bytes)?;
        plain.write(alloc, &geo, &fresh, Class::Client)?;
        let one = HeldUse {
            log,
            stripe,
            end: bytes.len() as u32,
            born: 0,
        };
        Ok(StripeServers {
            geo,
            plain,
            held: with_first(held, one)?,
            lost,
        })
    }

    /// This server serves no longer.
    pub fn lose(&mut self, server: ServerId)
        requires { self.old.lost ≡ None }
        ensures geo { self.new.geo ≡ self.old.geo }
        ensures held { self.new.held ≡ self.old.held }
        ensures lost { self.new.lost ≡ Some server }
        ensures bytes { contents_of self.new ≡ contents_of self.old }
    {
        self.lost = Some(server);
    }

    /// The bytes of a piece.
    fn read_piece(
        &mut self,
        alloc: Global,
        log: LogId,
        piece: &Piece,
    ) -> Result<ByteList, PiecesFault>
        ensures bytes { IfOk result (λ bytes. bytes ≡ take piece.now.len (drop piece.now.offset (contents_of self.old log piece.now.stripe))) }
        ensures missing { IsErrOf result fault.Missing → length (contents_of self.old log piece.now.stripe) < piece.now.offset + piece.now.len }
        ensures present { OnOk result (piece.now.offset + piece.now.len ≤ length (contents_of self.old log piece.now.stripe)) }
        ensures served { (a b : Numbered) → IsErrOf result (fault.Unreachable a b) → ⊥ }
        ensures same { self.new ≡ self.old }
    {
        let end = end_in(self.held.slice(), log, piece.stripe);
        if u64::from(piece.offset) + u64::from(piece.len) > u64::from(end) {
            return Err(PiecesFault::Missing);
        }
        let ptr = Ptr {
            log,
            stripe: piece.stripe,
            offset: piece.offset,
            len: piece.len,
        };
        let read = read_range(alloc, &mut self.plain, self.lost, &self.geo, &ptr);
        bytes_of(read)
    }

    /// The bytes of pieces of a log's stripes, one behind the other.
    ///
    /// `Missing` comes exactly where a stripe has fewer bytes than a piece names. `Unreachable` never comes, since one server
    /// at most doesn't serve, and the others hold each stripe.
    pub fn read_pieces(
        &mut self,
        alloc: Global,
        log: LogId,
        pieces: &[Piece],
    ) -> Result<ByteList, PiecesFault>
        ensures bytes { IfOk result (λ bytes. bytes ≡ joined (contents_of self.old) log pieces.now) }
        ensures missing { IsErrOf result fault.Missing → HaveNotAll (contents_of self.old) log pieces.now }
        ensures present { OnOk result (HaveNotAll (contents_of self.old) log pieces.now → ⊥) }
        ensures served { (a b : Numbered) → IsErrOf result (fault.Unreachable a b) → ⊥ }
        ensures same { self.new ≡ self.old }
    {
        let Ok(mut all) = ByteList::new(alloc) else {
            return Err(PiecesFault::NoMemory);
        };
        for piece in pieces {
            let bytes = match self.read_piece(alloc, log, piece) {
                Ok(bytes) => bytes,
                Err(fault) => return Err(fault),
            };
            let Ok(()) = extend(&mut all, bytes.slice()) else {
                return Err(PiecesFault::NoMemory);
            };
        }
        Ok(all)
    }
}
