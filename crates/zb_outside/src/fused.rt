ghost use Rattle.std.specs.Prelude.{◌≡◌, ◌≢◌, ◌≤◌, ◌+◌, ◌-◌, ◌^◌, min, max, ℕ, false, IsTrue, IsErr, is_err, length};
ghost use Rattle.zb_outside.specs.Platters.{ReadTold, WriteTold, SyncTold, RestartTold, BlankTold};
ghost use Rattle.zb_outside.specs.Counts.{Touches, HasWritten};
ghost use Rattle.zb_outside.specs.Fuse.{FailsByDeviceOrFuse, FuseFollows, PassesWrite, inner_of, left_of, raised_of, held_of, all_counts};

use crate::bay::Bay;
use crate::counts::raise;
use crate::outside::Outside;
use zb_types::Failed;

/// A bay, each of whose platters can be armed to stop at a write.
///
/// Of an armed platter the k-th write is passed on and answers `Failed`, and from then on each of its calls does, with
/// its count raised and nothing passed on, until it is disarmed.
#[derive(Drop)]
pub struct Fused<B: Bay> {
    inner: B,
    // 0: not armed; 1: blown; n + 1: the n-th write from now blows it
    left: [u128; 256],
    // calls that a blown fuse failed, and writes among them
    raised: [u64; 256],
    held: [u64; 256],
}

impl<B: Bay> Fused<B> {
    /// The bay with no platter armed.
    pub fn new(inner: B) -> Fused<B>
        ensures inner { inner_of result ≡ inner }
        ensures not_armed { (p : ℕ) → left_of result p ≡ 0 }
        ensures raised { (p : ℕ) → raised_of result p ≡ 0 }
        ensures held { (p : ℕ) → held_of result p ≡ 0 }
    {
        Fused {
            inner,
            left: [0; 256],
            raised: [0; 256],
            held: [0; 256],
        }
    }

    /// Arms a platter: its k-th write from now stops it, whatever was armed before.
    pub fn arm(&mut self, platter: usize, k: u64)
        requires platter { platter ≤ 255 }
        requires count { 1 ≤ k }
        ensures armed { left_of self.new platter ≡ k + 1 }
        ensures others { (q : ℕ) → q ≢ platter → left_of self.new q ≡ left_of self.old q }
        ensures inner { inner_of self.new ≡ inner_of self.old }
        ensures raised { (q : ℕ) → raised_of self.new q ≡ raised_of self.old q }
        ensures held { (q : ℕ) → held_of self.new q ≡ held_of self.old q }
    {
        self.left[platter] = k as u128 + 1;
    }

    /// Makes a platter's calls be passed on again.
    pub fn disarm(&mut self, platter: usize)
        requires platter { platter ≤ 255 }
        ensures disarmed { left_of self.new platter ≡ 0 }
        ensures others { (q : ℕ) → q ≢ platter → left_of self.new q ≡ left_of self.old q }
        ensures inner { inner_of self.new ≡ inner_of self.old }
        ensures raised { (q : ℕ) → raised_of self.new q ≡ raised_of self.old q }
        ensures held { (q : ℕ) → held_of self.new q ≡ held_of self.old q }
    {
        self.left[platter] = 0;
    }

    /// Where a platter is told to have failed behind its fuse, the device failed, or the fuse has blown.
    pub fn fails_by_device_or_fuse()
        ensures { FailsByDeviceOrFuse B.counts B.follows }
    {}

    /// The bay, with its fuses given up.
    pub fn inner(self) -> B
        ensures { result ≡ inner_of self }
    {
        self.inner
    }
}

impl<B: Bay> Bay for Fused<B> {
    ghost use Rattle.zb_outside.specs.Fuse.{fuse_same, fuse_then};
    ghost use Rattle.std.proofs.lemmas.Bool.{false≢true};

    ghost tells = { B.tells };

    ghost meaning = { λ f. B.meaning (inner_of f) };

    ghost counts = { all_counts B.counts };

    ghost is_exact = { false };

    ghost follows = { FuseFollows B.counts B.follows };

    fn read_at(&mut self, platter: usize, place: u64, buf: &mut [u8]) -> Result<(), Failed>
        requires platter { platter ≤ 255 }
        requires range { place + length buf.old ≤ 2 ^ 63 }
        ensures told { IsTrue B.tells → ReadTold platter place buf.new result (B.meaning (inner_of self.old)) (B.meaning (inner_of self.new)) }
        ensures touches { Touches (all_counts B.counts) (FuseFollows B.counts B.follows) platter 0 (is_err result) self.old self.new }
        ensures left { (q : ℕ) → left_of self.new q ≡ left_of self.old q }
        ensures blown { left_of self.old platter ≡ 1 → IsErr result × (inner_of self.new ≡ inner_of self.old) }
    {
        if self.left[platter] == 1 {
            raise(&mut self.raised, platter);
            return Err(Failed);
        }
        self.inner.read_at(platter, place, buf)
    }

    fn write_at(&mut self, platter: usize, place: u64, bytes: &[u8]) -> Result<(), Failed>
        requires platter { platter ≤ 255 }
        requires range { place + length bytes.now ≤ 2 ^ 63 }
        ensures told { IsTrue B.tells → WriteTold platter place bytes.now result (B.meaning (inner_of self.old)) (B.meaning (inner_of self.new)) }
        ensures touches { Touches (all_counts B.counts) (FuseFollows B.counts B.follows) platter 1 (is_err result) self.old self.new }
        ensures written { HasWritten platter 1 (all_counts B.counts self.old) (all_counts B.counts self.new) }
        ensures burns { left_of self.new platter ≡ max (min (left_of self.old platter) 1) (left_of self.old platter - 1) }
        ensures others { (q : ℕ) → q ≢ platter → left_of self.new q ≡ left_of self.old q }
        ensures blows { left_of self.old platter ≡ 2 → IsErr result }
        ensures passed { left_of self.old platter ≢ 1 → PassesWrite B.tells platter place bytes.now B.meaning B.counts (inner_of self.old) (inner_of self.new) }
        ensures blown { left_of self.old platter ≡ 1 → IsErr result × (inner_of self.new ≡ inner_of self.old) }
    {
        if self.left[platter] == 1 {
            raise(&mut self.raised, platter);
            raise(&mut self.held, platter);
            return Err(Failed);
        }
        let written = self.inner.write_at(platter, place, bytes);
        if self.left[platter] > 1 {
            self.left[platter] -= 1;
            if self.left[platter] == 1 {
                raise(&mut self.raised, platter);
                return Err(Failed);
            }
        }
        written
    }

    fn sync(&mut self, platter: usize) -> Result<(), Failed>
        requires platter { platter ≤ 255 }
        ensures told { IsTrue B.tells → SyncTold platter result (B.meaning (inner_of self.old)) (B.meaning (inner_of self.new)) }
        ensures touches { Touches (all_counts B.counts) (FuseFollows B.counts B.follows) platter 0 (is_err result) self.old self.new }
        ensures left { (q : ℕ) → left_of self.new q ≡ left_of self.old q }
        ensures blown { left_of self.old platter ≡ 1 → IsErr result × (inner_of self.new ≡ inner_of self.old) }
    {
        if self.left[platter] == 1 {
            raise(&mut self.raised, platter);
            return Err(Failed);
        }
        self.inner.sync(platter)
    }

    fn restart(&mut self, platter: usize) -> Result<(), Failed>
        requires platter { platter ≤ 255 }
        ensures told { IsTrue B.tells → RestartTold platter result (B.meaning (inner_of self.old)) (B.meaning (inner_of self.new)) }
        ensures touches { Touches (all_counts B.counts) (FuseFollows B.counts B.follows) platter 0 (is_err result) self.old self.new }
        ensures left { (q : ℕ) → left_of self.new q ≡ left_of self.old q }
        ensures blown { left_of self.old platter ≡ 1 → IsErr result × (inner_of self.new ≡ inner_of self.old) }
    {
        if self.left[platter] == 1 {
            raise(&mut self.raised, platter);
            return Err(Failed);
        }
        self.inner.restart(platter)
    }

    fn blank(&mut self, platter: usize) -> Result<(), Failed>
        requires platter { platter ≤ 255 }
        ensures told { IsTrue B.tells → BlankTold platter result (B.meaning (inner_of self.old)) (B.meaning (inner_of self.new)) }
        ensures touches { Touches (all_counts B.counts) (FuseFollows B.counts B.follows) platter 0 (is_err result) self.old self.new }
        ensures left { (q : ℕ) → left_of self.new q ≡ left_of self.old q }
        ensures blown { left_of self.old platter ≡ 1 → IsErr result × (inner_of self.new ≡ inner_of self.old) }
    {
        if self.left[platter] == 1 {
            raise(&mut self.raised, platter);
            return Err(Failed);
        }
        self.inner.blank(platter)
    }

    ghost follows_same = { λ a. fuse_same B.counts B.follows B.follows_same a };

    ghost follows_then = { λ a b c f g. fuse_then B.counts B.follows B.follows_then a b c f g };

    ghost exact = { λ _ _ told _. absurd (false≢true told) };
}

impl<O: Outside> Outside for Fused<O> {
    fn take(&mut self, buf: &mut [u8]) -> Result<usize, Failed> {
        self.inner.take(buf)
    }

    fn put(&mut self, bytes: &[u8]) -> Result<(), Failed> {
        self.inner.put(bytes)
    }

    ghost counted = { λ o. O.counted (inner_of o) };
}
