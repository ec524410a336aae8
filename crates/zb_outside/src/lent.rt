// A bay and an outside behind a reference.
use crate::bay::Bay;
use crate::outside::Outside;
use zb_types::Failed;

impl<B: Bay> Bay for &mut B {
    ghost tells = { B.tells };

    ghost meaning = { λ b. B.meaning b.now };

    ghost counts = { λ b. B.counts b.now };

    ghost is_exact = { B.is_exact };

    ghost follows = { λ a b. B.follows a.now b.now };

    fn read_at(&mut self, platter: usize, place: u64, buf: &mut [u8]) -> Result<(), Failed> {
        Bay::read_at(&mut **self, platter, place, buf)
    }

    fn write_at(&mut self, platter: usize, place: u64, bytes: &[u8]) -> Result<(), Failed> {
        Bay::write_at(&mut **self, platter, place, bytes)
    }

    fn sync(&mut self, platter: usize) -> Result<(), Failed> {
        Bay::sync(&mut **self, platter)
    }

    fn restart(&mut self, platter: usize) -> Result<(), Failed> {
        Bay::restart(&mut **self, platter)
    }

    fn blank(&mut self, platter: usize) -> Result<(), Failed> {
        Bay::blank(&mut **self, platter)
    }

    ghost follows_same = { λ a. B.follows_same a.now };

    ghost follows_then = { λ a b c. B.follows_then a.now b.now c.now };

    ghost exact = { λ b. B.exact b.now };
}

impl<O: Outside> Outside for &mut O {
    fn take(&mut self, buf: &mut [u8]) -> Result<usize, Failed> {
        Outside::take(&mut **self, buf)
    }

    fn put(&mut self, bytes: &[u8]) -> Result<(), Failed> {
        Outside::put(&mut **self, bytes)
    }

    ghost counted = { λ o. O.counted o.now };
}
