// The places of a word's set bits, from the lowest to the highest.
ghost use Rattle.std.specs.Iterator.{at_most};
ghost use Rattle.record.specs.Ones.{Walks};

use octets::width::Narrow;

#[derive(Drop)]
pub(crate) struct Ones(pub(crate) u32);

impl Iterator for Ones {
    type Item = usize;

    ghost next_gives = { λ s r t. Walks s.0 r t.0 };

    ghost remaining = { λ s. at_most s.0 };

    fn next(&mut self) -> Option<usize> {
        if self.0 == 0 {
            return None;
        }
        let k = self.0.trailing_zeros().wide();
        self.0 &= self.0 - 1;
        Some(k)
    }
}
