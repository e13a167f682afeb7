// Bytes stored from the place `at` on: each function gives the place behind them. A store behind the end is no store.
// Public promises: each names the slice and the place by themselves, and what two and four bytes hold.
ghost use Rattle.std.specs.Prelude.{◌≡◌, ◌∷◌, [], ◌%◌};
ghost use Rattle.paper.specs.Bytes.{two_bytes, four_bytes};
ghost use Rattle.octets.specs.Appended.{Appended};

use super::place::{past, within};

pub fn put(out: &mut [u8], at: usize, b: u8) -> usize
    ensures { Appended out.old at (b ∷ []) result out.new }
{
    if at < out.len() {
        out[at] = b;
    }
    past(at, 1)
}

// The lowest byte of a number. `as`, since no From goes from usize to fewer bits.
fn low(x: usize) -> u8
    ensures { result ≡ x % 256 }
{
    (x % 256) as u8
}

pub fn put_two(out: &mut [u8], at: usize, x: usize) -> usize
    ensures { Appended out.old at (two_bytes x) result out.new }
{
    let k = put(out, at, low(x));
    put(out, k, low(x / 256))
}

pub fn put_four(out: &mut [u8], at: usize, x: usize) -> usize
    ensures { Appended out.old at (four_bytes x) result out.new }
{
    let k = put_two(out, at, x);
    put_two(out, k, x / 65536)
}

// Bytes that are given.
pub fn put_all(out: &mut [u8], at: usize, bytes: &[u8]) -> usize
    ensures { Appended out.old at bytes.now result out.new }
{
    let count = within(out.len(), at, bytes.len());
    // Byte by byte: of `copy_from_slice` the compiler makes a call of memmove here, which an archive for C would need from outside.
    for i in 0..count {
        out[at + i] = bytes[i];
    }
    past(at, bytes.len())
}
