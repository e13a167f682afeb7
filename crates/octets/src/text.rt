// Text stored from the place `at` on. No Display, since each text is promised byte for byte, and cut where the slice ends.
ghost use Rattle.std.specs.Prelude.{◌≡◌, ◌++◌, ◌+◌, ◌*◌, ◌%◌, ◌≤◌, length};
ghost use Rattle.paper.specs.Listing.{decimal, word, words};
ghost use Rattle.octets.specs.Appended.{Appended};

use super::store::{put, put_all};
use super::width::Narrow;

// The last digit of a number. `as`, since no From goes from usize to fewer bits.
pub fn digit(x: usize) -> u8
    ensures { result ≡ 48 + x % 10 }
{
    b'0' + (x % 10) as u8
}

// A number's decimal digits, of which there are at most 20.
pub fn put_decimal(out: &mut [u8], at: usize, x: usize) -> usize
    ensures { Appended out.old at (decimal x) result out.new × (result ≤ at + 20) }
{
    if x < 10 {
        return put(out, at, digit(x));
    }
    let k = put_decimal(out, at, x / 10);
    put(out, k, digit(x))
}

// A blank and a number.
pub fn put_word(out: &mut [u8], at: usize, x: usize) -> usize
    ensures { Appended out.old at (word x) result out.new × (result ≤ at + 21) }
{
    let k = put(out, at, b' ');
    put_decimal(out, k, x)
}

// A blank and a number for each of some numbers.
pub fn put_words(out: &mut [u8], at: usize, xs: &[u16]) -> usize
    ensures { Appended out.old at (words xs.now) result out.new × (result ≤ at + 21 * length xs.now) }
{
    let mut k = at;
    for x in xs {
        k = put_word(out, k, x.wide());
    }
    k
}

// A name, a blank and a number.
pub fn put_named(out: &mut [u8], at: usize, name: &[u8], x: usize) -> usize
    ensures { Appended out.old at (name.now ++ word x) result out.new × (result ≤ at + length name.now + 21) }
{
    let k = put_all(out, at, name);
    put_word(out, k, x)
}
