// Little-endian numbers read from any place: a byte behind the end is 0.
// Two sizes with a type of result each: one function for both would be no plainer.
ghost use Rattle.std.specs.Prelude.{◌≡◌, ◌<◌, ◌^◌};
ghost use Rattle.paper.specs.Bytes.{byte, two, four};

use super::place::past;

pub fn byte_at(s: &[u8], k: usize) -> u8
    ensures { (result ≡ byte s.now k) × (result < 256) }
{
    if k < s.len() { s[k] } else { 0 }
}

pub fn two_at(s: &[u8], k: usize) -> u16
    ensures { (result ≡ two s.now k) × (result < 65536) }
{
    u16::from_le_bytes([byte_at(s, k), byte_at(s, past(k, 1))])
}

pub fn four_at(s: &[u8], k: usize) -> u32
    ensures { (result ≡ four s.now k) × (result < 2 ^ 32) }
{
    u32::from(two_at(s, k)) + 65536 * u32::from(two_at(s, past(k, 2)))
}
