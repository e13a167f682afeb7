// Recorded stamps compared with the stamps in the work buffers.
ghost use Rattle.std.specs.Prelude.{◌≡◌, ◌*◌, ◌≤◌, Some, flat_map, length};
ghost use Rattle.std.specs.Int.Count.{ones};
ghost use Rattle.clock.specs.Said.{told};
ghost use Rattle.paper.specs.Bytes.{two_bytes};
ghost use Rattle.paper.specs.Reading.{begins, stamps_refused};
ghost use Rattle.paper.specs.Refusals.{outcome};
ghost use Rattle.sheet.specs.Held.{piece_of, left};
ghost use Rattle.sheet.specs.Slots.{kind_size};

use super::walk::{Stamp, Stamps};
use clock::event::SEND;
use clock::{Check, Position, Refusal};
use octets::width::Narrow;

// How many values a mask carries.
pub fn ones_in(mask: u32) -> usize
    ensures { (result ≡ ones mask) × (result ≤ 32) }
{
    mask.count_ones().wide()
}

// Whether bytes begin with those of the values, two for each.
fn same_values(bytes: &[u8], values: &[u16]) -> bool
    requires { 2 * length values.now ≤ length bytes.now }
    ensures { result ≡ begins (flat_map two_bytes values.now) bytes.now }
{
    let mut same = true;
    for (j, v) in values.iter().enumerate() {
        same &= u16::from_le_bytes([bytes[2 * j], bytes[2 * j + 1]]) == *v;
    }
    same
}

// Whether bytes begin with those of a stamp.
fn is_recorded(bytes: &[u8], stamp: Stamp) -> bool
    ensures { result ≡ begins (piece_of (Some stamp.entry)) bytes.now }
{
    if bytes.len() < stamp.size() {
        return false;
    }
    bytes.starts_with(&stamp.mask.to_le_bytes()) && same_values(&bytes[4..], stamp.values)
}

// How many bytes an event of this kind has among the stamps. A byte and no enum: it promises something of every kind.
pub fn piece_size(kind: u8, mask: u32) -> usize
    ensures { (result ≡ kind_size kind mask) × (result ≤ 68) }
{
    if kind != SEND {
        return 0;
    }
    4 + 2 * ones_in(mask)
}

// 18 at the first send whose recorded stamp ends early or differs, then 19 where bytes are left over.
pub(crate) fn compare(stamps: Stamps, bytes: &[u8]) -> Result<(), Refusal>
    ensures { told (λ u. u) result ≡ outcome (stamps_refused 0 (left stamps.entry) bytes.now) (tt {0}) }
{
    let mut rest = bytes;
    for (i, stamp) in stamps.enumerate() {
        let Some(s) = stamp else {
            continue;
        };
        if !is_recorded(rest, s) {
            return Err(Refusal::of_event(u8::from(Check::Stamp), Position(i)));
        }
        rest = &rest[s.size()..];
    }
    if rest.is_empty() {
        Ok(())
    } else {
        Err(Refusal::from(Check::LeftOver))
    }
}
