// The header of a sheet: checks 1 to 7 in their order, and where the two parts lie.
ghost use Rattle.std.specs.Prelude.{◌≡◌, ◌+◌, ◌≤◌, ◌<◌, ◌^◌, length, take, drop};
ghost use Rattle.clock.specs.Check.{checked};
ghost use Rattle.paper.specs.Reading.{outside, shared, header_checks};
ghost use Rattle.paper.specs.Refusals.{of_call, outcome};
ghost use Rattle.sheet.specs.Header.{headed, parts_in, Placed, Lies};
ghost use Rattle.sheet.specs.Header.{wrong_length, wrong_letters, wrong_version, wrong_zeros, wrong_list, wrong_stamps};

use clock::{Check, Terms, is_wrong_count};
use octets::read::{byte_at, four_at, two_at};
use octets::width::Narrow;

// A part of a sheet: it begins at `offset` and has `size` bytes.
#[derive(Clone, Copy)]
pub(crate) struct Part {
    pub offset: usize,
    pub size: usize,
}

impl Part {
    // The bytes of the part.
    pub(crate) fn of(self, sheet: &[u8]) -> &[u8]
        requires { self.offset + self.size ≤ length sheet.now }
        ensures { result.now ≡ take self.size (drop self.offset sheet.now) }
    {
        &sheet[self.offset..self.offset + self.size]
    }
}

// The terms, the event list and the stamps.
#[derive(Clone, Copy)]
pub(crate) struct Parts {
    pub terms: Terms,
    pub list: Part,
    pub stamps: Part,
}

// The part whose offset and size stand at k.
fn part_at(s: &[u8], k: usize) -> Part
    requires { k ≤ 16 }
    ensures { Placed s.now k result }
{
    Part {
        offset: four_at(s, k).wide(),
        size: four_at(s, k + 4).wide(),
    }
}

fn lay(sheet: &[u8]) -> Parts
    ensures { Lies sheet.now result }
{
    Parts {
        terms: Terms {
            version: two_at(sheet, 4).wide(),
            processes: byte_at(sheet, 3).wide(),
            present: byte_at(sheet, 6).wide(),
        },
        list: part_at(sheet, 8),
        stamps: part_at(sheet, 16),
    }
}

// 1.
fn is_wrong_length(s: &[u8]) -> bool
    ensures { result ≡ wrong_length s.now }
{
    (s.len() < 24) | (40960 < s.len())
}

// 2: the letters CKT.
fn is_wrong_letters(s: &[u8]) -> bool
    ensures { result ≡ wrong_letters s.now }
{
    !s.starts_with(b"CKT")
}

// 3.
fn is_wrong_version(s: &[u8]) -> bool
    ensures { result ≡ wrong_version s.now }
{
    two_at(s, 4) != 1
}

// 5: bytes 6 and 7 are zero.
fn is_wrong_zeros(s: &[u8]) -> bool
    ensures { result ≡ wrong_zeros s.now }
{
    (byte_at(s, 6) != 0) | (byte_at(s, 7) != 0)
}

// Whether a part does not lie in the bytes from 24 on: offset and size are never added.
fn is_outside(len: usize, p: Part) -> bool
    ensures { result ≡ outside len p.offset p.size }
{
    (p.offset < 24) | (len < p.offset) | (len.saturating_sub(p.offset) < p.size)
}

// 6. Of a list lent directly, 8 asks the same of the length.
fn is_wrong_list(len: usize, p: Part) -> bool
    ensures { result ≡ wrong_list len p }
{
    is_outside(len, p) | (p.size % 8 != 0) | (4096 < p.size)
}

// Whether two parts have a byte in common; the sums of two 32-bit numbers fit.
fn is_shared(p: Part, q: Part) -> bool
    requires { (p.offset < 2 ^ 32) × (p.size < 2 ^ 32) × (q.offset < 2 ^ 32) × (q.size < 2 ^ 32) }
    ensures { result ≡ shared p.offset p.size q.offset q.size }
{
    (p.size != 0) & (q.size != 0) & (p.offset < q.offset + q.size) & (q.offset < p.offset + p.size)
}

// 7.
fn is_wrong_stamps(len: usize, list: Part, stamps: Part) -> bool
    requires { (list.offset < 2 ^ 32) × (list.size < 2 ^ 32) × (stamps.offset < 2 ^ 32) × (stamps.size < 2 ^ 32) }
    ensures { result ≡ wrong_stamps len list stamps }
{
    is_outside(len, stamps) | is_shared(list, stamps)
}

// 1 to 7 in their order.
fn check(sheet: &[u8], p: Parts) -> Result<(), Check>
    requires { Lies sheet.now p }
    ensures { checked result ≡ header_checks sheet.now 0 }
{
    let len = sheet.len();
    if is_wrong_length(sheet) {
        return Err(Check::SheetLength);
    }
    if is_wrong_letters(sheet) {
        return Err(Check::Letters);
    }
    if is_wrong_version(sheet) {
        return Err(Check::Version);
    }
    if is_wrong_count(p.terms.processes) {
        return Err(Check::Count);
    }
    if is_wrong_zeros(sheet) {
        return Err(Check::Zeros);
    }
    if is_wrong_list(len, p.list) {
        return Err(Check::List);
    }
    if is_wrong_stamps(len, p.list, p.stamps) {
        return Err(Check::Stamps);
    }
    Ok(())
}

// 1 to 7, or where the parts lie.
pub(crate) fn head(sheet: &[u8]) -> Result<Parts, Check>
    ensures { headed result ≡ outcome (of_call (header_checks sheet.now 0)) (parts_in sheet.now) }
{
    let p = lay(sheet);
    check(sheet, p)?;
    Ok(p)
}
