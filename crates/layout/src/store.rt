// A sheet written from a list and the stamps in the work buffers: each function stores its bytes from `at` on and gives the place behind them.
ghost use Rattle.std.specs.Prelude.{◌≡◌, ◌++◌, ◌∷◌, [], ◌+◌, ◌≤◌, ◌<◌, Some, flat_map, length};
ghost use Rattle.paper.specs.Bytes.{two_bytes, four_bytes, text};
ghost use Rattle.paper.specs.Event.{how_many};
ghost use Rattle.paper.specs.Sheet.{header};
ghost use Rattle.clock.specs.Said.{stated};
ghost use Rattle.octets.specs.Appended.{Appended};
ghost use Rattle.sheet.specs.Held.{piece_of};
ghost use Rattle.sheet.specs.Slots.{Slots};
ghost use Rattle.layout.specs.Sizes.{slot_size, left_bytes, sheet_of};
ghost use Rattle.course.specs.Said.{work};
ghost use Rattle.layout.specs.Said.{wrote, laying};

use super::Written;
use clock::event::kind_at;
use clock::{Check, Position, Refusal, Terms};
use octets::store::{put, put_all, put_four, put_two};
use octets::width::Narrow;
use sheet::stamps::piece_size;
use sheet::walk::{Stamp, Stamps};

// The mask, and behind it the values.
fn put_stamp(out: &mut [u8], at: usize, stamp: Stamp) -> usize
    ensures { Appended out.old at (piece_of (Some stamp.entry)) result out.new }
{
    let to = put_four(out, at, stamp.mask.wide());
    put_values(out, to, stamp.values)
}

// Two bytes for each value.
fn put_values(out: &mut [u8], at: usize, values: &[u16]) -> usize
    ensures { Appended out.old at (flat_map two_bytes values.now) result out.new }
{
    let mut to = at;
    for v in values {
        to = put_two(out, to, v.wide());
    }
    to
}

// The stamps of all sends.
fn put_stamps(out: &mut [u8], at: usize, stamps: Stamps) -> usize
    ensures { Appended out.old at (left_bytes stamps.entry) result out.new }
{
    let mut to = at;
    for stamp in stamps {
        if let Some(s) = stamp {
            to = put_stamp(out, to, s);
        }
    }
    to
}

// A list that the strict course has accepted, with its terms.
#[derive(Clone, Copy)]
pub(crate) struct Listed<'a> {
    pub terms: Terms,
    pub list: &'a [u8],
    ghost few: { terms.processes < 256 },
    ghost short: { length list.now ≤ 4096 },
}

impl<'a> Listed<'a> {
    // The letters, the process count, the version and two zeros.
    fn put_start(self, out: &mut [u8]) -> usize
        ensures { Appended out.old 0 (text "CKT" ++ (self.entry.terms.processes ∷ []) ++ two_bytes self.entry.terms.version ++ two_bytes 0) result out.new }
    {
        // `as`, since no From goes from usize to fewer bits.
        let n = self.terms.processes as u8;
        let a = put_all(out, 0, b"CKT");
        let b = put(out, a, n);
        let c = put_two(out, b, self.terms.version);
        put_two(out, c, 0)
    }

    // Offset and size of the two parts, of which the stamps take `stamped` bytes.
    fn put_parts(self, out: &mut [u8], at: usize, stamped: usize) -> usize
        ensures { Appended out.old at (four_bytes 24 ++ four_bytes (length self.entry.list.now) ++ four_bytes (24 + length self.entry.list.now)
            ++ four_bytes stamped) result out.new }
    {
        let events = self.list.len();
        let a = put_four(out, at, 24);
        let b = put_four(out, a, events);
        let c = put_four(out, b, 24 + events);
        put_four(out, c, stamped)
    }

    fn put_header(self, out: &mut [u8], stamped: usize) -> usize
        ensures { Appended out.old 0 (header (stated self.entry.terms) (length self.entry.list.now) stamped) result out.new }
    {
        let at = self.put_start(out);
        self.put_parts(out, at, stamped)
    }

    // How many bytes the stamps take: 4 for each send, and 2 for each value.
    fn stamps_size(self, masks: &[u32]) -> usize
        requires { how_many self.list.now ≤ length masks.now }
        ensures { (result ≡ slot_size self.entry.list.now masks.now) × (result ≤ 34816) }
    {
        let mut size = 0;
        for i in 0..self.list.len() / 8 {
            size += piece_size(kind_at(self.list, Position(i)), masks[i]);
        }
        size
    }

    // The whole sheet: the events at 24, the stamps straight after.
    fn put_sheet(self, out: &mut [u8], stamps: Stamps, stamped: usize) -> usize
        requires { stamped ≡ length (left_bytes stamps) }
        ensures { Appended out.old 0 (sheet_of (stated self.entry.terms) self.entry.list.now (left_bytes stamps.entry)) result out.new }
    {
        let a = self.put_header(out, stamped);
        let b = put_all(out, a, self.list);
        put_stamps(out, b, stamps)
    }

    // 21, or the sheet of the list, whose stamps stand in the work buffers; these stand one by one, as in `write`.
    pub(crate) fn written(
        self,
        clocks: &mut [u16],
        masks: &mut [u32],
        values: &mut [u16],
        out: &mut [u8],
    ) -> Result<Written, Refusal>
        requires { Slots self.list.now masks.old values.old }
        ensures { ((wrote result, work clocks.new masks.new values.new), out.new)
            ≡ laying (stated self.entry.terms) self.entry.list.now (work clocks.old masks.old values.old) out.old }
    {
        let events = self.list.len() / 8;
        let stamped = self.stamps_size(masks);
        let bytes = 24 + self.list.len() + stamped;
        if out.len() < bytes {
            course::clear(self.terms.processes, events, clocks, masks, values);
            return Err(Refusal::from(Check::Output));
        }
        self.put_sheet(out, Stamps::of(self.list, masks, values), stamped);
        Ok(Written { events, bytes })
    }
}
