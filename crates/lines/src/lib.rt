// The texts that the programs print, built in a lent buffer. A byte behind the buffer's end is no byte of it: the text is cut there.
// Public promises: each text names what is lent part by part. No Display, since each is promised byte for byte, and cut where the buffer ends.
#![tactic(auto)]

ghost use Rattle.std.specs.Prelude.{◌≡◌};
ghost use Rattle.paper.specs.Listing.{refusal_line};
ghost use Rattle.clock.specs.Said.{number, refusal};
ghost use Rattle.lines.specs.Text.{Printed};
ghost use Rattle.lines.specs.Slots.{listing_text, listing_lamport_text};
ghost use Rattle.lines.specs.Programs.{verdict_line, chain_text, class_text};
ghost use Rattle.lines.specs.Marker.{marker_text};
ghost use Rattle.lines.specs.Savings.{no_messages_line, saved_line};

mod event;
mod listing;
mod marker;
mod programs;

use event::Slots;
use octets::store::{put, put_all};
use octets::text::{digit, put_decimal, put_named};
use octets::width::Narrow;

// The listing of an accepted list, its clocks and masks standing in the slots lent.
pub fn listing_text(
    n: usize,
    list: &[u8],
    clocks: &[u16],
    masks: &[u32],
    carried: usize,
    out: &mut [u8],
) -> usize
    ensures { Printed out.old (listing_text n list.now clocks.now masks.now carried) result out.new }
{
    listing::put_listing(n, list, clocks, masks, &[], carried, out)
}

// The same with the Lamport numbers that stand in the slots lent for them.
pub fn listing_lamport_text(
    n: usize,
    list: &[u8],
    clocks: &[u16],
    masks: &[u32],
    lamports: &[u16],
    carried: usize,
    out: &mut [u8],
) -> usize
    ensures { Printed out.old (listing_lamport_text n list.now clocks.now masks.now lamports.now carried) result out.new }
{
    if lamports.len() < list.len() / 8 {
        return 0;
    }
    listing::put_listing(n, list, clocks, masks, lamports, carried, out)
}

// The line of a refusal.
pub fn refusal_text(r: clock::Refusal, out: &mut [u8]) -> usize
    ensures { Printed out.old (refusal_line (refusal r)) result out.new }
{
    let at = put_named(out, 0, b"refused", r.number.wide());
    let at = put_named(out, at, b" at", r.position.0);
    put(out, at, b'\n')
}

// The verdict's number, on a line.
pub fn verdict_text(v: clock::Verdict, out: &mut [u8]) -> usize
    ensures { Printed out.old (verdict_line (number v)) result out.new }
{
    let end = put_decimal(out, 0, v.number());
    put(out, end, b'\n')
}

// The chain's positions, the first `len` slots, on one line.
pub fn chain_text(chain: &[u16], len: usize, out: &mut [u8]) -> usize
    ensures { Printed out.old (chain_text chain.now len) result out.new }
{
    if clock::Clock::EVENTS < len || chain.len() < len {
        return 0;
    }
    programs::put_chain(out, &chain[..len])
}

// What became of each offer of a list.
pub fn class_text(
    n: usize,
    list: &[u8],
    answers: &[u8],
    clocks: &[u16],
    masks: &[u32],
    accepted: usize,
    carried: usize,
    out: &mut [u8],
) -> usize
    ensures { Printed out.old (class_text n list.now answers.now clocks.now masks.now accepted carried) result out.new }
{
    let Some(slots) = Slots::lent(n, list, clocks, masks, &[]) else {
        return 0;
    };
    let offers = slots.events();
    if answers.len() < offers {
        return 0;
    }
    let at = programs::put_class_head(out, offers, n, accepted, carried);
    programs::put_offers(out, at, &slots, &answers[..offers])
}

// The marks of a pupil's lines, the first `len` slots, and their total.
pub fn marker_text(marks: &[u8], total: usize, len: usize, out: &mut [u8]) -> usize
    ensures { Printed out.old (marker_text marks.now total len) result out.new }
{
    if 200 < len || marks.len() < len {
        return 0;
    }
    let at = marker::put_marks(out, &marks[..len]);
    marker::put_total(out, at, total, len)
}

// The line of a sheet without messages.
pub fn no_messages_text(out: &mut [u8]) -> usize
    ensures { Printed out.old no_messages_line result out.new }
{
    put_all(out, 0, b"no messages\n")
}

// The line of a percentage, which is told by its whole hundredths.
pub fn saved_text(hundredths: usize, out: &mut [u8]) -> usize
    ensures { Printed out.old (saved_line hundredths) result out.new }
{
    let at = put_named(out, 0, b"saved", hundredths / 100);
    let at = put(out, at, b'.');
    let at = put(out, at, digit(hundredths / 10));
    let at = put(out, at, digit(hundredths));
    put(out, at, b'\n')
}
