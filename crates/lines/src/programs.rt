// Pieces of what the programs beyond the paper print.
ghost use Rattle.std.specs.Prelude.{◌≡◌, cond, [], ◌+◌, ◌≤◌, ◌<◌, eqb, length};
ghost use Rattle.paper.specs.Event.{how_many};
ghost use Rattle.octets.specs.Appended.{Appended};
ghost use Rattle.lines.specs.Text.{each};
ghost use Rattle.lines.specs.Lent.{line_of};
ghost use Rattle.lines.specs.Programs.{chain_line, class_head, refused_line, offer_line};

use crate::event::Slots;
use octets::store::put;
use octets::text::{put_decimal, put_named, put_words};
use octets::width::Narrow;

pub(crate) fn put_chain(out: &mut [u8], positions: &[u16]) -> usize
    requires { length positions.now ≤ 512 }
    ensures { Appended out.old 0 (chain_line positions.now) result out.new × (result ≤ 20000) }
{
    let [first, others @ ..] = positions else {
        return put(out, 0, b'\n');
    };
    let at = put_decimal(out, 0, first.wide());
    let at = put_words(out, at, others);
    put(out, at, b'\n')
}

pub(crate) fn put_class_head(
    out: &mut [u8],
    offers: usize,
    processes: usize,
    accepted: usize,
    carried: usize,
) -> usize
    ensures { Appended out.old 0 (class_head offers processes accepted carried) result out.new × (result ≤ 200) }
{
    let at = put_named(out, 0, b"offers", offers);
    let at = put_named(out, at, b" processes", processes);
    let at = put_named(out, at, b" accepted", accepted);
    let at = put_named(out, at, b" entries", carried);
    put(out, at, b'\n')
}

fn put_refused(out: &mut [u8], at: usize, position: usize, answer: u8) -> usize
    ensures { Appended out.old at (refused_line position answer) result out.new × (result ≤ at + 800) }
{
    let at = put_decimal(out, at, position);
    let at = put_named(out, at, b" refused", answer.wide());
    put(out, at, b'\n')
}

// The offer at a position with its answer, so many offers before it being accepted.
fn put_offer(
    out: &mut [u8],
    at: usize,
    slots: &Slots,
    position: usize,
    answer: u8,
    accepted: usize,
) -> usize
    requires { accepted < how_many slots.now.list.now }
    ensures { Appended out.old at (cond (eqb answer 0) (line_of slots.now position accepted) (refused_line position answer)) result out.new × (result ≤ at + 800) }
{
    match answer {
        0 => slots.put_event(out, at, position, accepted),
        _ => put_refused(out, at, position, answer),
    }
}

// Each offer with its answer.
pub(crate) fn put_offers(out: &mut [u8], at: usize, slots: &Slots, answers: &[u8]) -> usize
    requires few { length answers.now ≡ how_many slots.now.list.now }
    requires bare { slots.now.numbers.now ≡ [] }
    ensures { Appended out.old at (each (offer_line slots.now.processes slots.now.list.now answers.now slots.now.clocks.now slots.now.masks.now) (length answers.now)) result out.new × (result ≤ at + 409600) }
{
    let mut end = at;
    let mut accepted = 0;
    for (i, answer) in answers.iter().enumerate() {
        end = put_offer(out, end, slots, i, *answer, accepted);
        accepted += usize::from(*answer == 0);
    }
    end
}
