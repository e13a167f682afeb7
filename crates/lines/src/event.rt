// The line of an event, over the slots that are lent for the events of a list.
ghost use Rattle.std.specs.Prelude.{◌≡◌, true, false, ◌++◌, ◌+◌, ◌*◌, ◌≤◌, ◌<◌, MatchOption, length};
ghost use Rattle.paper.specs.Event.{event_at, how_many};
ghost use Rattle.paper.specs.Listing.{word, words};
ghost use Rattle.octets.specs.Appended.{Appended};
ghost use Rattle.lines.specs.Slots.{kind_letter, event_fields, last_field, fitting};

use clock::event::{INTERNAL, SEND, kind_at, message_at, peer_at, process_at};
use clock::{Clock, Position};
use octets::store::put;
use octets::text::{put_decimal, put_word, put_words};
use octets::width::Narrow;

// A list of events, the slots that hold its clocks and masks, and the numbers that end its lines, where some are lent.
#[derive(Clone, Copy)]
pub(crate) struct Slots<'a> {
    processes: usize,
    list: &'a [u8],
    clocks: &'a [u16],
    masks: &'a [u32],
    numbers: &'a [u16],
    ghost fit: { fitting processes list.now clocks.now masks.now ≡ true },
}

impl<'a> Slots<'a> {
    ghost use Rattle.lines.specs.Lent.{line_of};

    // What is lent, where it fits.
    pub(crate) fn lent(
        n: usize,
        list: &'a [u8],
        clocks: &'a [u16],
        masks: &'a [u32],
        numbers: &'a [u16],
    ) -> Option<Slots<'a>>
        ensures { MatchOption result (fitting n list.now clocks.now masks.now ≡ false) (λ s. (s.processes ≡ n) × (s.list.now ≡ list.now) × (s.clocks.now ≡ clocks.now) × (s.masks.now ≡ masks.now) × (s.numbers.now ≡ numbers.now)) }
    {
        if !fits(n, list, clocks, masks) {
            return None;
        }
        Some(Slots {
            processes: n,
            list,
            clocks,
            masks,
            numbers,
        })
    }

    // How many events there are.
    pub(crate) fn events(&self) -> usize
        ensures { (result ≡ how_many self.now.list.now) × (result ≤ 512) }
    {
        self.list.len() / 8
    }

    // The line of the event at a position, which is accepted as that number.
    pub(crate) fn put_event(
        &self,
        out: &mut [u8],
        at: usize,
        position: usize,
        number: usize,
    ) -> usize
        requires { number < how_many self.now.list.now }
        ensures { Appended out.old at (line_of self.now position number) result out.new × (result ≤ at + 800) }
    {
        let from = self.processes * number;
        let at = put_fields(out, at, self.list, position);
        let at = put_stamp(
            out,
            at,
            self.masks[number],
            &self.clocks[from..from + self.processes],
        );
        let at = put_last(out, at, self.numbers, number);
        put(out, at, b'\n')
    }
}

// Whether so many processes and bytes are few enough, and there are slots for each event.
fn fits(n: usize, list: &[u8], clocks: &[u16], masks: &[u32]) -> bool
    ensures { result ≡ fitting n list.now clocks.now masks.now }
{
    if Clock::PROCESSES < n || 8 * Clock::EVENTS < list.len() {
        return false;
    }
    let events = list.len() / 8;
    (n * events <= clocks.len()) & (events <= masks.len())
}

// I, S, R; no list is judged here, so the last stands for every other byte too.
fn letter(kind: u8) -> u8
    ensures { result ≡ kind_letter kind }
{
    match kind {
        INTERNAL => b'I',
        SEND => b'S',
        _ => b'R',
    }
}

// The fields of the event at a position: position, kind, process, peer, message.
fn put_fields(out: &mut [u8], at: usize, list: &[u8], position: usize) -> usize
    ensures { Appended out.old at (event_fields position (event_at list.now (8 * position))) result out.new × (result ≤ at + 85) }
{
    let event = Position(position);
    let at = put_decimal(out, at, position);
    let at = put(out, at, b' ');
    let at = put(out, at, letter(kind_at(list, event)));
    let at = put_word(out, at, process_at(list, event).0.wide());
    let at = put_word(out, at, peer_at(list, event).0.wide());
    put_word(out, at, message_at(list, event).0.wide())
}

// The mask and the components.
fn put_stamp(out: &mut [u8], at: usize, mask: u32, parts: &[u16]) -> usize
    requires { length parts.now ≤ 32 }
    ensures { Appended out.old at (word mask ++ words parts.now) result out.new × (result ≤ at + 693) }
{
    let at = put_word(out, at, mask.wide());
    put_words(out, at, parts)
}

// The last field of the event of that number, where one is lent.
fn put_last(out: &mut [u8], at: usize, numbers: &[u16], number: usize) -> usize
    ensures { Appended out.old at (last_field numbers.now number) result out.new × (result ≤ at + 21) }
{
    match numbers.get(number) {
        Some(x) => put_word(out, at, x.wide()),
        None => at,
    }
}
