// The listing's head line and its event lines.
ghost use Rattle.std.specs.Prelude.{◌+◌, ◌≤◌};
ghost use Rattle.paper.specs.Event.{how_many};
ghost use Rattle.paper.specs.Listing.{head_line};
ghost use Rattle.octets.specs.Appended.{Appended};
ghost use Rattle.lines.specs.Text.{Printed, each};
ghost use Rattle.lines.specs.Slots.{numbered_text};
ghost use Rattle.lines.specs.Lent.{line_of};

use crate::event::Slots;
use octets::store::put;
use octets::text::put_named;

fn put_head(out: &mut [u8], events: usize, processes: usize, carried: usize) -> usize
    ensures { Appended out.old 0 (head_line events processes carried) result out.new × (result ≤ 100) }
{
    let at = put_named(out, 0, b"events", events);
    let at = put_named(out, at, b" processes", processes);
    let at = put_named(out, at, b" entries", carried);
    put(out, at, b'\n')
}

fn put_events(out: &mut [u8], at: usize, slots: &Slots) -> usize
    ensures { Appended out.old at (each (λ i. line_of slots.now i i) (how_many slots.now.list.now)) result out.new × (result ≤ at + 409600) }
{
    let mut end = at;
    for i in 0..slots.events() {
        end = slots.put_event(out, end, i, i);
    }
    end
}

// The listing of an accepted list, each line with its event's number where one is lent.
pub(crate) fn put_listing(
    n: usize,
    list: &[u8],
    clocks: &[u16],
    masks: &[u32],
    numbers: &[u16],
    carried: usize,
    out: &mut [u8],
) -> usize
    ensures { Printed out.old (numbered_text n list.now clocks.now masks.now numbers.now carried) result out.new }
{
    let Some(slots) = Slots::lent(n, list, clocks, masks, numbers) else {
        return 0;
    };
    let at = put_head(out, slots.events(), n, carried);
    put_events(out, at, &slots)
}
