// What the short stamps of a sheet saved: no messages at all, or a percentage of one rounded division.
#![tactic(auto)]

ghost use Rattle.std.specs.Prelude.{◌≡◌};
ghost use Rattle.paper.specs.Event.{how_many};
ghost use Rattle.paper.specs.Savings as paper;
ghost use Rattle.paper.proofs.SavedRight.{Bounds};
ghost use Rattle.course.specs.Said.{work};
ghost use Rattle.percentage.specs.Said.{counts, counted, saving, saved};
ghost use Rattle.percentage.specs.Slots.{slot_sends, placing};

use clock::event::{SEND, kind_at};
use clock::{Check, Position, Refusal};

// What is counted of a sheet: processes, events, sends, and the values that the stamps carry.
#[derive(Clone, Copy, Debug, PartialEq, Eq)]
pub struct Counts {
    pub processes: usize,
    pub events: usize,
    pub sends: usize,
    pub carried: usize,
}

// How many events of a list are sends.
fn sends_in(list: &[u8]) -> usize
    ensures { result ≡ slot_sends list.now (how_many list.now) }
{
    let mut sends = 0;
    for i in 0..list.len() / 8 {
        sends += usize::from(kind_at(list, Position(i)) == SEND);
    }
    sends
}

// The counts of a sheet.
// The work buffers stand one by one, as C lends them.
pub fn count(
    sheet: &[u8],
    clocks: &mut [u16],
    masks: &mut [u32],
    values: &mut [u16],
) -> Result<Counts, Refusal>
    ensures { (counted result, work clocks.new masks.new values.new)
        ≡ paper.tallying sheet.now (work clocks.old masks.old values.old) }
{
    let read = sheet::read(sheet, clocks, masks, values)?;
    Ok(Counts {
        processes: read.terms.processes,
        events: read.size / 8,
        sends: sends_in(read.list(sheet)),
        carried: read.carried,
    })
}

// The percentage that counts save, or none where there are no messages at all. Both casts are exact, so that the division alone rounds.
fn figure(c: Counts) -> Option<f64>
    requires { Bounds (counts c) }
    ensures { saving result ≡ paper.saving (counts c) }
{
    if c.sends == 0 {
        return None;
    }
    let whole = c.processes * c.sends;
    let part = 100 * (whole - c.carried);
    Some(part as f64 / whole as f64)
}

// What the short stamps of a sheet saved.
pub fn savings(
    sheet: &[u8],
    clocks: &mut [u16],
    masks: &mut [u32],
    values: &mut [u16],
) -> Result<Option<f64>, Refusal>
    ensures { (saved result, work clocks.new masks.new values.new)
        ≡ paper.savings sheet.now (work clocks.old masks.old values.old) }
{
    let c = count(sheet, clocks, masks, values)?;
    Ok(figure(c))
}

// The saving of counted events, whose slots are lent, and a percentage in its first slot: 21 where there is none.
fn place(
    c: Counts,
    clocks: &mut [u16],
    masks: &mut [u32],
    values: &mut [u16],
    percent: &mut [f64],
) -> Result<Option<f64>, Refusal>
    requires { Bounds (counts c) }
    ensures { ((saved result, work clocks.new masks.new values.new), percent.new)
        ≡ placing (counts c) (work clocks.old masks.old values.old) percent.old }
{
    if percent.is_empty() {
        course::clear(c.processes, c.events, clocks, masks, values);
        return Err(Refusal::from(Check::Output));
    }
    let saved = figure(c);
    if let Some(x) = saved {
        percent[0] = x;
    }
    Ok(saved)
}

// The same with the percentage in the first slot lent for it.
pub fn store(
    sheet: &[u8],
    clocks: &mut [u16],
    masks: &mut [u32],
    values: &mut [u16],
    percent: &mut [f64],
) -> Result<Option<f64>, Refusal>
    ensures { ((saved result, work clocks.new masks.new values.new), percent.new)
        ≡ paper.storing sheet.now (work clocks.old masks.old values.old) percent.old }
{
    let c = count(sheet, clocks, masks, values)?;
    place(c, clocks, masks, values, percent)
}
