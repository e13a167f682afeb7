// The teaching chain between two events of a list or a sheet: by which messages the first could have caused the second.
#![tactic(auto)]

mod path;

ghost use Rattle.std.specs.Prelude.{◌≡◌, ℕ};
ghost use Rattle.paper.specs.Buffers.{Work};
ghost use Rattle.paper.specs.Questions.{chain_slots, chaining, chaining_sheet};
ghost use Rattle.paper.specs.Stands.{Stands};
ghost use Rattle.clock.specs.Check.{checked};
ghost use Rattle.clock.specs.Said.{stated};
ghost use Rattle.course.specs.Said.{work};
ghost use Rattle.order.specs.Judge.{row_verdict};
ghost use Rattle.teaching.specs.Said.{chained};
ghost use Rattle.teaching.specs.Rest.{says_before, late, Links};

use clock::{Check, Position, Refusal, Terms, Verdict};
use path::Course;

// How many messages a chain between n processes has at most: with one process none.
fn room(n: usize) -> usize
    ensures { result ≡ chain_slots n }
{
    n.saturating_sub(1)
}

// Whether the first of two events whose clocks stand in slots is before the second. What it asks stands one by one, as `judge` takes it.
fn is_before(n: usize, clocks: &[u16], first: Position, second: Position) -> bool
    ensures { result ≡ says_before (row_verdict n clocks.now first.0 second.0) }
{
    matches!(order::judge(n, clocks, first, second), Ok(Verdict::Before))
}

// Refuses where a position is not there, where the first is not before the second, and where the output has fewer slots than that room.
fn late(
    n: usize,
    m: usize,
    clocks: &[u16],
    first: Position,
    second: Position,
    slots: usize,
) -> Result<(), Check>
    ensures { checked result ≡ late n m clocks.now first.0 second.0 slots }
{
    if order::is_past(m, first, second) {
        return Err(Check::Position);
    }
    if !is_before(n, clocks, first, second) {
        return Err(Check::NotBefore);
    }
    if slots < room(n) {
        return Err(Check::Output);
    }
    Ok(())
}

// What is left of the chain where the events of the list stand in the slots: 20, 22, 21, or the positions of its sends.
// The work buffers and the two positions stand one by one, as C lends and passes them.
fn linking(
    terms: Terms,
    list: &[u8],
    clocks: &mut [u16],
    masks: &mut [u32],
    values: &mut [u16],
    first: Position,
    second: Position,
    out: &mut [u16],
) -> Result<usize, Refusal>
    requires { (w : Work) × Stands (stated terms) list.now w (work clocks.old masks.old values.old) }
    ensures { Links (stated terms) list.now (work clocks.old masks.old values.old)
        first.0 second.0 out.old
        (chained result) (work clocks.new masks.new values.new) out.new }
{
    let n = terms.processes;
    let m = list.len() / 8;
    if let Err(check) = late(n, m, clocks, first, second, out.len()) {
        course::clear(n, m, clocks, masks, values);
        return Err(Refusal::from(check));
    }
    let course = Course {
        terms,
        list,
        clocks,
    };
    Ok(course.walk(first, second, out))
}

// The chain from one event of a list to another: the positions of its sends, at the front of the output.
pub fn chain(
    terms: Terms,
    list: &[u8],
    clocks: &mut [u16],
    masks: &mut [u32],
    values: &mut [u16],
    first: Position,
    second: Position,
    out: &mut [u16],
) -> Result<usize, Refusal>
    ensures { ((chained result, work clocks.new masks.new values.new), out.new)
        ≡ chaining (stated terms) list.now (work clocks.old masks.old values.old) first.0 second.0 out.old }
{
    course::strict(terms, list, clocks, masks, values)?;
    linking(terms, list, clocks, masks, values, first, second, out)
}

// The chain from one event of a sheet to another.
pub fn chain_sheet(
    sheet: &[u8],
    clocks: &mut [u16],
    masks: &mut [u32],
    values: &mut [u16],
    first: Position,
    second: Position,
    out: &mut [u16],
) -> Result<usize, Refusal>
    ensures { ((chained result, work clocks.new masks.new values.new), out.new)
        ≡ chaining_sheet sheet.now (work clocks.old masks.old values.old) first.0 second.0 out.old }
{
    let read = sheet::read(sheet, clocks, masks, values)?;
    let list = read.list(sheet);
    linking(read.terms, list, clocks, masks, values, first, second, out)
}
