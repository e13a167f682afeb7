// Which of two events of a list or a sheet is before the other.
#![tactic(auto)]

ghost use Rattle.std.specs.Prelude.{◌≡◌, ◌+◌, ◌*◌, ◌≤◌, length};
ghost use Rattle.paper.specs.Questions.{comparing, comparing_sheet};
ghost use Rattle.paper.specs.Stands.{row};
ghost use Rattle.clock.specs.Said.{stated, ordered};
ghost use Rattle.course.specs.Said.{work};
ghost use Rattle.order.specs.Said.{compared};
ghost use Rattle.order.specs.Judge.{not_both, row_verdict};
ghost use Rattle.order.specs.Rest.{Compares};

use clock::{Check, Position, Refusal, Terms, Verdict, is_wrong_count};

// Whether one of two positions is not below a count.
pub fn is_past(count: usize, first: Position, second: Position) -> bool
    ensures { result ≡ not_both count first.0 second.0 }
{
    !(first.0 < count) | !(second.0 < count)
}

// The slots of the event at a position, n slots to each. Here and below n and the clocks stand one by one, as `row_verdict` takes them.
fn row(n: usize, clocks: &[u16], at: Position) -> &[u16]
    requires { n * at.0 + n ≤ length clocks.now }
    ensures { result.now ≡ row n clocks.now at.0 }
{
    let from = n * at.0;
    &clocks[from..from + n]
}

// The verdict on two events whose clocks stand in slots, n slots to each; 4 where n is not 1 to 32, or the slots of an event are not all there.
pub fn judge(
    n: usize,
    clocks: &[u16],
    first: Position,
    second: Position,
) -> Result<Verdict, Refusal>
    ensures { ordered result ≡ row_verdict n clocks.now first.0 second.0 }
{
    if is_wrong_count(n) {
        return Err(Refusal::from(Check::Count));
    }
    let rows = clocks.len() / n;
    if is_past(rows, first, second) {
        return Err(Refusal::from(Check::Count));
    }
    clock::order(row(n, clocks, first), row(n, clocks, second))
}

// What is left of comparing where the events of the list stand in the slots: 20, or the verdict.
// The work buffers and the two positions stand one by one, as C lends and passes them.
fn comparison(
    terms: Terms,
    list: &[u8],
    clocks: &mut [u16],
    masks: &mut [u32],
    values: &mut [u16],
    first: Position,
    second: Position,
) -> Result<Verdict, Refusal>
    ensures { Compares (stated terms) list.now (work clocks.old masks.old values.old)
        first.0 second.0 (compared result) (work clocks.new masks.new values.new) }
{
    let m = list.len() / 8;
    if is_past(m, first, second) {
        course::clear(terms.processes, m, clocks, masks, values);
        return Err(Refusal::from(Check::Position));
    }
    judge(terms.processes, clocks, first, second)
}

// The verdict on two events of a list.
pub fn compare(
    terms: Terms,
    list: &[u8],
    clocks: &mut [u16],
    masks: &mut [u32],
    values: &mut [u16],
    first: Position,
    second: Position,
) -> Result<Verdict, Refusal>
    ensures { (compared result, work clocks.new masks.new values.new)
        ≡ comparing (stated terms) list.now (work clocks.old masks.old values.old) first.0 second.0 }
{
    course::strict(terms, list, clocks, masks, values)?;
    comparison(terms, list, clocks, masks, values, first, second)
}

// The verdict on two events of a sheet.
pub fn compare_sheet(
    sheet: &[u8],
    clocks: &mut [u16],
    masks: &mut [u32],
    values: &mut [u16],
    first: Position,
    second: Position,
) -> Result<Verdict, Refusal>
    ensures { (compared result, work clocks.new masks.new values.new)
        ≡ comparing_sheet sheet.now (work clocks.old masks.old values.old) first.0 second.0 }
{
    let read = sheet::read(sheet, clocks, masks, values)?;
    let list = read.list(sheet);
    comparison(read.terms, list, clocks, masks, values, first, second)
}
