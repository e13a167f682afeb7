// A pupil's list marked on a sheet: 1 mark or 0 for each line, and the total.
#![tactic(auto)]

ghost use Rattle.std.specs.Prelude.{◌≡◌, ◌≤◌, ◌<◌, length};
ghost use Rattle.std.proofs.lemmas.List.Edits.{sets};
ghost use Rattle.paper.specs.Bytes as bytes;
ghost use Rattle.paper.specs.Marking as paper;
ghost use Rattle.paper.specs.Marking.{line_count};
ghost use Rattle.course.specs.Said.{work};
ghost use Rattle.pupil.specs.Rows.{row_right, row_marks, row_total, marking_rest};
ghost use Rattle.pupil.specs.Given.{line};
ghost use Rattle.pupil.specs.Said.{marked};

use clock::{Check, Position, Refusal};
use octets::read::two_at;

// What marking answers: the total, and of how many lines.
#[derive(Clone, Copy, Debug, PartialEq, Eq)]
pub struct Marked {
    pub total: usize,
    pub lines: usize,
}

// A line of a pupil's list: two events, and the verdict given on them, a number, since a pupil may give one that is none.
#[derive(Clone, Copy)]
struct Line {
    first: Position,
    second: Position,
    verdict: usize,
}

// The number in the two bytes from k on.
fn number_at(lines: &[u8], k: usize) -> usize
    ensures { result ≡ bytes.two lines.now k }
{
    usize::from(two_at(lines, k))
}

// The line at j.
fn line_at(lines: &[u8], j: usize) -> Line
    requires { j < 200 }
    ensures { line result ≡ paper.line_at lines.now j }
{
    Line {
        first: Position(number_at(lines, 6 * j)),
        second: Position(number_at(lines, 6 * j + 2)),
        verdict: number_at(lines, 6 * j + 4),
    }
}

// Whether a line is right on m events of n processes, whose clocks stand in the slots: one by one, as `judge` takes them.
fn is_right(n: usize, m: usize, clocks: &[u16], given: Line) -> bool
    ensures { result ≡ row_right n m clocks.now (line given) }
{
    if order::is_past(m, given.first, given.second) {
        return false;
    }
    match order::judge(n, clocks, given.first, given.second) {
        Ok(verdict) => given.verdict == verdict.number(),
        Err(_) => false,
    }
}

// The marks of all lines, 1 for a right one and 0 for another, at the front of the slots, and their total.
fn mark_all(n: usize, m: usize, clocks: &[u16], lines: &[u8], marks: &mut [u8]) -> usize
    requires { (length lines.now ≤ 1200) × (line_count lines.now ≤ length marks.old) }
    ensures { (result ≡ row_total n m clocks.now lines.now (line_count lines.now))
        × (marks.new ≡ sets marks.old 0 (row_marks n m clocks.now lines.now (line_count lines.now))) }
{
    let mut total: usize = 0;
    for j in 0..lines.len() / 6 {
        let right = is_right(n, m, clocks, line_at(lines, j));
        marks[j] = u8::from(right);
        total += usize::from(right);
    }
    total
}

// What is left of marking where the clocks of m events of n processes stand in the slots: 21 where there are fewer mark slots than lines.
// The work buffers stand one by one, as C lends them.
fn marking(
    n: usize,
    m: usize,
    lines: &[u8],
    clocks: &mut [u16],
    masks: &mut [u32],
    values: &mut [u16],
    marks: &mut [u8],
) -> Result<Marked, Refusal>
    requires { length lines.now ≤ 1200 }
    ensures { ((marked result, work clocks.new masks.new values.new), marks.new)
        ≡ marking_rest n m lines.now (work clocks.old masks.old values.old) marks.old }
{
    let k = lines.len() / 6;
    if marks.len() < k {
        course::clear(n, m, clocks, masks, values);
        return Err(Refusal::from(Check::Output));
    }
    let total = mark_all(n, m, clocks, lines, marks);
    Ok(Marked { total, lines: k })
}

// Marking a pupil's list on a sheet: 30, then as reading, then 21.
pub fn mark(
    sheet: &[u8],
    lines: &[u8],
    clocks: &mut [u16],
    masks: &mut [u32],
    values: &mut [u16],
    marks: &mut [u8],
) -> Result<Marked, Refusal>
    ensures { ((marked result, work clocks.new masks.new values.new), marks.new)
        ≡ paper.marking sheet.now lines.now (work clocks.old masks.old values.old) marks.old }
{
    if (lines.len() % 6 != 0) | (1200 < lines.len()) {
        return Err(Refusal::from(Check::Lines));
    }
    let read = sheet::read(sheet, clocks, masks, values)?;
    let n = read.terms.processes;
    marking(n, read.size / 8, lines, clocks, masks, values, marks)
}
