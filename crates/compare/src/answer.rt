// What `compare` answers: the whole text for a whole sheet, over work buffers that are always large enough.
ghost use Rattle.lines.specs.Text.{Printed};
ghost use Rattle.compare.specs.Answer.{compare_answer};

use clock::Position;
use desk::PAGE;

// What `compare` prints: the verdict on two events of a sheet, whose positions its promise names one by one.
pub fn compare_answer(
    sheet: &[u8],
    first: Position,
    second: Position,
    out: &mut [u8; PAGE],
) -> usize
    ensures { Printed out.old (compare_answer sheet.now first.0 second.0) result out.new }
{
    let mut work = desk::WORK;
    match order::compare_sheet(
        sheet,
        &mut work.clocks,
        &mut work.masks,
        &mut work.values,
        first,
        second,
    ) {
        Err(r) => lines::refusal_text(r, out),
        Ok(v) => lines::verdict_text(v, out),
    }
}
