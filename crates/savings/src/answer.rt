// What `savings` answers: the whole text for a whole sheet, over work buffers that are always large enough.
ghost use Rattle.paper.proofs.SavedRight.{Bounds};
ghost use Rattle.lines.specs.Text.{Printed};
ghost use Rattle.percentage.specs.Said.{counts};
ghost use Rattle.savings.specs.Answer.{counts_line, savings_answer};

use desk::PAGE;
use percentage::Counts;

// The line of counts: the hundredths come from whole numbers alone, and not from percentage's float.
fn counts_text(c: Counts, out: &mut [u8; PAGE]) -> usize
    requires { Bounds (counts c) }
    ensures { Printed out.old (counts_line (counts c)) result out.new }
{
    if c.sends == 0 {
        return lines::no_messages_text(out);
    }
    let whole = c.processes * c.sends;
    let part = 100 * (whole - c.carried);
    lines::saved_text(100 * part / whole, out)
}

// What `savings` prints of a sheet.
pub fn savings_answer(sheet: &[u8], out: &mut [u8; PAGE]) -> usize
    ensures { Printed out.old (savings_answer sheet.now) result out.new }
{
    let mut work = desk::WORK;
    match percentage::count(sheet, &mut work.clocks, &mut work.masks, &mut work.values) {
        Err(r) => lines::refusal_text(r, out),
        Ok(c) => counts_text(c, out),
    }
}
