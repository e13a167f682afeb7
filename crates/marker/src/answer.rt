// What `marker` answers: the whole text for a whole sheet and list, over work buffers that are always large enough.
ghost use Rattle.lines.specs.Text.{Printed};
ghost use Rattle.marker.specs.Answer.{marker_answer};

use desk::PAGE;

// What `marker` prints of a sheet and a pupil's list.
pub fn marker_answer(sheet: &[u8], list: &[u8], out: &mut [u8; PAGE]) -> usize
    ensures { Printed out.old (marker_answer sheet.now list.now) result out.new }
{
    let mut work = desk::WORK;
    let mut slots = [0u8; 200];
    match pupil::mark(
        sheet,
        list,
        &mut work.clocks,
        &mut work.masks,
        &mut work.values,
        &mut slots,
    ) {
        Err(r) => lines::refusal_text(r, out),
        Ok(m) => lines::marker_text(&slots, m.total, m.lines, out),
    }
}
