// What `write` answers: the whole page for a whole list, over work buffers that are always large enough.
ghost use Rattle.clock.specs.Said.{stated};
ghost use Rattle.write.specs.Answer.{write_answer};
ghost use Rattle.write.specs.Said.{Stands};

use clock::Terms;
use desk::PAGE;

// What `write` prints of a list that is lent directly, and how many bytes: a sheet on standard output, or as an error a refusal's line on standard error.
pub fn write_answer(terms: Terms, list: &[u8], out: &mut [u8; PAGE]) -> Result<usize, usize>
    ensures { Stands out.old (write_answer (stated terms) list.now) result out.new }
{
    let mut work = desk::WORK;
    match layout::write(
        terms,
        list,
        &mut work.clocks,
        &mut work.masks,
        &mut work.values,
        out,
    ) {
        Ok(w) => Ok(w.bytes),
        Err(r) => Err(lines::refusal_text(r, out)),
    }
}
