// What `class` answers: the whole text for a whole list, over work buffers that are always large enough.
ghost use Rattle.clock.specs.Said.{stated};
ghost use Rattle.lines.specs.Text.{Printed};
ghost use Rattle.class.specs.Answer.{class_answer};

use clock::Terms;
use course::Classed;
use desk::PAGE;

// What `class` prints of a list that is lent directly.
pub fn class_answer(terms: Terms, list: &[u8], out: &mut [u8; PAGE]) -> usize
    ensures { Printed out.old (class_answer (stated terms) list.now) result out.new }
{
    let mut work = desk::WORK;
    let mut answers = [0u8; 512];
    match course::class(
        terms,
        list,
        &mut work.clocks,
        &mut work.masks,
        &mut work.values,
        &mut answers,
    ) {
        Err(r) => lines::refusal_text(r, out),
        Ok(Classed { accepted, carried }) => lines::class_text(
            terms.processes,
            list,
            &answers,
            &work.clocks,
            &work.masks,
            accepted,
            carried,
            out,
        ),
    }
}
