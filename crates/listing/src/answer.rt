// What `listing` answers: the whole text for a whole sheet, over work buffers that are always large enough.
ghost use Rattle.std.specs.Prelude.{cond};
ghost use Rattle.lines.specs.Text.{Printed};
ghost use Rattle.listing.specs.Answer.{listing_answer, listing_lamport_answer};

use desk::PAGE;

// What `listing` prints of a sheet, or `listing lamport` where Lamport numbers are asked for. A flag, so that one clause covers both texts.
fn answer(lamport: bool, sheet: &[u8], out: &mut [u8; PAGE]) -> usize
    ensures { Printed out.old (cond lamport (listing_lamport_answer sheet.now) (listing_answer sheet.now)) result out.new }
{
    let mut work = desk::WORK;
    let mut numbers = [0u16; 512];
    match sheet::read_lamport(
        sheet,
        &mut work.clocks,
        &mut work.masks,
        &mut work.values,
        &mut numbers,
    ) {
        Err(r) => lines::refusal_text(r, out),
        Ok(c) => {
            let n = c.terms.processes;
            let list = c.list(sheet);
            if lamport {
                lines::listing_lamport_text(
                    n,
                    list,
                    &work.clocks,
                    &work.masks,
                    &numbers,
                    c.carried,
                    out,
                )
            } else {
                lines::listing_text(n, list, &work.clocks, &work.masks, c.carried, out)
            }
        }
    }
}

// What `listing` prints of a sheet.
pub fn listing_answer(sheet: &[u8], out: &mut [u8; PAGE]) -> usize
    ensures { Printed out.old (listing_answer sheet.now) result out.new }
{
    answer(false, sheet, out)
}

// What `listing lamport` prints of a sheet.
pub fn listing_lamport_answer(sheet: &[u8], out: &mut [u8; PAGE]) -> usize
    ensures { Printed out.old (listing_lamport_answer sheet.now) result out.new }
{
    answer(true, sheet, out)
}
