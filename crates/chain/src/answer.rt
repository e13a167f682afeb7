// What `chain` answers: the whole text for a whole sheet, over work buffers that are always large enough.
ghost use Rattle.lines.specs.Text.{Printed};
ghost use Rattle.chain.specs.Answer.{chain_answer};

use clock::Position;
use desk::PAGE;

// What `chain` prints: the chain from one event of a sheet to another, whose positions its promise names one by one.
pub fn chain_answer(sheet: &[u8], first: Position, second: Position, out: &mut [u8; PAGE]) -> usize
    ensures { Printed out.old (chain_answer sheet.now first.0 second.0) result out.new }
{
    let mut work = desk::WORK;
    let mut chain = [0u16; 31];
    match teaching::chain_sheet(
        sheet,
        &mut work.clocks,
        &mut work.masks,
        &mut work.values,
        first,
        second,
        &mut chain,
    ) {
        Err(r) => lines::refusal_text(r, out),
        Ok(k) => lines::chain_text(&chain, k, out),
    }
}
