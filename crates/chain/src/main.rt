// `chain FIRST SECOND < SHEET`: the chain from one event of a sheet to another.
#![tactic(auto)]

ghost use Rattle.std.specs.Prelude.{IfSome, OnOk};
ghost use Rattle.std.specs.Io.KnownBytes.{Appends};
ghost use Rattle.chain.specs.Answer.{chain_answer};

mod answer;

use clock::Position;
use std::io;
use std::io::{Read, Write};

// Reads a sheet and prints the chain from one of its events to another.
fn run<R: Read, W: Write>(
    first: Position,
    second: Position,
    from: &mut R,
    to: &mut W,
) -> io::Result<()>
    ensures { OnOk result (IfSome (R.remaining from.old) (λ sheet.
        Appends (W.contents to.old) (W.contents to.new) (chain_answer sheet first.0 second.0))) }
{
    // One byte more than the longest sheet, so that a longer one is refused.
    desk::serve::<40961, _, _, _>(from, to, |sheet, page| {
        answer::chain_answer(sheet, first, second, page)
    })
}

fn main(rt: HostRuntime) -> io::Result<()> {
    let Some((first, second)) = desk::positions(&rt) else {
        return eprintln!(rt; "usage: chain FIRST SECOND < SHEET");
    };
    run(
        Position(first),
        Position(second),
        &mut rt.stdin(),
        &mut rt.stdout(),
    )
}
