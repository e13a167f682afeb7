// `compare FIRST SECOND < SHEET`: the verdict on two events of a sheet.
#![tactic(auto)]

ghost use Rattle.std.specs.Prelude.{IfSome, OnOk};
ghost use Rattle.std.specs.Io.KnownBytes.{Appends};
ghost use Rattle.compare.specs.Answer.{compare_answer};

mod answer;

use clock::Position;
use std::io;
use std::io::{Read, Write};

// Reads a sheet and prints the verdict on two of its events.
fn run<R: Read, W: Write>(
    first: Position,
    second: Position,
    from: &mut R,
    to: &mut W,
) -> io::Result<()>
    ensures { OnOk result (IfSome (R.remaining from.old) (λ sheet.
        Appends (W.contents to.old) (W.contents to.new) (compare_answer sheet first.0 second.0))) }
{
    // One byte more than the longest sheet, so that a longer one is refused.
    desk::serve::<40961, _, _, _>(from, to, |sheet, page| {
        answer::compare_answer(sheet, first, second, page)
    })
}

fn main(rt: HostRuntime) -> io::Result<()> {
    let Some((first, second)) = desk::positions(&rt) else {
        return eprintln!(rt; "usage: compare FIRST SECOND < SHEET");
    };
    run(
        Position(first),
        Position(second),
        &mut rt.stdin(),
        &mut rt.stdout(),
    )
}
