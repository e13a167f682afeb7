// `savings < SHEET`: what the short stamps of a sheet saved, in percent, or that it has no messages.
#![tactic(auto)]

ghost use Rattle.std.specs.Prelude.{IfSome, OnOk};
ghost use Rattle.std.specs.Io.KnownBytes.{Appends};
ghost use Rattle.savings.specs.Answer.{savings_answer};

mod answer;

use std::io;
use std::io::{Read, Write};

// Reads a sheet and prints what is said of it.
fn run<R: Read, W: Write>(from: &mut R, to: &mut W) -> io::Result<()>
    ensures { OnOk result (IfSome (R.remaining from.old) (λ sheet. Appends (W.contents to.old) (W.contents to.new) (savings_answer sheet))) }
{
    // One byte more than the longest sheet, so that a longer one is refused.
    desk::serve::<40961, _, _, _>(from, to, answer::savings_answer)
}

fn main(rt: HostRuntime) -> io::Result<()> {
    run(&mut rt.stdin(), &mut rt.stdout())
}
