// `class PROCESSES < LIST`: what becomes of each offer of an event list.
#![tactic(auto)]

ghost use Rattle.std.specs.Prelude.{IfSome, OnOk};
ghost use Rattle.std.specs.Io.KnownBytes.{Appends};
ghost use Rattle.clock.specs.Said.{stated};
ghost use Rattle.class.specs.Answer.{class_answer};

mod answer;

use clock::Terms;
use std::io;
use std::io::{Read, Write};

// Reads an event list and prints its answer.
fn run<R: Read, W: Write>(terms: Terms, from: &mut R, to: &mut W) -> io::Result<()>
    ensures { OnOk result (IfSome (R.remaining from.old) (λ list.
        Appends (W.contents to.old) (W.contents to.new) (class_answer (stated terms) list))) }
{
    // One byte more than the longest list, so that a longer one is refused.
    desk::serve::<4097, _, _, _>(from, to, |list, page| {
        answer::class_answer(terms, list, page)
    })
}

fn main(rt: HostRuntime) -> io::Result<()> {
    let Some(n) = desk::argument(&rt, 1) else {
        return eprintln!(rt; "usage: class PROCESSES < LIST");
    };
    run(Terms::plain(n), &mut rt.stdin(), &mut rt.stdout())
}
