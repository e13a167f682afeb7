// `write PROCESSES < LIST`: the sheet of an event list; a refusal goes to standard error.
#![tactic(auto)]

ghost use Rattle.std.specs.Prelude.{IfSome, OnOk};
ghost use Rattle.clock.specs.Said.{stated};
ghost use Rattle.write.specs.Answer.{write_answer};
ghost use Rattle.write.specs.Streams.{Prints};

mod answer;

use clock::Terms;
use std::io;
use std::io::{Read, Write};

// Reads an event list and prints its sheet, or on `err` what refuses it.
fn run<R: Read, W: Write, E: Write>(
    terms: Terms,
    from: &mut R,
    out: &mut W,
    err: &mut E,
) -> io::Result<()>
    ensures { OnOk result (IfSome (R.remaining from.old) (λ list. Prints (write_answer (stated terms) list)
        (W.contents out.old) (W.contents out.new) (E.contents err.old) (E.contents err.new))) }
{
    let mut page = [0u8; desk::PAGE];
    // One byte more than the longest list, so that a longer one is refused.
    let written = desk::answer_on::<4097, _, _, _>(from, &mut page, |list, page| {
        answer::write_answer(terms, list, page)
    })?;
    match written {
        Ok(length) => desk::print(out, &page, length),
        Err(length) => desk::print(err, &page, length),
    }
}

fn main(rt: HostRuntime) -> io::Result<()> {
    let Some(n) = desk::argument(&rt, 1) else {
        return eprintln!(rt; "usage: write PROCESSES < LIST");
    };
    run(
        Terms::plain(n),
        &mut rt.stdin(),
        &mut rt.stdout(),
        &mut rt.stderr(),
    )
}
