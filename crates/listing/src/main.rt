// `listing [lamport] < SHEET`: the events of a sheet with their clocks and masks, and with their Lamport numbers where the word asks for them.
#![tactic(auto)]

ghost use Rattle.std.specs.Prelude.{IfSome, OnOk};
ghost use Rattle.std.specs.Io.KnownBytes.{Appends};
ghost use Rattle.listing.specs.Answer.{listing_answer, listing_lamport_answer};

mod answer;

use desk::Wanted;
use std::io;
use std::io::{Read, Write};

// Reads a sheet and prints its listing.
fn run<R: Read, W: Write>(from: &mut R, to: &mut W) -> io::Result<()>
    ensures { OnOk result (IfSome (R.remaining from.old) (λ sheet.
        Appends (W.contents to.old) (W.contents to.new) (listing_answer sheet))) }
{
    // One byte more than the longest sheet, so that a longer one is refused.
    desk::serve::<40961, _, _, _>(from, to, answer::listing_answer)
}

// The same with Lamport numbers: each of the two promises its own text.
fn run_lamport<R: Read, W: Write>(from: &mut R, to: &mut W) -> io::Result<()>
    ensures { OnOk result (IfSome (R.remaining from.old) (λ sheet.
        Appends (W.contents to.old) (W.contents to.new) (listing_lamport_answer sheet))) }
{
    desk::serve::<40961, _, _, _>(from, to, answer::listing_lamport_answer)
}

fn main(rt: HostRuntime) -> io::Result<()> {
    match desk::listing_wanted(&rt) {
        Wanted::Plain => run(&mut rt.stdin(), &mut rt.stdout()),
        Wanted::Lamport => run_lamport(&mut rt.stdin(), &mut rt.stdout()),
        Wanted::Unknown => eprintln!(rt; "usage: listing [lamport] < SHEET"),
    }
}
