// `marker FILE < SHEET`: the marks of a pupil's list on a sheet, and the total.
#![tactic(auto)]

ghost use Rattle.std.specs.Prelude.{◌≤◌, IfOk, IfSome, OnOk, length};
ghost use Rattle.std.specs.Io.KnownBytes.{Appends};
ghost use Rattle.marker.specs.Answer.{marker_answer};

mod answer;

use std::env::Env;
use std::fs::Files;
use std::io::{Read, Write};
use std::{fs, io, str};

// The file that the first argument names; none where it is not open or can't be read.
fn named_file<R: Env + Files>(rt: &R) -> Option<R::File> {
    // No path is longer.
    let mut name = [0u8; 4095];
    let n = rt.arg(1, &mut name).ok()?;
    let path = str::from_utf8(&name[..n]).ok()?;
    let mut file = fs::open(rt, path).ok()?;
    // Even a read of no bytes fails where a file can't be read, as a folder.
    file.read(&mut []).ok()?;
    Some(file)
}

// Puts the file that the first argument names into a buffer, and returns how many bytes of it; none where it is not open or can't be read.
fn read_file<R: Env + Files>(rt: &R, buf: &mut [u8]) -> io::Result<Option<usize>>
    ensures { IfOk result (λ found. IfSome found (λ n. n ≤ length buf.new)) }
{
    let Some(mut file) = named_file(rt) else {
        return Ok(None);
    };
    Ok(Some(desk::read_full(&mut file, buf)?))
}

// Reads a sheet and prints the marks of a pupil's list on it.
fn run<R: Read, W: Write>(list: &[u8], from: &mut R, to: &mut W) -> io::Result<()>
    ensures { OnOk result (IfSome (R.remaining from.old) (λ sheet.
        Appends (W.contents to.old) (W.contents to.new) (marker_answer sheet list.now))) }
{
    // One byte more than the longest sheet, so that a longer one is refused.
    desk::serve::<40961, _, _, _>(from, to, |sheet, page| {
        answer::marker_answer(sheet, list, page)
    })
}

fn main(rt: HostRuntime) -> io::Result<()> {
    // One byte more than 200 lines, so that a longer list is refused.
    let mut list = [0u8; 1201];
    let Some(count) = read_file(&rt, &mut list)? else {
        return eprintln!(rt; "usage: marker FILE < SHEET");
    };
    run(&list[..count], &mut rt.stdin(), &mut rt.stdout())
}
