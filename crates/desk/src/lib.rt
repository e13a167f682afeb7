// What the programs share: the page on which each answer is written, what the arguments say, reading and printing.
#![tactic(auto)]

ghost use Rattle.std.specs.Prelude.{◌≡◌, ◌≢◌, ◌<◌, ◌≤◌, ◌^◌, ◌↔◌, IfOk, IfSome, IsTrue, OnOk, codes, length, take};
ghost use Rattle.std.specs.Io.KnownBytes.{Appends, Consumes, Keeps};
ghost use Rattle.desk.specs.Serving.{AnswersAt, PrintsAnswer};

use std::env::{Env, FillError};
use std::io;
use std::io::{Read, Write};

// The bytes of a page, on which each answer is written: half a million hold every text.
pub const PAGE: usize = 500000;

// The number that a program's argument says; none where it is missing or of more than 5 bytes.
pub fn argument(env: &impl Env, i: usize) -> Option<usize> {
    let mut text = [0u8; 5];
    let n = env.arg(i, &mut text).ok()?;
    number::parse(&text[..n])
}

// The two positions that a question names; none where an argument is missing or wrong.
pub fn positions(env: &impl Env) -> Option<(usize, usize)> {
    Some((argument(env, 1)?, argument(env, 2)?))
}

// The work buffers that each program lends: they are large enough for every list.
#[derive(Drop)]
pub struct Work {
    pub clocks: [u16; 16384],
    pub masks: [u32; 512],
    pub values: [u16; 16384],
}

// As they are lent: all 0.
pub const WORK: Work = Work {
    clocks: [0; 16384],
    masks: [0; 512],
    values: [0; 16384],
};

// Which listing is asked for: no argument, the one word `lamport`, or something else.
#[derive(Clone, Copy, Debug, PartialEq, Eq)]
pub enum Wanted {
    Plain,
    Lamport,
    Unknown,
}

pub fn listing_wanted(env: &impl Env) -> Wanted {
    let mut word = [0u8; 7];
    match env.arg(1, &mut word) {
        Ok(n) => listing_named(&word[..n], is_missing(env, 2)),
        Err(FillError::NotPresent) => Wanted::Plain,
        Err(FillError::TooLong) => Wanted::Unknown,
    }
}

// Which listing a word asks for, alone or with others behind it.
fn listing_named(word: &[u8], is_alone: bool) -> Wanted
    ensures lamport { (result ≡ Wanted.Lamport) ↔ ((word.now ≡ codes "lamport") × IsTrue is_alone) }
    ensures not_plain { result ≢ Wanted.Plain }
{
    if is_alone && word == b"lamport".as_slice() {
        Wanted::Lamport
    } else {
        Wanted::Unknown
    }
}

// Whether there is no such argument. Any other is longer than no bytes, or 0 bytes long.
fn is_missing(env: &impl Env, i: usize) -> bool {
    matches!(env.arg(i, &mut []), Err(FillError::NotPresent))
}

// Reads until the buffer is full or the input ends, and returns how many bytes now stand at the buffer's start. A read that fails is an error, and what
// was read before it is lost.
pub fn read_full<R: Read>(from: &mut R, buf: &mut [u8]) -> io::Result<usize>
    ensures bound { IfOk result (λ n. n ≤ length buf.new) }
    ensures bytes { IfOk result (λ n. IfSome (R.remaining from.old) (λ all. take n buf.new ≡ take (length buf.new) all)) }
    ensures rest { IfOk result (λ n. Consumes (R.remaining from.old) (R.remaining from.new) (take n buf.new)) }
{
    let mut done = 0;
    // No method of a reader fills a buffer as far as the input goes.
    while done < buf.len() {
        let n = from.read(&mut buf[done..])?;
        if n == 0 {
            break;
        }
        done += n;
    }
    Ok(done)
}

// Prints the first bytes of a page, which its promise names beside the length. No text is longer than a page, as its promise says.
pub fn print<W: Write>(to: &mut W, page: &[u8; PAGE], length: usize) -> io::Result<()>
    ensures fits { OnOk result (length ≤ PAGE → Appends (W.contents to.old) (W.contents to.new) (take length page.now)) }
    ensures longer { OnOk result (PAGE < length → Keeps (W.contents to.old) (W.contents to.new)) }
{
    if length <= PAGE {
        to.write_all(&page[..length])?;
    }
    Ok(())
}

// Reads an input of which N bytes are enough, and returns what `answer` gives of it, which writes on a page.
pub fn answer_on<const N: usize, R: Read, T, F: FnOnce(&[u8], &mut [u8; PAGE]) -> T>(
    from: &mut R,
    page: &mut [u8; PAGE],
    answer: F,
) -> io::Result<T>
    requires fits { N < 2 ^ 63 }
    requires any { F.IsAlwaysCallable answer }
    ensures { IfOk result (λ r. IfSome (R.remaining from.old) (λ all. AnswersAt F.FnOnce answer (take N all) page.old r page.new)) }
{
    let mut input = [0u8; N];
    let size = read_full(from, &mut input)?;
    Ok(answer(&input[..size], page))
}

// Reads an input of which N bytes are enough, and prints the text that `answer` writes of it.
pub fn serve<const N: usize, R: Read, W: Write, F: FnOnce(&[u8], &mut [u8; PAGE]) -> usize>(
    from: &mut R,
    to: &mut W,
    answer: F,
) -> io::Result<()>
    requires fits { N < 2 ^ 63 }
    requires any { F.IsAlwaysCallable answer }
    ensures { OnOk result (IfSome (R.remaining from.old) (λ all. PrintsAnswer F.FnOnce answer (take N all) (W.contents to.old) (W.contents to.new))) }
{
    let mut page = [0u8; PAGE];
    let length = answer_on::<N, R, usize, F>(from, &mut page, answer)?;
    print(to, &page, length)
}

#[cfg(test)]
mod tests {
    use super::*;
    use std::io::{Error, ErrorKind};
    use std::test::Fail;

    // The arguments of a program, its own name first.
    #[derive(Drop)]
    struct Given<'a>(&'a [&'a [u8]]);

    impl Env for Given<'_> {
        fn arg(&self, i: usize, buf: &mut [u8]) -> Result<usize, FillError> {
            let word = self.0.get(i).ok_or(FillError::NotPresent)?;
            let slot = buf.get_mut(..word.len()).ok_or(FillError::TooLong)?;
            slot.copy_from_slice(word);
            Ok(word.len())
        }

        fn var(&self, _name: &str, _buf: &mut [u8]) -> Result<usize, FillError> {
            Err(FillError::NotPresent)
        }

        fn var_at(&self, _i: usize, _buf: &mut [u8]) -> Result<usize, FillError> {
            Err(FillError::NotPresent)
        }
    }

    #[test]
    fn arguments(rt: HostRuntime) {
        let given = Given(&[b"compare", b"00012", b"000012", b"", b"1a", b"\xff"]);
        assert_eq!(rt; argument(&given, 1), Some(12));
        for i in 2..7 {
            assert_eq!(rt; argument(&given, i), None, "argument {i}");
        }
        assert_eq!(rt; positions(&given), None);
        let given = Given(&[b"compare", b"3", b"07", b"more"]);
        assert_eq!(rt; positions(&given), Some((3, 7)));
    }

    #[test]
    fn listings(rt: HostRuntime) {
        assert_eq!(rt; listing_wanted(&Given(&[b"listing"])), Wanted::Plain);
        assert_eq!(rt;
            listing_wanted(&Given(&[b"listing", b"lamport"])),
            Wanted::Lamport
        );
        assert_eq!(rt;
            listing_wanted(&Given(&[b"listing", b"lamport", b""])),
            Wanted::Unknown
        );
        assert_eq!(rt;
            listing_wanted(&Given(&[b"listing", b"lamports"])),
            Wanted::Unknown
        );
        assert_eq!(rt; listing_wanted(&Given(&[b"listing", b""])), Wanted::Unknown);
    }

    // A reader that gives one byte at a time and then fails.
    #[derive(Drop)]
    struct Failing(u8);

    impl Read for Failing {
        fn read(&mut self, buf: &mut [u8]) -> io::Result<usize> {
            if self.0 == 0 {
                return Err(Error::from(ErrorKind::BrokenPipe));
            }
            let Some(first) = buf.first_mut() else {
                return Ok(0);
            };
            *first = self.0;
            self.0 -= 1;
            Ok(1)
        }
    }

    #[test]
    fn reads(rt: HostRuntime) -> Result<(), Fail> {
        let mut buf = [0u8; 4];
        assert_eq!(rt; read_full(&mut b"abcdef".as_slice(), &mut buf)?, 4);
        assert_eq!(rt; &buf, b"abcd");
        assert_eq!(rt; read_full(&mut b"xy".as_slice(), &mut buf)?, 2);
        assert_eq!(rt; &buf, b"xycd");
        assert_eq!(rt; read_full(&mut Failing(9), &mut buf)?, 4);
        assert_eq!(rt; &buf, &[9, 8, 7, 6]);
        assert!(rt; read_full(&mut Failing(3), &mut buf).is_err());
        Ok(())
    }

    #[test]
    fn prints(rt: HostRuntime) -> Result<(), Fail> {
        let mut out = Vec::new(rt.alloc());
        print(&mut out, &[b'x'; PAGE], 3)?;
        print(&mut out, &[b'y'; PAGE], PAGE + 1)?;
        assert_eq!(rt; out.as_slice(), b"xxx".as_slice());
        Ok(())
    }

    #[test]
    fn serves(rt: HostRuntime) -> Result<(), Fail> {
        let mut out = Vec::new(rt.alloc());
        serve::<4, _, _, _>(&mut b"abcdef".as_slice(), &mut out, |input, page| {
            page[0] = b'x';
            input.len()
        })?;
        serve::<4, _, _, _>(&mut b"yz".as_slice(), &mut out, |input, _page| input.len())?;
        assert_eq!(rt; out.as_slice(), b"x\0\0\0\0\0".as_slice());
        Ok(())
    }
}
