// Pieces of what `marker` prints.
ghost use Rattle.std.specs.Prelude.{◌+◌, ◌≤◌, ◌++◌, length};
ghost use Rattle.paper.specs.Bytes.{text};
ghost use Rattle.paper.specs.Listing.{decimal, word};
ghost use Rattle.octets.specs.Appended.{Appended};
ghost use Rattle.lines.specs.Text.{each};
ghost use Rattle.lines.specs.Marker.{mark_line, total_line};

use octets::store::put;
use octets::text::{put_decimal, put_named, put_word};
use octets::width::Narrow;

// The line of the mark at a place.
fn put_mark(out: &mut [u8], at: usize, place: usize, mark: u8) -> usize
    ensures { Appended out.old at (decimal place ++ word mark ++ text "\n") result out.new × (result ≤ at + 800) }
{
    let at = put_decimal(out, at, place);
    let at = put_word(out, at, mark.wide());
    put(out, at, b'\n')
}

// The lines of the marks.
pub(crate) fn put_marks(out: &mut [u8], marks: &[u8]) -> usize
    requires { length marks.now ≤ 200 }
    ensures { Appended out.old 0 (each (mark_line marks.now) (length marks.now)) result out.new × (result ≤ 160000) }
{
    let mut end = 0;
    for (j, mark) in marks.iter().enumerate() {
        end = put_mark(out, end, j, *mark);
    }
    end
}

// The line of the total.
pub(crate) fn put_total(out: &mut [u8], at: usize, total: usize, lines: usize) -> usize
    ensures { Appended out.old at (total_line total lines) result out.new × (result ≤ at + 200) }
{
    let at = put_named(out, at, b"total", total);
    let at = put_named(out, at, b" of", lines);
    put(out, at, b'\n')
}
