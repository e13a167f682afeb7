// Sheets: read, with every check in its order.
#![tactic(auto)]

mod header;
mod reader;
pub mod stamps;
pub mod walk;

ghost use Rattle.std.specs.Prelude.{◌≡◌, ◌+◌, ◌≤◌, length, take, drop};
ghost use Rattle.course.specs.Said.{work};
ghost use Rattle.sheet.specs.Said.{Reads, Numbers, Where};

use clock::{Refusal, Terms};
use header::Part;

// What a sheet says: its terms, where its event list lies, and how many values the stamps carry.
#[derive(Clone, Copy, Debug, PartialEq, Eq)]
pub struct Contents {
    pub terms: Terms,
    pub offset: usize,
    pub size: usize,
    pub carried: usize,
}

impl Contents {
    // The event list, in the sheet that was read; in any other bytes what stands there, as far as they go.
    pub fn list(self, sheet: &[u8]) -> &[u8]
        ensures { result.now ≡ take self.size (drop self.offset sheet.now) }
    {
        if sheet.len() < self.offset {
            return &[];
        }
        let rest = &sheet[self.offset..];
        if rest.len() < self.size {
            return rest;
        }
        &rest[..self.size]
    }
}

// Reading: 1 to 7, 9, events in order, then stamps; with the Lamport numbers of an accepted sheet's events.
// The work buffers stand one by one, as C lends them.
pub fn read_lamport(
    sheet: &[u8],
    clocks: &mut [u16],
    masks: &mut [u32],
    values: &mut [u16],
    lamports: &mut [u16],
) -> Result<Contents, Refusal>
    ensures numbers { Numbers sheet.now (work clocks.old masks.old values.old) lamports.old
        result (work clocks.new masks.new values.new) lamports.new }
    ensures place { Where sheet.now result }
{
    let parts = header::head(sheet)?;
    reader::judged(sheet, parts, clocks, masks, values, lamports)
}

// Reading where no Lamport numbers are asked for.
pub fn read(
    sheet: &[u8],
    clocks: &mut [u16],
    masks: &mut [u32],
    values: &mut [u16],
) -> Result<Contents, Refusal>
    ensures reads { Reads sheet.now (work clocks.old masks.old values.old)
        result (work clocks.new masks.new values.new) }
    ensures place { Where sheet.now result }
{
    let mut lamports = [0u16; 512];
    read_lamport(sheet, clocks, masks, values, &mut lamports)
}
