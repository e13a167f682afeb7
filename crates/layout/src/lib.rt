// Sheets written: the events of a list and their stamps.
#![tactic(auto)]

mod store;

ghost use Rattle.clock.specs.Said.{stated};
ghost use Rattle.course.specs.Said.{work};
ghost use Rattle.layout.specs.Said.{Writes};

use clock::{Refusal, Terms};
use store::Listed;

// What is written: how many events, and how many bytes.
#[derive(Clone, Copy, Debug, PartialEq, Eq)]
pub struct Written {
    pub events: usize,
    pub bytes: usize,
}

// Writing: 3, 4, 8, 9, events in order, 21; the events at 24, the stamps straight after.
// The work buffers stand one by one, as C lends them.
pub fn write(
    terms: Terms,
    list: &[u8],
    clocks: &mut [u16],
    masks: &mut [u32],
    values: &mut [u16],
    out: &mut [u8],
) -> Result<Written, Refusal>
    ensures { Writes (stated terms) list.now (work clocks.old masks.old values.old) out.old
        result (work clocks.new masks.new values.new) out.new }
{
    course::strict(terms, list, clocks, masks, values)?;
    Listed { terms, list }.written(clocks, masks, values, out)
}
