// The events of a sheet whose header is right, then its recorded stamps.
ghost use Rattle.std.specs.Prelude.{◌≡◌, cond, is_ok};
ghost use Rattle.clock.specs.Said.{told};
ghost use Rattle.paper.specs.Event.{how_many};
ghost use Rattle.paper.specs.Reading.{header_checks, stamps_refused};
ghost use Rattle.paper.specs.Refusals.{outcome};
ghost use Rattle.course.specs.Said.{work, wiped, wiped_slots};
ghost use Rattle.sheet.specs.Header.{parts_in};
ghost use Rattle.sheet.specs.Slots.{slot_pieces, Slots};
ghost use Rattle.sheet.specs.Said.{Numbers, Where};

use super::Contents;
use super::header::Parts;
use super::stamps::compare;
use super::walk::Stamps;
use clock::Refusal;

// The lent slices stand one by one, as in `read_lamport`.
// Recorded stamps compared: a refusal sets the slots named for the events of the list to 0.
fn recorded(
    n: usize,
    list: &[u8],
    stamps: &[u8],
    clocks: &mut [u16],
    masks: &mut [u32],
    values: &mut [u16],
    lamports: &mut [u16],
) -> Result<(), Refusal>
    requires { Slots list.now masks.old values.old }
    ensures { (told (λ u. u) result ≡ outcome (stamps_refused 0 (slot_pieces list.now masks.old values.old) stamps.now) (tt {0}))
        × (work clocks.new masks.new values.new
        ≡ cond (is_ok result) (work clocks.old masks.old values.old) (wiped n (how_many list.now) (work clocks.old masks.old values.old)))
        × (lamports.new ≡ cond (is_ok result) lamports.old (wiped_slots (how_many list.now) lamports.old)) }
{
    let r = compare(Stamps::of(list, masks, values), stamps);
    if r.is_err() {
        course::clear(n, list.len() / 8, clocks, masks, values);
        course::clear_lamports(list.len() / 8, lamports);
    }
    r
}

// 9, events in order, then stamps.
pub(crate) fn judged(
    sheet: &[u8],
    p: Parts,
    clocks: &mut [u16],
    masks: &mut [u32],
    values: &mut [u16],
    lamports: &mut [u16],
) -> Result<Contents, Refusal>
    requires { (header_checks sheet.now 0 ≡ 0) × (p ≡ parts_in sheet.now) }
    ensures numbers { Numbers sheet.now (work clocks.old masks.old values.old) lamports.old
        result (work clocks.new masks.new values.new) lamports.new }
    ensures place { Where sheet.now result }
{
    let list = p.list.of(sheet);
    let carried = course::strict_lamport(p.terms, list, clocks, masks, values, lamports)?;
    recorded(
        p.terms.processes,
        list,
        p.stamps.of(sheet),
        clocks,
        masks,
        values,
        lamports,
    )?;
    Ok(Contents {
        terms: p.terms,
        offset: p.list.offset,
        size: p.list.size,
        carried,
    })
}
