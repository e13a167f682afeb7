// Class mode and the strict course: the outcome of a list of offers, and every slot of the lent buffers.
#![tactic(auto)]

ghost use Rattle.std.specs.Prelude.{◌≡◌, ◌≤◌, length};
ghost use Rattle.paper.specs.Class as paper;
ghost use Rattle.paper.specs.Questions as questions;
ghost use Rattle.clock.specs.Said.{stated};
ghost use Rattle.course.specs.Said.{work, classed, judged, wiped, wiped_slots};
ghost use Rattle.course.specs.Slots.{named, Tail, zeroed, swept};

use clock::{Clock, Position, Refusal, Terms};

// What class mode answers: how many events are accepted, and how many values their stamps carry.
#[derive(Clone, Copy, Debug, PartialEq, Eq)]
pub struct Classed {
    pub accepted: usize,
    pub carried: usize,
}

// The slots from `from` up to `to` are set to 0.
fn zero(slots: &mut [u16], from: usize, to: usize)
    requires { (from ≤ to) × (to ≤ length slots.old) }
    ensures { slots.new ≡ zeroed from to slots.old }
{
    slots[from..to].fill(0);
}

// The work buffers stand one by one, as C lends them.
// The named slots behind those of k accepted events and their v carried values are set to 0.
fn tidy(
    n: usize,
    m: usize,
    k: usize,
    v: usize,
    clocks: &mut [u16],
    masks: &mut [u32],
    values: &mut [u16],
)
    requires { Tail n m k v (work clocks.old masks.old values.old) }
    ensures { work clocks.new masks.new values.new
        ≡ swept n m k v (work clocks.old masks.old values.old) }
{
    zero(clocks, n * k, n * m);
    masks[k..m].fill(0);
    zero(values, v, n * m);
}

// Whether the slots named for m events of n processes are lent.
fn is_lent(n: usize, m: usize, clocks: usize, masks: usize, values: usize) -> bool
    ensures { result ≡ named n m clocks masks values }
{
    if (Clock::PROCESSES < n) | (Clock::EVENTS < m) {
        return false;
    }
    !((clocks < n * m) | (masks < m) | (values < n * m))
}

// What a later refusal does: the slots named for m events of n processes are set to 0, where they are lent.
pub fn clear(n: usize, m: usize, clocks: &mut [u16], masks: &mut [u32], values: &mut [u16])
    ensures { work clocks.new masks.new values.new
        ≡ wiped n m (work clocks.old masks.old values.old) }
{
    if is_lent(n, m, clocks.len(), masks.len(), values.len()) {
        tidy(n, m, 0, 0, clocks, masks, values);
    }
}

// The same of the slots named for m Lamport numbers.
pub fn clear_lamports(m: usize, lamports: &mut [u16])
    ensures { lamports.new ≡ wiped_slots m lamports.old }
{
    if m <= lamports.len() {
        zero(lamports, 0, m);
    }
}

// Class mode: each offer of the list is tried, and the course goes on; with the Lamport numbers of the accepted events.
pub fn class_lamport(
    terms: Terms,
    list: &[u8],
    clocks: &mut [u16],
    masks: &mut [u32],
    values: &mut [u16],
    answers: &mut [u8],
    lamports: &mut [u16],
) -> Result<Classed, Refusal>
    ensures { ((classed result, work clocks.new masks.new values.new), answers.new, lamports.new)
        ≡ paper.class_lamport (stated terms) list.now (work clocks.old masks.old values.old) answers.old lamports.old }
{
    let t = offers::run(false, terms, list, clocks, masks, values, answers, lamports)?;
    tidy(
        terms.processes,
        list.len() / 8,
        t.accepted,
        t.carried,
        clocks,
        masks,
        values,
    );
    zero(lamports, t.accepted, list.len() / 8);
    Ok(Classed {
        accepted: t.accepted,
        carried: t.carried,
    })
}

// Class mode where no Lamport numbers are asked for.
pub fn class(
    terms: Terms,
    list: &[u8],
    clocks: &mut [u16],
    masks: &mut [u32],
    values: &mut [u16],
    answers: &mut [u8],
) -> Result<Classed, Refusal>
    ensures { ((classed result, work clocks.new masks.new values.new), answers.new)
        ≡ paper.class (stated terms) list.now (work clocks.old masks.old values.old) answers.old }
{
    let mut lamports = [0u16; 512];
    class_lamport(terms, list, clocks, masks, values, answers, &mut lamports)
}

// The strict course: the first refused event refuses the list; with the Lamport numbers of an accepted one.
pub fn strict_lamport(
    terms: Terms,
    list: &[u8],
    clocks: &mut [u16],
    masks: &mut [u32],
    values: &mut [u16],
    lamports: &mut [u16],
) -> Result<usize, Refusal>
    ensures { ((judged result, work clocks.new masks.new values.new), lamports.new)
        ≡ questions.strict_lamport (stated terms) list.now (work clocks.old masks.old values.old) lamports.old }
{
    let mut answers = [0u8; 512];
    let t = offers::run(
        true,
        terms,
        list,
        clocks,
        masks,
        values,
        &mut answers,
        lamports,
    )?;
    let m = list.len() / 8;
    if t.accepted == t.tried {
        tidy(
            terms.processes,
            m,
            t.accepted,
            t.carried,
            clocks,
            masks,
            values,
        );
        zero(lamports, t.accepted, m);
        return Ok(t.carried);
    }
    tidy(terms.processes, m, 0, 0, clocks, masks, values);
    zero(lamports, 0, m);
    let at = t.tried - 1;
    let number = answers[at];
    Err(Refusal::of_event(number, Position(at)))
}

// The strict course where no Lamport numbers are asked for.
pub fn strict(
    terms: Terms,
    list: &[u8],
    clocks: &mut [u16],
    masks: &mut [u32],
    values: &mut [u16],
) -> Result<usize, Refusal>
    ensures { (judged result, work clocks.new masks.new values.new)
        ≡ questions.strict (stated terms) list.now (work clocks.old masks.old values.old) }
{
    let mut lamports = [0u16; 512];
    strict_lamport(terms, list, clocks, masks, values, &mut lamports)
}
