// The C calls: each answers with one number, `number + 256 * x + 65536 * y + 4294967296 * z`.
#![tactic(auto)]

mod pack;

ghost use Rattle.std.specs.Prelude.{◌≡◌};
ghost use Rattle.paper.specs.Class as paper;
ghost use Rattle.paper.specs.Marking.{marking};
ghost use Rattle.paper.specs.Questions.{ordering, comparing, chaining, writing};
ghost use Rattle.paper.specs.Reading.{reading, reading_lamport};
ghost use Rattle.paper.specs.Savings.{storing};
ghost use Rattle.paper.specs.Terms.{plain};
ghost use Rattle.course.specs.Said.{work};
ghost use Rattle.oboefinch.specs.Packed.{read_fields, class_fields, write_fields, verdict_fields, chain_fields, mark_fields, saving_fields};
ghost use Rattle.oboefinch.specs.Packed.{answered, with_work, with_output, with_two};

use clock::{Position, Terms};
use pack::Answer;

// Reading a sheet.
// The work buffers stand one by one, as C lends them.
#[unsafe(no_mangle)]
pub extern "C" fn oboefinch_read(
    sheet: &[u8],
    clocks: &mut [u16],
    masks: &mut [u32],
    values: &mut [u16],
) -> u64
    ensures { (result, work clocks.new masks.new values.new)
        ≡ with_work read_fields
        (reading sheet.now (work clocks.old masks.old values.old)) }
{
    sheet::read(sheet, clocks, masks, values).packed()
}

// Reading a sheet, with the Lamport numbers of its events.
#[unsafe(no_mangle)]
pub extern "C" fn oboefinch_read_lamport(
    sheet: &[u8],
    clocks: &mut [u16],
    masks: &mut [u32],
    values: &mut [u16],
    lamports: &mut [u16],
) -> u64
    ensures { ((result, work clocks.new masks.new values.new), lamports.new)
        ≡ with_output read_fields
        (reading_lamport sheet.now (work clocks.old masks.old values.old) lamports.old) }
{
    sheet::read_lamport(sheet, clocks, masks, values, lamports).packed()
}

// Class mode: each offer of the list is tried.
#[unsafe(no_mangle)]
pub extern "C" fn oboefinch_class(
    n: usize,
    list: &[u8],
    clocks: &mut [u16],
    masks: &mut [u32],
    values: &mut [u16],
    answers: &mut [u8],
) -> u64
    ensures { ((result, work clocks.new masks.new values.new), answers.new)
        ≡ with_output class_fields
        (paper.class (plain n) list.now (work clocks.old masks.old values.old) answers.old) }
{
    let terms = Terms::plain(n);
    course::class(terms, list, clocks, masks, values, answers).packed()
}

// Class mode, with the Lamport numbers of the accepted events.
#[unsafe(no_mangle)]
pub extern "C" fn oboefinch_class_lamport(
    n: usize,
    list: &[u8],
    clocks: &mut [u16],
    masks: &mut [u32],
    values: &mut [u16],
    answers: &mut [u8],
    lamports: &mut [u16],
) -> u64
    ensures { ((result, work clocks.new masks.new values.new), answers.new, lamports.new)
        ≡ with_two class_fields
        (paper.class_lamport (plain n) list.now (work clocks.old masks.old values.old) answers.old lamports.old) }
{
    let terms = Terms::plain(n);
    course::class_lamport(terms, list, clocks, masks, values, answers, lamports).packed()
}

// Writing the sheet of a list.
#[unsafe(no_mangle)]
pub extern "C" fn oboefinch_write(
    n: usize,
    list: &[u8],
    clocks: &mut [u16],
    masks: &mut [u32],
    values: &mut [u16],
    sheet: &mut [u8],
) -> u64
    ensures { ((result, work clocks.new masks.new values.new), sheet.new)
        ≡ with_output write_fields
        (writing (plain n) list.now (work clocks.old masks.old values.old) sheet.old) }
{
    let terms = Terms::plain(n);
    layout::write(terms, list, clocks, masks, values, sheet).packed()
}

// The verdict on two events of a list.
#[unsafe(no_mangle)]
pub extern "C" fn oboefinch_compare(
    n: usize,
    list: &[u8],
    clocks: &mut [u16],
    masks: &mut [u32],
    values: &mut [u16],
    first: usize,
    second: usize,
) -> u64
    ensures { (result, work clocks.new masks.new values.new)
        ≡ with_work verdict_fields
        (comparing (plain n) list.now (work clocks.old masks.old values.old) first second) }
{
    let a = Position(first);
    let b = Position(second);
    let terms = Terms::plain(n);
    order::compare(terms, list, clocks, masks, values, a, b).packed()
}

// The sends that lead from one event of a list to another.
#[unsafe(no_mangle)]
pub extern "C" fn oboefinch_chain(
    n: usize,
    list: &[u8],
    clocks: &mut [u16],
    masks: &mut [u32],
    values: &mut [u16],
    first: usize,
    second: usize,
    chain: &mut [u16],
) -> u64
    ensures { ((result, work clocks.new masks.new values.new), chain.new)
        ≡ with_output chain_fields
        (chaining (plain n) list.now (work clocks.old masks.old values.old) first second chain.old) }
{
    let a = Position(first);
    let b = Position(second);
    let terms = Terms::plain(n);
    teaching::chain(terms, list, clocks, masks, values, a, b, chain).packed()
}

// Marking a pupil's list on a sheet.
#[unsafe(no_mangle)]
pub extern "C" fn oboefinch_mark(
    sheet: &[u8],
    lines: &[u8],
    clocks: &mut [u16],
    masks: &mut [u32],
    values: &mut [u16],
    marks: &mut [u8],
) -> u64
    ensures { ((result, work clocks.new masks.new values.new), marks.new)
        ≡ with_output mark_fields
        (marking sheet.now lines.now (work clocks.old masks.old values.old) marks.old) }
{
    pupil::mark(sheet, lines, clocks, masks, values, marks).packed()
}

// What the short stamps of a sheet saved.
#[unsafe(no_mangle)]
pub extern "C" fn oboefinch_savings(
    sheet: &[u8],
    clocks: &mut [u16],
    masks: &mut [u32],
    values: &mut [u16],
    percent: &mut [f64],
) -> u64
    ensures { ((result, work clocks.new masks.new values.new), percent.new)
        ≡ with_output saving_fields
        (storing sheet.now (work clocks.old masks.old values.old) percent.old) }
{
    percentage::store(sheet, clocks, masks, values, percent).packed()
}

// The verdict on two lent clocks.
#[unsafe(no_mangle)]
pub extern "C" fn oboefinch_order(first: &[u16], second: &[u16]) -> u64
    ensures { result ≡ answered verdict_fields (ordering first.now second.now) }
{
    clock::order(first, second).packed()
}
