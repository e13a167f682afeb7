// Clocks by value, the three sorts of figure, refusals, and the verdict on two lent clocks.
#![tactic(auto)]

mod check;
pub mod event;

ghost use Rattle.std.specs.Prelude.{◌≡◌, cond, ◌&&◌, not, ◌≤◌, length};
ghost use Rattle.paper.specs.Clock.{zero_clock};
ghost use Rattle.paper.specs.Order.{within};
ghost use Rattle.paper.specs.Questions.{ordering};
ghost use Rattle.paper.specs.Refusals.{of_call};
ghost use Rattle.clock.specs.Scalar.{one_up};
ghost use Rattle.paper.specs.Terms.{plain, wrong_count};
ghost use Rattle.clock.specs.Said.{number, ordered, refusal, of_event, stated};

pub use check::Check;

// The number of a process, from 0.
#[derive(Clone, Copy, Debug, PartialEq, Eq, PartialOrd, Ord)]
pub struct Process(pub u8);

// The position of an event in its list, from 0.
#[derive(Clone, Copy, Debug, PartialEq, Eq, PartialOrd, Ord)]
pub struct Position(pub usize);

// The number of a message, from 1.
#[derive(Clone, Copy, Debug, PartialEq, Eq, PartialOrd, Ord)]
pub struct Message(pub u16);

// A refusal number, and the position of the refused event; 0 where no event is refused.
// A number and no check, since `of_call` and `of_event` give a refusal of every number.
#[derive(Clone, Copy, Debug, PartialEq, Eq)]
pub struct Refusal {
    pub number: u8,
    pub position: Position,
}

impl Refusal {
    // A refusal that concerns no event.
    pub fn of_call(number: u8) -> Refusal
        ensures { refusal result ≡ of_call number }
    {
        Refusal {
            number,
            position: Position(0),
        }
    }

    // The refusal of the event at a position.
    pub fn of_event(number: u8, position: Position) -> Refusal
        ensures { refusal result ≡ of_event number position.0 }
    {
        Refusal { number, position }
    }
}

// What a list or a sheet is judged by: the version, how many processes there are, and how many of them are present at the start, which no rule looks at.
#[derive(Clone, Copy, Debug, PartialEq, Eq)]
pub struct Terms {
    pub version: usize,
    pub processes: usize,
    pub present: usize,
}

impl Terms {
    // The terms of a list lent directly, of so many processes.
    pub fn plain(processes: usize) -> Terms
        ensures { stated result ≡ plain processes }
    {
        Terms {
            version: 1,
            processes,
            present: 0,
        }
    }
}

// Thirty-two numbers, of which the first n are used and the rest stay 0.
#[derive(Clone, Copy)]
pub struct Clock {
    pub parts: [u16; 32],
}

impl Clock {
    // The most processes, and so components.
    pub const PROCESSES: usize = 32;

    // The most events, which no component passes.
    pub const EVENTS: usize = 512;

    // VC1: all clocks start at zero.
    pub fn zero() -> Clock
        ensures { result.parts ≡ zero_clock }
    {
        Clock { parts: [0u16; 32] }
    }
}

#[derive(Clone, Copy, Debug, PartialEq, Eq)]
pub enum Verdict {
    Before,
    After,
    Neither,
    Same,
}

impl Verdict {
    // The paper's number of a verdict.
    pub fn number(self) -> usize
        ensures { (result ≡ number self) × (result ≤ 4) }
    {
        match self {
            Verdict::Before => 1,
            Verdict::After => 2,
            Verdict::Neither => 3,
            Verdict::Same => 4,
        }
    }
}

// Whether so many are not 1 to 32: a list has no such number of processes, a clock no such length.
pub fn is_wrong_count(n: usize) -> bool
    ensures { result ≡ wrong_count n }
{
    (n < 1) | (Clock::PROCESSES < n)
}

// Whether no component of the first exceeds the second's, and none of the second the first's.
// One walk to its end, so that eight are compared at once: a walk that may end early, as `all`, compares one after another.
#[tactic(auto, unfolding(paper::specs::Order::within))]
fn ways(first: &[u16], second: &[u16]) -> (bool, bool)
    requires { length first.now ≡ length second.now }
    ensures { (result.0 ≡ within (length first.now) first.now second.now)
        × (result.1 ≡ within (length first.now) second.now first.now) }
{
    let mut there = true;
    let mut back = true;
    for k in 0..first.len() {
        there &= first[k] <= second[k];
        back &= second[k] <= first[k];
    }
    (there, back)
}

// The verdict where it is known whether the first clock is within the second, and the second within the first.
fn judge(there: bool, back: bool) -> Verdict
    ensures { number result ≡ cond (there && not back) 1 (cond (back && not there) 2 (cond (there && back) 4 3)) }
{
    match (there, back) {
        (true, false) => Verdict::Before,
        (false, true) => Verdict::After,
        (true, true) => Verdict::Same,
        (false, false) => Verdict::Neither,
    }
}

// The verdict on two lent clocks; 4 where a length is not 1 to 32, or the two differ.
pub fn order(first: &[u16], second: &[u16]) -> Result<Verdict, Refusal>
    ensures { ordered result ≡ ordering first.now second.now }
{
    let n = first.len();
    if is_wrong_count(n) | (n != second.len()) {
        return Err(Refusal::from(Check::Count));
    }
    let (there, back) = ways(first, second);
    Ok(judge(there, back))
}

// LC2 (b), then LC1: a process whose value is `own` receives a message that carries t, or nothing, which is 0. The largest u16 stays.
pub fn one_up(own: u16, t: u16) -> u16
    ensures { result ≡ one_up own t }
{
    own.max(t).saturating_add(1)
}
