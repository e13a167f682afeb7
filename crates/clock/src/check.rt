// The checks that refuse, one for each refusal number of the paper.
ghost use Rattle.std.specs.Prelude.{◌≡◌};
ghost use Rattle.paper.specs.Refusals.{of_call};
ghost use Rattle.clock.specs.Check.{number_of};
ghost use Rattle.clock.specs.Said.{refusal};

use super::Refusal;

// What is wrong: with a sheet, with what is lent, with an event, with a recorded stamp, with a question. Number 17 is not used.
#[derive(Clone, Copy, Debug, PartialEq, Eq)]
pub enum Check {
    SheetLength,
    Letters,
    Version,
    Count,
    Zeros,
    List,
    Stamps,
    ListLength,
    Work,
    Kind,
    Process,
    Peer,
    Spare,
    UsedNumber,
    NotSent,
    NotInFront,
    Stamp,
    LeftOver,
    Position,
    Output,
    NotBefore,
    Lines,
}

impl From<Check> for u8 {
    ghost from_gives = { λ c r. r ≡ number_of c };

    fn from(check: Check) -> u8 {
        match check {
            Check::SheetLength => 1,
            Check::Letters => 2,
            Check::Version => 3,
            Check::Count => 4,
            Check::Zeros => 5,
            Check::List => 6,
            Check::Stamps => 7,
            Check::ListLength => 8,
            Check::Work => 9,
            Check::Kind => 10,
            Check::Process => 11,
            Check::Peer => 12,
            Check::Spare => 13,
            Check::UsedNumber => 14,
            Check::NotSent => 15,
            Check::NotInFront => 16,
            Check::Stamp => 18,
            Check::LeftOver => 19,
            Check::Position => 20,
            Check::Output => 21,
            Check::NotBefore => 22,
            Check::Lines => 30,
        }
    }
}

// A check that concerns no event.
impl From<Check> for Refusal {
    ghost from_gives = { λ c r. refusal r ≡ of_call (number_of c) };

    fn from(check: Check) -> Refusal {
        Refusal::of_call(u8::from(check))
    }
}
