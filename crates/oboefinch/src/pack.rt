// What the calls answer, as four fields in one number.
ghost use Rattle.std.specs.Prelude.{◌≡◌, ◌/◌, ◌<◌};
ghost use Rattle.clock.specs.Said as said;
ghost use Rattle.oboefinch.specs.Packed.{Fields, Small, packed, fields, refusal_fields, verdict_fields, chain_fields, saving_fields};
ghost use Rattle.percentage.specs.Said.{saving};

use clock::{Refusal, Verdict};
use course::Classed;
use layout::Written;
use pupil::Marked;
use sheet::Contents;

fn fields(number: u8, x: usize, y: usize, z: usize) -> u64
    requires { (x < 256) × (y < 65536) × (z < 65536) }
    ensures { result ≡ packed (record { number = number; x = x; y = y; z = z }) }
{
    // `as`, since no From goes from usize to u64.
    u64::from(number) + 256 * (x as u64) + 65536 * (y as u64) + 4294967296 * (z as u64)
}

// What a call answers: a refusal, or its good case.
pub(crate) trait Answer {
    // Its fields.
    ghost told: { Self → Fields };

    fn packed(self) -> u64
        requires { Small (told self) }
        ensures { result ≡ packed (told self) };
}

impl<T: Answer> Answer for Result<T, Refusal> {
    ghost told = { λ r. fields T.told (said.told (λ x. x) r) };

    fn packed(self) -> u64 {
        match self {
            Ok(answer) => answer.packed(),
            Err(refusal) => refusal.packed(),
        }
    }
}

impl Answer for Refusal {
    ghost told = { λ r. refusal_fields (said.refusal r) };

    fn packed(self) -> u64 {
        fields(self.number, 0, self.position.0, 0)
    }
}

impl Answer for Contents {
    ghost told = { λ c. record { number = 0; x = c.terms.processes; y = c.size / 8; z = c.carried } };

    fn packed(self) -> u64 {
        fields(0, self.terms.processes, self.size / 8, self.carried)
    }
}

impl Answer for Classed {
    ghost told = { λ c. record { number = 0; x = 0; y = c.accepted; z = c.carried } };

    fn packed(self) -> u64 {
        fields(0, 0, self.accepted, self.carried)
    }
}

impl Answer for Written {
    ghost told = { λ w. record { number = 0; x = 0; y = w.events; z = w.bytes } };

    fn packed(self) -> u64 {
        fields(0, 0, self.events, self.bytes)
    }
}

impl Answer for Verdict {
    ghost told = { λ v. verdict_fields (said.number v) };

    fn packed(self) -> u64 {
        fields(0, self.number(), 0, 0)
    }
}

// The length of a chain.
impl Answer for usize {
    ghost told = { λ k. chain_fields k };

    fn packed(self) -> u64 {
        fields(0, 0, 0, self)
    }
}

impl Answer for Marked {
    ghost told = { λ m. record { number = 0; x = 0; y = m.total; z = m.lines } };

    fn packed(self) -> u64 {
        fields(0, 0, self.total, self.lines)
    }
}

// A saving, of which the percentage is stored elsewhere.
impl Answer for Option<f64> {
    ghost told = { λ s. saving_fields (saving s) };

    fn packed(self) -> u64 {
        match self {
            None => fields(0, 0, 0, 0),
            Some(_) => fields(0, 1, 0, 0),
        }
    }
}
