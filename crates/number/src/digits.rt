// The digits of an argument.
ghost use Rattle.std.specs.Prelude.{◌≡◌, ◌-◌, ◌≤◌, ◌<◌, length};
ghost use Rattle.number.specs.Digits.{is_digit, all_digits, value_behind};

use octets::width::Narrow;

// 0 to 9.
fn is_digit(b: u8) -> bool
    ensures { result ≡ is_digit b }
{
    b.is_ascii_digit()
}

fn digit(b: u8) -> usize
    ensures { (result ≡ b - 48) × (result < 208) }
{
    b.saturating_sub(b'0').wide()
}

pub(crate) fn all_digits(s: &[u8]) -> bool
    ensures { result ≡ all_digits s.now }
{
    s.iter().all(|b| is_digit(*b))
}

pub(crate) fn value(s: &[u8]) -> usize
    requires { length s.now ≤ 5 }
    ensures { result ≡ value_behind 0 s.now }
{
    let mut v = 0;
    for b in s {
        v = v * 10 + digit(*b);
    }
    v
}
