// What a program's argument says: a decimal number, or none.
#![tactic(auto)]

ghost use Rattle.std.specs.Prelude.{◌≡◌};
ghost use Rattle.number.specs.Digits.{number_of};

mod digits;

// A decimal number of 1 to 5 digits, or none.
pub fn parse(text: &[u8]) -> Option<usize>
    ensures { result ≡ number_of text.now }
{
    if text.is_empty() || 5 < text.len() || !digits::all_digits(text) {
        return None;
    }
    Some(digits::value(text))
}
