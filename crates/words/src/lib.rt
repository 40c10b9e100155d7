// Numbers in the words that a program is started with.
#![tactic(auto)]

ghost use Rattle.std.specs.Prelude.{◌≡◌};
ghost use Rattle.words.specs.Decimal.{number_in};

// A number is less than ten times this: it fits, and so do sums of some.
const TENTH: usize = 100000000000000000;

// The number below 10 ^ 18 that decimal digits stand for; nothing else is one.
#[tactic(auto, using(crate::proofs::Digits::digits))]
pub fn decimal(text: &[u8]) -> Option<usize>
    ensures { result ≡ number_in text.now }
{
    if text.is_empty() {
        return None;
    }
    let mut value: usize = 0;
    for digit in text {
        match *digit {
            d @ b'0'..=b'9' if value < TENTH => value = 10 * value + usize::from(d - b'0'),
            _ => return None,
        }
    }
    Some(value)
}
