//! Numbers in a script.

ghost use Rattle.std.specs.Prelude.{◌≡◌, ◌≤◌, IfSome};
ghost use Rattle.bd_script.specs.Numbers.{number_of, with_digit};

// The longest spelling of a number.
const MOST_DIGITS: usize = 20;

// The number with one more decimal digit, if 64 bits are enough for it.
fn with_digit(number: u64, byte: u8) -> Option<u64>
    ensures { result ≡ with_digit number byte }
{
    if byte < b'0' || byte > b'9' {
        return None;
    }
    number.checked_mul(10)?.checked_add((byte - b'0') as u64)
}

#[tactic(auto, unfolding(crate::specs::Numbers::number_of))]
/// The number that 1 to 20 decimal digits spell, if it is at most `most`.
pub fn number(word: &[u8], most: u64) -> Option<u64>
    ensures exact { result ≡ number_of most word.now }
    ensures within { IfSome result (λ n. n ≤ most) }
{
    if word.is_empty() || word.len() > MOST_DIGITS {
        return None;
    }
    let mut value = 0u64;
    for byte in word {
        value = with_digit(value, *byte)?;
    }
    if value > most { None } else { Some(value) }
}
