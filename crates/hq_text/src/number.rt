//! Numbers in words.

ghost use Rattle.std.specs.Prelude.{◌≡◌, ℕ, IfSome, IfNone};
ghost use Rattle.hq_text.specs.Numbers.{IsNumber, number_of, read_on};

/// The number of decimal digits, which may begin with zeros.
fn digits(word: &[u8]) -> Option<u64>
    ensures { result ≡ read_on 0 word.now }
{
    let mut number: u64 = 0;
    for digit in word {
        if *digit < b'0' || *digit > b'9' {
            return None;
        }
        number = number.checked_mul(10)?.checked_add((*digit - b'0') as u64)?;
    }
    Some(number)
}

/// The number that a word is.
#[tactic(auto, unfolding(crate::specs::Numbers::number_of))]
fn read_number(word: &[u8]) -> Option<u64>
    ensures { result ≡ number_of word.now }
{
    match word {
        [] => None,
        [b'0'] => Some(0),
        [b'0', ..] => None,
        _ => digits(word),
    }
}

/// The number that a word is: what the number prints.
pub fn number_of(word: &[u8]) -> Option<u64>
    ensures found { IfSome result (λ n. IsNumber word.now n) }
    ensures none { IfNone result ((n : ℕ) → IsNumber word.now n → ⊥) }
    ensures exact { result ≡ number_of word.now }
{
    read_number(word)
}
