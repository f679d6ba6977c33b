// Numbers of 1 to 4 digits.
ghost use Rattle.std.specs.Prelude.{◌≡◌, ℕ, ◌<◌, ◌≤◌, List, ◌∷◌, ◌++◌, length, IfSome, Some, decimal, Decides, MatchOption, ◌≢◌, slice_index};
ghost use Rattle.fields.specs.Numbers.{Spells};

use crate::cuts::cut_at;

// The most digits of a number.
const MOST_DIGITS: usize = 4;

// Whether a needless 0 stands in front.
fn is_padded(field: &[u8]) -> bool
    ensures { Decides result ((1 < length field.now) × (slice_index field.now 0 ≡ 48)) }
{
    matches!(field, [b'0', _, ..])
}

// The number that a field spells, or nothing where it spells none. It reads back what is written of each number up to 9,999.
#[tactic(auto, using(crate::proofs::Numerals::front_small))]
pub fn read_number(field: &[u8]) -> Option<u16>
    ensures value { MatchOption result ((n : ℕ) → Spells field.now n → ⊥) (λ n. Spells field.now n) }
    ensures inverse { (n : ℕ) → n ≤ 9999 → (result ≡ Some n → field.now ≡ decimal n) × (field.now ≡ decimal n → result ≡ Some n) }
    ensures bound { IfSome result (λ n. n ≤ 9999) }
{
    if field.is_empty() || field.len() > MOST_DIGITS || is_padded(field) {
        return None;
    }
    let mut number = 0u16;
    for digit in field {
        if !digit.is_ascii_digit() {
            return None;
        }
        number = number * 10 + u16::from(*digit - b'0');
    }
    Some(number)
}

// The number before the first comma and what stands after that comma, or nothing where there is no comma or no number before it.
pub fn leading_number(fields: &[u8]) -> Option<(u16, &[u8])>
    ensures { MatchOption result ((n : ℕ) (rest : List ℕ) → n ≤ 9999 → fields.now ≢ decimal n ++ 44 ∷ rest) (λ parts. (parts.0 ≤ 9999) × (fields.now ≡ decimal parts.0 ++ 44 ∷ parts.1.now)) }
{
    let (field, rest) = cut_at(fields, b',')?;
    let number = read_number(field)?;
    Some((number, rest))
}
