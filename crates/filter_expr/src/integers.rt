//! Integers written as text.

ghost use Rattle.std.specs.Prelude.{◌≡◌, ◌≤◌, ◌^◌, pos, neg_ℤ, IfSome, IsNone};
ghost use Rattle.filter_expr.specs.Integers.{grown, integer, number, up_to};

/// The greatest and the least magnitude of an `i64`.
const POSITIVE_LIMIT: u64 = 9_223_372_036_854_775_807;

const NEGATIVE_LIMIT: u64 = 9_223_372_036_854_775_808;

/// The number that an integer text spells: an optional `-` and one or more digits, with a value in
/// the range of `i64`.
pub fn integer_of(text: &[u8]) -> Option<i64>
    ensures { result ≡ integer text.now }
{
    match text {
        [b'-', digits @ ..] => match number_up_to(digits, NEGATIVE_LIMIT) {
            Some(magnitude) => Some(negative(magnitude)),
            None => None,
        },
        digits => match number_up_to(digits, POSITIVE_LIMIT) {
            Some(magnitude) => Some(magnitude as i64),
            None => None,
        },
    }
}

// The negative number with a magnitude.
fn negative(magnitude: u64) -> i64
    requires { magnitude ≤ 2 ^ 63 }
    ensures { result ≡ neg_ℤ (pos magnitude) }
{
    if magnitude == NEGATIVE_LIMIT {
        i64::MIN
    } else {
        -(magnitude as i64)
    }
}

#[tactic(auto, using(crate::proofs::Digits::too_large))]
// The number that one or more digits spell, unless it is above a limit.
fn number_up_to(digits: &[u8], limit: u64) -> Option<u64>
    ensures { result ≡ up_to limit (number digits.now) }
{
    if digits.is_empty() {
        return None;
    }
    let mut value: u64 = 0;
    for digit in digits {
        if !digit.is_ascii_digit() {
            return None;
        }
        let Some(longer) = grown(value, *digit) else {
            return None;
        };
        value = longer;
    }
    if value > limit { None } else { Some(value) }
}

// A number with one more digit at its end, unless it is too large.
fn grown(value: u64, digit: u8) -> Option<u64>
    requires { 48 ≤ digit }
    ensures some { IfSome result (λ n. n ≡ grown value digit) }
    ensures none { IsNone result → 2 ^ 64 ≤ grown value digit }
{
    value.checked_mul(10)?.checked_add(u64::from(digit - b'0'))
}
