ghost use Rattle.std.specs.Prelude.{◌≡◌, ◌+◌, ◌*◌, ◌-◌, ◌<◌, ◌≤◌, ◌^◌, ℕ, Some, min, length, IsTrue};
ghost use Rattle.std.specs.List.{list_all};
ghost use Rattle.json_text.specs.Numbers.{is_digit, digits_value, digits_from, magnitude, worth};
ghost use Rattle.json_text.specs.Mantissas.{Denotes, scaled, shifted};

use doc_model::Dec;

const LIMIT: u128 = 100_000_000_000_000_000_000_000_000_000_000_000_000;

/// From here on an exponent is out of every reach, however many digits stand around it.
const FAR: u128 = 1_000_000_000_000_000_000_000_000;

/// Digits as a number that ends in no zero, and the zeros behind it.
#[derive(Clone, Copy)]
struct Mantissa {
    value: u128,
    zeros: u128,
    /// The number that ends in no zero is 10^38 or more, and isn't kept.
    over: bool,
}

const NOTHING: Mantissa = Mantissa {
    value: 0,
    zeros: 0,
    over: false,
};

/// The value with so many zeros behind it, where that is below 10^38.
fn scaled(value: u128, zeros: u128) -> Option<u128>
    ensures { result ≡ scaled value zeros }
{
    if value == 0 {
        return Some(0);
    }
    if zeros > 38 {
        return None;
    }
    let units = value.checked_mul(10u128.pow(zeros as u32))?;
    if units < LIMIT { Some(units) } else { None }
}

fn with_digit(mantissa: Mantissa, digit: u8) -> Mantissa
    requires digit { IsTrue (is_digit digit) }
    requires few { mantissa.zeros < 2 ^ 100 }
    ensures value { (n : ℕ) → Denotes mantissa.over mantissa.value mantissa.zeros n → Denotes result.over result.value result.zeros (n * 10 + (digit - 0x30)) }
    ensures zeros { result.zeros ≤ mantissa.zeros + 1 }
{
    let Mantissa { value, zeros, over } = mantissa;
    if digit == b'0' {
        return Mantissa {
            value,
            zeros: zeros + 1,
            over,
        };
    }
    match scaled(value, zeros + 1) {
        Some(tens) if !over => Mantissa {
            value: tens + u128::from(digit - b'0'),
            zeros: 0,
            over,
        },
        _ => Mantissa {
            value,
            zeros: 0,
            over: true,
        },
    }
}

fn with_digits(mantissa: Mantissa, digits: &[u8]) -> Mantissa
    requires digits { IsTrue (list_all is_digit digits.now) }
    requires few { mantissa.zeros < 2 ^ 64 }
    ensures value { (n : ℕ) → Denotes mantissa.over mantissa.value mantissa.zeros n → Denotes result.over result.value result.zeros (digits_from n digits.now) }
    ensures zeros { result.zeros ≤ mantissa.zeros + length digits.now }
{
    let mut mantissa = mantissa;
    for digit in digits {
        mantissa = with_digit(mantissa, *digit);
    }
    mantissa
}

/// An exponent, or where it is out of reach what is so too.
fn exponent_of(digits: &[u8]) -> u128
    requires { IsTrue (list_all is_digit digits.now) }
    ensures { result ≡ min (digits_value digits.now) (10 ^ 24) }
{
    let mut value = 0u128;
    for digit in digits {
        value = (value * 10 + u128::from(*digit - b'0')).min(FAR);
    }
    value
}

/// How many units a mantissa makes that is raised and lowered by so many places.
fn shifted(mantissa: Mantissa, raised: u128, lowered: u128) -> Option<u128>
    requires { mantissa.zeros + raised < 2 ^ 128 }
    ensures { result ≡ shifted mantissa.over mantissa.value mantissa.zeros raised lowered }
{
    let Mantissa { value, zeros, over } = mantissa;
    if over {
        return None;
    }
    if value == 0 {
        return Some(0);
    }
    let top = zeros + raised;
    if top < lowered {
        return None;
    }
    scaled(value, top - lowered)
}

fn magnitude(whole: &[u8], fraction: &[u8], down: bool, exponent: &[u8]) -> Option<u128>
    requires whole { IsTrue (list_all is_digit whole.now) }
    requires fraction { IsTrue (list_all is_digit fraction.now) }
    requires exponent { IsTrue (list_all is_digit exponent.now) }
    ensures { result ≡ magnitude whole.now fraction.now down exponent.now }
{
    let mantissa = with_digits(NOTHING, whole);
    let mantissa = with_digits(mantissa, fraction);
    let exponent = exponent_of(exponent);
    let places = fraction.len() as u128;
    if down {
        shifted(mantissa, 18, places + exponent)
    } else {
        shifted(mantissa, 18 + exponent, places)
    }
}

/// What a number is worth in units of 10^-18, where it is such a count below 10^38.
pub(crate) fn worth(
    minus: bool,
    whole: &[u8],
    fraction: &[u8],
    down: bool,
    exponent: &[u8],
) -> Option<Dec>
    requires whole { IsTrue (list_all is_digit whole.now) }
    requires fraction { IsTrue (list_all is_digit fraction.now) }
    requires exponent { IsTrue (list_all is_digit exponent.now) }
    ensures { result ≡ worth minus whole.now fraction.now down exponent.now }
{
    let units = magnitude(whole, fraction, down, exponent)? as i128;
    Dec::of_units(if minus { -units } else { units })
}
