ghost use Rattle.std.specs.Prelude.{◌≡◌, IfOk, IsTrue};
ghost use Rattle.std.specs.List.{list_all};
ghost use Rattle.json_text.specs.Numbers.{is_digit};
ghost use Rattle.json_text.specs.Reading.{Tells, digits_at, int_at, fraction_at, sign_of, exponent_at, minus_of, scalar_at};
ghost use Rattle.json_text.specs.declared.lead.Lead.TheVariants as lead;

use crate::fault::Fault;
use crate::scan::{digits_len, unexpected};
use crate::worth::worth;
use doc_model::Node;

#[tactic(auto, unfolding(crate::specs::Reading::digits_at))]
fn digits(bytes: &[u8]) -> Result<(&[u8], &[u8]), Fault>
    ensures value { Tells (λ x. (x.0.now, x.1.now)) result (digits_at bytes.now) }
    ensures digits { IfOk result (λ x. IsTrue (list_all is_digit x.0.now)) }
{
    let n = digits_len(bytes);
    if n == 0 {
        return Err(unexpected(bytes));
    }
    Ok(bytes.split_at(n))
}

#[tactic(auto, unfolding(crate::specs::Reading::int_at))]
fn int(bytes: &[u8]) -> Result<(&[u8], &[u8]), Fault>
    ensures value { Tells (λ x. (x.0.now, x.1.now)) result (int_at bytes.now) }
    ensures digits { IfOk result (λ x. IsTrue (list_all is_digit x.0.now)) }
{
    match bytes {
        [b'0', ..] => Ok(bytes.split_at(1)),
        _ => digits(bytes),
    }
}

#[tactic(auto, unfolding(crate::specs::Reading::fraction_at))]
fn fraction(bytes: &[u8]) -> Result<(&[u8], &[u8]), Fault>
    ensures value { Tells (λ x. (x.0.now, x.1.now)) result (fraction_at bytes.now) }
    ensures digits { IfOk result (λ x. IsTrue (list_all is_digit x.0.now)) }
{
    match bytes {
        [b'.', rest @ ..] => digits(rest),
        _ => Ok((&[], bytes)),
    }
}

fn sign(bytes: &[u8]) -> (bool, &[u8])
    ensures { (result.0, result.1.now) ≡ sign_of bytes.now }
{
    match bytes {
        [b'-', rest @ ..] => (true, rest),
        [b'+', rest @ ..] => (false, rest),
        _ => (false, bytes),
    }
}

/// Whether an exponent is below 0, and its digits: none where there is no exponent.
#[tactic(auto, unfolding(crate::specs::Reading::exponent_at))]
fn exponent(bytes: &[u8]) -> Result<((bool, &[u8]), &[u8]), Fault>
    ensures value { Tells (λ x. ((x.0.0, x.0.1.now), x.1.now)) result (exponent_at bytes.now) }
    ensures digits { IfOk result (λ x. IsTrue (list_all is_digit x.0.1.now)) }
{
    match bytes {
        [b'e' | b'E', rest @ ..] => {
            let (down, rest) = sign(rest);
            let (digits, rest) = digits(rest)?;
            Ok(((down, digits), rest))
        }
        _ => Ok(((false, &[]), bytes)),
    }
}

fn minus(bytes: &[u8]) -> (bool, &[u8])
    ensures { (result.0, result.1.now) ≡ minus_of bytes.now }
{
    match bytes {
        [b'-', rest @ ..] => (true, rest),
        _ => (false, bytes),
    }
}

/// A number, of any length.
#[tactic(auto, unfolding(crate::specs::Reading::number_at, crate::specs::Reading::scalar_at))]
pub(crate) fn number(bytes: &[u8]) -> Result<(Node, &[u8]), Fault>
    ensures { Tells (λ x. (x.0, x.1.now)) result (scalar_at lead.Number bytes.now) }
{
    let (minus, rest) = minus(bytes);
    let (whole, rest) = int(rest)?;
    let (fraction, rest) = fraction(rest)?;
    let ((down, exponent), rest) = exponent(rest)?;
    match worth(minus, whole, fraction, down, exponent) {
        Some(number) => Ok((Node::Num(number), rest)),
        None => Err(Fault::Number(bytes.len())),
    }
}
