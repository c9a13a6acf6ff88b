ghost use Rattle.std.specs.Prelude.{◌≡◌, ◌<◌, ◌≤◌, ◌^◌, ◌++◌, OnOk, IsTrue, string_bytes};
ghost use Rattle.json_text.specs.Canonical.{places_text, point_text, magnitude_text, units_text, is_decimal};

use crate::quoting::put_ascii;
use doc_model::Dec;
use itoa::Buffer;
use std::alloc::AllocError;

/// How many units of 10^-18 make 1.
const ONE: u128 = 1_000_000_000_000_000_000;

/// Appends the places of a fraction up to the last that isn't 0.
fn put_places(out: &mut String, places: u32, unit: u64, rest: u64) -> Result<(), AllocError>
    requires scale { unit ≡ 10 ^ places }
    requires below { rest < unit }
    ensures { OnOk result (string_bytes out.new ≡ string_bytes out.old ++ places_text places rest) }
{
    if rest == 0 {
        return Ok(());
    }
    let unit = unit / 10;
    put_ascii(out, b'0' + (rest / unit) as u8)?;
    put_places(out, places - 1, unit, rest % unit)
}

/// Appends a point and a fraction, unless it is 0.
fn put_point(out: &mut String, rest: u64) -> Result<(), AllocError>
    requires { rest < 10 ^ 18 }
    ensures { OnOk result (string_bytes out.new ≡ string_bytes out.old ++ point_text rest) }
{
    if rest == 0 {
        return Ok(());
    }
    put_ascii(out, b'.')?;
    put_places(out, 18, ONE as u64, rest)
}

fn put_magnitude(out: &mut String, units: u128) -> Result<(), AllocError>
    ensures { OnOk result (string_bytes out.new ≡ string_bytes out.old ++ magnitude_text units) }
{
    let mut whole = Buffer::new();
    out.push_str(whole.format(units / ONE))?;
    put_point(out, (units % ONE) as u64)
}

/// Appends a number.
pub(crate) fn put_number(out: &mut String, number: &Dec) -> Result<(), AllocError>
    ensures written { OnOk result (string_bytes out.new ≡ string_bytes out.old ++ units_text number.now) }
    ensures decimal { IsTrue (is_decimal number.now) }
{
    let units = number.units();
    if units < 0 {
        put_ascii(out, b'-')?;
    }
    put_magnitude(out, units.unsigned_abs())
}
