//! Whole numbers as distances, both ways.

ghost use Rattle.std.specs.Prelude.{◌≡◌};
ghost use Rattle.cts_meaning.specs.Shapes.{greatest_distance, whole, distance_units, whole_within};

use doc_model::{Dec, Node};

/// The distance where none is given.
pub(crate) const DEFAULT_DISTANCE: u32 = 10;

/// How many units of 10^-18 make 1.
const ONE: u128 = 1_000_000_000_000_000_000;

const MOST: u128 = 4_294_967_295;

/// The whole number that a number is, where a distance may be that great.
pub(crate) fn whole_distance(number: &Dec) -> Option<u32>
    ensures { result ≡ whole_within greatest_distance number.now }
{
    let units = number.units();
    if units < 0 {
        return None;
    }
    distance_units(units.unsigned_abs())
}

fn distance_units(units: u128) -> Option<u32>
    ensures { result ≡ distance_units greatest_distance units }
{
    let whole = units / ONE;
    if units % ONE == 0 && whole <= MOST {
        Some(whole as u32)
    } else {
        None
    }
}

pub(crate) fn whole_node(number: u32) -> Node
    ensures { result ≡ whole number }
{
    match Dec::of_units(i128::from(number) * ONE as i128) {
        Some(number) => Node::Num(number),
        None => unreachable!(),
    }
}
