ghost use Rattle.std.specs.Prelude.{◌≡◌};
ghost use Rattle.std.specs.Option.{SomeIff};
ghost use Rattle.doc_model.specs.Dec.{IsDecimal};

use std::marker::Model;

/// A decimal number with 18 places, kept exactly: it counts units of 10^-18, fewer than 10^38 of them.
///
/// Contracts see the count as an integer.
#[derive(Clone, Copy, Debug, PartialEq, Eq, PartialOrd, Ord)]
pub struct Dec {
    units: i128,
}

impl Model for Dec {
    ghost use Rattle.std.specs.Prelude.{ℤ};
    ghost use Rattle.doc_model.specs.Dec.{IsDecimal};

    ghost Value = { ℤ };

    ghost view = { λ d. d.units };

    ghost invariant = { λ d. IsDecimal d.units };

    ghost inverse = { λ n. record { units = n } };
}

const LIMIT: i128 = 100_000_000_000_000_000_000_000_000_000_000_000_000;

impl Dec {
    /// The number of so many units of 10^-18. `None` says that its magnitude is 10^38 units or more.
    pub fn of_units(units: i128) -> Option<Dec>
        ensures { SomeIff result (IsDecimal units) units }
    {
        if -LIMIT < units && units < LIMIT {
            Some(Dec { units })
        } else {
            None
        }
    }

    /// How many units of 10^-18 the number has.
    pub fn units(&self) -> i128
        ensures value { result ≡ self.now }
        ensures bounded { IsDecimal result }
    {
        self.units
    }
}
