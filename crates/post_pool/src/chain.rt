ghost use Rattle.std.specs.Prelude.{◌≡◌};

use std::marker::Model;

/// A chain of a pool. Contracts see its number: the first chain of a pool has number 0, each later one the next.
#[derive(Clone, Copy, Debug, PartialEq, Eq)]
pub struct Chain {
    number: u32,
}

impl Model for Chain {
    ghost use Rattle.std.specs.Prelude.{ℕ};

    ghost Value = { ℕ };

    ghost view = { λ c. c.number };

    ghost inverse = { λ n. record { number = n } };
}

impl Chain {
    pub(crate) fn of(number: u32) -> Chain
        ensures { result ≡ number }
    {
        Chain { number }
    }

    pub(crate) fn index(self) -> usize
        ensures { result ≡ self }
    {
        self.number as usize
    }
}
