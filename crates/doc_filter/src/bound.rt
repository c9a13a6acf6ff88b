ghost use Rattle.std.specs.Prelude.{◌≡◌, nat_lt};
ghost use Rattle.doc_filter.specs.Windows.{floor, floor_behind};

/// From where on a start is sought.
#[derive(Clone, Copy, Debug)]
pub enum Bound {
    From(u64),
    Above(u64),
}

impl Bound {
    /// Whether a number is too small.
    pub fn excludes(self, n: u64) -> bool
        ensures { result ≡ nat_lt n (floor self) }
    {
        match self {
            Bound::From(low) => n < low,
            Bound::Above(low) => n <= low,
        }
    }

    /// The bound of what follows a chosen number.
    pub fn behind(self, ordered: bool, chosen: u64) -> Bound
        ensures { floor result ≡ floor_behind ordered (floor self) chosen }
    {
        if ordered { Bound::Above(chosen) } else { self }
    }
}
