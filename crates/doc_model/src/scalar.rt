ghost use Rattle.std.specs.Prelude.{◌≡◌, IfOk};

use crate::{Dec, Text};
use sqlite_items::Items;
use std::alloc::{AllocError, Global};

/// A JSON value that is no array or object.
#[derive(Debug, Drop)]
pub enum Scalar {
    Null,
    Bool(bool),
    Num(Dec),
    Text(Text),
}

/// A list of scalars, in order.
pub type Scalars = Items<Scalar>;

impl Scalar {
    /// An equal value, in time and memory of its bytes.
    pub fn copy(&self, alloc: Global) -> Result<Scalar, AllocError>
        ensures { IfOk result (λ s. s ≡ self.now) }
    {
        match self {
            Scalar::Null => Ok(Scalar::Null),
            Scalar::Bool(b) => Ok(Scalar::Bool(*b)),
            Scalar::Num(n) => Ok(Scalar::Num(*n)),
            Scalar::Text(t) => Ok(Scalar::Text(t.copy(alloc)?)),
        }
    }
}

pub(crate) fn copy_scalars(alloc: Global, scalars: &Scalars) -> Result<Scalars, AllocError>
    ensures { IfOk result (λ s. s ≡ scalars.now) }
{
    let mut out = Items::new(alloc);
    for scalar in scalars.as_slice() {
        out.push(scalar.copy(alloc)?)?;
    }
    Ok(out)
}
