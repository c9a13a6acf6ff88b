ghost use Rattle.std.specs.Prelude.{◌≡◌, IfOk};
ghost use Rattle.doc_filter.specs.Scalars.{passes_plainly, passes_text};

use crate::comparing::{equals_some, is_in_some_range, text_is_in_some_range};
use crate::values::Values;
use doc_model::{Compare, Scalar, Scalars, Text};
use std::alloc::{AllocError, Global};

/// What a query asks of the scalars of a document.
#[derive(Debug, Drop)]
pub enum ScalarTest {
    /// It equals some value.
    Equal(Values),
    /// It compares so with some value: numbers by value and texts by their bytes.
    Range(Compare, Scalars),
}

impl ScalarTest {
    /// Whether a scalar passes that is no text. Of a text it looks only at its bytes.
    pub fn passes(&self, found: &Scalar) -> bool
        ensures { result ≡ passes_plainly self.now found.now }
    {
        match self {
            ScalarTest::Equal(values) => equals_some(found, values.scalars.as_slice()),
            ScalarTest::Range(op, wanted) => is_in_some_range(*op, found, wanted.as_slice()),
        }
    }

    /// Whether a text passes. Its words are cut only where words are compared, once in each form.
    pub fn passes_text(&self, alloc: Global, found: &Text) -> Result<bool, AllocError>
        ensures { IfOk result (λ b. b ≡ passes_text self.now found.now) }
    {
        match self {
            ScalarTest::Equal(values) => values.equal_text(alloc, found),
            ScalarTest::Range(op, wanted) => {
                Ok(text_is_in_some_range(*op, found, wanted.as_slice()))
            }
        }
    }
}
