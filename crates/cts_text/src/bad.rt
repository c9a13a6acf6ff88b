ghost use Rattle.std.specs.Prelude.{◌≡◌};
ghost use Rattle.cts_text.specs.declared.bad.QueryTextBad.TheVariants.{Memory};

use json_text::JsonBad;
use std::alloc::AllocError;

/// Why bytes are no query that is read.
#[derive(Clone, Copy, Debug, PartialEq, Eq)]
pub enum QueryTextBad {
    /// They are no JSON text that is taken.
    Json(JsonBad),
    /// The first node of the tree that doesn't fit its place, by its number in preorder from 0. An object's members
    /// have their order; of members with one name there is one node.
    Shape { node: u64 },
    Memory,
}

impl From<AllocError> for QueryTextBad {
    ghost from_gives = { λ _ e. e ≡ Memory };

    fn from(_e: AllocError) -> QueryTextBad {
        QueryTextBad::Memory
    }
}

impl From<JsonBad> for QueryTextBad {
    ghost use Rattle.cts_text.specs.Bad.{of_json};

    ghost from_gives = { λ why e. e ≡ of_json why };

    fn from(why: JsonBad) -> QueryTextBad {
        match why {
            JsonBad::Memory => QueryTextBad::Memory,
            JsonBad::Syntax { .. }
            | JsonBad::Utf8 { .. }
            | JsonBad::Depth { .. }
            | JsonBad::Number { .. } => QueryTextBad::Json(why),
        }
    }
}
