ghost use Rattle.std.specs.Prelude.{◌≡◌, []};

use doc_meaning::Version;
use doc_model::Text;
use std::alloc::Global;

/// What a commit has changed so far, and what is left to do. It is settled or taken back, and can't be let go.
#[derive(Debug)]
pub struct Staged {
    /// What its puts replaced, in their order.
    pub(crate) replaced: Vec<Replaced>,
    /// The URIs that are still to be removed, in their order.
    pub(crate) removals: Vec<Text>,
}

/// The version that a put replaced.
#[derive(Debug, Drop)]
pub struct Replaced {
    pub(crate) uri: Text,
    /// None where the URI had no live version.
    pub(crate) old: Option<Version>,
}

impl Staged {
    /// Nothing is changed, and nothing is left to do.
    pub(crate) fn nothing(alloc: Global) -> Staged
        ensures replaced { result.replaced.items ≡ [] }
        ensures removals { result.removals.items ≡ [] }
    {
        Staged {
            replaced: Vec::new(alloc),
            removals: Vec::new(alloc),
        }
    }
}
