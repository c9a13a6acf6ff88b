use crate::phrase::Phrase;
use crate::scalar_test::ScalarTest;
use doc_model::Texts;
use sqlite_items::{Boxed, Items};

/// A query whose texts are cut into words and folded.
#[derive(Debug, Drop)]
pub enum Condition {
    True,
    False,
    And(Items<Condition>),
    Or(Items<Condition>),
    Not(Boxed<Condition>),
    AndNot {
        positive: Boxed<Condition>,
        negative: Boxed<Condition>,
    },
    /// Some phrase occurs in a text value.
    Word {
        phrases: Items<Phrase>,
    },
    /// Some phrase occurs in a text value of one of the named properties.
    PropWord {
        names: Texts,
        phrases: Items<Phrase>,
    },
    /// Some scalar of one of the named properties passes.
    Scalars {
        names: Texts,
        test: ScalarTest,
    },
    Near {
        children: Items<Condition>,
        distance: u32,
        ordered: bool,
    },
    Collection(Texts),
    Directory {
        uris: Texts,
        infinite: bool,
    },
    DocUri(Texts),
}

/// The children of a condition, in order.
pub type Conditions = Items<Condition>;
