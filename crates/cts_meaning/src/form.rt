/// The form of a query, which the name of its one member tells.
#[derive(Clone, Copy, Debug, PartialEq, Eq)]
pub enum QueryForm {
    True,
    False,
    And,
    Or,
    Not,
    AndNot,
    Word,
    PropWord,
    PropValue,
    Range,
    Near,
    Collection,
    DocUri,
    Directory,
}
