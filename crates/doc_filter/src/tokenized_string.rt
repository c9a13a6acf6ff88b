use doc_model::{Text, Texts};

/// A text value of a tree, by its words.
#[derive(Debug, Drop)]
pub struct TokenizedString {
    /// The name of the member whose value holds the text through arrays alone.
    pub property: Option<Text>,
    /// How many words the text values before it have.
    pub first_position: u64,
    /// Its words in the form in which they are compared.
    pub words: Texts,
}
