use doc_model::Text;

/// A text value of a tree.
#[derive(Debug, Drop)]
pub struct StringNode {
    /// The name of the member whose value holds the text through arrays alone.
    pub property: Option<Text>,
    pub text: Text,
    /// How many words the text values before it have.
    pub first_position: u64,
}
