/// The lines of a form: a text, perhaps a word or a timestamp and a space behind it, and what is last.
#[derive(Clone, Copy)]
pub(crate) struct Row<'a> {
    pub(crate) head: &'a [u8],
    pub(crate) middle: Option<WordKind>,
    pub(crate) last: Last,
}

/// Bytes without a space.
#[derive(Clone, Copy)]
pub(crate) enum WordKind {
    /// One byte or more.
    Word,
    /// The digits of a timestamp.
    Timestamp,
}

/// What ends a line.
#[derive(Clone, Copy)]
pub(crate) enum Last {
    Nothing,
    Whole(WordKind),
    /// Any bytes.
    Rest,
}
