/// What the bytes of a reader begin with.
#[derive(Clone, Copy, Debug, PartialEq, Eq)]
pub enum Find {
    /// A line of so many bytes, and its line feed.
    Line(usize),
    /// A last line of so many bytes, without a line feed.
    Last(usize),
    /// Nothing, and nothing comes.
    End,
    /// More bytes than a line has.
    Long,
    /// No whole line, and more bytes may come.
    More,
}
