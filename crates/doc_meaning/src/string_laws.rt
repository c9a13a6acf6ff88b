//! Laws of the strings of a tree and the positions of their words.
ghost use Rattle.doc_meaning.specs.StringLaws.{FewerWordsThanSize, FirstPositionsRise};

/// The strings of a tree have fewer words than its size.
pub fn fewer_words_than_size()
    ensures { FewerWordsThanSize }
{}

/// The positions of a string are below the first position of each later one.
pub fn first_positions_rise()
    ensures { FirstPositionsRise }
{}
