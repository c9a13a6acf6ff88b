//! Laws of the replies of histories that show the same.
ghost use Rattle.doc_meaning.specs.ReplyLaws.{EntriesAreAlike, ReadsAreAlike};

/// Histories that show the same reply the same to every read, at every timestamp.
pub fn reads_are_alike()
    ensures { ReadsAreAlike }
{}

/// They reply the same to every forget, and to every commit if their merge timestamp isn't past their front.
pub fn entries_are_alike()
    ensures { EntriesAreAlike }
{}
