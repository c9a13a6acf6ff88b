//! Laws of the definitions, each the contract of a function that does nothing.

ghost use Rattle.journal_bodies.specs.Laws.{EntriesAreRead, EntriesEndEarly, RootsAreRead, RootsEndEarly};

/// The bytes of an entry are decoded to it.
pub fn entries_are_read()
    ensures { EntriesAreRead }
{}

/// Bytes that end inside an entry are invalid.
pub fn entries_end_early()
    ensures { EntriesEndEarly }
{}

/// The bytes of a root are decoded to it.
pub fn roots_are_read()
    ensures { RootsAreRead }
{}

/// Bytes that end inside a root are invalid.
pub fn roots_end_early()
    ensures { RootsEndEarly }
{}
