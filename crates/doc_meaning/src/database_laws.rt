//! Laws of the database at one timestamp and the next.
ghost use Rattle.doc_meaning.specs.DatabaseLaws.{ForgetsChangeNothing, NextIsChanged};

/// The database at the timestamp of an entry is the one before it, changed by that entry.
pub fn next_is_changed()
    ensures { NextIsChanged }
{}

/// A forget changes no database.
pub fn forgets_change_nothing()
    ensures { ForgetsChangeNothing }
{}
