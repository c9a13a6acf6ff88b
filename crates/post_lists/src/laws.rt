//! Laws of the definitions, each the contract of a function that does nothing.

ghost use Rattle.post_lists.specs.Reading.{OnePlace};

/// Bytes are invalid at one place at most.
pub fn one_place()
    ensures { OnePlace }
{}
