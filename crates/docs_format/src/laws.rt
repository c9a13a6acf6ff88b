//! Laws of the definitions, each the contract of a function that does nothing.

ghost use Rattle.std.specs.Prelude.{◌≡◌, ℕ, true};
ghost use Rattle.doc_model.specs.Documents.{PlainDocument};
ghost use Rattle.docs_format.specs.Spelling as spell;
ghost use Rattle.byte_formats.specs.Whole.{DecodesWell};
ghost use Rattle.docs_format.specs.DocumentFormat.{document};
ghost use Rattle.docs_format.specs.NodeFormat.{node};
ghost use Rattle.docs_format.specs.Laws.{BeginningsEndEarly, DocumentsAreReadAgain, FaultsStay, MoreIsTooMany};
ghost use Rattle.docs_format.specs.Laws.{WhatIsReadIsSpelled};

/// Bytes that end inside a document are invalid at their length.
pub fn beginnings_end_early()
    ensures { BeginningsEndEarly }
{}

/// Bytes that go on after a document are invalid at the first byte too many.
pub fn more_is_too_many()
    ensures { MoreIsTooMany }
{}

/// Appending bytes doesn't move the place of an error between the first byte and the end. It may move one at the first
/// byte: a document that is too large and has bytes after it is invalid where they begin.
pub fn faults_stay()
    ensures { FaultsStay }
{}

/// Reading a document leaves the bytes after it.
pub fn documents_are_read_again()
    ensures { DocumentsAreReadAgain }
{}

/// Bytes from which a document was read are its spelling and the bytes that are left.
pub fn what_is_read_is_spelled()
    ensures { WhatIsReadIsSpelled }
{}

/// Decoding by the format of nodes is exact, at each depth.
pub fn nodes_decode_well()
    ensures { (depth : ℕ) → DecodesWell (node depth) }
{}

/// Decoding by the format of documents is exact.
pub fn documents_decode_well()
    ensures { DecodesWell document }
{}

/// The format spells a document as its definition says.
pub fn documents_are_spelled_so()
    ensures { (d : PlainDocument) → document.fits d ≡ true → document.spell d ≡ spell.document d }
{}
