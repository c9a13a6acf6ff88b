ghost use Rattle.std.specs.Prelude.{◌≡◌, ◌≤◌, length, IfErr, IfOk, Ok};
ghost use Rattle.doc_model.specs.Documents.{PlainDocument};
ghost use Rattle.doc_model.specs.Documents as model;
ghost use Rattle.byte_formats.specs.Answers.{Gives};
ghost use Rattle.docs_format.specs.Answers.{Decodes, IsPlaced};
ghost use Rattle.byte_formats.specs.Format.{left_of};
ghost use Rattle.docs_format.specs.Reading.{document_at, document_of, place_of, sized_document_at, whole_of};
ghost use Rattle.docs_format.specs.Spelling.{Spells};

use crate::collections::collections_at;
use crate::fault::DocBytesBad;
use crate::nodes::node_at;
use crate::reader::Reader;
use byte_formats::{DecodeError, FieldError};
use doc_model::{DocRefusal, Document, MAX_DOCUMENT_DEPTH, Node, Text, Texts};
use std::alloc::Global;

/// Decodes a document that takes all of the bytes.
///
/// Takes time n log n. Copies each text once, and allocates in proportion to the bytes that are there, not to the
/// counts that they claim.
pub fn decode(alloc: Global, bytes: &[u8]) -> Result<Document, DocBytesBad>
    ensures found { IfOk result (λ d. Spells bytes.now d) }
    ensures only { (d : PlainDocument) → Spells bytes.now d → Decodes result (Ok d) }
    ensures exact { Decodes result (document_of bytes.now) }
    ensures within { IfErr result (IsPlaced (length bytes.now)) }
{
    placed(alloc, bytes)
}

/// Decodes a document, or returns the place of the first invalid field.
#[tactic(auto, using(crate::proofs::Places::left_within))]
fn placed(alloc: Global, bytes: &[u8]) -> Result<Document, DocBytesBad>
    ensures { Decodes result (document_of bytes.now) }
{
    match whole_of(alloc, bytes) {
        Ok(document) => Ok(document),
        Err(DecodeError::Memory) => Err(DocBytesBad::Memory),
        Err(DecodeError::Bad(fault)) => Err(DocBytesBad::Bad {
            place: place_of(bytes.len(), fault),
        }),
    }
}

/// The place of an error in `len` bytes: `len` if they end early.
fn place_of(len: usize, fault: FieldError) -> u64
    requires { left_of fault ≤ len }
    ensures { result ≡ place_of len fault }
{
    match fault {
        FieldError::Truncated(_) => len as u64,
        FieldError::Invalid(left) => (len - left) as u64,
    }
}

/// Reads the next document. A document whose size is over 16,777,216 is invalid at its first byte.
///
/// Costs what `decode` does, and reads nothing past the document.
#[tactic(auto, unfolding(crate::specs::Reading::sized_document_at))]
pub fn document(alloc: Global, reader: &mut Reader) -> Result<Document, DecodeError>
    ensures { Gives (λ d. (d, reader.new)) result (sized_document_at reader.old) }
{
    let left = reader.left();
    reader.are_bytes();
    let parts = parts_at(alloc, reader)?;
    match Document::new(alloc, parts.uri, parts.collections, parts.root) {
        Ok(document) => Ok(document),
        Err(DocRefusal::Memory) => Err(DecodeError::Memory),
        Err(_) => Err(DecodeError::Bad(FieldError::Invalid(left))),
    }
}

/// The fields of a document.
#[derive(Drop)]
struct Parts {
    uri: Text,
    collections: Texts,
    root: Node,
}

#[tactic(auto, unfolding(crate::specs::Reading::document_at))]
fn parts_at(alloc: Global, reader: &mut Reader) -> Result<Parts, DecodeError>
    ensures { Gives (λ p. (model.document_of p.uri p.collections p.root, reader.new)) result (document_at reader.old) }
{
    let uri = Text::from_str(alloc, reader.uri()?)?;
    let collections = collections_at(alloc, reader)?;
    let root = node_at(alloc, MAX_DOCUMENT_DEPTH, reader)?;
    Ok(Parts {
        uri,
        collections,
        root,
    })
}

#[tactic(auto, unfolding(crate::specs::Reading::whole_of))]
fn whole_of(alloc: Global, bytes: &[u8]) -> Result<Document, DecodeError>
    ensures { Gives (λ d. d) result (whole_of bytes.now) }
{
    let mut reader = Reader::new(bytes);
    let parts = parts_at(alloc, &mut reader)?;
    if reader.left() > 0 {
        return Err(DecodeError::Bad(FieldError::Invalid(reader.left())));
    }
    match Document::new(alloc, parts.uri, parts.collections, parts.root) {
        Ok(document) => Ok(document),
        Err(DocRefusal::Memory) => Err(DecodeError::Memory),
        Err(_) => Err(DecodeError::Bad(FieldError::Invalid(bytes.len()))),
    }
}
