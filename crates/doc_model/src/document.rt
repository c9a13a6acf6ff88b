ghost use Rattle.std.specs.Prelude.{◌≡◌, IfOk, OnOk, IfErr};
ghost use Rattle.doc_model.specs.Documents.{IsDocument, IsRefused, document_of, document_size};
ghost use Rattle.doc_model.specs.Tree.{Leaves};

use crate::depth::is_within;
use crate::limits::{MAX_DOCUMENT_DEPTH, MAX_SIZE};
use crate::names::has_distinct_names;
use crate::size::{charge, charge_texts};
use crate::uri::{is_collections, is_uri};
use crate::{DocRefusal, Node, Text, Texts};
use std::alloc::{AllocError, Global};
use std::marker::Model;

/// A document: a JSON tree under a URI, in some collections. It keeps the rules that `DocRefusal` names.
#[derive(Debug, Drop)]
pub struct Document {
    uri: Text,
    collections: Texts,
    root: Node,
    size: u64,
}

impl Model for Document {
    ghost use Rattle.doc_model.specs.Documents.{PlainDocument, document_code, document_of, IsSized};

    ghost Value = { PlainDocument };

    ghost coded = { document_code };

    ghost view = { λ d. document_of d.uri d.collections d.root };

    ghost invariant = { λ d. IsSized (document_of d.uri d.collections d.root) d.size };
}

impl Document {
    /// A document of these parts, which are refused at the first rule that they break. It sorts nothing.
    ///
    /// It looks no deeper than 128 arrays and objects. It takes time n log n in the size of the tree, and memory
    /// for the names of one object at a time.
    pub fn new(
        alloc: Global,
        uri: Text,
        collections: Texts,
        root: Node,
    ) -> Result<Document, DocRefusal>
        ensures kept { IfOk result (λ d. d ≡ document_of uri collections root) }
        ensures rules { OnOk result (IsDocument (document_of uri collections root)) }
        ensures refused { IfErr result (IsRefused (document_of uri collections root)) }
    {
        if !is_uri(uri.as_str()) {
            return Err(DocRefusal::Uri);
        }
        if !is_collections(collections.as_slice()) {
            return Err(DocRefusal::Collections);
        }
        if !is_within(&root, MAX_DOCUMENT_DEPTH) {
            return Err(DocRefusal::Depth);
        }
        let Ok(distinct) = has_distinct_names(alloc, &root) else {
            return Err(DocRefusal::Memory);
        };
        if !distinct {
            return Err(DocRefusal::Names);
        }
        match charge_document(&uri, &collections, &root) {
            Some(left) => Ok(Document {
                uri,
                collections,
                root,
                size: MAX_SIZE - left,
            }),
            None => Err(DocRefusal::Size),
        }
    }

    /// The URI, of 1 to 1,024 bytes.
    pub fn uri(&self) -> &Text
        ensures { result.now ≡ self.now.uri }
    {
        &self.uri
    }

    /// The names of the collections, rising by their bytes.
    pub fn collections(&self) -> &Texts
        ensures { result.now ≡ self.now.collections }
    {
        &self.collections
    }

    /// The JSON tree.
    pub fn root(&self) -> &Node
        ensures value { result.now ≡ self.now.root }
        ensures rules { IsDocument self.now }
    {
        &self.root
    }

    /// The number of nodes, and the bytes of all texts, names, the URI and the collections, in constant time.
    pub fn size(&self) -> u64
        ensures { result ≡ document_size self.now }
    {
        self.size
    }

    /// An equal document, in time and memory of its size.
    pub fn copy(&self, alloc: Global) -> Result<Document, AllocError>
        ensures { IfOk result (λ d. d ≡ self.now) }
    {
        Ok(Document {
            uri: self.uri.copy(alloc)?,
            collections: self.collections.copy(alloc)?,
            root: self.root.copy(alloc)?,
            size: self.size,
        })
    }
}

/// What is left of the greatest size. `None` says that the parts are larger.
fn charge_document(uri: &Text, collections: &Texts, root: &Node) -> Option<u64>
    ensures { Leaves MAX_SIZE (document_size (document_of uri.now collections.now root.now)) result }
{
    let left = MAX_SIZE.checked_sub(uri.as_str().len() as u64)?;
    let left = charge_texts(collections.as_slice(), left)?;
    charge(root, left)
}
