ghost use Rattle.std.specs.Prelude.{◌≡◌, IfOk, OnErr, OnOk};
ghost use Rattle.std.specs.FinMap as map;
ghost use Rattle.std.specs.Option.{option_copied};
ghost use Rattle.doc_meaning.specs.Replies.{live_stamp};
ghost use Rattle.doc_meaning.specs.declared.version.Version.{Version};
ghost use Rattle.live_documents.specs.Staging.{before_put};

mod answers;
mod commits;
mod conflicts;
mod entries;

use crate::staged::Replaced;
use doc_meaning::Version;
use doc_model::{Document, Text};
use std::alloc::{AllocError, Global};
use std::collections::BTreeMap;
use std::marker::Model;

/// The live versions by URI, in the order of its bytes.
#[derive(Drop)]
pub struct LiveDocuments {
    versions: BTreeMap<Text, Version>,
}

impl Model for LiveDocuments {
    ghost use Rattle.std.specs.Coded.{coded_ℕ, coded_list};
    ghost use Rattle.std.specs.FinMap as map;
    ghost use Rattle.doc_meaning.specs.History.{Database as Contents};
    ghost use Rattle.doc_meaning.specs.contracts.version.Version as version;

    ghost Value = { Contents };

    ghost coded = { map.code (coded_list coded_ℕ) version.the_row.coded };

    ghost view = { λ d. map.from_entries d.versions.entries };
}

impl LiveDocuments {
    /// Nothing is live. It takes no memory.
    pub fn new(alloc: Global) -> LiveDocuments
        ensures { result ≡ map.empty }
    {
        LiveDocuments {
            versions: BTreeMap::new(alloc),
        }
    }

    /// The number of live documents, in constant time.
    pub fn len(&self) -> usize
        ensures { result ≡ map.len self.now }
    {
        self.versions.len()
    }

    /// The live version of a URI. Like all that looks a URI up it takes time in the logarithm of their number.
    pub fn get(&self, uri: &Text) -> Option<&Version>
        ensures { option_copied result ≡ map.get self.now uri.now }
    {
        self.versions.get(uri)
    }

    /// When the live version of a URI was created, 0 where there is none.
    pub fn stamp(&self, uri: &Text) -> u64
        ensures { result ≡ live_stamp self.now uri.now }
    {
        match self.get(uri) {
            Some(version) => version.created,
            None => 0,
        }
    }

    /// Makes a document live, in place of the version that is.
    fn put(&mut self, alloc: Global, document: Document, at: u64) -> Result<Replaced, AllocError>
        ensures after { let version : Version = record { document = document; created = at } in
            OnOk result (self.new ≡ map.insert self.old document.uri version) }
        ensures before { IfOk result (λ replaced. before_put replaced self.new ≡ self.old) }
        ensures err { OnErr result (self.new ≡ self.old) }
    {
        let uri = document.uri().copy(alloc)?;
        let key = uri.copy(alloc)?;
        let version = Version {
            document,
            created: at,
        };
        let old = self.versions.insert(key, version)?;
        Ok(Replaced { uri, old })
    }

    fn remove(&mut self, uri: &Text)
        ensures { self.new ≡ map.remove self.old uri.now }
    {
        self.versions.remove(uri);
    }
}
