ghost use Rattle.std.specs.Prelude.{◌≡◌, OnOk, OnErr};
ghost use Rattle.std.specs.FinMap as map;
ghost use Rattle.std.specs.Option.{option_copied};
ghost use Rattle.doc_meaning.specs.History.{after_op, after_ops, after_entry};
ghost use Rattle.doc_meaning.specs.declared.version.Version.{Version};

mod answers;

use doc_meaning::Version;
use doc_model::{Document, Entry, Op, Text};
use std::alloc::{AllocError, Global};
use std::collections::BTreeMap;
use std::marker::Model;

/// The live versions by URI, in the order of its bytes.
#[derive(Drop)]
pub struct Database {
    live: BTreeMap<Text, Version>,
}

impl Model for Database {
    ghost use Rattle.std.specs.Coded.{coded_ℕ, coded_list};
    ghost use Rattle.std.specs.FinMap as map;
    ghost use Rattle.doc_meaning.specs.History.{Database as Contents};
    ghost use Rattle.doc_meaning.specs.contracts.version.Version as version;

    ghost Value = { Contents };

    ghost coded = { map.code (coded_list coded_ℕ) version.the_row.coded };

    ghost view = { λ d. map.from_entries d.live.entries };
}

impl Database {
    pub fn new(alloc: Global) -> Database
        ensures { result ≡ map.empty }
    {
        Database {
            live: BTreeMap::new(alloc),
        }
    }

    /// The live version of a URI.
    pub fn get(&self, uri: &Text) -> Option<&Version>
        ensures { option_copied result ≡ map.get self.now uri.now }
    {
        self.live.get(uri)
    }

    /// Makes a document live, in place of the version that is.
    pub fn put(&mut self, alloc: Global, document: Document, created: u64) -> Result<(), AllocError>
        ensures ok { let version : Version = record { document = document; created = created } in
            OnOk result (self.new ≡ map.insert self.old document.uri version) }
        ensures err { OnErr result (self.new ≡ self.old) }
    {
        let uri = document.uri().copy(alloc)?;
        self.live.insert(uri, Version { document, created })?;
        Ok(())
    }

    fn remove(&mut self, uri: &Text)
        ensures { self.new ≡ map.remove self.old uri.now }
    {
        self.live.remove(uri);
    }

    fn apply(&mut self, alloc: Global, op: &Op, at: u64) -> Result<(), AllocError>
        ensures ok { OnOk result (self.new ≡ after_op at op.now self.old) }
        ensures err { OnErr result (self.new ≡ self.old) }
    {
        match op {
            Op::Put { document, .. } => self.put(alloc, document.copy(alloc)?, at),
            Op::Remove { uri, .. } => {
                self.remove(uri);
                Ok(())
            }
        }
    }

    fn apply_all(&mut self, alloc: Global, ops: &[Op], at: u64) -> Result<(), AllocError>
        ensures { OnOk result (self.new ≡ after_ops at ops.now self.old) }
    {
        for op in ops {
            self.apply(alloc, op, at)?;
        }
        Ok(())
    }

    /// Changes the database by the entry at a timestamp. After an error it holds some of the changes.
    pub(crate) fn apply_entry(
        &mut self,
        alloc: Global,
        entry: &Entry,
        at: u64,
    ) -> Result<(), AllocError>
        ensures { OnOk result (self.new ≡ after_entry at entry.now self.old) }
    {
        match entry {
            Entry::Commit(ops) => self.apply_all(alloc, ops.as_slice(), at),
            Entry::Forget(_) => Ok(()),
        }
    }
}
