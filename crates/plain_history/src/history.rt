ghost use Rattle.std.specs.Prelude.{◌≡◌, ◌++◌, ◌∷◌, [], IfOk, OnOk, OnErr, take};
ghost use Rattle.std.specs.FinMap as map;
ghost use Rattle.doc_meaning.specs.History.{front, merge, database_at, merge_after, after_entries};
ghost use Rattle.plain_history.specs.Histories.{history_of};

use crate::Database;
use doc_meaning::LookReply;
use doc_model::{Entry, Settings};
use sqlite_items::Items;
use std::alloc::{AllocError, Global};

/// A history that begins with nothing.
#[derive(Debug, Drop)]
pub struct History {
    pub settings: Settings,
    pub entries: Items<Entry>,
}

impl History {
    ghost use Rattle.doc_meaning.specs.Replies.{look_reply};

    pub fn new(alloc: Global, settings: Settings) -> History
        ensures settings { result.settings ≡ settings }
        ensures entries { result.entries ≡ [] }
    {
        History {
            settings,
            entries: Items::new(alloc),
        }
    }

    /// Enters an entry at the next timestamp.
    pub fn push(&mut self, entry: Entry) -> Result<(), AllocError>
        ensures settings { self.new.settings ≡ self.old.settings }
        ensures ok { OnOk result (self.new.entries ≡ self.old.entries ++ entry ∷ []) }
        ensures err { OnErr result (self.new.entries ≡ self.old.entries) }
    {
        self.entries.push(entry)
    }

    pub fn front(&self) -> u64
        ensures { result ≡ front (history_of self.now) }
    {
        self.entries.len() as u64
    }

    pub fn merge(&self) -> u64
        ensures { result ≡ merge (history_of self.now) }
    {
        merge_after(self.entries.as_slice())
    }

    /// The front and the merge timestamp.
    pub fn look(&self) -> LookReply
        ensures { result ≡ look_reply (history_of self.now) }
    {
        LookReply {
            front: self.front(),
            merge: self.merge(),
        }
    }

    /// The database at a timestamp up to the front.
    pub fn database_at(&self, alloc: Global, at: u64) -> Result<Database, AllocError>
        ensures { IfOk result (λ db. db ≡ database_at (history_of self.now) at) }
    {
        database_after(alloc, first_of(self.entries.as_slice(), at))
    }
}

fn merge_after(entries: &[Entry]) -> u64
    ensures { result ≡ merge_after 0 entries.now }
{
    let mut merge = 0;
    for entry in entries {
        if let Entry::Forget(at) = entry {
            merge = *at;
        }
    }
    merge
}

/// The first entries, so many of them.
fn first_of(entries: &[Entry], count: u64) -> &[Entry]
    ensures { result.now ≡ take count entries.now }
{
    if count < entries.len() as u64 {
        &entries[..count as usize]
    } else {
        entries
    }
}

fn database_after(alloc: Global, entries: &[Entry]) -> Result<Database, AllocError>
    ensures { IfOk result (λ db. db ≡ after_entries 0 entries.now map.empty) }
{
    let mut database = Database::new(alloc);
    for (i, entry) in entries.iter().enumerate() {
        database.apply_entry(alloc, entry, i as u64 + 1)?;
    }
    Ok(database)
}
