//! What a reader sees at one moment.

ghost use Rattle.std.specs.FinMap as map;
ghost use Rattle.std.specs.Prelude.{◌≡◌, ◌≤◌, ◌<◌, ℕ, MatchResult};
ghost use Rattle.doc_engine.specs.EngineState.{Sees, SeesSince, view_of};
ghost use Rattle.doc_engine.specs.Reads.{ReturnsGet, ReturnsSearch, get_since, search_since};
ghost use Rattle.doc_meaning.specs.History.{History, front, latest};
ghost use Rattle.doc_meaning.specs.Replies.{get_reply, search_reply};

use crate::refusal::{SearchRefusal, TooOld};
use doc_meaning::Version;
use doc_model::{Query, Settings, Text, Texts, check_query};
use live_documents::LiveDocuments;
use std::alloc::Global;

/// The database at the front of one moment. It lends the engine, which doesn't change meanwhile.
#[derive(Clone, Copy)]
pub struct Snapshot<'a> {
    pub(crate) front: u64,
    pub(crate) merge: u64,
    pub(crate) settings: &'a Settings,
    pub(crate) documents: &'a LiveDocuments,
}

impl Snapshot<'_> {
    /// The timestamp of the last entry.
    pub fn stamp(&self) -> u64
        ensures { (merge : ℕ) (h : History) → SeesSince self.now merge h → result ≡ front h }
    {
        self.front
    }

    /// The timestamp below which nothing is read.
    pub fn merge_stamp(&self) -> u64
        ensures { (merge : ℕ) (h : History) → SeesSince self.now merge h → result ≡ merge }
    {
        self.merge
    }

    /// The number of live documents, in constant time.
    pub fn live(&self) -> u64
        ensures { (merge : ℕ) (h : History) → SeesSince self.now merge h → result ≡ map.len (latest h) }
    {
        self.documents.len() as u64
    }

    /// The live version of a URI, in time of the logarithm of the number of live documents.
    ///
    /// Where the merge timestamp is past the front there is nothing to read.
    pub fn get(&self, uri: &Text) -> Result<Option<&Version>, TooOld>
        ensures since { (merge : ℕ) (h : History) → SeesSince self.now merge h
            → ReturnsGet (get_since merge h uri.now) result }
        ensures reply { (h : History) → Sees self.now h → ReturnsGet (get_reply h (front h) uri.now) result }
    {
        self.check_front()?;
        Ok(self.documents.get(uri))
    }

    /// The URIs of the documents that satisfy a query, in the order of their bytes. It evaluates each document.
    ///
    /// A query that breaks a rule of `QueryBad` is refused first, then a front below the merge timestamp.
    pub fn search(&self, alloc: Global, query: &Query) -> Result<Texts, SearchRefusal>
        ensures since { (merge : ℕ) (h : History) → SeesSince self.now merge h
            → ReturnsSearch (search_since merge h query.now) result }
        ensures reply { (h : History) → Sees self.now h → ReturnsSearch (search_reply h (front h) query.now) result }
    {
        check_query(alloc, query, &self.settings.indexes)?;
        self.check_front()?;
        Ok(self.documents.answer(alloc, query)?)
    }

    // Whether the front isn't below the merge timestamp.
    fn check_front(&self) -> Result<(), TooOld>
        ensures { MatchResult result
            (λ _. (view_of self.now).merge ≤ (view_of self.now).front)
            (λ old. ((view_of self.now).front < (view_of self.now).merge)
            × (old ≡ record { asked = (view_of self.now).front; merge = (view_of self.now).merge })) }
    {
        if self.front < self.merge {
            return Err(TooOld {
                asked: self.front,
                merge: self.merge,
            });
        }
        Ok(())
    }
}
