ghost use Rattle.std.specs.Prelude.{◌≡◌, ◌++◌, IfOk, OnOk, OnErr, IsTrue, map, not};
ghost use Rattle.std.specs.FinMap.{insert};
ghost use Rattle.doc_model.specs.Operations.{uri_of};
ghost use Rattle.doc_model.specs.Tree.{is_among, is_distinct};
ghost use Rattle.doc_meaning.specs.History.{after_op, after_ops};
ghost use Rattle.doc_meaning.specs.declared.version.Version.{Version};
ghost use Rattle.live_documents.specs.Staging.{before_put, before_puts, removed_by, restored, settled, undone};

use crate::staged::Replaced;
use crate::{LiveDocuments, Staged};
use doc_meaning::Version;
use doc_model::{Document, Op, Ops, Text};
use std::alloc::{AllocError, Global};
use std::mem;

impl LiveDocuments {
    /// Takes all the memory that a commit needs: its documents are moved in, what they replace is kept, and
    /// removals are noted. Each operation takes time in the logarithm of the number of documents.
    pub fn stage(&mut self, alloc: Global, ops: Ops, at: u64) -> Result<Staged, AllocError>
        requires { IsTrue (is_distinct (map uri_of ops)) }
        ensures after { IfOk result (λ staged. settled staged self.new ≡ after_ops at ops self.old) }
        ensures before { IfOk result (λ staged. undone staged self.new ≡ self.old) }
        ensures err { OnErr result (self.new ≡ self.old) }
    {
        let mut staged = Staged::nothing(alloc);
        match self.stage_all(alloc, ops.into_vec(), at, &mut staged) {
            Ok(()) => Ok(staged),
            Err(err) => {
                self.take_back(staged);
                Err(err)
            }
        }
    }

    /// Does what is left of a commit that was staged. It takes no memory.
    pub fn settle(&mut self, staged: Staged)
        ensures { self.new ≡ settled staged self.old }
    {
        let Staged {
            replaced: _,
            removals,
        } = staged;
        for uri in &removals {
            self.remove(uri);
        }
    }

    /// Undoes what a commit that was staged has changed. It takes no memory.
    pub fn take_back(&mut self, staged: Staged)
        ensures { self.new ≡ undone staged self.old }
    {
        let Staged {
            mut replaced,
            removals: _,
        } = staged;
        while let Some(last) = replaced.pop() {
            self.put_back(last);
        }
    }

    /// Stages operations in turn, until memory runs out.
    fn stage_all(
        &mut self,
        alloc: Global,
        ops: Vec<Op>,
        at: u64,
        staged: &mut Staged,
    ) -> Result<(), AllocError>
        requires { IsTrue (is_distinct (staged.old.removals.items ++ map uri_of ops.items)) }
        ensures after { OnOk result
            (settled staged.new self.new ≡ after_ops at ops.items (settled staged.old self.old)) }
        ensures before { undone staged.new self.new ≡ undone staged.old self.old }
    {
        for op in ops {
            self.stage_op(alloc, op, at, staged)?;
        }
        Ok(())
    }

    fn stage_op(
        &mut self,
        alloc: Global,
        op: Op,
        at: u64,
        staged: &mut Staged,
    ) -> Result<(), AllocError>
        requires { IsTrue (not (is_among staged.old.removals.items (uri_of op))) }
        ensures noted { OnOk result (staged.new.removals.items ≡ staged.old.removals.items ++ removed_by op) }
        ensures after { OnOk result (settled staged.new self.new ≡ after_op at op (settled staged.old self.old)) }
        ensures before { undone staged.new self.new ≡ undone staged.old self.old }
    {
        match op {
            Op::Put { document, .. } => self.stage_put(alloc, document, at, &mut staged.replaced),
            Op::Remove { uri, .. } => {
                staged.removals.push(uri)?;
                Ok(())
            }
        }
    }

    /// Puts a document, and notes what it replaced.
    fn stage_put(
        &mut self,
        alloc: Global,
        document: Document,
        at: u64,
        replaced: &mut Vec<Replaced>,
    ) -> Result<(), AllocError>
        ensures after { let version : Version = record { document = document; created = at } in
            OnOk result (self.new ≡ insert self.old document.uri version) }
        ensures before { before_puts replaced.new.items self.new ≡ before_puts replaced.old.items self.old }
    {
        let last = self.put(alloc, document, at)?;
        if let Err(refused) = replaced.push(last) {
            self.put_back(refused.value);
            return Err(AllocError);
        }
        Ok(())
    }

    /// Makes the version live again that a put replaced. It takes no memory.
    fn put_back(&mut self, replaced: Replaced)
        ensures { self.new ≡ before_put replaced self.old }
    {
        let Replaced { uri, old } = replaced;
        match old {
            Some(version) => self.restore(&uri, version),
            None => self.remove(&uri),
        }
    }

    /// Puts a version in the place of the one that is live.
    fn restore(&mut self, uri: &Text, mut version: Version)
        ensures { self.new ≡ restored uri.now version self.old }
    {
        if let Some(live) = self.versions.get_mut(uri) {
            mem::swap(live, &mut version);
        }
    }
}
