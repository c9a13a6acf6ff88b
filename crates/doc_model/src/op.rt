ghost use Rattle.std.specs.Prelude.{◌≡◌, IfOk};
ghost use Rattle.doc_model.specs.Operations.{uri_of, expect_of};

use crate::{Document, Text};
use std::alloc::{AllocError, Global};

/// One operation of a commit. Where `expect` is given, the live version of the URI must have been created at
/// that timestamp; 0 says that there must be none.
#[derive(Debug, Drop)]
pub enum Op {
    Put {
        document: Document,
        expect: Option<u64>,
    },
    Remove {
        uri: Text,
        expect: Option<u64>,
    },
}

impl Op {
    /// The URI that the operation puts or removes.
    pub fn uri(&self) -> &Text
        ensures { result.now ≡ uri_of self.now }
    {
        match self {
            Op::Put { document, .. } => document.uri(),
            Op::Remove { uri, .. } => uri,
        }
    }

    /// The timestamp that the live version must have been created at, if one is asked for.
    pub fn expect(&self) -> Option<u64>
        ensures { result ≡ expect_of self.now }
    {
        match self {
            Op::Put { expect, .. } => *expect,
            Op::Remove { expect, .. } => *expect,
        }
    }

    pub fn copy(&self, alloc: Global) -> Result<Op, AllocError>
        ensures { IfOk result (λ o. o ≡ self.now) }
    {
        match self {
            Op::Put { document, expect } => Ok(Op::Put {
                document: document.copy(alloc)?,
                expect: *expect,
            }),
            Op::Remove { uri, expect } => Ok(Op::Remove {
                uri: uri.copy(alloc)?,
                expect: *expect,
            }),
        }
    }
}
