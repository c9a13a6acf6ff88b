ghost use Rattle.std.specs.Prelude.{◌≡◌, IfOk, OnOk, IfErr, Some, IsTrue, sum_by};
ghost use Rattle.std.specs.List.{list_all};
ghost use Rattle.doc_model.specs.Operations.{AreOps, broken_ops_rule, op_size, removes_uri};
ghost use Rattle.doc_model.specs.Tree.{Leaves};

use crate::limits::{MAX_OPERATIONS, MAX_SIZE};
use crate::{Op, OpsRefusal};
use std::alloc::{AllocError, Global};
use std::marker::Model;

/// The operations of one commit: 1 to 1,000, whose documents have a size of at most 2^24 together. A removal
/// has no size.
#[derive(Debug, Drop)]
pub struct Ops {
    list: Vec<Op>,
}

impl Model for Ops {
    ghost use Rattle.std.specs.Prelude.{List};
    ghost use Rattle.std.specs.Coded.{coded_list};
    ghost use Rattle.doc_model.specs.declared.op.Op.{Op};
    ghost use Rattle.doc_model.specs.contracts.op.Op as op;
    ghost use Rattle.doc_model.specs.Operations.{AreOps};

    ghost Value = { List Op };

    ghost coded = { coded_list op.the_row.coded };

    ghost view = { λ o. o.list.items };

    ghost invariant = { λ o. AreOps o.list.items };
}

impl Ops {
    /// The operations of a commit, in order. It takes no memory; its time is in proportion to their number.
    pub fn new(list: Vec<Op>) -> Result<Ops, OpsRefusal>
        requires { IsTrue (list_all removes_uri list.items) }
        ensures kept { IfOk result (λ ops. ops ≡ list.items) }
        ensures rules { OnOk result (AreOps list.items) }
        ensures refused { IfErr result (λ why. broken_ops_rule list.items ≡ Some why) }
    {
        let n = list.len();
        if n == 0 || n > MAX_OPERATIONS {
            return Err(OpsRefusal::Count { n: n as u64 });
        }
        match charge_ops(&list, MAX_SIZE) {
            Some(_) => Ok(Ops { list }),
            None => Err(OpsRefusal::Size),
        }
    }

    /// The operations, in order.
    pub fn as_slice(&self) -> &[Op]
        ensures value { result.now ≡ self.now }
        ensures rules { AreOps self.now }
    {
        self.list.as_slice()
    }

    /// Gives the list back, without taking memory.
    pub fn into_vec(self) -> Vec<Op>
        ensures value { result.items ≡ self }
        ensures rules { AreOps self }
    {
        let Ops { list } = self;
        list
    }

    /// Equal operations, in time and memory of their documents and URIs.
    pub fn copy(&self, alloc: Global) -> Result<Ops, AllocError>
        ensures { IfOk result (λ o. o ≡ self.now) }
    {
        let list = copy_list(alloc, self.list.as_slice())?;
        Ok(Ops { list })
    }
}

fn size_of(op: &Op) -> u64
    ensures { result ≡ op_size op.now }
{
    match op {
        Op::Put { document, .. } => document.size(),
        Op::Remove { .. } => 0,
    }
}

fn charge_ops(list: &[Op], left: u64) -> Option<u64>
    ensures { Leaves left (sum_by op_size list.now) result }
{
    let mut rest = left;
    for op in list {
        rest = rest.checked_sub(size_of(op))?;
    }
    Some(rest)
}

fn copy_list(alloc: Global, list: &[Op]) -> Result<Vec<Op>, AllocError>
    ensures { IfOk result (λ o. o.items ≡ list.now) }
{
    let mut out = Vec::new(alloc);
    for op in list {
        out.push(op.copy(alloc)?)?;
    }
    Ok(out)
}
