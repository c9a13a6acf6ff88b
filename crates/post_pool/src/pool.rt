ghost use Rattle.std.specs.Prelude.{◌≡◌, ◌++◌, ◌<◌, IfOk, OnErr, OnOk, length};
ghost use Rattle.post_pool.specs.Pools.{FullExactlyAt, empty_pool, items_in, node_count, with_chain, with_item};

use crate::links::{Ends, NO_ENDS, Node, append, gather};
use crate::room::make_room;
use crate::{Chain, PoolRefusal};
use std::alloc::{AllocError, Global};
use std::marker::Model;

/// Chains of numbers, for lists that are built side by side. The nodes of all chains are one list, linked by index, and
/// each chain keeps its last node.
///
/// Contracts see the limit and the list of the chains, each a list of its items.
#[derive(Debug, Drop)]
pub struct Pool {
    limit: u32,
    nodes: Vec<Node>,
    chains: Vec<Ends>,
}

impl Model for Pool {
    ghost use Rattle.std.specs.Prelude.{map};
    ghost use Rattle.post_pool.specs.Links.{IsLinked, items_of};
    ghost use Rattle.post_pool.specs.Pools.{Contents};

    ghost Value = { Contents };

    ghost view = { λ p. record { limit = p.limit; chains = map (items_of p.nodes.items) p.chains.items } };

    ghost invariant = { λ p. IsLinked p.limit p.nodes.items p.chains.items };
}

impl Pool {
    /// A pool without chains, which may get `limit` nodes and `limit` chains. It takes no memory.
    pub fn new(alloc: Global, limit: u32) -> Pool
        ensures { result ≡ empty_pool limit }
    {
        Pool {
            limit,
            nodes: Vec::new(alloc),
            chains: Vec::new(alloc),
        }
    }

    /// Makes an empty chain, in constant time on average.
    pub fn new_chain(&mut self) -> Result<Chain, PoolRefusal>
        ensures chain { IfOk result (λ chain. chain ≡ length self.old.chains) }
        ensures ok { OnOk result (self.new ≡ with_chain self.old) }
        ensures err { OnErr result (self.new ≡ self.old) }
        ensures full { FullExactlyAt self.old.limit (length self.old.chains) result }
    {
        let count = self.chains.len();
        if count >= self.limit as usize {
            return Err(PoolRefusal::Full { nodes: self.limit });
        }
        make_room(&mut self.chains, self.limit)?;
        self.chains.push_reserved(NO_ENDS);
        Ok(Chain::of(count as u32))
    }

    /// Adds an item at the end of a chain, in constant time on average.
    pub fn push(&mut self, chain: Chain, item: u32) -> Result<(), PoolRefusal>
        requires { chain < length self.old.chains }
        ensures ok { OnOk result (self.new ≡ with_item self.old chain item) }
        ensures err { OnErr result (self.new ≡ self.old) }
        ensures full { FullExactlyAt self.old.limit (node_count self.old) result }
    {
        if self.nodes.len() >= self.limit as usize {
            return Err(PoolRefusal::Full { nodes: self.limit });
        }
        make_room(&mut self.nodes, self.limit)?;
        let index = chain.index();
        let ends = append(&mut self.nodes, self.chains[index], item);
        self.chains[index] = ends;
        Ok(())
    }

    /// Adds a chain's items to a list, in the order of their pushes. It takes time in their number, and all its memory
    /// before it adds the first.
    pub fn walk(&self, chain: Chain, out: &mut Vec<u32>) -> Result<(), AllocError>
        requires { chain < length self.now.chains }
        ensures ok { OnOk result (out.new.items ≡ out.old.items ++ items_in self.now chain) }
        ensures err { OnErr result (out.new.items ≡ out.old.items) }
    {
        let ends = self.chains[chain.index()];
        out.reserve(ends.len as usize)?;
        gather(&self.nodes, ends, out);
        Ok(())
    }
}
