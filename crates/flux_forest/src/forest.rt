// A forest that can be added to at its end.
ghost use Rattle.std.specs.Prelude.{◌≡◌, ◌<◌, ◌↔◌, IsTrue, OnOk, OnErr};
ghost use Rattle.flux_trees.specs.Hedge.{nil, leaf};
ghost use Rattle.flux_trees.specs.Draft.{done, depth, add, begin, end};

use crate::node::{Item, Node, push_copies};
use crate::view::View;
use flux_atom::{Atom, Name};
use std::alloc::{AllocError, Global};
use std::marker::Model;

/// A forest that is written from its beginning to its end, tree after tree, an element by its
/// beginning, what it contains and its end. Contracts see the trees before each element that is
/// begun, and those at the innermost place.
#[derive(Drop)]
pub struct Forest {
    nodes: Vec<Node>,
    // where the elements stand that are begun, outermost first
    begun: Vec<usize>,
}

impl Model for Forest {
    ghost use Rattle.flux_trees.specs.Draft.{Draft, plain_draft_code};

    ghost Value = { Draft (Unit {0}) };

    ghost coded = { plain_draft_code };

    ghost use Rattle.flux_forest.specs.Flat.{draft_of, IsDraft};

    ghost view = { λ f. draft_of f.nodes.items };

    ghost invariant = { λ f. IsDraft (draft_of f.nodes.items) f.nodes.items f.begun.items };
}

impl Forest {
    ghost use Rattle.flux_forest.specs.Flat.{hedge_of, IsFlat};
    ghost use Rattle.flux_forest.specs.View.{forest_of};

    /// The trees of nodes in document order.
    pub fn from_nodes(nodes: Vec<Node>) -> Self
        requires { IsFlat nodes.items }
        ensures { result ≡ done (hedge_of nodes.items) }
    {
        let begun = Vec::new(*nodes.allocator());
        Forest { nodes, begun }
    }

    /// The nodes of the trees, in document order.
    pub fn into_nodes(self) -> Vec<Node>
        requires { depth self ≡ 0 }
        ensures flat { IsFlat result.items }
        ensures same { done (hedge_of result.items) ≡ self }
    {
        self.nodes
    }

    /// No trees, and no element begun.
    pub fn new(alloc: Global) -> Self
        ensures { result ≡ done nil }
    {
        Forest {
            nodes: Vec::new(alloc),
            begun: Vec::new(alloc),
        }
    }

    /// Whether each element that was begun is ended.
    pub fn is_whole(&self) -> bool
        ensures { IsTrue result ↔ (depth self.now ≡ 0) }
    {
        self.begun.is_empty()
    }

    /// Adds an atom at the innermost place.
    pub fn push_atom(&mut self, atom: Atom) -> Result<(), AllocError>
        ensures ok { OnOk result (self.new ≡ add self.old (leaf tt atom nil)) }
        ensures err { OnErr result (self.new ≡ self.old) }
    {
        self.nodes.push(Node {
            item: Item::Leaf(atom),
            size: 1,
        })?;
        Ok(())
    }

    /// Begins an element at the innermost place: what is added goes into it until it is ended.
    pub fn begin_element(&mut self, name: Name) -> Result<(), AllocError>
        ensures ok { OnOk result (self.new ≡ begin self.old tt name) }
        ensures err { OnErr result (self.new ≡ self.old) }
    {
        self.begun.try_reserve(1)?;
        let at = self.nodes.len();
        self.nodes.push(Node {
            item: Item::Element(name),
            size: 0,
        })?;
        if let Err(_) = self.begun.push(at) {
            unreachable!()
        }
        Ok(())
    }

    /// Adds copies of the trees of a run at the innermost place.
    pub fn append(&mut self, view: View<'_>) -> Result<(), AllocError>
        ensures ok { OnOk result (self.new ≡ add self.old (forest_of view.entry)) }
        ensures err { OnErr result (self.new ≡ self.old) }
    {
        let len = self.nodes.len();
        if let Err(error) = push_copies(&mut self.nodes, view.nodes) {
            self.nodes.truncate(len);
            return Err(error);
        }
        Ok(())
    }

    /// Ends the element that was begun last.
    pub fn end_element(&mut self)
        requires { 0 < depth self.old }
        ensures { self.new ≡ end self.old }
    {
        if let Some(at) = self.begun.pop() {
            self.nodes[at].size = self.nodes.len() - at;
        }
    }

    /// The trees, as a run of siblings.
    pub fn view(&self) -> View<'_>
        requires { depth self.now ≡ 0 }
        ensures { done (forest_of result) ≡ self.now }
    {
        View {
            nodes: self.nodes.as_slice(),
        }
    }
}

#[cfg(test)]
mod tests;
