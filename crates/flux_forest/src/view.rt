// Views of runs of the trees of a forest.
ghost use Rattle.std.specs.Prelude.{◌≡◌, ◌≢◌, ◌↔◌, IsTrue, IfOk};
ghost use Rattle.flux_forest.specs.Flat.{IsFlat};

use crate::forest::Forest;
use crate::node::{Item, Node, are_same};
use flux_atom::{Atom, Name};
use std::alloc::{AllocError, Global};
use std::marker::Model;

/// A run of sibling trees of a forest.
#[derive(Clone, Copy)]
pub struct View<'a> {
    pub(crate) nodes: &'a [Node],
    ghost is_flat: { IsFlat nodes.now },
}

/// What a run is, if it is no more than one tree.
#[derive(Clone, Copy, Debug)]
pub enum Head<'a> {
    Nothing,
    Elem(Name),
    Atom(&'a Atom),
    /// More than one tree.
    Many,
}

/// The first node of a run.
#[derive(Clone, Copy, Debug)]
pub enum First<'a> {
    Nothing,
    Elem(Name),
    Atom(&'a Atom),
}

impl<'a> View<'a> {
    ghost use Rattle.flux_trees.specs.Hedge.{nil, size, first, others, content, opened, IsElement};
    ghost use Rattle.flux_trees.specs.Draft.{done};
    ghost use Rattle.flux_forest.specs.Flat.{hedge_of, IsFlat};
    ghost use Rattle.flux_forest.specs.View.{forest_of};
    ghost use Rattle.flux_forest.specs.Heads.{IsHead, IsFirst};

    /// The nodes of the trees, in document order.
    pub fn nodes(self) -> &'a [Node]
        ensures flat { IsFlat result.now }
        ensures same { hedge_of result.now ≡ forest_of self.entry }
    {
        self.nodes
    }

    pub fn is_empty(self) -> bool
        ensures { IsTrue result ↔ (forest_of self.entry ≡ nil) }
    {
        self.nodes.is_empty()
    }

    pub fn head(self) -> Head<'a>
        ensures { IsHead result (forest_of self.entry) }
    {
        let nodes = self.nodes;
        match nodes {
            [] => Head::Nothing,
            [node, ..] => {
                if node.size < nodes.len() {
                    return Head::Many;
                }
                match &node.item {
                    Item::Element(name) => Head::Elem(*name),
                    Item::Leaf(atom) => Head::Atom(atom),
                }
            }
        }
    }

    /// What the run begins with, however many trees it has.
    pub fn first(self) -> First<'a>
        ensures { IsFirst result (forest_of self.entry) }
    {
        match self.nodes {
            [] => First::Nothing,
            [node, ..] => match &node.item {
                Item::Element(name) => First::Elem(*name),
                Item::Leaf(atom) => First::Atom(atom),
            },
        }
    }

    /// The trees inside the one element that the run is.
    pub fn content(self) -> View<'a>
        requires { IsElement (forest_of self) }
        ensures { forest_of result ≡ content (forest_of self.entry) }
    {
        self.opened()
    }

    /// How many nodes the first tree has, at any depth.
    pub fn first_size(self) -> usize
        requires { forest_of self ≢ nil }
        ensures { result ≡ size (first (forest_of self.entry)) }
    {
        self.nodes[0].size
    }

    /// The first tree, and those behind it.
    pub fn split(self) -> (View<'a>, View<'a>)
        requires { forest_of self ≢ nil }
        ensures first { forest_of result.0 ≡ first (forest_of self.entry) }
        ensures others { forest_of result.1 ≡ others (forest_of self.entry) }
    {
        let (first, others) = self.nodes.split_at(self.first_size());
        let first = View { nodes: first };
        let others = View { nodes: others };
        (first, others)
    }

    /// The run with its first node taken away: its content stands in its place. By this a loop
    /// goes over all nodes in document order.
    pub fn opened(self) -> View<'a>
        requires { forest_of self ≢ nil }
        ensures { forest_of result ≡ opened (forest_of self.entry) }
    {
        View {
            nodes: &self.nodes[1..],
        }
    }

    /// The trees, one by one.
    pub fn trees(self) -> Trees<'a>
        ensures { result ≡ forest_of self.entry }
    {
        Trees { rest: self }
    }

    /// Whether both runs have the same trees in the same order. It takes as many steps as there
    /// are nodes, and the bytes of their texts.
    pub fn equal(self, other: View<'_>) -> bool
        ensures { IsTrue result ↔ (forest_of self.entry ≡ forest_of other.entry) }
    {
        are_same(self.nodes, other.nodes)
    }

    /// How many nodes there are, at any depth.
    pub fn count(self) -> u64
        ensures { result ≡ size (forest_of self.entry) }
    {
        self.nodes.len() as u64
    }

    /// A forest of these trees alone.
    pub fn copy(self, alloc: Global) -> Result<Forest, AllocError>
        ensures { IfOk result (λ copied. copied ≡ done (forest_of self.entry)) }
    {
        let mut forest = Forest::new(alloc);
        forest.append(self)?;
        Ok(forest)
    }
}

/// The trees of a run that are left, each as a run of its own. Contracts see the forest that is
/// left.
#[derive(Drop)]
pub struct Trees<'a> {
    rest: View<'a>,
}

impl<'a> Model for Trees<'a> {
    ghost use Rattle.flux_trees.specs.Hedge.{Hedge};
    ghost use Rattle.flux_trees.specs.HedgeCode.{plain_code};

    ghost Value = { Hedge (Unit {0}) };

    ghost coded = { plain_code };

    ghost use Rattle.flux_forest.specs.View.{forest_of};

    ghost view = { λ t. forest_of t.rest };
}

impl<'a> Iterator for Trees<'a> {
    ghost use Rattle.std.specs.Iterator.{YieldsFirstBy, item_count};
    ghost use Rattle.flux_trees.specs.Hedge.{trees};
    ghost use Rattle.flux_forest.specs.View.{forest_of};

    type Item = View<'a>;

    ghost next_gives = { YieldsFirstBy forest_of trees };

    ghost remaining = { item_count trees };

    fn next(&mut self) -> Option<View<'a>> {
        if self.rest.is_empty() {
            return None;
        }
        let (first, others) = self.rest.split();
        self.rest = others;
        Some(first)
    }
}
