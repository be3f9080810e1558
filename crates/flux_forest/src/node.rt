// The nodes of a forest that is laid out in document order.
ghost use Rattle.std.specs.Prelude.{◌≡◌, ◌↔◌, ◌++◌, length, take, IsTrue, IfOk, OnOk, OnErr};

use flux_atom::{Atom, Name};
use std::alloc::{AllocError, Global};

/// What stands at a node.
#[derive(Drop)]
pub enum Item {
    Element(Name),
    Leaf(Atom),
}

impl Item {
    fn is_same(&self, other: &Item) -> bool
        ensures { IsTrue result ↔ (self.now ≡ other.now) }
    {
        match (self, other) {
            (Item::Element(name), Item::Element(other)) => name == other,
            (Item::Leaf(atom), Item::Leaf(other)) => is_same_atom(atom, other),
            _ => false,
        }
    }
}

fn is_same_atom(atom: &Atom, other: &Atom) -> bool
    ensures { IsTrue result ↔ (atom.now ≡ other.now) }
{
    match (atom, other) {
        (Atom::Bool(truth), Atom::Bool(other)) => truth == other,
        (Atom::Text(word), Atom::Text(other)) => word.as_str() == other.as_str(),
        (Atom::Int(number), Atom::Int(other)) => number == other,
        _ => false,
    }
}

/// A node, and how many nodes its tree has, itself among them: none while it is begun.
#[derive(Drop)]
pub struct Node {
    pub item: Item,
    pub size: usize,
}

impl Node {
    fn is_same(&self, other: &Node) -> bool
        ensures { IsTrue result ↔ (self.now ≡ other.now) }
    {
        self.size == other.size && self.item.is_same(&other.item)
    }

    pub fn copy(&self, alloc: Global) -> Result<Node, AllocError>
        ensures { IfOk result (λ copied. copied ≡ self.now) }
    {
        let item = match &self.item {
            Item::Element(name) => Item::Element(*name),
            Item::Leaf(atom) => Item::Leaf(flux_atom::copy(alloc, atom)?),
        };
        Ok(Node {
            item,
            size: self.size,
        })
    }
}

pub(crate) fn are_same(nodes: &[Node], others: &[Node]) -> bool
    ensures { IsTrue result ↔ (nodes.now ≡ others.now) }
{
    if nodes.len() != others.len() {
        return false;
    }
    for (node, other) in nodes.iter().zip(others) {
        if !node.is_same(other) {
            return false;
        }
    }
    true
}

/// On want of memory some copies may stand behind the nodes that were there.
pub fn push_copies(nodes: &mut Vec<Node>, copied: &[Node]) -> Result<(), AllocError>
    ensures ok { OnOk result (nodes.new.items ≡ nodes.old.items ++ copied.now) }
    ensures err { OnErr result (take (length nodes.old.items) nodes.new.items ≡ nodes.old.items) }
{
    let alloc = *nodes.allocator();
    for node in copied {
        nodes.push(node.copy(alloc)?)?;
    }
    Ok(())
}
