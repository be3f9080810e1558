// Cells that are linked by their numbers.
ghost use Rattle.std.specs.Prelude.{◌≡◌, ◌<◌, length, slice_get, ◌↔◌, Some, IsTrue, IfOk};
ghost use Rattle.std.proofs.Math.ListN.{get_or};
ghost use Rattle.flux_nodes.specs.declared.cell.Kind.TheVariants.{Elem, Free};
ghost use Rattle.flux_nodes.specs.declared.cell.Cell.{Cell};
ghost use Rattle.flux_nodes.specs.Laid.{
  edit,
  with_kind,
  with_parent,
  with_prev,
  with_next,
  with_first,
  with_last,
};
ghost use Rattle.flux_nodes.specs.Kept.{free_cell};

use flux_atom::{Atom, Name};
use std::alloc::{AllocError, Global};

/// The number of a node, which is the place of its cell in the table.
#[derive(Clone, Copy, Debug, PartialEq, Eq)]
pub struct NodeId(pub u64);

/// What stands at a node.
#[derive(Drop)]
pub enum Kind {
    Elem(Name),
    Leaf(Atom),
    /// No node: the cell is free, and `next` is the free cell after it.
    Free,
}

/// A node and its neighbours. It has at most 128 bytes.
#[derive(Drop)]
pub struct Cell {
    pub kind: Kind,
    pub parent: Option<NodeId>,
    pub prev: Option<NodeId>,
    pub next: Option<NodeId>,
    pub first: Option<NodeId>,
    pub last: Option<NodeId>,
}

const _: () = prove!(std::mem::size_of::<Cell>() <= 128);

impl Kind {
    fn copy(&self, alloc: Global) -> Result<Kind, AllocError>
        ensures { IfOk result (λ copied. copied ≡ self.now) }
    {
        match self {
            Kind::Elem(name) => Ok(Kind::Elem(*name)),
            Kind::Leaf(atom) => Ok(Kind::Leaf(flux_atom::copy(alloc, atom)?)),
            Kind::Free => Ok(Kind::Free),
        }
    }
}

impl Cell {
    fn copy(&self, alloc: Global) -> Result<Cell, AllocError>
        ensures { IfOk result (λ copied. copied ≡ self.now) }
    {
        let kind = self.kind.copy(alloc)?;
        Ok(Cell {
            kind,
            parent: self.parent,
            prev: self.prev,
            next: self.next,
            first: self.first,
            last: self.last,
        })
    }

    pub(crate) fn is_free(&self) -> bool
        ensures { IsTrue result ↔ (self.now.kind ≡ Free) }
    {
        match &self.kind {
            Kind::Elem(_) => false,
            Kind::Leaf(_) => false,
            Kind::Free => true,
        }
    }

    // A free cell, and the free cell after it.
    pub(crate) fn free(next: Option<NodeId>) -> Cell
        ensures { result ≡ free_cell next }
    {
        Cell {
            kind: Kind::Free,
            parent: None,
            prev: None,
            next,
            first: None,
            last: None,
        }
    }
}

// Whether a link leads to this node.
pub(crate) fn is_to(link: Option<NodeId>, node: NodeId) -> bool
    ensures { IsTrue result ↔ (link ≡ Some node) }
{
    match link {
        Some(there) => there.0 == node.0,
        None => false,
    }
}

pub(crate) fn put_parent(cells: &mut [Cell], at: NodeId, to: Option<NodeId>)
    requires { at.0 < length cells.old }
    ensures { cells.new ≡ edit (with_parent to) at.0 cells.old }
{
    cells[at.0 as usize].parent = to;
}

pub(crate) fn put_prev(cells: &mut [Cell], at: NodeId, to: Option<NodeId>)
    requires { at.0 < length cells.old }
    ensures { cells.new ≡ edit (with_prev to) at.0 cells.old }
{
    cells[at.0 as usize].prev = to;
}

pub(crate) fn put_next(cells: &mut [Cell], at: NodeId, to: Option<NodeId>)
    requires { at.0 < length cells.old }
    ensures { cells.new ≡ edit (with_next to) at.0 cells.old }
{
    cells[at.0 as usize].next = to;
}

pub(crate) fn put_first(cells: &mut [Cell], at: NodeId, to: Option<NodeId>)
    requires { at.0 < length cells.old }
    ensures { cells.new ≡ edit (with_first to) at.0 cells.old }
{
    cells[at.0 as usize].first = to;
}

pub(crate) fn put_last(cells: &mut [Cell], at: NodeId, to: Option<NodeId>)
    requires { at.0 < length cells.old }
    ensures { cells.new ≡ edit (with_last to) at.0 cells.old }
{
    cells[at.0 as usize].last = to;
}

pub(crate) fn put_label(cells: &mut [Cell], at: NodeId, name: Name)
    requires { at.0 < length cells.old }
    ensures { cells.new ≡ edit (with_kind (Elem name)) at.0 cells.old }
{
    cells[at.0 as usize].kind = Kind::Elem(name);
}

pub(crate) fn cell_at(cells: &[Cell], at: NodeId) -> &Cell
    requires { at.0 < length cells.now }
    ensures { result.now ≡ get_or cells.now at.0 result.now }
{
    &cells[at.0 as usize]
}

pub(crate) fn parent_of(cells: &[Cell], at: NodeId) -> Option<NodeId>
    requires { at.0 < length cells.now }
    ensures { (c : Cell) → slice_get cells.now at.0 ≡ Some c → result ≡ c.parent }
{
    cells[at.0 as usize].parent
}

pub(crate) fn prev_of(cells: &[Cell], at: NodeId) -> Option<NodeId>
    requires { at.0 < length cells.now }
    ensures { (c : Cell) → slice_get cells.now at.0 ≡ Some c → result ≡ c.prev }
{
    cells[at.0 as usize].prev
}

pub(crate) fn next_of(cells: &[Cell], at: NodeId) -> Option<NodeId>
    requires { at.0 < length cells.now }
    ensures { (c : Cell) → slice_get cells.now at.0 ≡ Some c → result ≡ c.next }
{
    cells[at.0 as usize].next
}

pub(crate) fn first_of(cells: &[Cell], at: NodeId) -> Option<NodeId>
    requires { at.0 < length cells.now }
    ensures { (c : Cell) → slice_get cells.now at.0 ≡ Some c → result ≡ c.first }
{
    cells[at.0 as usize].first
}

pub(crate) fn last_of(cells: &[Cell], at: NodeId) -> Option<NodeId>
    requires { at.0 < length cells.now }
    ensures { (c : Cell) → slice_get cells.now at.0 ≡ Some c → result ≡ c.last }
{
    cells[at.0 as usize].last
}

pub(crate) fn put_free(cells: &mut [Cell], at: NodeId, next: Option<NodeId>)
    requires { at.0 < length cells.old }
    ensures { cells.new ≡ edit (λ _. free_cell next) at.0 cells.old }
{
    cells[at.0 as usize] = Cell::free(next);
}

pub(crate) fn put_cell(cells: &mut [Cell], at: NodeId, cell: Cell)
    requires { at.0 < length cells.old }
    ensures { cells.new ≡ edit (λ _. cell) at.0 cells.old }
{
    cells[at.0 as usize] = cell;
}

pub(crate) fn copy_cells(alloc: Global, cells: &[Cell]) -> Result<Vec<Cell>, AllocError>
    ensures { IfOk result (λ copied. copied.items ≡ cells.now) }
{
    let mut copies = Vec::new(alloc);
    copies.try_reserve(cells.len())?;
    for cell in cells {
        copies.push(cell.copy(alloc)?)?;
    }
    Ok(copies)
}
