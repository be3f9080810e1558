// A document as a table of linked nodes.
ghost use Rattle.std.specs.Prelude.{◌≡◌, ◌<◌, ◌^◌, ◌↔◌, ℕ, IsTrue, IfOk, OnErr};
ghost use Rattle.std.proofs.Math.ListN.{get_or};
ghost use Rattle.flux_trees.specs.Hedge.{nil, erase};
ghost use Rattle.flux_trees.specs.Draft.{done};
ghost use Rattle.flux_trees.specs.Edits.{place_in, number};
ghost use Rattle.flux_forest.specs.View.{forest_of};
ghost use Rattle.flux_nodes.specs.Tables.{
  RunAt,
  IsPart,
  PlaceAt,
  ElementAt,
  NodeAt,
  IsHandedOut,
  IsCellOf,
  IsUnlinked,
  IsRunOf,
  IsNewRun,
  IsSound,
  made_in,
  supply,
  tree_place,
  times,
  empty,
  after_unlink,
  after_link,
  after_label,
  after_free,
  after_add,
};

use crate::build::build;
use crate::cell::{Cell, NodeId, copy_cells, is_to, put_label};
use crate::copying::copy_trees;
use crate::freeing::{free_run, nth_free};
use crate::links::{link, unlink};
use crate::root::root_of;
use crate::run::{Place, Run, run_to};
use crate::taking::take_numbers;
use flux_atom::Name;
use flux_forest::{Forest, View, push_copies};
use std::alloc::{AllocError, Global};
use std::marker::Model;

/// The nodes of a document, and of runs of trees that are in no document, each in a cell of its
/// own. A node keeps its number as long as it isn't freed.
#[derive(Drop)]
pub struct Table {
    cells: Vec<Cell>,
    top: Option<NodeId>,
    end: Option<NodeId>,
    // the free cell that is used next
    free: Option<NodeId>,
    made: u64,
}

impl Model for Table {
    ghost use Rattle.flux_nodes.specs.Tables.{Meaning, meaning_code};
    ghost use Rattle.flux_nodes.specs.Decoded.{meaning_of};
    ghost use Rattle.flux_nodes.specs.Kept.{IsHeld};

    ghost Value = { Meaning };

    ghost coded = { meaning_code };

    ghost view = { λ t. meaning_of t.cells.items t.top t.free };

    ghost invariant = { λ t. IsHeld t.cells.items t.top t.end t.free t.made };
}

impl Table {
    /// The empty table, which takes no memory.
    pub fn new(alloc: Global) -> Self
        ensures { result ≡ empty }
    {
        Table {
            cells: Vec::new(alloc),
            top: None,
            end: None,
            free: None,
            made: 0,
        }
    }

    /// How many nodes there are, in the document and in unlinked runs.
    pub fn made(&self) -> u64
        ensures { result ≡ made_in self.now }
    {
        self.made
    }

    /// The `i`-th number, from 0, that new nodes will get.
    pub fn next_number(&self, i: u64) -> u64
        requires { i < 2 ^ 32 }
        ensures { result ≡ supply self.now i }
    {
        let len = self.cells.len() as u64;
        let spare = len - self.made;
        if i >= spare {
            return len + (i - spare);
        }
        match nth_free(self.cells.as_slice(), self.free, i) {
            Some(node) => node.0,
            None => unreachable!(),
        }
    }

    /// The cell of a node.
    pub fn cell(&self, node: NodeId) -> &Cell
        requires { IsHandedOut self.now node }
        ensures linked { (at : NodeAt self.now.document node) →
            IsCellOf result.now at.frames at.tree }
        ensures unlinked { (i : ℕ) (at : NodeAt (get_or self.now.unlinked i nil) node) →
            IsCellOf result.now at.frames at.tree }
    {
        &self.cells[node.0 as usize]
    }

    /// Whether the node is in the document. It takes as many steps as there are elements around
    /// the node and trees before the outermost of them.
    pub fn holds(&self, node: NodeId) -> bool
        ensures { IsTrue result ↔ 0 < times node.0 self.now.document }
    {
        if node.0 >= self.cells.len() as u64 {
            return false;
        }
        if self.cells[node.0 as usize].is_free() {
            return false;
        }
        is_to(self.top, root_of(self.cells.as_slice(), node))
    }

    /// The trees of the document.
    pub fn top(&self) -> Option<Run>
        ensures { IsRunOf result self.now.document }
    {
        let first = self.top?;
        let last = self.end?;
        Some(Run { first, last })
    }

    /// Where a run of the document stands.
    pub fn place_of(&self, run: Run) -> Place
        requires { RunAt self.now.document run }
        ensures { (at : RunAt self.now.document run) → place_in at.frames ≡ tree_place result }
    {
        let first = self.cell(run.first);
        Place {
            parent: first.parent,
            after: first.prev,
        }
    }

    /// Takes a run out of the document. It is an unlinked run then.
    pub fn unlink_range(&mut self, run: Run)
        requires { RunAt self.old.document run }
        ensures { (at : RunAt self.old.document run) →
            self.new ≡ after_unlink self.old run at.frames at.trees }
    {
        unlink(self.cells.as_mut_slice(), &mut self.top, &mut self.end, run);
    }

    /// Puts an unlinked run at a place of the document.
    pub fn link_range(&mut self, place: Place, run: Run)
        requires place { PlaceAt self.old.document place }
        requires run { IsUnlinked self.old run }
        ensures { (at : PlaceAt self.old.document place) →
            self.new ≡ after_link self.old run at.frames }
    {
        link(
            self.cells.as_mut_slice(),
            &mut self.top,
            &mut self.end,
            place,
            run,
        );
    }

    /// Gives an element of the document another label.
    pub fn set_label(&mut self, node: NodeId, name: Name)
        requires { ElementAt self.old.document node }
        ensures { (at : ElementAt self.old.document node) →
            self.new ≡ after_label self.old node name at.frames at.inside }
    {
        put_label(self.cells.as_mut_slice(), node, name);
    }

    /// Makes nodes of the trees, with numbers in document order: an unlinked run, or none where
    /// there are no trees. On want of memory the table is as it was.
    pub fn add_tree_cells(&mut self, view: View<'_>) -> Result<Option<Run>, AllocError>
        ensures ok { IfOk result (λ _. self.new ≡ after_add self.old (forest_of view.entry)) }
        ensures run { IfOk result (λ run.
            IsNewRun run self.new (number (forest_of view.entry) (supply self.old))) }
        ensures err { OnErr result (self.new ≡ self.old) }
    {
        if view.is_empty() {
            return Ok(None);
        }
        let mut nodes = Vec::new(*self.cells.allocator());
        push_copies(&mut nodes, view.nodes())?;
        let count = nodes.len();
        let spare = self.cells.len() - self.made as usize;
        let numbers = take_numbers(&mut self.cells, &mut self.free, spare, count)?;
        let last = build(self.cells.as_mut_slice(), nodes, numbers.as_slice());
        self.made += count as u64;
        Ok(run_to(numbers[0], last))
    }

    /// Frees the nodes of an unlinked run. Their numbers are the next to be used, in document
    /// order.
    pub fn free_range(&mut self, run: Run)
        requires { IsUnlinked self.old run }
        ensures { self.new ≡ after_free self.old run }
    {
        free_run(
            self.cells.as_mut_slice(),
            &mut self.free,
            &mut self.made,
            run,
        );
    }

    /// A table with the same nodes, runs and numbers to come.
    pub fn copy(&self, alloc: Global) -> Result<Table, AllocError>
        ensures { IfOk result (λ copied. copied ≡ self.now) }
    {
        let cells = copy_cells(alloc, self.cells.as_slice())?;
        Ok(Table {
            cells,
            top: self.top,
            end: self.end,
            free: self.free,
            made: self.made,
        })
    }

    /// A forest of the trees of a run, without their numbers.
    pub fn copy_run(&self, alloc: Global, run: Run) -> Result<Forest, AllocError>
        requires { IsPart self.now run }
        ensures document { (at : RunAt self.now.document run) →
            IfOk result (λ copied. copied ≡ done (erase at.trees)) }
        ensures unlinked { (i : ℕ) (at : RunAt (get_or self.now.unlinked i nil) run) →
            IfOk result (λ copied. copied ≡ done (erase at.trees)) }
    {
        copy_trees(alloc, self.cells.as_slice(), run)
    }

    /// No number stands twice, and none is lost. It does nothing: its contract is the law.
    pub fn table_is_sound(&self)
        ensures { IsSound self.now }
    {
        let _ = &self.cells;
    }
}
