// Cells that are put on the free list.
ghost use Rattle.std.specs.Prelude.{◌≡◌, ◌<◌, ◌+◌, length, drop, slice_get, Some};
ghost use Rattle.flux_trees.specs.Hedge.{size};
ghost use Rattle.flux_nodes.specs.declared.cell.Cell.{Cell};
ghost use Rattle.flux_nodes.specs.Tables.{after_free, trees_at};
ghost use Rattle.flux_nodes.specs.Kept.{IsWithin, IsFreed, HasLoose, IsTable, HasSpare, spare_head};

use crate::cell::{Cell, NodeId, first_of, last_of, next_of, put_free, put_next};
use crate::run::Run;

// Frees a cell, and tells which cell is to be freed next: its content takes its place.
fn free_one(cells: &mut [Cell], at: NodeId) -> Option<NodeId>
    requires at_in { at.0 < length cells.old }
    requires last_in { (c : Cell) →
        slice_get cells.old at.0 ≡ Some c → IsWithin c.last (length cells.old) }
    ensures { IsFreed cells.old cells.new at.0 result }
{
    let next = next_of(cells, at);
    let first = first_of(cells, at);
    match last_of(cells, at) {
        Some(last) => {
            put_next(cells, last, next);
            put_free(cells, at, first);
            first
        }
        None => {
            put_free(cells, at, next);
            next
        }
    }
}

// Puts the cells of an unlinked run in front of the free list, in document order.
pub(crate) fn free_run(cells: &mut [Cell], free: &mut Option<NodeId>, made: &mut u64, run: Run)
    requires { HasLoose cells.old free.old made.old run }
    ensures cells { (h : HasLoose cells.old free.old made.old run) →
        IsTable cells.new h.top h.end free.new (after_free h.meaning run) }
    ensures made { (h : HasLoose cells.old free.old made.old run) →
        made.new + size (trees_at h.meaning run) ≡ made.old }
{
    let mut at = Some(run.first);
    let mut tail = run.first;
    'nodes: while let Some(node) = at {
        tail = node;
        at = free_one(cells, node);
        *made -= 1;
    }
    put_next(cells, tail, *free);
    *free = Some(run.first);
}

// The `i`-th cell of the free list, from 0, if there are so many.
pub(crate) fn nth_free(cells: &[Cell], free: Option<NodeId>, i: u64) -> Option<NodeId>
    requires { HasSpare cells.now free }
    ensures { (h : HasSpare cells.now free) → result ≡ spare_head (drop i h.spare) }
{
    let mut at = free;
    'steps: for _step in 0..i {
        match at {
            Some(node) => at = next_of(cells, node),
            None => return None,
        }
    }
    at
}
