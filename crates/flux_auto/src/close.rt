// Edges for the states that wait for them.
ghost use Rattle.std.specs.Prelude.{◌≡◌, ◌<◌, ◌≤◌, ◌++◌, ℕ, Some, slice_get, length, IfOk, OnOk};
ghost use Rattle.flux_auto.specs.declared.table.Row.{Row};
ghost use Rattle.flux_auto.specs.Built.{Grows, IsEven, IsGround, IsOwn, OwnFrom, NoNewLabels, ClosedBelow, Awaits, FreshFrom, Filled, Closed, IsComplete};

use crate::Edge;
use crate::linear::linear;
use crate::nullable::is_nullable;
use crate::table::{Table, set_row};
use flux_types::{Defs, copy_of};
use std::alloc::{AllocError, Global};

// Gives a state that stands for a type alone the edges of that type.
fn fill(
    alloc: Global,
    defs: &Defs,
    nullable: &[bool],
    table: &mut Table,
    state: u64,
) -> Result<(), AllocError>
    requires ground { IsGround defs.now nullable.now table.old }
    requires awaits { Awaits (length defs.now) table.old.cells.items state }
    ensures grows { Grows state table.old table.new }
    ensures ok { OnOk result (Filled defs.now table.old table.new state) }
{
    let head = copy_of(alloc, &table.cells[state as usize].head)?;
    let edges = linear(alloc, defs, nullable, table, &head, 0)?;
    set_row(table, state, is_nullable(nullable, &head), edges);
    Ok(())
}

// Gives such edges to each state from one on.
fn fill_all(
    alloc: Global,
    defs: &Defs,
    nullable: &[bool],
    table: &mut Table,
    from: u64,
) -> Result<(), AllocError>
    requires ground { IsGround defs.now nullable.now table.old }
    requires begun { 1 ≤ from }
    requires there { from ≤ length table.old.cells.items }
    requires fresh { FreshFrom (length defs.now) from table.old.cells.items }
    ensures grows { Grows from table.old table.new }
    ensures even { OnOk result (IsEven table.new) }
    ensures own { OnOk result (OwnFrom defs.now from table.new) }
    ensures labels { OnOk result (NoNewLabels defs.now table.old table.new) }
{
    let end = table.cells.len() as u64;
    for state in from..end {
        fill(alloc, defs, nullable, table, state)?;
    }
    Ok(())
}

// Edges and then more.
fn joined(mut edges: Vec<Edge>, more: &[Edge]) -> Result<Vec<Edge>, AllocError>
    ensures { IfOk result (λ all. all.items ≡ edges.items ++ more.now) }
{
    edges.extend_from_slice(more)?;
    Ok(edges)
}

// Adds the edges of the tail, where the type of the state is nullable.
fn close(alloc: Global, defs: &Defs, table: &mut Table, state: u64) -> Result<(), AllocError>
    requires even { IsEven table.old }
    requires here { state < length table.old.cells.items }
    requires own { (r : Row) → slice_get table.old.rows.items state ≡ Some r
        → IsOwn defs.now table.old.cells.items state r }
    requires older { ClosedBelow defs.now state table.old }
    ensures grows { Grows state table.old table.new }
    ensures ok { OnOk result (Closed defs.now table.old table.new state) }
{
    let own = &table.rows[state as usize];
    if !own.ends {
        return Ok(());
    }
    let tail = &table.rows[table.cells[state as usize].tail as usize];
    let edges = joined(own.edges.as_slice().to_vec(alloc)?, tail.edges.as_slice())?;
    let ends = tail.ends;
    set_row(table, state, ends, edges);
    Ok(())
}

fn close_all(alloc: Global, defs: &Defs, table: &mut Table, from: u64) -> Result<(), AllocError>
    requires even { IsEven table.old }
    requires own { OwnFrom defs.now from table.old }
    requires older { ClosedBelow defs.now from table.old }
    requires there { from ≤ length table.old.cells.items }
    ensures grows { Grows from table.old table.new }
    ensures even { OnOk result (IsEven table.new) }
    ensures cells { OnOk result (table.new.cells.items ≡ table.old.cells.items) }
    ensures closed { OnOk result (ClosedBelow defs.now (length table.new.cells.items) table.new) }
{
    let end = table.cells.len() as u64;
    for state in from..end {
        close(alloc, defs, table, state)?;
    }
    Ok(())
}

// Gives each state from one on its edges. They stand for one type each.
pub(crate) fn complete(
    alloc: Global,
    defs: &Defs,
    nullable: &[bool],
    table: &mut Table,
    from: u64,
) -> Result<(), AllocError>
    requires ground { IsGround defs.now nullable.now table.old }
    requires begun { 1 ≤ from }
    requires there { from ≤ length table.old.cells.items }
    requires fresh { FreshFrom (length defs.now) from table.old.cells.items }
    requires older { ClosedBelow defs.now from table.old }
    ensures grows { Grows from table.old table.new }
    ensures ok { OnOk result (IsComplete defs.now nullable.now table.new) }
    ensures labels { OnOk result (NoNewLabels defs.now table.old table.new) }
{
    fill_all(alloc, defs, nullable, table, from)?;
    close_all(alloc, defs, table, from)?;
    Ok(())
}
