// The states of an automaton that is being made.
ghost use Rattle.std.specs.Prelude.{◌≡◌, ◌<◌, ◌≤◌, length, IfOk, OnOk, OnErr, take};
ghost use Rattle.flux_types.specs.Read.{ty_of};
ghost use Rattle.flux_auto.specs.Built.{Grows, Put, IsSet, IsEven};

use crate::Edge;
use flux_types::Ty;
use indexmap::IndexMap;
use std::alloc::AllocError;

// A state that stands for a type and then what an older state stands for.
#[derive(Drop)]
pub(crate) struct Cell {
    pub(crate) head: Ty,
    pub(crate) tail: u64,
}

// Whether a state ends, and its edges.
#[derive(Drop)]
pub(crate) struct Row {
    pub(crate) ends: bool,
    pub(crate) edges: Vec<Edge>,
}

// A cell and a row for each state. The first state is the end of every list of types. By the
// fingerprint of a type stands a state that may stand for that type alone: it is tested before it
// is used, so nothing is asked of it.
#[derive(Drop)]
pub(crate) struct Table {
    pub(crate) cells: Vec<Cell>,
    pub(crate) rows: Vec<Row>,
    pub(crate) guesses: IndexMap<u64, u64>,
}

// A new state, which stands for a type and then what the tail stands for.
pub(crate) fn put(
    table: &mut Table,
    head: Ty,
    tail: u64,
    ends: bool,
    edges: Vec<Edge>,
) -> Result<u64, AllocError>
    requires { IsEven table.old }
    ensures grows { Grows (length table.old.rows.items) table.old table.new }
    ensures ok { IfOk result (λ s. Put table.old table.new (ty_of head) tail ends edges.items s) }
{
    let state = table.cells.len() as u64;
    table.rows.try_reserve(1)?;
    table.cells.push(Cell { head, tail })?;
    table.rows.push(Row { ends, edges })?;
    Ok(state)
}

// Gives a state other edges.
pub(crate) fn set_row(table: &mut Table, state: u64, ends: bool, edges: Vec<Edge>)
    requires { state < length table.old.rows.items }
    ensures { IsSet table.old table.new state ends edges.items }
{
    let row = &mut table.rows[state as usize];
    row.ends = ends;
    row.edges = edges;
}
