// The edges of a type: what a member that isn't empty begins with.
ghost use Rattle.std.specs.Prelude.{◌≡◌, ◌<◌, ◌≤◌, ◌∷◌, [], length, IfOk, OnOk, OnErr};
ghost use Rattle.flux_schema.specs.Ty.{empty};
ghost use Rattle.flux_types.specs.Read.{ty_of};
ghost use Rattle.flux_auto.specs.Standing.{Ready, BodiesReady, LabelsStand, at, lists};
ghost use Rattle.flux_auto.specs.Built.{Grows, IsEven, IsGround, Linear};
ghost use Rattle.flux_auto.specs.Pending.{Opens, PutsSecond, FillsRow};

use crate::Edge;
use crate::content::{find, is_same};
use crate::nullable::is_nullable;
use crate::table::{Table, put, set_row};
use flux_types::{Defs, Ty, copy_of};
use std::alloc::{AllocError, Global};

// A sequence and the state of what stands behind it. The edges of its second part are those from
// a place on.
#[derive(Clone, Copy)]
pub(crate) struct Pair<'t> {
    pub(crate) left: &'t Ty,
    pub(crate) right: &'t Ty,
    pub(crate) next: u64,
    pub(crate) from: usize,
}

// What is still to be done: to read a type before a state, to read the first part of a sequence,
// or to give a state the edges from a place on.
#[derive(Clone, Copy)]
pub(crate) enum Task<'t> {
    Read(&'t Ty, u64),
    First(Pair<'t>),
    Row(u64, usize),
}

// The edges that were found, and what is still to be done, the last first.
#[derive(Drop)]
pub(crate) struct Work<'t> {
    pub(crate) edges: Vec<Edge>,
    pub(crate) tasks: Vec<Task<'t>>,
}

// Reads the outermost node of a type: adds its edges, or tasks that come to them.
fn read<'t>(
    alloc: Global,
    defs: &'t Defs,
    table: &mut Table,
    work: &mut Work<'t>,
    ty: &'t Ty,
    next: u64,
) -> Result<(), AllocError>
    requires even { IsEven table.old }
    requires end { at (lists table.old.cells.items) 0 ≡ empty ∷ [] }
    requires bodies { BodiesReady defs.now table.old.cells.items }
    requires ready { Ready (length defs.now) table.old.cells.items (ty_of ty.now) }
    requires labels { LabelsStand defs.now table.old.cells.items (ty_of ty.now) }
    requires tail { next < length table.old.cells.items }
    ensures grows { Grows (length table.old.rows.items) table.old table.new }
    ensures ok { OnOk result
        (Opens defs.now (ty_of ty.now) next table.old work.old table.new work.new) }
{
    match ty {
        Ty::Empty => {}
        Ty::Atom(kind) => work.edges.push(Edge::Atom(*kind, next))?,
        Ty::Elem(label, inner) => {
            let content = find(table, inner.get()).unwrap_or(0);
            work.edges.push(Edge::Elem(*label, content, next))?;
        }
        Ty::AnyElem(inner) => {
            let content = find(table, inner.get()).unwrap_or(0);
            work.edges.push(Edge::AnyElem(content, next))?;
        }
        Ty::Seq(left, right) => {
            let (left, right, from) = (left.get(), right.get(), work.edges.len());
            work.tasks.push(Task::First(Pair {
                left,
                right,
                next,
                from,
            }))?;
            work.tasks.push(Task::Read(right, next))?;
        }
        Ty::Alt(left, right) => {
            let (left, right) = (left.get(), right.get());
            if is_same(left, right) {
                work.tasks.push(Task::Read(left, next))?;
            } else {
                work.tasks.push(Task::Read(right, next))?;
                work.tasks.push(Task::Read(left, next))?;
            }
        }
        Ty::Star(inner) => {
            let state = put(table, copy_of(alloc, ty)?, next, true, Vec::new(alloc))?;
            work.tasks.push(Task::Row(state, work.edges.len()))?;
            work.tasks.push(Task::Read(inner.get(), state))?;
        }
        Ty::Named(index) => work.tasks.push(Task::Read(defs.unfold(*index), next))?,
    }
    Ok(())
}

// Puts a state for the second part of a sequence, whose edges stay where the first part is
// nullable. The first part is then read before that state.
fn put_second<'t>(
    alloc: Global,
    nullable: &[bool],
    table: &mut Table,
    work: &mut Work<'t>,
    pair: Pair<'t>,
) -> Result<(), AllocError>
    requires even { IsEven table.old }
    requires within { pair.from ≤ length work.old.edges.items }
    ensures grows { Grows (length table.old.rows.items) table.old table.new }
    ensures ok { OnOk result
        (PutsSecond nullable.now pair.entry table.old work.old table.new work.new) }
{
    let Pair {
        left,
        right,
        next,
        from,
    } = pair;
    let head = copy_of(alloc, right)?;
    let own = work.edges[from..].to_vec(alloc)?;
    let state = put(table, head, next, is_nullable(nullable, right), own)?;
    if !is_nullable(nullable, left) {
        work.edges.truncate(from);
    }
    work.tasks.push(Task::Read(left, state))?;
    Ok(())
}

// Gives a state the edges from a place on. It takes the empty forest.
fn fill_row(
    alloc: Global,
    table: &mut Table,
    edges: &[Edge],
    state: u64,
    from: usize,
) -> Result<(), AllocError>
    requires there { state < length table.old.rows.items }
    requires within { from ≤ length edges.now }
    ensures same { OnErr result (table.new ≡ table.old) }
    ensures ok { OnOk result (FillsRow table.old table.new edges.now state from) }
{
    let own = edges[from..].to_vec(alloc)?;
    set_row(table, state, true, own);
    Ok(())
}

// The edges of a type and then what a state stands for. States are added for what stands behind
// the first tree. It recurses neither by the type nor by names.
pub(crate) fn linear(
    alloc: Global,
    defs: &Defs,
    nullable: &[bool],
    table: &mut Table,
    ty: &Ty,
    next: u64,
) -> Result<Vec<Edge>, AllocError>
    requires ground { IsGround defs.now nullable.now table.old }
    requires ready { Ready (length defs.now) table.old.cells.items (ty_of ty.now) }
    requires labels { LabelsStand defs.now table.old.cells.items (ty_of ty.now) }
    requires tail { next < length table.old.cells.items }
    ensures grows { Grows (length table.old.rows.items) table.old table.new }
    ensures ok { IfOk result
        (λ edges. Linear defs.now table.old table.new (ty_of ty.now) next edges.items) }
{
    let edges = Vec::new(alloc);
    let mut tasks = Vec::new(alloc);
    tasks.push(Task::Read(ty, next))?;
    let mut work = Work { edges, tasks };
    while let Some(task) = work.tasks.pop() {
        match task {
            Task::Read(ty, next) => read(alloc, defs, table, &mut work, ty, next)?,
            Task::First(pair) => put_second(alloc, nullable, table, &mut work, pair)?,
            Task::Row(state, from) => fill_row(alloc, table, &work.edges, state, from)?,
        }
    }
    Ok(work.edges)
}
