// The table of an automaton: begun with its definitions, and made longer by types.
ghost use Rattle.std.specs.Prelude.{◌≡◌, ◌<◌, ◌≤◌, length, take, IfOk, OnOk, OnErr};
ghost use Rattle.flux_schema.specs.Definitions.{IsKnown};
ghost use Rattle.flux_types.specs.Read.{ty_of};
ghost use Rattle.flux_auto.specs.Standing.{TellsNullable};
ghost use Rattle.flux_auto.specs.Built.{Grows, IsBegun, IsComplete, LabelsOfBodies, LabelsMore, Extended};

use crate::close::complete;
use crate::content::{put_content, register};
use crate::table::{Table, put};
use flux_types::{Defs, Ty};
use indexmap::IndexMap;
use std::alloc::{AllocError, Global};

// A table with no state but the end.
fn begun(alloc: Global) -> Result<Table, AllocError>
    ensures { IfOk result IsBegun }
{
    let mut table = Table {
        cells: Vec::new(alloc),
        rows: Vec::new(alloc),
        guesses: IndexMap::new(alloc),
    };
    put(&mut table, Ty::Empty, 0, true, Vec::new(alloc))?;
    Ok(table)
}

// A table with the states of the definitions.
pub(crate) fn begin(alloc: Global, defs: &Defs, nullable: &[bool]) -> Result<Table, AllocError>
    requires { TellsNullable defs.now nullable.now }
    ensures complete { IfOk result (IsComplete defs.now nullable.now) }
    ensures labels { IfOk result (LabelsOfBodies defs.now) }
{
    let mut table = begun(alloc)?;
    for index in 0..defs.len() {
        register(alloc, &mut table, defs.unfold(index))?;
    }
    complete(alloc, defs, nullable, &mut table, 1)?;
    Ok(table)
}

// The state of a type, with the states that it leads to.
fn extend(
    alloc: Global,
    defs: &Defs,
    nullable: &[bool],
    table: &mut Table,
    ty: &Ty,
) -> Result<u64, AllocError>
    requires complete { IsComplete defs.now nullable.now table.old }
    requires known { IsKnown defs.now (ty_of ty.now) }
    ensures grows { Grows (length table.old.rows.items) table.old table.new }
    ensures ok { IfOk result (λ s. Extended defs.now nullable.now table.new (ty_of ty.now) s) }
    ensures labels { OnOk result (LabelsMore defs.now table.old table.new (ty_of ty.now)) }
{
    let from = table.cells.len() as u64;
    register(alloc, table, ty)?;
    let state = put_content(alloc, table, ty)?;
    complete(alloc, defs, nullable, table, from)?;
    Ok(state)
}

// The same, with the table as it was where memory is wanting.
pub(crate) fn extend_or_stay(
    alloc: Global,
    defs: &Defs,
    nullable: &[bool],
    table: &mut Table,
    ty: &Ty,
) -> Result<u64, AllocError>
    requires complete { IsComplete defs.now nullable.now table.old }
    requires known { IsKnown defs.now (ty_of ty.now) }
    ensures grows { OnOk result (Grows (length table.old.rows.items) table.old table.new) }
    ensures ok { IfOk result (λ s. Extended defs.now nullable.now table.new (ty_of ty.now) s) }
    ensures labels { OnOk result (LabelsMore defs.now table.old table.new (ty_of ty.now)) }
    ensures cells { OnErr result (table.new.cells.items ≡ table.old.cells.items) }
    ensures rows { OnErr result (table.new.rows.items ≡ table.old.rows.items) }
{
    let before = table.cells.len();
    let state = extend(alloc, defs, nullable, table, ty);
    if state.is_err() {
        table.cells.truncate(before);
        table.rows.truncate(before);
    }
    state
}
