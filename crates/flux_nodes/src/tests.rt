ghost use Rattle.std.specs.Prelude.{◌≡◌, ℕ, Some, IfOk};
ghost use Rattle.flux_trees.specs.Frame.{plug};
ghost use Rattle.flux_trees.specs.Hedge.{nil};
ghost use Rattle.flux_trees.specs.Draft.{depth};
ghost use Rattle.flux_nodes.specs.declared.run.Run.{Run};
ghost use Rattle.flux_nodes.specs.Tables.{RunAt, ElementAt, IsUnlinked};

use crate::{Kind, NodeId, Place, Run, Table};
use flux_atom::{Atom, Name, Names, Word};
use flux_forest::{Forest, Head, View};
use std::alloc::{AllocError, Global};
use std::test::Fail;

#[tactic(auto, using(flux_trees::proofs::DraftLaws::drafts))]
fn push_element(
    forest: &mut Forest,
    alloc: Global,
    name: Name,
    text: &str,
) -> Result<(), AllocError>
    ensures { IfOk result (λ _. depth forest.new ≡ depth forest.old) }
{
    forest.begin_element(name)?;
    forest.push_atom(Atom::Text(Word::of(alloc, text)?))?;
    forest.end_element();
    Ok(())
}

// lib[book["A"],cd["B"]], with one label for all
#[tactic(auto, using(flux_trees::proofs::DraftLaws::drafts))]
fn books(alloc: Global, name: Name) -> Result<Forest, AllocError>
    ensures { IfOk result (λ forest. depth forest ≡ 0) }
{
    let mut forest = Forest::new(alloc);
    forest.begin_element(name)?;
    push_element(&mut forest, alloc, name, "A")?;
    push_element(&mut forest, alloc, name, "B")?;
    forest.end_element();
    Ok(forest)
}

// A table whose document is these trees.
fn linked(alloc: Global, view: View<'_>) -> Result<Table, AllocError> {
    let mut table = Table::new(alloc);
    let run = table.add_tree_cells(view)?;
    if let Some(run) = run {
        let top = Place {
            parent: None,
            after: None,
        };
        table.link_range(top, run);
    }
    Ok(table)
}

// What the first tree of the document contains.
fn content(table: &Table) -> Option<Run>
    ensures { (run : Run) → result ≡ Some run → RunAt table.now.document run }
{
    let run = table.top()?;
    let cell = table.cell(run.first);
    let first = cell.first?;
    let last = cell.last?;
    Some(Run { first, last })
}

fn take_out(table: &mut Table, run: Run)
    requires { RunAt table.old.document run }
    ensures unlinked { IsUnlinked table.new run }
    ensures document { (at : RunAt table.old.document run) →
        table.new.document ≡ plug at.frames nil }
{
    table.table_is_sound();
    table.unlink_range(run);
}

fn free(table: &mut Table, run: Run)
    requires { RunAt table.old.document run }
{
    take_out(table, run);
    table.free_range(run);
}

fn put_back(table: &mut Table, run: Run)
    requires { RunAt table.old.document run }
{
    let place = table.place_of(run);
    take_out(table, run);
    table.link_range(place, run);
}

// What is done to a table.
#[derive(Clone, Copy)]
enum Way {
    Nothing,
    Unlinked,
    PutBack,
    Freed,
    AllFreed,
    AddedAgain,
}

fn go(table: &mut Table, way: Way, view: View<'_>) -> Result<(), AllocError> {
    let inside = content(table);
    match (way, inside) {
        (Way::Unlinked, Some(run)) => take_out(table, run),
        (Way::PutBack, Some(run)) => put_back(table, run),
        (Way::Freed, Some(run)) => free(table, run),
        (Way::AddedAgain, Some(run)) => {
            free(table, run);
            table.add_tree_cells(view)?;
        }
        (Way::AllFreed, _) => free_all(table),
        _ => {}
    }
    Ok(())
}

fn free_all(table: &mut Table) {
    if let Some(run) = table.top() {
        free(table, run);
    }
}

// What the document's first tree contains, how many nodes there are, the first two numbers to come
// and the fifth, and whether node 3 is in the document.
fn state(table: &Table) -> (Option<Run>, [u64; 4], bool) {
    let numbers = [
        table.made(),
        table.next_number(0),
        table.next_number(1),
        table.next_number(4),
    ];
    (content(table), numbers, table.holds(NodeId(3)))
}

fn state_after(alloc: Global, way: Way) -> Result<(Option<Run>, [u64; 4], bool), AllocError> {
    let mut names = Names::new(alloc);
    let name = names.intern("a")?;
    let forest = books(alloc, name)?;
    let mut table = linked(alloc, forest.view())?;
    go(&mut table, way, forest.view())?;
    let copy = table.copy(alloc)?;
    Ok(state(&copy))
}

#[test]
fn tables_after_calls(rt: HostRuntime) -> Result<(), Fail> {
    let alloc = rt.alloc();
    let both = Run {
        first: NodeId(1),
        last: NodeId(3),
    };
    for (way, inside, numbers, held) in [
        (Way::Nothing, Some(both), [5, 5, 6, 9], true),
        (Way::Unlinked, None, [5, 5, 6, 9], false),
        (Way::PutBack, Some(both), [5, 5, 6, 9], true),
        (Way::Freed, None, [1, 1, 2, 5], false),
        (Way::AllFreed, None, [0, 0, 1, 4], false),
        (Way::AddedAgain, None, [6, 6, 7, 10], false),
    ] {
        let (found, counts, here) = state_after(alloc, way)?;
        assert_eq!(rt; found, inside);
        assert_eq!(rt; counts, numbers);
        assert_eq!(rt; here, held);
    }
    Ok(())
}

// The label of the run's first tree, if that is an element.
fn label(table: &Table, run: Run) -> Option<Name>
    requires { RunAt table.now.document run }
    ensures { (name : ℕ) → result ≡ Some name → ElementAt table.now.document run.first }
{
    match &table.cell(run.first).kind {
        Kind::Elem(name) => Some(*name),
        Kind::Leaf(_) => None,
        Kind::Free => None,
    }
}

fn rename(table: &mut Table, run: Run, name: Name)
    requires { RunAt table.old.document run }
{
    if let Some(_) = label(table, run) {
        table.set_label(run.first, name);
    }
}

fn rename_first(table: &mut Table, name: Name) {
    if let Some(run) = table.top() {
        rename(table, run, name);
    }
}

fn document(alloc: Global, table: &Table) -> Result<Forest, AllocError>
    ensures { IfOk result (λ forest. depth forest ≡ 0) }
{
    match table.top() {
        Some(run) => table.copy_run(alloc, run),
        None => Ok(Forest::new(alloc)),
    }
}

#[test]
fn copies_and_labels(rt: HostRuntime) -> Result<(), Fail> {
    let alloc = rt.alloc();
    let mut names = Names::new(alloc);
    let name = names.intern("a")?;
    let other = names.intern("b")?;
    let forest = books(alloc, name)?;
    let mut table = linked(alloc, forest.view())?;
    let copied = document(alloc, &table)?;
    assert!(rt; copied.view().equal(forest.view()));
    rename_first(&mut table, other);
    let renamed = document(alloc, &table)?;
    let found = match renamed.view().head() {
        Head::Elem(label) => label == other,
        _ => false,
    };
    assert!(rt; found);
    Ok(())
}
