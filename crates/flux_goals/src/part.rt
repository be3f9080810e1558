// Parting the ways of an element between its content and what stands after it.
ghost use Rattle.std.specs.Prelude.{◌≡◌, ◌⊎◌, ◌<◌, ℕ, length, IfOk, OnOk, IsTrue};
ghost use Rattle.flux_auto.specs.Going.{Has};
ghost use Rattle.flux_goals.specs.Table.{Asks, IsTable, IsElement, IsParting, AreBothAsked, Branches, IsPart};

use crate::goal::{Element, Way, copy_of};
use crate::sets::{copy_with, has};
use crate::table::{Table, ask};
use flux_atom::Name;
use flux_auto::Auto;
use std::alloc::{AllocError, Global};

// The ways before the place are parted: each is taken up by its content, among the inner states, or
// by its rest, among the outer ones. The taken contents are those whose ways go by their rests.
#[derive(Drop)]
pub(crate) struct Parting {
    pub(crate) place: usize,
    pub(crate) inner: Vec<u64>,
    pub(crate) outer: Vec<u64>,
    pub(crate) taken: Vec<u64>,
}

// What was found against both goals of a parting: of the content and the inner states, and of the
// rest and the outer ones. None if something is open or holds.
fn ask_both(
    alloc: Global,
    auto: &Auto,
    other: Name,
    table: &mut Table,
    element: &Element,
    parting: &Parting,
) -> Result<Option<(usize, usize)>, AllocError>
    requires table { IsTable auto.now.states other table.old.goals.entries table.old.shown.items }
    requires element { IsElement (length auto.now.states) element.now }
    requires parting { IsParting (length auto.now.states) element.now.ways.items parting.now }
    ensures table { IsTable auto.now.states other table.new.goals.entries table.new.shown.items }
    ensures asks { Asks table.old table.new }
    ensures asked { IfOk result (AreBothAsked auto.now.states table.new.goals.entries
        table.new.shown.items element.now parting.now) }
{
    let inner = copy_of(alloc, &parting.inner)?;
    let Some(first) = ask(auto, other, table, element.content, inner)? else {
        return Ok(None);
    };
    let outer = copy_of(alloc, &parting.outer)?;
    let Some(second) = ask(auto, other, table, element.rest, outer)? else {
        return Ok(None);
    };
    Ok(Some((first, second)))
}

// Whether a way is taken up: its content by the inner states, or its rest by the outer ones.
fn is_taken(way: Way, parting: &Parting) -> bool
    ensures yes { IsTrue result →
        Has parting.now.inner.items way.content ⊎ Has parting.now.outer.items way.rest }
{
    has(&parting.inner, way.content) || has(&parting.outer, way.rest)
}

// The partings with one way more: it goes by its content, or by its rest, or by what its content
// tells already. The last is to be looked at first.
fn branch(
    alloc: Global,
    ways: &[Way],
    parting: Parting,
    partings: &mut Vec<Parting>,
) -> Result<(), AllocError>
    requires { parting.place < length ways.now }
    ensures { OnOk result (Branches ways.now parting partings.old.items partings.new.items) }
{
    let way = ways[parting.place];
    let place = parting.place + 1;
    if is_taken(way, &parting) {
        partings.push(Parting { place, ..parting })?;
        return Ok(());
    }
    let outer = copy_with(alloc, &parting.outer, way.rest)?;
    if has(&parting.taken, way.content) {
        let inner = parting.inner;
        let taken = parting.taken;
        partings.push(Parting {
            place,
            inner,
            outer,
            taken,
        })?;
        return Ok(());
    }
    let inner = copy_of(alloc, &parting.inner)?;
    let taken = copy_with(alloc, &parting.taken, way.content)?;
    partings.push(Parting {
        place,
        inner,
        outer,
        taken,
    })?;
    let inner = copy_with(alloc, &parting.inner, way.content)?;
    partings.push(Parting {
        place,
        inner,
        outer: parting.outer,
        taken: parting.taken,
    })?;
    Ok(())
}

// Looks for forests against both goals of a parting: the content against the contents of some of
// the ways, and the rest against the rests of the others. It stops at the first goal that is added.
pub(crate) fn part(
    alloc: Global,
    auto: &Auto,
    other: Name,
    table: &mut Table,
    element: &Element,
) -> Result<Option<(usize, usize)>, AllocError>
    requires table { IsTable auto.now.states other table.old.goals.entries table.old.shown.items }
    requires element { IsElement (length auto.now.states) element.now }
    ensures table { IsTable auto.now.states other table.new.goals.entries table.new.shown.items }
    ensures asks { Asks table.old table.new }
    ensures part { IfOk result (IsPart (length table.old.goals.entries) auto.now.states
        table.new.goals.entries table.new.shown.items element.now) }
{
    let before = table.goals.len();
    let mut partings = Vec::new(alloc);
    partings.push(Parting {
        place: 0,
        inner: Vec::new(alloc),
        outer: Vec::new(alloc),
        taken: Vec::new(alloc),
    })?;
    while let Some(parting) = partings.pop() {
        let both = ask_both(alloc, auto, other, table, element, &parting)?;
        if table.goals.len() > before {
            return Ok(None);
        }
        if let Some(both) = both {
            if parting.place == element.ways.len() {
                return Ok(Some(both));
            }
            branch(alloc, &element.ways, parting, &mut partings)?;
        }
    }
    Ok(None)
}
