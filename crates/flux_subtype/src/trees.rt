// The trees that are kept, by the edges that go by them.
ghost use Rattle.std.specs.Prelude.{OnOk};
ghost use Rattle.flux_subtype.specs.Search.{AddsTree, AddsElements};

use flux_atom::{AtomKind, Name};
use flux_auto::{Arcs, Leap, Set};
use indexmap::IndexMap;
use std::alloc::{AllocError, Global};

// An atom of a kind, or an element with a label and the forest of a kept profile as its content.
#[derive(Clone, Copy, Debug)]
pub(crate) enum Head {
    Atom(AtomKind),
    Elem(Name, usize),
}

// Keeps a tree, unless one is kept by which the same edges go.
pub(crate) fn add_tree(
    trees: &mut IndexMap<Vec<Leap>, Head>,
    head: Head,
    leaps: Vec<Leap>,
) -> Result<(), AllocError>
    ensures { OnOk result (AddsTree trees.old.entries trees.new.entries head leaps.items) }
{
    if trees.contains_key(&leaps) {
        return Ok(());
    }
    trees.insert(leaps, head)?;
    Ok(())
}

// Keeps the elements of each label whose content has the profile at an index. An element of a label
// that no edge is by alone goes by the edges of any label, as one with the label `other` does.
pub(crate) fn add_elements(
    alloc: Global,
    arcs: &Arcs,
    other: Name,
    set: &Set,
    content: usize,
    trees: &mut IndexMap<Vec<Leap>, Head>,
) -> Result<(), AllocError>
    ensures { OnOk result
        (AddsElements arcs.now other set.now content trees.old.entries trees.new.entries) }
{
    let labels = arcs.labels();
    for index in 0..labels.len() {
        let label = labels[index];
        let leaps = arcs.for_element(alloc, label, set)?;
        add_tree(trees, Head::Elem(label, content), leaps)?;
    }
    let leaps = arcs.for_element(alloc, other, set)?;
    add_tree(trees, Head::Elem(other, content), leaps)?;
    Ok(())
}
