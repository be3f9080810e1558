ghost use Rattle.std.specs.Prelude.{◌≡◌, OnOk, IfOk};
ghost use Rattle.flux_trees.specs.Draft.{depth};

use crate::{First, Forest, Head, View};
use flux_atom::{Atom, Name, Names, Word};
use std::alloc::{AllocError, Global};
use std::test::Fail;

// The labels of the nodes in document order, with `None` for an atom.
fn labels(alloc: Global, view: View<'_>) -> Result<Vec<Option<Name>>, AllocError> {
    let mut labels = Vec::new(alloc);
    let mut rest = view;
    for _ in 0..100 {
        match rest.first() {
            First::Nothing => return Ok(labels),
            First::Elem(name) => labels.push(Some(name))?,
            First::Atom(_) => labels.push(None)?,
        }
        rest = rest.opened();
    }
    Ok(labels)
}

// What each tree of the run is: a text, or "[" for an element, or "" for what is neither.
fn shape<'a>(alloc: Global, view: View<'a>) -> Result<Vec<&'a str>, AllocError> {
    let mut shape = Vec::new(alloc);
    for tree in view.trees() {
        match tree.head() {
            Head::Atom(Atom::Text(word)) => shape.push(word.as_str())?,
            Head::Elem(_) => shape.push("[")?,
            _ => shape.push("")?,
        }
    }
    Ok(shape)
}

// What the one element of the run contains, or else the run.
fn inside(view: View<'_>) -> View<'_> {
    match view.head() {
        Head::Elem(_) => view.content(),
        _ => view,
    }
}

// The first tree of the run, or else the run.
fn first_tree(view: View<'_>) -> View<'_> {
    match view.first() {
        First::Nothing => view,
        _ => view.split().0,
    }
}

#[tactic(auto, using(flux_trees::proofs::DraftLaws::drafts))]
fn push_pair(forest: &mut Forest, alloc: Global, name: Name, text: &str) -> Result<(), AllocError>
    ensures { OnOk result (depth forest.new ≡ depth forest.old) }
{
    forest.begin_element(name)?;
    forest.push_atom(Atom::Text(Word::of(alloc, text)?))?;
    forest.push_atom(Atom::Bool(true))?;
    forest.end_element();
    Ok(())
}

// name[name["A",true],name["B",true]]
#[tactic(auto, using(flux_trees::proofs::DraftLaws::drafts))]
fn pairs(alloc: Global, name: Name) -> Result<Forest, AllocError>
    ensures { IfOk result (λ forest. depth forest ≡ 0) }
{
    let mut forest = Forest::new(alloc);
    forest.begin_element(name)?;
    push_pair(&mut forest, alloc, name, "A")?;
    push_pair(&mut forest, alloc, name, "B")?;
    forest.end_element();
    Ok(forest)
}

// The trees inside the run, and then those of the run.
#[tactic(auto, using(flux_trees::proofs::DraftLaws::drafts))]
fn copied(alloc: Global, view: View<'_>) -> Result<Forest, AllocError>
    ensures { IfOk result (λ forest. depth forest ≡ 0) }
{
    let mut forest = Forest::new(alloc);
    forest.append(inside(view))?;
    forest.append(view)?;
    Ok(forest)
}

fn a_name(alloc: Global) -> Result<Name, AllocError> {
    let mut names = Names::new(alloc);
    names.intern("pair")
}

#[test]
fn writes_in_order(rt: HostRuntime) -> Result<(), Fail> {
    let alloc = rt.alloc();
    let name = a_name(alloc)?;
    let forest = pairs(alloc, name)?;
    let labels = labels(alloc, forest.view())?;
    let wanted = [Some(name), Some(name), None, None, Some(name), None, None];
    assert_eq!(rt; labels.as_slice(), wanted.as_slice());
    Ok(())
}

#[test]
fn shows_each_tree(rt: HostRuntime) -> Result<(), Fail> {
    let alloc = rt.alloc();
    let forest = pairs(alloc, a_name(alloc)?)?;
    let first = first_tree(inside(forest.view()));
    let shape = shape(alloc, inside(first))?;
    assert_eq!(rt; shape.as_slice(), ["A", ""].as_slice());
    Ok(())
}

#[test]
fn appends_copies(rt: HostRuntime) -> Result<(), Fail> {
    let alloc = rt.alloc();
    let forest = pairs(alloc, a_name(alloc)?)?;
    let copied = copied(alloc, first_tree(inside(forest.view())))?;
    let shape = shape(alloc, copied.view())?;
    assert_eq!(rt; shape.as_slice(), ["A", "", "["].as_slice());
    Ok(())
}

// As many truth values in a row.
#[tactic(auto, using(flux_trees::proofs::DraftLaws::drafts))]
fn truths(alloc: Global, count: usize) -> Result<Forest, AllocError>
    ensures { IfOk result (λ forest. depth forest ≡ 0) }
{
    let mut forest = Forest::new(alloc);
    for at in 0..count {
        forest.push_atom(Atom::Bool(at % 2 == 0))?;
    }
    Ok(forest)
}

// Two numbers in a row.
#[tactic(auto, using(flux_trees::proofs::DraftLaws::drafts))]
fn numbers(alloc: Global, first: i64, second: i64) -> Result<Forest, AllocError>
    ensures { IfOk result (λ forest. depth forest ≡ 0) }
{
    let mut forest = Forest::new(alloc);
    forest.push_atom(Atom::Int(first))?;
    forest.push_atom(Atom::Int(second))?;
    Ok(forest)
}

#[test]
fn tells_numbers_apart(rt: HostRuntime) -> Result<(), Fail> {
    let alloc = rt.alloc();
    let row = numbers(alloc, i64::MIN, i64::MAX)?;
    let again = numbers(alloc, i64::MIN, i64::MAX)?;
    let other = numbers(alloc, i64::MIN, i64::MIN)?;
    let truths = truths(alloc, 2)?;
    assert!(rt; row.view().equal(again.view()));
    assert!(rt; !row.view().equal(other.view()));
    assert!(rt; !row.view().equal(truths.view()));
    let copied = row.view().copy(alloc)?;
    assert!(rt; copied.is_whole() && copied.view().equal(row.view()));
    assert_eq!(rt; copied.view().count(), 2);
    Ok(())
}

#[test]
fn tells_forests_apart(rt: HostRuntime) -> Result<(), Fail> {
    let alloc = rt.alloc();
    let name = a_name(alloc)?;
    let forest = pairs(alloc, name)?;
    let again = pairs(alloc, name)?;
    let empty = Forest::new(alloc);
    let long = truths(alloc, 1000)?;
    let longer = truths(alloc, 1001)?;
    assert!(rt; forest.view().equal(again.view()));
    assert!(rt; empty.view().equal(empty.view()));
    assert!(rt; !forest.view().equal(empty.view()));
    assert!(rt; !forest.view().equal(inside(again.view())));
    assert!(rt; long.view().equal(long.view()));
    assert!(rt; !long.view().equal(longer.view()));
    Ok(())
}

#[test]
fn counts_and_copies(rt: HostRuntime) -> Result<(), Fail> {
    let alloc = rt.alloc();
    let forest = pairs(alloc, a_name(alloc)?)?;
    let empty = Forest::new(alloc);
    let long = truths(alloc, 1000)?;
    for (view, count) in [(forest.view(), 7), (empty.view(), 0), (long.view(), 1000)] {
        let copied = view.copy(alloc)?;
        assert_eq!(rt; view.count(), count);
        assert!(rt; copied.is_whole() && copied.view().equal(view));
    }
    Ok(())
}
