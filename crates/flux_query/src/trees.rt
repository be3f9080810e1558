// What queries ask of forests.
ghost use Rattle.std.specs.Prelude.{◌≡◌, Some, IsSome, OnOk, if◌then◌else◌};
ghost use Rattle.flux_trees.specs.Hedge.{nil, leaf};
ghost use Rattle.flux_trees.specs.Same.{same};
ghost use Rattle.flux_atom.specs.declared.atom.Atom.TheVariants.{Bool};
ghost use Rattle.flux_trees.specs.Draft.{add};
ghost use Rattle.flux_forest.specs.View.{forest_of};
ghost use Rattle.flux_calculus.specs.Tests.{matches};
ghost use Rattle.flux_calculus.specs.Query.{truth_of, number_of, compared, content_of_one, passing};
ghost use Rattle.flux_query.specs.Added.{added};

use flux_atom::Atom;
use flux_calculus::Test;
use flux_forest::{First, Forest, Head, View};
use std::alloc::AllocError;

// The truth value that a run is.
pub(crate) fn truth(view: View<'_>) -> bool
    requires { IsSome (truth_of (forest_of view)) }
    ensures { truth_of (forest_of view.entry) ≡ Some result }
{
    match view.head() {
        Head::Atom(Atom::Bool(truth)) => *truth,
        _ => unreachable!(),
    }
}

// The number that a run is.
fn number(view: View<'_>) -> i64
    requires { IsSome (number_of (forest_of view)) }
    ensures { number_of (forest_of view.entry) ≡ Some result }
{
    match view.head() {
        Head::Atom(Atom::Int(number)) => *number,
        _ => unreachable!(),
    }
}

// What the one tree of a run contains.
pub(crate) fn content(view: View<'_>) -> View<'_>
    requires { IsSome (content_of_one (forest_of view)) }
    ensures { content_of_one (forest_of view.entry) ≡ Some (forest_of result) }
{
    view.opened()
}

// Whether the first tree of a run passes a test.
fn passes(test: &Test, view: View<'_>) -> bool
    ensures { result ≡ matches test.now (forest_of view.entry) }
{
    match (test, view.first()) {
        (Test::Label(wanted), First::Elem(name)) => *wanted == name,
        (Test::AnyElement, First::Elem(_)) => true,
        (Test::OfText, First::Atom(Atom::Text(_))) => true,
        (Test::OfBool, First::Atom(Atom::Bool(_))) => true,
        (Test::OfInt, First::Atom(Atom::Int(_))) => true,
        _ => false,
    }
}

// Adds whether two runs have the same trees.
pub(crate) fn push_same(
    left: View<'_>,
    right: View<'_>,
    values: &mut Forest,
) -> Result<(), AllocError>
    ensures { let truth = same (forest_of left.entry) (forest_of right.entry) in
        OnOk result (values.new ≡ add values.old (leaf tt (Bool truth) nil)) }
{
    values.push_atom(Atom::Bool(left.equal(right)))?;
    Ok(())
}

// Adds whether the number that one run is is less than that of another.
pub(crate) fn push_less(
    left: View<'_>,
    right: View<'_>,
    values: &mut Forest,
) -> Result<(), AllocError>
    requires { IsSome (compared (number_of (forest_of left)) (number_of (forest_of right))) }
    ensures { let less = compared (number_of (forest_of left.entry))
        (number_of (forest_of right.entry)) in
        OnOk result (added values.old less ≡ Some values.new) }
{
    values.push_atom(Atom::Bool(number(left) < number(right)))?;
    Ok(())
}

// Adds a tree where it passes a test.
fn push_if_passing(test: &Test, tree: View<'_>, values: &mut Forest) -> Result<(), AllocError>
    ensures { let v = forest_of tree.entry in
        OnOk result (values.new ≡ add values.old (if matches test.now v then v else nil)) }
{
    if passes(test, tree) {
        values.append(tree)?;
    }
    Ok(())
}

// Adds the trees that pass a test.
pub(crate) fn push_passing(
    test: &Test,
    view: View<'_>,
    values: &mut Forest,
) -> Result<(), AllocError>
    ensures { OnOk result (values.new ≡ add values.old (passing test.now (forest_of view.entry))) }
{
    for tree in view.trees() {
        push_if_passing(test, tree, values)?;
    }
    Ok(())
}
