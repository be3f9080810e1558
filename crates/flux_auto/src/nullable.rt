// Which types are nullable: have the empty forest as a member.
ghost use Rattle.std.specs.Prelude.{◌≡◌, ◌↔◌, ◌<◌, ◌≤◌, ℕ, IfOk, All, IsTrue, length, true, false};
ghost use Rattle.flux_schema.specs.Ty.{NamesBelow};
ghost use Rattle.flux_types.specs.Read.{ty_of};
ghost use Rattle.flux_auto.specs.Takes.{has};
ghost use Rattle.flux_auto.specs.Standing.{is_nullable, TellsNullable};
ghost use Rattle.flux_auto.specs.Marking.{Marked, Marks, MarksSound};

use flux_types::{Defs, Ty};
use std::alloc::{AllocError, Global};

// Whether a type is nullable, where it is told which names are.
pub(crate) fn is_nullable(nullable: &[bool], ty: &Ty) -> bool
    ensures { result ≡ is_nullable (has nullable.now) (ty_of ty.now) }
{
    match ty {
        Ty::Empty | Ty::Star(_) => true,
        Ty::Atom(_) | Ty::Elem(_, _) | Ty::AnyElem(_) => false,
        Ty::Seq(left, right) => is_nullable(nullable, left.get())
            && is_nullable(nullable, right.get()),
        Ty::Alt(left, right) => is_nullable(nullable, left.get())
            || is_nullable(nullable, right.get()),
        Ty::Named(index) => match nullable.get(*index as usize) {
            Some(known) => *known,
            None => false,
        },
    }
}

// Of each name, whether it is nullable. The rounds find what one pass leaves, which is hardly ever
// anything, and see that no more is left.
pub(crate) fn nullable_names(alloc: Global, defs: &Defs) -> Result<Vec<bool>, AllocError>
    ensures { IfOk result (λ nullable. TellsNullable defs.now nullable.items) }
{
    let mut nullable = marked_along(alloc, defs)?;
    while mark_more(defs, &mut nullable) {}
    Ok(nullable)
}

// The names that one pass finds, which goes to each name after those that its body names.
fn marked_along(alloc: Global, defs: &Defs) -> Result<Vec<bool>, AllocError>
    ensures even { IfOk result (λ nullable. length nullable.items ≡ length defs.now) }
    ensures sound { IfOk result (λ nullable. MarksSound defs.now nullable.items) }
{
    let order = defs.order(alloc)?;
    let mut nullable = vec![in alloc; false; defs.len() as usize]?;
    mark_along(defs, &order, &mut nullable);
    Ok(nullable)
}

// Marks a name, if it has no mark and its body is nullable, and tells whether it did.
fn mark(defs: &Defs, index: u32, nullable: &mut [bool]) -> bool
    requires known { index < length defs.now }
    requires even { length nullable.old ≡ length defs.now }
    ensures { Marked defs.now nullable.old nullable.new index result }
{
    if nullable[index as usize] {
        return false;
    }
    if !is_nullable(nullable, defs.unfold(index)) {
        return false;
    }
    nullable[index as usize] = true;
    true
}

// Marks the names of an order whose bodies are nullable, in turn.
fn mark_along(defs: &Defs, order: &[u32], nullable: &mut [bool])
    requires known { All (λ x. x < length defs.now) order.now }
    requires even { length nullable.old ≡ length defs.now }
    ensures { MarksSound defs.now nullable.old → MarksSound defs.now nullable.new }
{
    for index in order {
        mark(defs, *index, nullable);
    }
}

// Marks names whose bodies are nullable, and tells whether there were any.
fn mark_more(defs: &Defs, nullable: &mut [bool]) -> bool
    requires { length nullable.old ≡ length defs.now }
    ensures { Marks defs.now nullable.old nullable.new result }
{
    let mut more = false;
    for index in 0..defs.len() {
        if mark(defs, index, nullable) {
            more = true;
        }
    }
    more
}
