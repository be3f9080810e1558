// States that stand for one type alone, as the contents of elements.
ghost use Rattle.std.specs.Prelude.{◌≡◌, ◌<◌, ◌≤◌, ◌↔◌, IsTrue, length, IfOk, OnOk, IfSome, IfNone};
ghost use Rattle.flux_schema.specs.Tidy.{same};
ghost use Rattle.flux_types.specs.Read.{ty_of};
ghost use Rattle.flux_auto.specs.Standing.{IsContent, HasContent};
ghost use Rattle.flux_auto.specs.Built.{Grows, IsEven, Registered, PutContent};

use crate::table::{Cell, Table, put};
use flux_atom::AtomKind;
use flux_types::{Ty, copy_of};
use std::alloc::{AllocError, Global};

/// Whether two types are the same tree.
pub fn is_same(left: &Ty, right: &Ty) -> bool
    ensures { result ≡ same (ty_of left.now) (ty_of right.now) }
{
    match (left, right) {
        (Ty::Empty, Ty::Empty) => true,
        (Ty::Atom(k), Ty::Atom(l)) => k == l,
        (Ty::Elem(n, t), Ty::Elem(m, u)) => n == m && is_same(t.get(), u.get()),
        (Ty::AnyElem(t), Ty::AnyElem(u)) => is_same(t.get(), u.get()),
        (Ty::Seq(t, u), Ty::Seq(v, w)) => is_same(t.get(), v.get()) && is_same(u.get(), w.get()),
        (Ty::Alt(t, u), Ty::Alt(v, w)) => is_same(t.get(), v.get()) && is_same(u.get(), w.get()),
        (Ty::Star(t), Ty::Star(u)) => is_same(t.get(), u.get()),
        (Ty::Named(x), Ty::Named(y)) => x == y,
        _ => false,
    }
}

fn is_content(cell: &Cell, ty: &Ty) -> bool
    ensures { IsTrue result ↔ ((ty_of cell.now.head ≡ ty_of ty.now) × (cell.now.tail ≡ 0)) }
{
    cell.tail == 0 && is_same(&cell.head, ty)
}

// A number for two.
fn mixed(left: u64, right: u64) -> u64 {
    (left.rotate_left(5) ^ right).wrapping_mul(0x9E37_79B9_7F4A_7C15)
}

// A number that equal types share, and others hardly ever do.
fn fingerprint(ty: &Ty) -> u64 {
    match ty {
        Ty::Empty => 1,
        Ty::Atom(AtomKind::Bool) => 2,
        Ty::Atom(AtomKind::Text) => 3,
        Ty::Atom(AtomKind::Int) => 4,
        Ty::Elem(label, inner) => mixed(
            mixed(5, u64::from(label.number())),
            fingerprint(inner.get()),
        ),
        Ty::AnyElem(inner) => mixed(6, fingerprint(inner.get())),
        Ty::Seq(left, right) => mixed(mixed(7, fingerprint(left.get())), fingerprint(right.get())),
        Ty::Alt(left, right) => mixed(mixed(8, fingerprint(left.get())), fingerprint(right.get())),
        Ty::Star(inner) => mixed(9, fingerprint(inner.get())),
        Ty::Named(index) => mixed(10, u64::from(*index)),
    }
}

// The state that was put for a type with this fingerprint, where it stands for the type alone.
fn guessed(table: &Table, print: u64, ty: &Ty) -> Option<u64>
    ensures { IfSome result (λ s. IsContent table.now.cells.items s (ty_of ty.now)) }
{
    let state = table.guesses.get(&print).copied()?;
    if state == 0 || state >= table.cells.len() as u64 {
        return None;
    }
    if is_content(&table.cells[state as usize], ty) {
        Some(state)
    } else {
        None
    }
}

fn first_content(cells: &[Cell], ty: &Ty) -> Option<u64>
    ensures found { IfSome result (λ s. IsContent cells.now s (ty_of ty.now)) }
    ensures none { IfNone result (¬ (HasContent cells.now (ty_of ty.now))) }
{
    for index in 1..cells.len() {
        if is_content(&cells[index], ty) {
            return Some(index as u64);
        }
    }
    None
}

// The state of a type alone. Only where two types share a fingerprint, all are looked through.
pub(crate) fn find(table: &Table, ty: &Ty) -> Option<u64>
    ensures found { IfSome result (λ s. IsContent table.now.cells.items s (ty_of ty.now)) }
    ensures none { IfNone result (¬ (HasContent table.now.cells.items (ty_of ty.now))) }
{
    match guessed(table, fingerprint(ty), ty) {
        Some(state) => Some(state),
        None => first_content(&table.cells, ty),
    }
}

// The state of a type alone, put last where none is guessed. Its edges are still to come.
pub(crate) fn put_content(alloc: Global, table: &mut Table, ty: &Ty) -> Result<u64, AllocError>
    requires even { IsEven table.old }
    requires begun { 1 ≤ length table.old.cells.items }
    ensures grows { Grows (length table.old.rows.items) table.old table.new }
    ensures ok { IfOk result (λ s. PutContent table.old table.new (ty_of ty.now) s) }
{
    let print = fingerprint(ty);
    if let Some(state) = guessed(table, print, ty) {
        return Ok(state);
    }
    let head = copy_of(alloc, ty)?;
    let state = put(table, head, 0, false, Vec::new(alloc))?;
    table.guesses.insert(print, state)?;
    Ok(state)
}

// Gives the content of each element of a type, at any depth, a state.
pub(crate) fn register(alloc: Global, table: &mut Table, ty: &Ty) -> Result<(), AllocError>
    requires even { IsEven table.old }
    requires begun { 1 ≤ length table.old.cells.items }
    ensures grows { Grows (length table.old.rows.items) table.old table.new }
    ensures ok { OnOk result (Registered table.old table.new (ty_of ty.now)) }
{
    match ty {
        Ty::Empty | Ty::Atom(_) | Ty::Named(_) => Ok(()),
        Ty::Elem(_, inner) | Ty::AnyElem(inner) => {
            let content = inner.get();
            register(alloc, table, content)?;
            put_content(alloc, table, content)?;
            Ok(())
        }
        Ty::Seq(left, right) | Ty::Alt(left, right) => {
            register(alloc, table, left.get())?;
            register(alloc, table, right.get())
        }
        Ty::Star(inner) => register(alloc, table, inner.get()),
    }
}
