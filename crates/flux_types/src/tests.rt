// What no clause says: that calls succeed, and texts and faults worked out by hand.
ghost use Rattle.std.specs.Prelude.{◌≡◌, ◌+◌, ◌-◌, ◌^◌, ◌<◌, ◌≤◌, [], length, IfOk, OnOk};
ghost use Rattle.flux_atom.specs.Names.{IsName};
ghost use Rattle.flux_schema.specs.Ty.{NamesBelow};
ghost use Rattle.flux_schema.specs.Definitions.{Definitions};
ghost use Rattle.flux_schema.specs.TypeText.{IsWritable};
ghost use Rattle.flux_types.specs.Read.{ty_of};

use crate::{DefFault, Defs, Draft, Ty, copy_of, height, single, size, write_type};
use flux_atom::{AtomKind, Boxed, Name, Names, is_name};
use std::alloc::{AllocError, Global};
use std::process::Abort;
use std::test::Fail;

#[tactic(auto, using(crate::proofs::TableLaws::tables))]
fn name(names: &mut Names, text: &str) -> Result<Name, AllocError>
    requires name { IsName text.now }
    requires room { length names.old < 2 ^ 32 - 1 }
    ensures within { IfOk result (λ made. made < length names.new) }
    ensures grown { length names.old ≤ length names.new }
    ensures by_one { length names.new ≤ length names.old + 1 }
{
    names.intern(text)
}

fn element(alloc: Global, names: &Names, label: Name, inner: Ty) -> Result<Ty, AllocError>
    requires label { label < length names.now }
    requires inner { IsWritable (length names.now) [] (ty_of inner) }
    ensures { IfOk result (λ made. IsWritable (length names.now) [] (ty_of made)) }
{
    Ok(Ty::Elem(label, Boxed::new(alloc, inner)?))
}

fn seq(alloc: Global, names: &Names, left: Ty, right: Ty) -> Result<Ty, AllocError>
    requires left { IsWritable (length names.now) [] (ty_of left) }
    requires right { IsWritable (length names.now) [] (ty_of right) }
    ensures { IfOk result (λ made. IsWritable (length names.now) [] (ty_of made)) }
{
    Ok(Ty::Seq(Boxed::new(alloc, left)?, Boxed::new(alloc, right)?))
}

fn alt(alloc: Global, names: &Names, left: Ty, right: Ty) -> Result<Ty, AllocError>
    requires left { IsWritable (length names.now) [] (ty_of left) }
    requires right { IsWritable (length names.now) [] (ty_of right) }
    ensures { IfOk result (λ made. IsWritable (length names.now) [] (ty_of made)) }
{
    Ok(Ty::Alt(Boxed::new(alloc, left)?, Boxed::new(alloc, right)?))
}

fn star(alloc: Global, names: &Names, inner: Ty) -> Result<Ty, AllocError>
    requires { IsWritable (length names.now) [] (ty_of inner) }
    ensures { IfOk result (λ made. IsWritable (length names.now) [] (ty_of made)) }
{
    Ok(Ty::Star(Boxed::new(alloc, inner)?))
}

fn any(alloc: Global, names: &Names, inner: Ty) -> Result<Ty, AllocError>
    requires { IsWritable (length names.now) [] (ty_of inner) }
    ensures { IfOk result (λ made. IsWritable (length names.now) [] (ty_of made)) }
{
    Ok(Ty::AnyElem(Boxed::new(alloc, inner)?))
}

// Asserts the text of a type that names no definition.
#[tactic(auto, using(flux_schema::proofs::TidyLaws::tidy_writable))]
fn assert_text(
    rt: &impl Abort,
    alloc: Global,
    names: &Names,
    ty: Ty,
    want: &str,
) -> Result<(), Fail>
    requires { IsWritable (length names.now) [] (ty_of ty) }
{
    let defs = no_definitions(alloc)?;
    let mut out = Vec::new(alloc);
    write_type(alloc, &defs, &ty, names, &mut out)?;
    assert_eq!(rt; out.as_slice(), want.as_bytes());
    Ok(())
}

fn no_definitions(alloc: Global) -> Result<Defs, DefFault>
    ensures { IfOk result (λ defs. defs ≡ []) }
{
    Draft::new(alloc).close()
}

fn leaf(alloc: Global, names: &Names, label: Name) -> Result<Ty, AllocError>
    requires { label < length names.now }
    ensures { IfOk result (λ made. IsWritable (length names.now) [] (ty_of made)) }
{
    element(alloc, names, label, Ty::Empty)
}

fn either(alloc: Global, names: &Names, left: Name, right: Name) -> Result<Ty, AllocError>
    requires left { left < length names.now }
    requires right { right < length names.now }
    ensures { IfOk result (λ made. IsWritable (length names.now) [] (ty_of made)) }
{
    let left = leaf(alloc, names, left)?;
    let right = leaf(alloc, names, right)?;
    alt(alloc, names, left, right)
}

fn both(alloc: Global, names: &Names, left: Name, right: Name) -> Result<Ty, AllocError>
    requires left { left < length names.now }
    requires right { right < length names.now }
    ensures { IfOk result (λ made. IsWritable (length names.now) [] (ty_of made)) }
{
    let left = leaf(alloc, names, left)?;
    let right = leaf(alloc, names, right)?;
    seq(alloc, names, left, right)
}

fn after_empty(alloc: Global, names: &Names, label: Name) -> Result<Ty, AllocError>
    requires { label < length names.now }
    ensures { IfOk result (λ made. IsWritable (length names.now) [] (ty_of made)) }
{
    let inner = leaf(alloc, names, label)?;
    seq(alloc, names, Ty::Empty, inner)
}

#[test]
fn text_of_what_is_tidied(rt: HostRuntime) -> Result<(), Fail> {
    let alloc = rt.alloc();
    let mut names = Names::new(alloc);
    let a = name(&mut names, "a")?;
    // ((),a[])|((),a[])
    let left = after_empty(alloc, &names, a)?;
    let right = after_empty(alloc, &names, a)?;
    let made = alt(alloc, &names, left, right)?;
    assert_text(&rt, alloc, &names, made, "a[]")?;
    // ()*
    let made = star(alloc, &names, Ty::Empty)?;
    assert_text(&rt, alloc, &names, made, "()")
}

#[test]
fn text_of_leaves(rt: HostRuntime) -> Result<(), Fail> {
    let alloc = rt.alloc();
    let mut names = Names::new(alloc);
    let a = name(&mut names, "a")?;
    let reserved = name(&mut names, "DO")?;
    let made = leaf(alloc, &names, reserved)?;
    assert_text(&rt, alloc, &names, made, "'DO'[]")?;
    let made = element(alloc, &names, a, Ty::Atom(AtomKind::Text))?;
    assert_text(&rt, alloc, &names, made, "a[string]")?;
    assert_text(&rt, alloc, &names, Ty::Atom(AtomKind::Bool), "bool")
}

#[test]
fn text_of_choices(rt: HostRuntime) -> Result<(), Fail> {
    let alloc = rt.alloc();
    let mut names = Names::new(alloc);
    let a = name(&mut names, "a")?;
    let b = name(&mut names, "b")?;
    let c = name(&mut names, "c")?;
    // (a[]|b[]),c[]
    let left = either(alloc, &names, a, b)?;
    let right = leaf(alloc, &names, c)?;
    let made = seq(alloc, &names, left, right)?;
    assert_text(&rt, alloc, &names, made, "(a[]|b[]),c[]")?;
    // (a[]|b[])|c[]
    let left = either(alloc, &names, a, b)?;
    let right = leaf(alloc, &names, c)?;
    let made = alt(alloc, &names, left, right)?;
    assert_text(&rt, alloc, &names, made, "a[]|b[]|c[]")
}

#[test]
fn text_of_sequences(rt: HostRuntime) -> Result<(), Fail> {
    let alloc = rt.alloc();
    let mut names = Names::new(alloc);
    let a = name(&mut names, "a")?;
    let b = name(&mut names, "b")?;
    let c = name(&mut names, "c")?;
    // (a[],b[])*
    let made = both(alloc, &names, a, b)?;
    let made = star(alloc, &names, made)?;
    assert_text(&rt, alloc, &names, made, "(a[],b[])*")?;
    // (a[],b[]),c[]
    let left = both(alloc, &names, a, b)?;
    let right = leaf(alloc, &names, c)?;
    let made = seq(alloc, &names, left, right)?;
    assert_text(&rt, alloc, &names, made, "a[],b[],c[]")
}

// any[a[int]|'any'[]]
fn any_choice(alloc: Global, names: &Names, label: Name, word: Name) -> Result<Ty, AllocError>
    requires label { label < length names.now }
    requires word { word < length names.now }
    ensures { IfOk result (λ made. IsWritable (length names.now) [] (ty_of made)) }
{
    let left = element(alloc, names, label, Ty::Atom(AtomKind::Int))?;
    let right = leaf(alloc, names, word)?;
    let made = alt(alloc, names, left, right)?;
    any(alloc, names, made)
}

fn any_leaf(alloc: Global, names: &Names, label: Name) -> Result<Ty, AllocError>
    requires { label < length names.now }
    ensures { IfOk result (λ made. IsWritable (length names.now) [] (ty_of made)) }
{
    let inner = leaf(alloc, names, label)?;
    any(alloc, names, inner)
}

// any[(),()]
fn any_empty(alloc: Global, names: &Names) -> Result<Ty, AllocError>
    ensures { IfOk result (λ made. IsWritable (length names.now) [] (ty_of made)) }
{
    let inner = seq(alloc, names, Ty::Empty, Ty::Empty)?;
    any(alloc, names, inner)
}

#[test]
fn text_of_elements_of_any_label(rt: HostRuntime) -> Result<(), Fail> {
    let alloc = rt.alloc();
    let mut names = Names::new(alloc);
    let a = name(&mut names, "a")?;
    let word = name(&mut names, "any")?;
    let made = any_choice(alloc, &names, a, word)?;
    assert_text(&rt, alloc, &names, made, "any[a[int]|'any'[]]")?;
    let made = any_empty(alloc, &names)?;
    assert_text(&rt, alloc, &names, made, "any[]")
}

#[test]
fn text_of_a_choice_of_one_type(rt: HostRuntime) -> Result<(), Fail> {
    let alloc = rt.alloc();
    let mut names = Names::new(alloc);
    let a = name(&mut names, "a")?;
    let left = any_leaf(alloc, &names, a)?;
    let right = any_leaf(alloc, &names, a)?;
    let made = alt(alloc, &names, left, right)?;
    assert_text(&rt, alloc, &names, made, "any[a[]]")
}

#[test]
fn text_of_a_label_that_is_a_kind(rt: HostRuntime) -> Result<(), Fail> {
    let alloc = rt.alloc();
    let mut names = Names::new(alloc);
    let number = name(&mut names, "int")?;
    let made = element(alloc, &names, number, Ty::Atom(AtomKind::Int))?;
    assert_text(&rt, alloc, &names, made, "int[int]")
}

#[tactic(auto, using(crate::proofs::KeptLaws::counts))]
fn set(rt: &impl Abort, draft: &mut Draft, index: u32, body: Ty) -> Result<(), AllocError>
    requires declared { index < length draft.old }
    requires known { NamesBelow (length draft.old) (ty_of body) }
    ensures { length draft.new ≡ length draft.old }
{
    assert!(rt; size(&body) <= 65_536 && height(&body) <= 500);
    draft.define(index, body)
}

#[tactic(auto, using(crate::proofs::KeptLaws::counts))]
fn close_one(
    rt: &impl Abort,
    alloc: Global,
    name: Name,
    body: Ty,
) -> Result<Result<Defs, DefFault>, Fail>
    requires { NamesBelow 1 (ty_of body) }
{
    let mut draft = Draft::new(alloc);
    let index = draft.declare(name)?;
    set(rt, &mut draft, index, body)?;
    Ok(draft.close())
}

fn before_element(alloc: Global, label: Name) -> Result<Ty, AllocError>
    ensures { IfOk result (λ made. NamesBelow 1 (ty_of made)) }
{
    let inner = Ty::Elem(label, Boxed::new(alloc, Ty::Empty)?);
    Ok(Ty::Seq(Boxed::new(alloc, Ty::Named(0))?, Boxed::new(alloc, inner)?))
}

fn repeated_or_empty(alloc: Global) -> Result<Ty, AllocError>
    ensures { IfOk result (λ made. NamesBelow 1 (ty_of made)) }
{
    let inner = Ty::Star(Boxed::new(alloc, Ty::Named(0))?);
    Ok(Ty::Alt(Boxed::new(alloc, Ty::Empty)?, Boxed::new(alloc, inner)?))
}

fn before_any(alloc: Global) -> Result<Ty, AllocError>
    ensures { IfOk result (λ made. NamesBelow 1 (ty_of made)) }
{
    let inner = Ty::AnyElem(Boxed::new(alloc, Ty::Empty)?);
    Ok(Ty::Seq(Boxed::new(alloc, Ty::Named(0))?, Boxed::new(alloc, inner)?))
}

fn under_any(alloc: Global) -> Result<Ty, AllocError>
    ensures { IfOk result (λ made. NamesBelow 1 (ty_of made)) }
{
    Ok(Ty::AnyElem(Boxed::new(alloc, Ty::Named(0))?))
}

fn under_element(alloc: Global, label: Name) -> Result<Ty, AllocError>
    ensures { IfOk result (λ made. NamesBelow 1 (ty_of made)) }
{
    let inner = Ty::Elem(label, Boxed::new(alloc, Ty::Named(0))?);
    Ok(Ty::Star(Boxed::new(alloc, inner)?))
}

// Asserts that a name that stands for the body reaches itself without an element.
fn assert_unguarded(rt: &impl Abort, alloc: Global, label: Name, body: Ty) -> Result<(), Fail>
    requires { NamesBelow 1 (ty_of body) }
{
    let closed = close_one(rt, alloc, label, body)?;
    assert!(rt; matches!(closed, Err(DefFault::Unguarded { index: 0 })));
    Ok(())
}

#[test]
fn a_name_that_reaches_itself(rt: HostRuntime) -> Result<(), Fail> {
    let alloc = rt.alloc();
    let mut names = Names::new(alloc);
    let label = name(&mut names, "a")?;
    // X = X,a[]
    assert_unguarded(&rt, alloc, label, before_element(alloc, label)?)?;
    // X = X,any[]
    assert_unguarded(&rt, alloc, label, before_any(alloc)?)?;
    // X = ()|X*
    assert_unguarded(&rt, alloc, label, repeated_or_empty(alloc)?)
}

#[test]
fn a_name_under_an_element(rt: HostRuntime) -> Result<(), Fail> {
    let alloc = rt.alloc();
    let mut names = Names::new(alloc);
    let label = name(&mut names, "a")?;
    // X = a[X]*
    let defs = close_one(&rt, alloc, label, under_element(alloc, label)?)??;
    assert_eq!(rt; defs.len(), 1);
    Ok(())
}

#[test]
fn a_name_under_an_element_of_any_label(rt: HostRuntime) -> Result<(), Fail> {
    let alloc = rt.alloc();
    let mut names = Names::new(alloc);
    let label = name(&mut names, "a")?;
    // X = any[X]
    let defs = close_one(&rt, alloc, label, under_any(alloc)?)??;
    assert_eq!(rt; defs.len(), 1);
    assert!(rt; matches!(single(&defs, &Ty::Named(0)), Some(Ty::AnyElem(_))));
    let body = defs.unfold(0);
    assert_eq!(rt; size(body), 2);
    assert_eq!(rt; height(body), 2);
    Ok(())
}

#[test]
fn names_without_bodies(rt: HostRuntime) -> Result<(), Fail> {
    let alloc = rt.alloc();
    let mut names = Names::new(alloc);
    let label = name(&mut names, "X")?;
    let mut draft = Draft::new(alloc);
    assert!(rt; matches!(draft.lookup(label), None));
    let index = draft.declare(label)?;
    assert_eq!(rt; index, 0);
    assert!(rt; matches!(draft.lookup(label), Some(0)));
    assert!(rt; matches!(draft.declare(label), Err(DefFault::Duplicate { index: 0 })));
    assert!(rt; matches!(draft.close(), Err(DefFault::Unknown { index: 0 })));
    Ok(())
}

#[tactic(auto, using(crate::proofs::KeptLaws::counts))]
fn two_names(alloc: Global, first: Name, second: Name) -> Result<Draft, DefFault>
    ensures { IfOk result (λ draft. length draft ≡ 2) }
{
    let mut draft = Draft::new(alloc);
    draft.declare(first)?;
    draft.declare(second)?;
    Ok(draft)
}

#[test]
fn two_names_that_reach_each_other(rt: HostRuntime) -> Result<(), Fail> {
    let alloc = rt.alloc();
    let mut names = Names::new(alloc);
    let first = name(&mut names, "X")?;
    let second = name(&mut names, "Y")?;
    let mut draft = two_names(alloc, first, second)?;
    set(&rt, &mut draft, 0, Ty::Named(1))?;
    set(&rt, &mut draft, 1, Ty::Named(0))?;
    assert!(rt; matches!(draft.close(), Err(DefFault::Unguarded { index: 0 })));
    Ok(())
}

#[test]
fn a_name_of_a_name(rt: HostRuntime) -> Result<(), Fail> {
    let alloc = rt.alloc();
    let mut names = Names::new(alloc);
    let first = name(&mut names, "X")?;
    let second = name(&mut names, "Y")?;
    let mut draft = two_names(alloc, first, second)?;
    set(&rt, &mut draft, 0, Ty::Named(1))?;
    set(&rt, &mut draft, 1, Ty::Atom(AtomKind::Bool))?;
    let defs = draft.close()?;
    assert_eq!(rt; defs.len(), 2);
    let ty = copy_of(alloc, defs.unfold(0))?;
    assert!(rt; matches!(ty, Ty::Named(1)));
    assert!(rt; matches!(single(&defs, &ty), Some(Ty::Atom(AtomKind::Bool))));
    Ok(())
}

#[tactic(auto, using(crate::proofs::KeptLaws::counts))]
fn declare_many(rt: &impl Abort, alloc: Global, draft: &mut Draft, count: u32) -> Result<(), Fail>
    requires new { draft.old ≡ [] }
    requires few { count ≤ 2000 }
    ensures { OnOk result (length draft.new ≡ count) }
{
    let mut names = Names::new(alloc);
    for i in 0..count {
        let text = format!(in alloc; "x{i}")?;
        assert!(rt; is_name(&text));
        let label = name(&mut names, &text)?;
        draft.declare(label)?;
    }
    Ok(())
}

fn chain(rt: &impl Abort, draft: &mut Draft, count: u32) -> Result<(), Fail>
    requires { length draft.old ≡ count + 1 }
    ensures { OnOk result (length draft.new ≡ count + 1) }
{
    for i in 0..count {
        set(rt, draft, i, Ty::Named(i + 1))?;
    }
    Ok(())
}

fn chain_down(rt: &impl Abort, draft: &mut Draft, count: u32) -> Result<(), Fail>
    requires { length draft.old ≡ count + 1 }
    ensures { OnOk result (length draft.new ≡ count + 1) }
{
    for i in 0..count {
        set(rt, draft, i + 1, Ty::Named(i))?;
    }
    Ok(())
}

// Each of 2,000 names stands for the next one, and the last for the type.
fn long_chain(rt: &impl Abort, alloc: Global, last: Ty) -> Result<Draft, Fail>
    requires { NamesBelow 2000 (ty_of last) }
    ensures { IfOk result (λ draft. length draft ≡ 2000) }
{
    let mut draft = Draft::new(alloc);
    declare_many(rt, alloc, &mut draft, 2000)?;
    chain(rt, &mut draft, 1999)?;
    set(rt, &mut draft, 1999, last)?;
    Ok(draft)
}

#[test]
fn a_chain_to_the_next_name(rt: HostRuntime) -> Result<(), Fail> {
    let alloc = rt.alloc();
    let draft = long_chain(&rt, alloc, Ty::Atom(AtomKind::Text))?;
    let defs = draft.close()?;
    assert_eq!(rt; defs.len(), 2000);
    assert!(rt; matches!(single(&defs, &Ty::Named(0)), Some(Ty::Atom(AtomKind::Text))));
    Ok(())
}

#[test]
fn a_chain_to_the_name_before(rt: HostRuntime) -> Result<(), Fail> {
    let alloc = rt.alloc();
    let mut draft = Draft::new(alloc);
    declare_many(&rt, alloc, &mut draft, 2000)?;
    set(&rt, &mut draft, 0, Ty::Atom(AtomKind::Text))?;
    chain_down(&rt, &mut draft, 1999)?;
    let defs = draft.close()?;
    assert_eq!(rt; defs.len(), 2000);
    assert!(rt;
        matches!(
            single(&defs, &Ty::Named(1999)),
            Some(Ty::Atom(AtomKind::Text))
        )
    );
    Ok(())
}

#[test]
fn a_cycle_behind_a_chain(rt: HostRuntime) -> Result<(), Fail> {
    let alloc = rt.alloc();
    // the last name leads back to 1500
    let draft = long_chain(&rt, alloc, Ty::Named(1500))?;
    assert!(rt; matches!(draft.close(), Err(DefFault::Unguarded { index: 1500 })));
    Ok(())
}

#[test]
fn two_cycles(rt: HostRuntime) -> Result<(), Fail> {
    let alloc = rt.alloc();
    let mut draft = Draft::new(alloc);
    declare_many(&rt, alloc, &mut draft, 5)?;
    // from 0 the cycle of 3 and 4 is met first
    set(&rt, &mut draft, 0, Ty::Named(3))?;
    set(&rt, &mut draft, 1, Ty::Named(2))?;
    set(&rt, &mut draft, 2, Ty::Named(1))?;
    set(&rt, &mut draft, 3, Ty::Named(4))?;
    set(&rt, &mut draft, 4, Ty::Named(3))?;
    assert!(rt; matches!(draft.close(), Err(DefFault::Unguarded { index: 1 })));
    Ok(())
}

fn pair_of(alloc: Global, left: u32, right: u32) -> Result<Ty, AllocError>
    requires left { left < 3 }
    requires right { right < 3 }
    ensures { IfOk result (λ made. NamesBelow 3 (ty_of made)) }
{
    let left = Boxed::new(alloc, Ty::Named(left))?;
    Ok(Ty::Seq(left, Boxed::new(alloc, Ty::Named(right))?))
}

// Three names, the first and the second of which stand for pairs.
fn pairs(rt: &impl Abort, alloc: Global, first: Ty, second: Ty, last: Ty) -> Result<Draft, Fail>
    requires first { NamesBelow 3 (ty_of first) }
    requires second { NamesBelow 3 (ty_of second) }
    requires last { NamesBelow 3 (ty_of last) }
{
    let mut draft = Draft::new(alloc);
    declare_many(rt, alloc, &mut draft, 3)?;
    set(rt, &mut draft, 0, first)?;
    set(rt, &mut draft, 1, second)?;
    set(rt, &mut draft, 2, last)?;
    Ok(draft)
}

#[test]
fn names_that_are_named_twice(rt: HostRuntime) -> Result<(), Fail> {
    let alloc = rt.alloc();
    // X = Y,Y; Y = Z,Z; Z = bool
    let first = pair_of(alloc, 1, 1)?;
    let second = pair_of(alloc, 2, 2)?;
    let draft = pairs(&rt, alloc, first, second, Ty::Atom(AtomKind::Bool))?;
    assert_eq!(rt; draft.close()?.len(), 3);
    // X = Y,Y; Y = Z,Z; Z = Y,Y
    let first = pair_of(alloc, 1, 1)?;
    let second = pair_of(alloc, 2, 2)?;
    let last = pair_of(alloc, 1, 1)?;
    let draft = pairs(&rt, alloc, first, second, last)?;
    assert!(rt; matches!(draft.close(), Err(DefFault::Unguarded { index: 1 })));
    Ok(())
}

#[test]
fn a_cycle_with_a_way_out(rt: HostRuntime) -> Result<(), Fail> {
    let alloc = rt.alloc();
    // X = Z,Y; Y = Z,X; Z = bool
    let first = pair_of(alloc, 2, 1)?;
    let second = pair_of(alloc, 2, 0)?;
    let draft = pairs(&rt, alloc, first, second, Ty::Atom(AtomKind::Bool))?;
    assert!(rt; matches!(draft.close(), Err(DefFault::Unguarded { index: 0 })));
    // X = Y,Z; Y = Z,Z; Z = Z,Y
    let first = pair_of(alloc, 1, 2)?;
    let second = pair_of(alloc, 2, 2)?;
    let last = pair_of(alloc, 2, 1)?;
    let draft = pairs(&rt, alloc, first, second, last)?;
    assert!(rt; matches!(draft.close(), Err(DefFault::Unguarded { index: 1 })));
    Ok(())
}
