ghost use Rattle.std.specs.Prelude.{◌≡◌, ◌≤◌, [], length, IfOk, OnOk};
ghost use Rattle.flux_trees.specs.Draft.{depth};
ghost use Rattle.flux_plain.specs.PlainStates.{state_of};

use crate::PlainEditor;
use flux_atom::{Atom, AtomKind, Name, Names, Word};
use flux_editor::{Editor, Look};
use flux_forest::{Forest, Head, View};
use std::alloc::{AllocError, Global};
use std::test::Fail;

// The text that an atom is.
fn push_atom(text: &mut String, atom: &Atom) -> Result<(), AllocError> {
    match atom {
        Atom::Text(word) => text.push_str(word.as_str()),
        Atom::Bool(_) | Atom::Int(_) => text.push_str("?"),
    }
}

// The texts of the run, with "?" for each other tree.
fn push_texts(text: &mut String, view: View<'_>) -> Result<(), AllocError> {
    for tree in view.trees() {
        match &tree.head() {
            Head::Atom(atom) => push_atom(text, atom)?,
            Head::Nothing | Head::Elem(_) | Head::Many => text.push_str("?")?,
        }
    }
    Ok(())
}

// The same with an element as its label, `b` for this one and `a` for all others, and the texts
// in it in brackets.
fn text_of(alloc: Global, view: View<'_>, b: Name) -> Result<String, AllocError> {
    let mut text = String::new(alloc);
    for tree in view.trees() {
        match &tree.head() {
            Head::Atom(atom) => push_atom(&mut text, atom)?,
            Head::Elem(name) => {
                text.push_str(if *name == b { "b[" } else { "a[" })?;
                push_texts(&mut text, tree.content())?;
                text.push_str("]")?;
            }
            Head::Nothing | Head::Many => text.push_str("?")?,
        }
    }
    Ok(text)
}

// a["x","y"]
#[tactic(auto, using(flux_trees::proofs::DraftLaws::drafts))]
fn pair(alloc: Global, name: Name) -> Result<Forest, AllocError>
    ensures { IfOk result (λ forest. depth forest ≡ 0) }
{
    let mut forest = Forest::new(alloc);
    forest.begin_element(name)?;
    forest.push_atom(Atom::Text(Word::of(alloc, "x")?))?;
    forest.push_atom(Atom::Text(Word::of(alloc, "y")?))?;
    forest.end_element();
    Ok(forest)
}

// "z"
#[tactic(auto, using(flux_trees::proofs::DraftLaws::drafts))]
fn single(alloc: Global) -> Result<Forest, AllocError>
    ensures { IfOk result (λ forest. depth forest ≡ 0) }
{
    let mut forest = Forest::new(alloc);
    forest.push_atom(Atom::Text(Word::of(alloc, "z")?))?;
    Ok(forest)
}

// Puts the trees into the focus, if it is empty.
fn put(editor: &mut PlainEditor, trees: View<'_>) -> Result<(), AllocError>
    ensures { OnOk result ((state_of editor.new).frames ≡ (state_of editor.old).frames) }
{
    match editor.look() {
        Look::Nothing => editor.insert(trees),
        _ => Ok(()),
    }
}

// Takes the trees in the focus out.
fn clear(editor: &mut PlainEditor) -> Result<(), AllocError>
    ensures frames { OnOk result ((state_of editor.new).frames ≡ (state_of editor.old).frames) }
    ensures earlier { length (state_of editor.old).earlier ≤ length (state_of editor.new).earlier }
{
    editor.delete()
}

fn put_before(editor: &mut PlainEditor, trees: View<'_>) -> Result<(), AllocError>
    ensures { OnOk result ((state_of editor.new).frames ≡ (state_of editor.old).frames) }
{
    editor.to_left()?;
    put(editor, trees)?;
    editor.widen();
    Ok(())
}

fn put_behind(editor: &mut PlainEditor, trees: View<'_>) -> Result<(), AllocError>
    ensures { OnOk result ((state_of editor.new).frames ≡ (state_of editor.old).frames) }
{
    editor.to_right()?;
    put(editor, trees)?;
    editor.widen();
    Ok(())
}

fn rename(editor: &mut PlainEditor, name: Name) -> Result<(), AllocError>
    ensures frames { OnOk result ((state_of editor.new).frames ≡ (state_of editor.old).frames) }
    ensures earlier { length (state_of editor.old).earlier ≤ length (state_of editor.new).earlier }
{
    match editor.look() {
        Look::Elem(_) => editor.rename(name),
        _ => Ok(()),
    }
}

fn inside(editor: &mut PlainEditor, trees: View<'_>) -> Result<(), AllocError> {
    if let Look::Elem(_) = editor.look() {
        editor.down()?;
        clear(editor)?;
        put(editor, trees)?;
        editor.up();
    }
    Ok(())
}

// The trees behind each of those in the element, which stays open: the next tree isn't one of
// these.
fn behind_each(editor: &mut PlainEditor, trees: View<'_>) -> Result<(), AllocError> {
    if let Look::Elem(_) = editor.look() {
        editor.down()?;
        if editor.first()? {
            put_behind(editor, trees)?;
            if editor.next() {
                put_behind(editor, trees)?;
                if !editor.next() {
                    editor.gather();
                }
            }
        }
    }
    Ok(())
}

fn taken_back(editor: &mut PlainEditor, trees: View<'_>) -> Result<(), AllocError>
    requires { (state_of editor.old).frames ≡ [] }
{
    put_behind(editor, trees)?;
    let mark = editor.mark();
    clear(editor)?;
    editor.rollback(mark);
    Ok(())
}

fn committed(editor: &mut PlainEditor, trees: View<'_>) -> Result<(), AllocError>
    requires { (state_of editor.old).frames ≡ [] }
{
    put_before(editor, trees)?;
    editor.commit();
    taken_back(editor, trees)
}

// Renamed and then deleted, and all of it taken back.
fn renamed_back(editor: &mut PlainEditor, name: Name) -> Result<(), AllocError>
    requires { (state_of editor.old).frames ≡ [] }
{
    let mark = editor.mark();
    rename(editor, name)?;
    clear(editor)?;
    editor.rollback(mark);
    Ok(())
}

// What is done to the document.
#[derive(Clone, Copy)]
enum Way {
    Nothing,
    Inside,
    BehindEach,
    Renamed,
    TakenBack,
    RenamedBack,
    Committed,
}

fn go(editor: &mut PlainEditor, way: Way, trees: View<'_>, name: Name) -> Result<(), AllocError>
    requires { (state_of editor.old).frames ≡ [] }
{
    match way {
        Way::Nothing => Ok(()),
        Way::Inside => inside(editor, trees),
        Way::BehindEach => behind_each(editor, trees),
        Way::Renamed => rename(editor, name),
        Way::TakenBack => taken_back(editor, trees),
        Way::RenamedBack => renamed_back(editor, name),
        Way::Committed => committed(editor, trees),
    }
}

fn text_after(alloc: Global, way: Way) -> Result<String, AllocError> {
    let mut names = Names::new(alloc);
    let first = names.intern("a")?;
    let second = names.intern("b")?;
    let trees = single(alloc)?;
    let mut editor = PlainEditor::new(alloc, pair(alloc, first)?)?;
    go(&mut editor, way, trees.view(), second)?;
    let document = editor.snapshot()?;
    text_of(alloc, document.view(), second)
}

#[test]
fn moves_and_edits(rt: HostRuntime) -> Result<(), Fail> {
    let alloc = rt.alloc();
    for (way, text) in [
        (Way::Nothing, "a[xy]"),
        (Way::Inside, "a[z]"),
        (Way::BehindEach, "xzyz"),
        (Way::Renamed, "b[xy]"),
        (Way::TakenBack, "a[xy]z"),
        (Way::RenamedBack, "a[xy]"),
        (Way::Committed, "za[xy]z"),
    ] {
        assert_eq!(rt; text_after(alloc, way)?.as_str(), text);
    }
    Ok(())
}

#[test]
fn keeps_the_document(rt: HostRuntime) -> Result<(), Fail> {
    let alloc = rt.alloc();
    let document = single(alloc)?;
    let wanted = document.view().copy(alloc)?;
    let editor = PlainEditor::new(alloc, document)?;
    assert_eq!(rt; editor.look(), Look::Atom(AtomKind::Text));
    let kept = editor.finish()?;
    assert!(rt; kept.view().equal(wanted.view()));
    Ok(())
}
