// The canonical text of a forest.
ghost use Rattle.std.specs.Prelude.{◌≡◌, ◌<◌, ◌++◌, length, take, codes, OnOk, OnErr, vec_len};
ghost use Rattle.flux_atom.specs.Names.{IsTable};
ghost use Rattle.flux_trees.specs.Each.{EachAtom, EachLabel};
ghost use Rattle.flux_forest.specs.View.{forest_of};
ghost use Rattle.flux_doctext.specs.Spells.{Spells};
ghost use Rattle.flux_doctext.specs.Text.{name_text, comma, trees_text, text, IsProper, NamesLabel};

use flux_atom::{Name, Names, write_literal};
use flux_forest::{First, View};
use std::alloc::{AllocError, Global};

/// Appends the canonical text of a run, the one text that tells it from all other forests, with no
/// newline behind it. The allocator serves a stack of the elements that are open.
pub fn write_forest(
    alloc: Global,
    view: View<'_>,
    names: &Names,
    out: &mut Vec<u8>,
) -> Result<(), AllocError>
    requires { EachLabel (λ a. a < length names.now) (forest_of view) }
    ensures ok { OnOk result (out.new.items
        ≡ out.old.items ++ text names.now (forest_of view.entry)) }

    // Where its names are labels, that spells the forest: nothing is owed about its texts.
    ensures spells { OnOk result (IsTable names.now
        → EachLabel (NamesLabel names.now) (forest_of view.entry)
        → Spells names.now (text names.now (forest_of view.entry)) (forest_of view.entry)) }
    ensures err { OnErr result (out.new.items ≡ out.old.items) }
{
    let start = out.len();
    let written = push_forest(alloc, view, names, out);
    if written.is_err() {
        out.truncate(start);
    }
    written
}

// The functions below may leave a part of what they write behind them where they fail.
fn push_forest(
    alloc: Global,
    view: View<'_>,
    names: &Names,
    out: &mut Vec<u8>,
) -> Result<(), AllocError>
    requires { EachLabel (λ a. a < length names.now) (forest_of view) }
    ensures ok { OnOk result (out.new.items
        ≡ out.old.items ++ text names.now (forest_of view.entry)) }
    ensures proper { OnOk result (EachAtom IsProper (forest_of view.entry)) }
    ensures err { OnErr result (take (vec_len out.old) out.new.items ≡ out.old.items) }
{
    if view.is_empty() {
        return out.extend_from_slice(b"()");
    }
    push_trees(alloc, view, names, out)
}

fn push_trees(
    alloc: Global,
    view: View<'_>,
    names: &Names,
    out: &mut Vec<u8>,
) -> Result<(), AllocError>
    requires { EachLabel (λ a. a < length names.now) (forest_of view) }
    ensures ok { OnOk result (out.new.items
        ≡ out.old.items ++ trees_text names.now (forest_of view.entry)) }
    ensures proper { OnOk result (EachAtom IsProper (forest_of view.entry)) }
    ensures err { OnErr result (take (vec_len out.old) out.new.items ≡ out.old.items) }
{
    // what is left at this level, and at each level around it, innermost last
    let mut rest = view;
    let mut outer: Vec<View<'_>> = Vec::new(alloc);
    loop {
        match rest.first() {
            First::Nothing => {
                let Some(run) = outer.pop() else {
                    return Ok(());
                };
                push_end(run, out)?;
                rest = run;
            }
            First::Elem(name) => {
                push_start(name, names, out)?;
                let (element, others) = rest.split();
                outer.push(others)?;
                rest = element.content();
            }
            First::Atom(atom) => {
                write_literal(alloc, atom, out)?;
                let (_, others) = rest.split();
                push_comma(others, out)?;
                rest = others;
            }
        }
    }
}

// The label, and the bracket behind it.
fn push_start(name: Name, names: &Names, out: &mut Vec<u8>) -> Result<(), AllocError>
    requires { name < length names.now }
    ensures ok { OnOk result (out.new.items
        ≡ out.old.items ++ (name_text names.now name ++ codes "[")) }
    ensures err { OnErr result (take (vec_len out.old) out.new.items ≡ out.old.items) }
{
    out.extend_from_slice(names.text(name).as_bytes())?;
    out.push(b'[')?;
    Ok(())
}

// The bracket that ends an element, and the comma before those behind it.
fn push_end(others: View<'_>, out: &mut Vec<u8>) -> Result<(), AllocError>
    ensures ok { OnOk result (out.new.items
        ≡ out.old.items ++ (codes "]" ++ comma (forest_of others.entry))) }
    ensures err { OnErr result (take (vec_len out.old) out.new.items ≡ out.old.items) }
{
    out.push(b']')?;
    push_comma(others, out)
}

// The comma between a tree and those behind it.
fn push_comma(others: View<'_>, out: &mut Vec<u8>) -> Result<(), AllocError>
    ensures ok { OnOk result (out.new.items ≡ out.old.items ++ comma (forest_of others.entry)) }
    ensures err { OnErr result (out.new.items ≡ out.old.items) }
{
    if !others.is_empty() {
        out.push(b',')?;
    }
    Ok(())
}
