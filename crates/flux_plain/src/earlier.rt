// The documents before each change, and the way back to them.
ghost use Rattle.std.specs.Prelude.{◌≡◌, ◌≤◌, ◌∷◌, ◌++◌, ℕ, [], length, suc, take, OnOk, OnErr};
ghost use Rattle.flux_trees.specs.Hedge.{Plain, IsElement};
ghost use Rattle.flux_plain.specs.declared.earlier.Earlier.{Earlier};
ghost use Rattle.flux_plain.specs.Focused.{Focused};
ghost use Rattle.flux_plain.specs.Moves.{whole, Relabelled};
ghost use Rattle.flux_plain.specs.PlainStates.{document_before, documents};

use crate::zipper::Zipper;
use flux_atom::Name;
use std::alloc::AllocError;
use std::mem;

// The document before a change: kept as it was, or the one after the change but for the label of
// the node at a place, in document order.
#[derive(Drop)]
pub(crate) enum Earlier {
    Whole(Zipper),
    Label(usize, Name),
}

// Keeps a copy of the document, as it is before a change.
pub(crate) fn remember(earlier: &mut Vec<Earlier>, document: &Zipper) -> Result<(), AllocError>
    ensures ok { OnOk result ((e : Earlier) × (earlier.new.items ≡ earlier.old.items ++ e ∷ [])
        × ((h : Plain) → document_before e h ≡ whole document.now)) }
    ensures err { OnErr result (earlier.new.items ≡ earlier.old.items) }
{
    earlier.push(Earlier::Whole(document.copy()?))?;
    Ok(())
}

// Keeps the label of the one element in the focus, before it gets another one.
pub(crate) fn remember_label(
    earlier: &mut Vec<Earlier>,
    document: &Zipper,
) -> Result<(), AllocError>
    requires { IsElement document.now.focus }
    ensures ok { OnOk result ((e : Earlier) × (earlier.new.items ≡ earlier.old.items ++ e ∷ [])
        × ((b : ℕ) (d : Focused) → Relabelled b document.now d →
        document_before e (whole d) ≡ whole document.now)) }
    ensures err { OnErr result (earlier.new.items ≡ earlier.old.items) }
{
    match document.label() {
        Some(label) => earlier.push(Earlier::Label(document.place(), label))?,
        None => {}
    }
    Ok(())
}

// Makes the document what it was before the change.
fn restore(earlier: &mut Earlier, current: &mut Zipper)
    ensures { whole current.new ≡ document_before earlier.old (whole current.old) }
{
    match earlier {
        Earlier::Whole(document) => mem::swap(document, current),
        Earlier::Label(place, label) => {
            current.leave();
            current.relabel(*place, *label);
        }
    }
}

// Goes back to the document after so many changes, and keeps those before it.
pub(crate) fn go_back(earlier: &mut Vec<Earlier>, current: &mut Zipper, changes: usize)
    requires { changes ≤ length earlier.old.items }
    ensures { documents earlier.new.items (whole current.new)
        ≡ take (suc changes) (documents earlier.old.items (whole current.old)) }
{
    while earlier.len() > changes {
        let last = earlier.len() - 1;
        restore(&mut earlier[last], current);
        earlier.truncate(last);
    }
}
