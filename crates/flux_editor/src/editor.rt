// Editors, however they keep the document.
ghost use Rattle.std.specs.Prelude.{◌≡◌, ◌≤◌, [], length, OnOk, OnErr, IfOk, Ok, true, false};
ghost use Rattle.flux_trees.specs.Hedge.{nil, erase, IsElement};
ghost use Rattle.flux_trees.specs.Draft.{done};
ghost use Rattle.flux_forest.specs.View.{forest_of};
ghost use Rattle.flux_calculus.specs.Notation.{Notation};
ghost use Rattle.flux_editor.specs.Looks.{look_of};
ghost use Rattle.flux_editor.specs.Editing.{State, IsDown, IsBeside, IsEach, WentDown, CameUp, WentLeft, WentRight, Widened, WentToFirst, WentToNext, IsAtLast, Gathered, after_insert, after_delete, Renamed, TakenBack, Committed};

use crate::Look;
use flux_atom::Name;
use flux_forest::{Forest, Mark, View};
use std::alloc::AllocError;

/// A document with a focus in it: a run of siblings, possibly empty. Frames say how to come back
/// from it to the whole. A call that adds a frame, and each change, first makes all the room that
/// the calls need which come back, so that these take no memory.
pub trait Editor {
    /// What stands on each node of the document.
    ghost Note: { Type 0 };

    /// What is kept beside the document.
    ghost Marks: { Type 0 };

    /// How both come about.
    ghost notation: { Notation Note Marks };

    /// The frames, the focus, and the moments since the last commit.
    ghost state: { Self → State Note Marks };

    /// What the focus is.
    fn look(&self) -> Look
        ensures { result ≡ look_of (state self.now).focus };

    /// From one element to its content.
    fn down(&mut self) -> Result<(), AllocError>
        requires { IsElement (state self.old).focus }
        ensures ok { OnOk result (WentDown (state self.old) (state self.new)) }
        ensures err { OnErr result (state self.new ≡ state self.old) };

    /// Back to the element.
    fn up(&mut self)
        requires { IsDown (state self.old) }
        ensures { CameUp (state self.old) (state self.new) };

    /// To the empty run just before the focus.
    fn to_left(&mut self) -> Result<(), AllocError>
        ensures ok { OnOk result (WentLeft (state self.old) (state self.new)) }
        ensures err { OnErr result (state self.new ≡ state self.old) };

    /// To the empty run just behind the focus.
    fn to_right(&mut self) -> Result<(), AllocError>
        ensures ok { OnOk result (WentRight (state self.old) (state self.new)) }
        ensures err { OnErr result (state self.new ≡ state self.old) };

    /// Back to what stood there together with the focus.
    fn widen(&mut self)
        requires { IsBeside (state self.old) }
        ensures { Widened (state self.old) (state self.new) };

    /// To the first tree of the focus; false where there is none.
    fn first(&mut self) -> Result<bool, AllocError>
        ensures more { result ≡ Ok true → WentToFirst (state self.old) (state self.new) }
        ensures none { result ≡ Ok false →
            ((state self.old).focus ≡ nil) × (state self.new ≡ state self.old) }
        ensures err { OnErr result (state self.new ≡ state self.old) };

    /// To the next tree of those among which `first` went to the first; false where there is none.
    fn next(&mut self) -> bool
        requires { IsEach (state self.old) }
        ensures more { result ≡ true → WentToNext (state self.old) (state self.new) }
        ensures none { result ≡ false →
            IsAtLast (state self.old) × (state self.new ≡ state self.old) };

    /// Back to all the results, behind the last tree.
    fn gather(&mut self)
        requires { IsAtLast (state self.old) }
        ensures { Gathered (state self.old) (state self.new) };

    /// Puts copies of the trees where none is.
    fn insert(&mut self, view: View<'_>) -> Result<(), AllocError>
        requires { (state self.old).focus ≡ nil }
        ensures ok { OnOk result
            (state self.new ≡ after_insert notation (forest_of view.entry) (state self.old)) }
        ensures err { OnErr result (state self.new ≡ state self.old) };

    /// Takes all trees of the focus out.
    fn delete(&mut self) -> Result<(), AllocError>
        ensures ok { OnOk result (state self.new ≡ after_delete notation (state self.old)) }
        ensures err { OnErr result (state self.new ≡ state self.old) };

    /// Gives one element another label, or the same anew.
    fn rename(&mut self, name: Name) -> Result<(), AllocError>
        requires { IsElement (state self.old).focus }
        ensures ok { OnOk result (Renamed notation name (state self.old) (state self.new)) }
        ensures err { OnErr result (state self.new ≡ state self.old) };

    /// A copy of the focus.
    fn snapshot(&self) -> Result<Forest, AllocError>
        ensures { IfOk result (λ forest. forest ≡ done (erase (state self.now).focus)) };

    /// Names this moment: it is good until the next commit, or until one before it is gone back to.
    fn mark(&self) -> Mark
        requires { (state self.now).frames ≡ [] }
        ensures { result.changes ≡ length (state self.now).earlier };

    /// Takes back all that came after a moment. The focus is then the whole document.
    fn rollback(&mut self, mark: Mark)
        requires { mark.changes ≤ length (state self.old).earlier }
        ensures { TakenBack mark.changes (state self.old) (state self.new) };

    /// Keeps the document as it is: what was done can't be taken back any more.
    fn commit(&mut self)
        requires { (state self.old).frames ≡ [] }
        ensures { Committed notation (state self.old) (state self.new) };

    /// A copy of the document.
    fn finish(&self) -> Result<Forest, AllocError>
        requires { (state self.now).frames ≡ [] }
        ensures { IfOk result (λ forest. forest ≡ done (erase (state self.now).focus)) };
}
