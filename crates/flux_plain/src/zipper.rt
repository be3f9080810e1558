// A document with a focus, as a gap buffer of nodes.
ghost use Rattle.std.specs.Prelude.{◌≡◌, ◌↔◌, ℕ, [], length, Some, IsTrue, OnOk, IfOk, OnErr, Ok, true, false};
ghost use Rattle.flux_trees.specs.Hedge.{Plain, nil, elem, IsElement};
ghost use Rattle.flux_trees.specs.Draft.{done, depth, outer};
ghost use Rattle.flux_forest.specs.Flat.{hedge_of, IsFlat};
ghost use Rattle.flux_forest.specs.View.{forest_of};
ghost use Rattle.flux_plain.specs.Layout.{before};
ghost use Rattle.flux_plain.specs.Moves.{all_of, whole, relabelled, with_focus, Is, Becomes, Relabelled, HasFrame, SteppedBack};
ghost use Rattle.flux_editor.specs.Editing.{IsDown, IsBeside, IsEach, IsAtLast, WentDown, CameUp, WentLeft, WentRight, Widened, WentToFirst, WentToNext, Gathered};

use crate::label::{label_of, relabel};
use crate::next::take_next;
use crate::runs::{make_room, move_nodes};
use crate::step::Step;
use flux_atom::Name;
use flux_forest::{Forest, Item, Node, View, push_copies};
use std::alloc::AllocError;
use std::marker::Model;

/// A document with a focus in it: a run of sibling trees. Each move that takes no memory takes as
/// many steps as nodes change sides, or none.
#[derive(Drop)]
pub struct Zipper {
    // the nodes before the focus and in it
    left: Vec<Node>,
    // those behind it, the last node of the document first
    right: Vec<Node>,
    // the steps back, the innermost last
    steps: Vec<Step>,
    // where the focus begins on the left
    start: usize,
}

impl Model for Zipper {
    ghost use Rattle.std.specs.Prelude.{◌≡◌};
    ghost use Rattle.flux_plain.specs.Focused.{Focused, focused_code};

    ghost Value = { Focused };

    ghost coded = { focused_code };

    ghost use Rattle.std.specs.Vec.{vec_capacity};
    ghost use Rattle.flux_plain.specs.Layout.{focused_of, IsLaid, HasRoom};

    ghost view = { λ f. focused_of f.left.items f.right.items f.steps.items f.start };

    ghost invariant = { λ f.
        IsLaid (focused_of f.left.items f.right.items f.steps.items f.start)
        f.left.items f.right.items f.steps.items f.start
        × HasRoom f.left.items f.right.items (vec_capacity f.left) (vec_capacity f.right) };
}

impl Zipper {
    /// A document with all of it in the focus.
    pub fn over(document: Forest) -> Result<Zipper, AllocError>
        requires { depth document ≡ 0 }
        ensures { IfOk result (λ zipper. zipper ≡ all_of (outer document)) }
    {
        let mut left = document.into_nodes();
        let alloc = *left.allocator();
        let mut right = Vec::new(alloc);
        make_room(&mut left, &mut right, 0)?;
        Ok(Zipper {
            left,
            right,
            steps: Vec::new(alloc),
            start: 0,
        })
    }

    /// The nodes of the trees in the focus, in document order.
    pub fn nodes(&self) -> &[Node]
        ensures flat { IsFlat result.now }
        ensures same { hedge_of result.now ≡ self.now.focus }
    {
        &self.left[self.start..]
    }

    /// A copy of the trees in the focus.
    pub fn trees(&self) -> Result<Forest, AllocError>
        ensures { IfOk result (λ forest. forest ≡ done self.now.focus) }
    {
        let mut nodes = Vec::new(*self.left.allocator());
        push_copies(&mut nodes, self.nodes())?;
        Ok(Forest::from_nodes(nodes))
    }

    /// Goes into the one element that the focus is.
    pub fn down(&mut self) -> Result<(), AllocError>
        requires { IsElement self.old.focus }
        ensures ok { OnOk result (Becomes WentDown self.old self.new) }
        ensures err { OnErr result (self.new ≡ self.old) }
    {
        let start = self.start;
        self.steps.push(Step::Down { start })?;
        self.left[start].size = 0;
        self.start = start + 1;
        Ok(())
    }

    /// Goes to the empty run just before the focus.
    pub fn to_left(&mut self) -> Result<(), AllocError>
        ensures ok { OnOk result (Becomes WentLeft self.old self.new) }
        ensures err { OnErr result (self.new ≡ self.old) }
    {
        let count = self.left.len() - self.start;
        self.steps.push(Step::Before { count })?;
        move_nodes(&mut self.left, &mut self.right, count);
        Ok(())
    }

    /// Goes to the empty run just behind the focus.
    pub fn to_right(&mut self) -> Result<(), AllocError>
        ensures ok { OnOk result (Becomes WentRight self.old self.new) }
        ensures err { OnErr result (self.new ≡ self.old) }
    {
        let start = self.start;
        self.steps.push(Step::After { start })?;
        self.start = self.left.len();
        Ok(())
    }

    /// Goes to the first tree of the focus, or answers false where there is none.
    pub fn first(&mut self) -> Result<bool, AllocError>
        ensures more { result ≡ Ok true → Becomes WentToFirst self.old self.new }
        ensures none { result ≡ Ok false → (self.old.focus ≡ nil) × (self.new ≡ self.old) }
        ensures err { OnErr result (self.new ≡ self.old) }
    {
        let start = self.start;
        let len = self.left.len();
        if start == len {
            return Ok(false);
        }
        let count = len - start - self.left[start].size;
        self.steps.push(Step::Each { start, count })?;
        move_nodes(&mut self.left, &mut self.right, count);
        Ok(true)
    }

    /// Goes to the next of the trees that stood in the focus when `first` was called, or answers
    /// false where there is none.
    pub fn next(&mut self) -> bool
        requires { Is IsEach self.old }
        ensures more { result ≡ true → Becomes WentToNext self.old self.new }
        ensures none { result ≡ false → Is IsAtLast self.old × (self.new ≡ self.old) }
    {
        let size = take_next(&mut self.steps, &self.right);
        if size == 0 {
            return false;
        }
        self.start = self.left.len();
        move_nodes(&mut self.right, &mut self.left, size);
        true
    }

    /// Goes back to the element that the focus stands in.
    pub fn up(&mut self)
        requires { Is IsDown self.old }
        ensures { Becomes CameUp self.old self.new }
    {
        self.step_back();
    }

    /// Takes the trees beside the focus into it again.
    pub fn widen(&mut self)
        requires { Is IsBeside self.old }
        ensures { Becomes Widened self.old self.new }
    {
        self.step_back();
    }

    /// Takes all results into the focus, in order.
    pub fn gather(&mut self)
        requires { Is IsAtLast self.old }
        ensures { Becomes Gathered self.old self.new }
    {
        self.step_back();
    }

    /// Puts copies of trees into an empty focus.
    pub fn insert(&mut self, view: View<'_>) -> Result<(), AllocError>
        requires { self.old.focus ≡ nil }
        ensures ok { OnOk result (self.new ≡ with_focus (forest_of view.entry) self.old) }
        ensures err { OnErr result (self.new ≡ self.old) }
    {
        let mut nodes = view.copy(*self.left.allocator())?.into_nodes();
        make_room(&mut self.left, &mut self.right, nodes.len())?;
        if let Err(_) = self.left.append(&mut nodes) {
            unreachable!()
        }
        Ok(())
    }

    /// Takes the trees in the focus out of the document.
    pub fn delete(&mut self)
        ensures { self.new ≡ with_focus nil self.old }
    {
        self.left.truncate(self.start);
    }

    /// Gives the one element that the focus is another label.
    pub fn rename(&mut self, name: Name)
        requires { IsElement self.old.focus }
        ensures { Relabelled name self.old self.new }
    {
        let start = self.start;
        self.left[start].item = Item::Element(name);
    }

    /// The place of the first node in the focus: how many nodes stand before it in the document.
    pub fn place(&self) -> usize
        ensures { result ≡ length (before self.now.frames) }
    {
        self.start
    }

    /// The label of the one element that the focus is.
    pub fn label(&self) -> Option<Name>
        requires { IsElement self.now.focus }
        ensures { (a : ℕ) (w : Plain) → self.now.focus ≡ elem tt a w nil → result ≡ Some a }
    {
        label_of(&self.left[self.start])
    }

    /// Gives the node at a place another label, if it is an element. All of the document is in the
    /// focus.
    pub fn relabel(&mut self, place: usize, label: Name)
        requires { self.old.frames ≡ [] }
        ensures { self.new ≡ all_of (relabelled place label (whole self.old)) }
    {
        relabel(&mut self.left, place, label);
    }

    /// Leaves all frames: all of the document is in the focus.
    pub fn leave(&mut self)
        ensures { self.new ≡ all_of (whole self.old) }
    {
        while !self.is_whole() {
            self.step_back();
        }
    }

    /// Whether all of the document is in the focus, with no frame.
    pub fn is_whole(&self) -> bool
        ensures { IsTrue result ↔ (self.now.frames ≡ []) }
    {
        self.steps.is_empty()
    }

    // Leaves one frame, whichever it is.
    fn step_back(&mut self)
        requires { HasFrame self.old }
        ensures { SteppedBack self.old self.new }
    {
        match self.steps.pop() {
            Some(Step::Down { start }) => {
                self.left[start].size = self.left.len() - start;
                self.start = start;
            }
            Some(Step::Before { count }) => {
                move_nodes(&mut self.right, &mut self.left, count);
            }
            Some(Step::After { start }) => self.start = start,
            Some(Step::Each { start, count }) => {
                move_nodes(&mut self.right, &mut self.left, count);
                self.start = start;
            }
            None => {}
        }
    }

    /// The whole document, in another zipper, with all of it in the focus.
    pub fn copy(&self) -> Result<Zipper, AllocError>
        ensures { IfOk result (λ copied. copied ≡ all_of (whole self.now)) }
    {
        let mut copied = self.duplicate()?;
        copied.leave();
        Ok(copied)
    }

    fn duplicate(&self) -> Result<Zipper, AllocError>
        ensures { IfOk result (λ copied. copied ≡ self.now) }
    {
        let alloc = *self.left.allocator();
        let mut left = Vec::new(alloc);
        push_copies(&mut left, &self.left)?;
        let mut right = Vec::new(alloc);
        push_copies(&mut right, &self.right)?;
        make_room(&mut left, &mut right, 0)?;
        Ok(Zipper {
            left,
            right,
            steps: Vec::from_slice(alloc, &self.steps)?,
            start: self.start,
        })
    }
}
