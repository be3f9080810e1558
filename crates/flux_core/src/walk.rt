// Walks over types, from tree to tree.
ghost use Rattle.std.specs.Prelude.{◌≡◌, [], ◌∷◌, IfOk, OnOk};
ghost use Rattle.flux_types.specs.Read.{ty_of};
ghost use Rattle.flux_types.specs.Kept.{AreKept};
ghost use Rattle.flux_core.specs.Faults.{IsUsable};
ghost use Rattle.flux_core.specs.Walk.{before, behind, frame_of, frames_of, frames_in, AreToBeUsed, GoesDown, GoesUp, IsTurn};

use crate::conclude::{either, in_sequence, nothing, repeated};
use crate::{KindFault, Measured};
use flux_types::{Defs, Ty, copy_of};
use std::alloc::{AllocError, Global};

// What stands round a part of a type: the second part, which is still to come, or what the first
// part became.
#[derive(Drop)]
enum Frame {
    SeqFirst(Ty),
    SeqSecond(Measured),
    AltFirst(Ty),
    AltSecond(Measured),
    InStar,
}

// What comes behind a part: the second part, in what stands round it, or the whole.
#[derive(Drop)]
enum Up {
    Next(Frame, Ty),
    Whole(Measured),
}

/// Where a walk over a type has come.
#[derive(Drop)]
pub enum Turn {
    /// To an atom type or an element type: the walk goes on with what becomes of it.
    At(Ty),
    /// To the end: what became of the whole type.
    Over(Measured),
}

/// A walk over a type from its first atom type or element type to its last. Each of them becomes a
/// type, as the caller says, and the others keep their form round what their parts become. The walk
/// has a stack of its own, and owns the parts that are still to come; names are followed in a loop,
/// each with a copy of its body. A type that the walk makes is tested first, and refused with
/// TypeTooLarge at `place` where it is over the limits. After a fault nothing is said of the walk.
#[derive(Drop)]
pub struct Walk {
    pub place: u32,
    frames: Vec<Frame>,
}

impl Walk {
    /// A walk that hasn't begun. It takes no memory.
    pub fn new(alloc: Global, place: u32) -> Walk
        ensures place { result.place ≡ place }
        ensures frames { frames_in result ≡ [] }
    {
        Walk {
            place,
            frames: Vec::new(alloc),
        }
    }

    /// Goes from a type to its first tree, or to its end where it has none.
    pub fn enter(&mut self, ty: Ty, defs: &Defs) -> Result<Turn, KindFault>
        requires defs { AreKept defs.now }
        requires usable { IsUsable defs.now (ty_of ty) }
        requires waiting { AreToBeUsed defs.now (frames_in self.old) }

        ensures turn { IsTurn defs.now self.old.place (before (frames_in self.old) (ty_of ty))
            (frames_in self.new) result }
        ensures waiting { OnOk result (AreToBeUsed defs.now (frames_in self.new)) }
        ensures place { self.new.place ≡ self.old.place }
    {
        match descend(&mut self.frames, ty, defs)? {
            Some(tree) => Ok(Turn::At(tree)),
            None => {
                let made = nothing(*self.frames.allocator())?;
                self.put(made, defs)
            }
        }
    }

    /// Goes on behind a tree that became a type: to the next tree, or to the end.
    pub fn put(&mut self, made: Measured, defs: &Defs) -> Result<Turn, KindFault>
        requires defs { AreKept defs.now }
        requires waiting { AreToBeUsed defs.now (frames_in self.old) }

        ensures turn { IsTurn defs.now self.old.place
            (behind (frames_in self.old) (ty_of made.ty.value)) (frames_in self.new) result }
        ensures waiting { OnOk result (AreToBeUsed defs.now (frames_in self.new)) }
        ensures place { self.new.place ≡ self.old.place }
    {
        let alloc = *self.frames.allocator();
        let mut made = made;
        while let Some(frame) = self.frames.pop() {
            made = match ascend(alloc, self.place, frame, made)? {
                Up::Whole(made) => made,
                Up::Next(frame, ty) => match descend_in(&mut self.frames, frame, ty, defs)? {
                    Some(tree) => return Ok(Turn::At(tree)),
                    None => nothing(alloc)?,
                },
            };
        }
        Ok(Turn::Over(made))
    }
}

// Goes down from a type to its first tree, or past the empty type.
fn descend(frames: &mut Vec<Frame>, ty: Ty, defs: &Defs) -> Result<Option<Ty>, AllocError>
    requires defs { AreKept defs.now }
    requires usable { IsUsable defs.now (ty_of ty) }
    requires waiting { AreToBeUsed defs.now (frames_of frames.old.items) }
    ensures down { IfOk result (GoesDown defs.now (before (frames_of frames.old.items) (ty_of ty))
        (frames_of frames.new.items)) }
    ensures waiting { OnOk result (AreToBeUsed defs.now (frames_of frames.new.items)) }
{
    let alloc = *frames.allocator();
    let mut ty = ty;
    loop {
        ty = match ty {
            Ty::Empty => return Ok(None),
            Ty::Atom(kind) => return Ok(Some(Ty::Atom(kind))),
            Ty::Elem(label, content) => return Ok(Some(Ty::Elem(label, content))),
            Ty::AnyElem(content) => return Ok(Some(Ty::AnyElem(content))),
            Ty::Seq(first, second) => {
                frames.push(Frame::SeqFirst(second.into_inner()))?;
                first.into_inner()
            }
            Ty::Alt(first, second) => {
                frames.push(Frame::AltFirst(second.into_inner()))?;
                first.into_inner()
            }
            Ty::Star(part) => {
                frames.push(Frame::InStar)?;
                part.into_inner()
            }
            Ty::Named(index) => copy_of(alloc, defs.unfold(index))?,
        };
    }
}

// Goes down from a type in a frame.
fn descend_in(
    frames: &mut Vec<Frame>,
    frame: Frame,
    ty: Ty,
    defs: &Defs,
) -> Result<Option<Ty>, AllocError>
    requires defs { AreKept defs.now }
    requires usable { IsUsable defs.now (ty_of ty) }
    requires waiting { AreToBeUsed defs.now (frame_of frame ∷ frames_of frames.old.items) }
    ensures down { IfOk result
        (GoesDown defs.now (before (frame_of frame ∷ frames_of frames.old.items) (ty_of ty))
        (frames_of frames.new.items)) }
    ensures waiting { OnOk result (AreToBeUsed defs.now (frames_of frames.new.items)) }
{
    frames.push(frame)?;
    descend(frames, ty, defs)
}

// Goes up from a part that became a type, out of what stands round it.
fn ascend(alloc: Global, place: u32, frame: Frame, made: Measured) -> Result<Up, KindFault>
    ensures { GoesUp place (frame_of frame) (ty_of made.ty.value) result }
{
    match frame {
        Frame::SeqFirst(second) => Ok(Up::Next(Frame::SeqSecond(made), second)),
        Frame::SeqSecond(first) => Ok(Up::Whole(in_sequence(alloc, place, first, made)?)),
        Frame::AltFirst(second) => Ok(Up::Next(Frame::AltSecond(made), second)),
        Frame::AltSecond(first) => Ok(Up::Whole(either(alloc, place, first, made)?)),
        Frame::InStar => Ok(Up::Whole(repeated(alloc, place, made)?)),
    }
}
