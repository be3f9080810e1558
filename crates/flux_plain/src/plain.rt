// An editor that keeps the whole document before each change.
ghost use Rattle.std.specs.Prelude.{◌≡◌, [], IfOk};
ghost use Rattle.flux_trees.specs.Draft.{depth, outer};
ghost use Rattle.flux_plain.specs.Moves.{state, all_of};
ghost use Rattle.flux_plain.specs.PlainStates.{state_of};

use crate::earlier::{Earlier, go_back, remember, remember_label};
use crate::look::look_at;
use crate::zipper::Zipper;
use flux_atom::Name;
use flux_editor::{Editor, Look, Mark};
use flux_forest::{Forest, View};
use std::alloc::{AllocError, Global};

/// An editor of a document with nothing noted on its nodes. An insertion or a deletion takes as
/// many steps as the document has nodes, since it keeps a copy of it to go back to; of a renaming
/// it keeps the label alone.
#[derive(Drop)]
pub struct PlainEditor {
    // the document before each change since the last commit
    earlier: Vec<Earlier>,
    current: Zipper,
}

impl PlainEditor {
    /// An editor with the whole document in its focus, and nothing to take back.
    pub fn new(alloc: Global, document: Forest) -> Result<PlainEditor, AllocError>
        requires { depth document ≡ 0 }
        ensures { IfOk result (λ editor. state_of editor ≡ state [] (all_of (outer document))) }
    {
        Ok(PlainEditor {
            earlier: Vec::new(alloc),
            current: Zipper::over(document)?,
        })
    }
}

impl Editor for PlainEditor {
    ghost use Rattle.flux_calculus.specs.Notation.{plainly};
    ghost use Rattle.flux_plain.specs.PlainStates.{state_of};

    ghost Note = { Unit {0} };

    ghost Marks = { Unit {0} };

    ghost notation = { plainly };

    ghost state = { state_of };

    fn look(&self) -> Look {
        look_at(self.current.nodes())
    }

    fn down(&mut self) -> Result<(), AllocError> {
        self.current.down()
    }

    fn up(&mut self) {
        self.current.up();
    }

    fn to_left(&mut self) -> Result<(), AllocError> {
        self.current.to_left()
    }

    fn to_right(&mut self) -> Result<(), AllocError> {
        self.current.to_right()
    }

    fn widen(&mut self) {
        self.current.widen();
    }

    fn first(&mut self) -> Result<bool, AllocError> {
        self.current.first()
    }

    fn next(&mut self) -> bool {
        self.current.next()
    }

    fn gather(&mut self) {
        self.current.gather();
    }

    fn insert(&mut self, view: View<'_>) -> Result<(), AllocError> {
        if view.is_empty() {
            return Ok(());
        }
        remember(&mut self.earlier, &self.current)?;
        if let Err(error) = self.current.insert(view) {
            self.earlier.pop();
            return Err(error);
        }
        Ok(())
    }

    fn delete(&mut self) -> Result<(), AllocError> {
        if self.current.nodes().is_empty() {
            return Ok(());
        }
        remember(&mut self.earlier, &self.current)?;
        self.current.delete();
        Ok(())
    }

    fn rename(&mut self, name: Name) -> Result<(), AllocError> {
        remember_label(&mut self.earlier, &self.current)?;
        self.current.rename(name);
        Ok(())
    }

    fn snapshot(&self) -> Result<Forest, AllocError> {
        self.current.trees()
    }

    fn mark(&self) -> Mark {
        Mark {
            changes: self.earlier.len() as u64,
        }
    }

    fn rollback(&mut self, mark: Mark) {
        go_back(&mut self.earlier, &mut self.current, mark.changes as usize);
        self.current.leave();
    }

    fn commit(&mut self) {
        self.earlier.clear();
    }

    fn finish(&self) -> Result<Forest, AllocError> {
        self.current.trees()
    }
}
