// The steps of a run.
ghost use Rattle.std.specs.Prelude.{◌≡◌, ◌∷◌, ◌⊎◌, ℕ, IfOk, OnOk, OnErr, Err};
ghost use Rattle.flux_calculus.specs.NotedEnding.{NotedTooDeep};
ghost use Rattle.flux_core.specs.Statements.{core_of, procs_of};
ghost use Rattle.flux_editor.specs.Editing.{WentToNext, Gathered, IsEach};
ghost use Rattle.flux_run.specs.Machine.{Do, Up, Widen, Again, before, AreBound};
ghost use Rattle.flux_run.specs.Running.{Safe, Turn, Refused, comes_to};
ghost use Rattle.flux_run.specs.Tasks.{task_of, left_of};

use crate::control::{Control, Task};
use crate::fault::RunFault;
use crate::starts::{
    start_binding, start_call, start_children, start_choice, start_insert, start_iter, start_left,
    start_rest, start_right, start_snapshot, start_test,
};
use flux_core::{Core, Procs};
use flux_editor::Editor;
use std::alloc::{AllocError, Global};

// Does the next task, which was taken.
pub(crate) fn step<'a, E: Editor>(
    alloc: Global,
    procs: &'a Procs,
    task: Task<'a>,
    control: &mut Control<'a>,
    editor: &mut E,
) -> Result<(), RunFault>
    requires safe { Safe E.notation (procs_of procs.now) (before (task_of task) (left_of control.old))
        (E.state editor.old) }
    requires bound { AreBound (task_of task ∷ (left_of control.old).tasks) control.old.env }
    ensures ok { OnOk result (Turn E.notation (procs_of procs.now)
        (before (task_of task.entry) (left_of control.old)) (E.state editor.old)
        (left_of control.new) (E.state editor.new)) }
    ensures deep { (place : ℕ) → result ≡ Err (RunFault.TooDeep place) →
        comes_to E.notation (procs_of procs.now)
        (before (task_of task.entry) (left_of control.old)) (E.state editor.old)
        ≡ NotedTooDeep place }
    ensures err { OnErr result (Refused E.notation (procs_of procs.now)
        (before (task_of task.entry) (left_of control.old)) (E.state editor.old)
        (left_of control.new) (E.state editor.new)) }
{
    match task {
        Task::Do(core) => start(alloc, procs, core, control, editor),
        Task::Rest(statements, at) => {
            start_rest(statements, at, control)?;
            Ok(())
        }
        Task::Up => {
            editor.up();
            Ok(())
        }
        Task::Widen => {
            editor.widen();
            Ok(())
        }
        Task::Again(body) => {
            go_on(body, control, editor)?;
            Ok(())
        }
        Task::Unbind => {
            control.env.unbind();
            Ok(())
        }
        Task::Return(depth, env) => {
            control.depth = depth;
            control.env = env;
            Ok(())
        }
    }
}

// To the next tree of several, or back from the last one.
fn go_on<'a, E: Editor>(
    body: &'a Core,
    control: &mut Control<'a>,
    editor: &mut E,
) -> Result<(), AllocError>
    requires { IsEach (E.state editor.old) }
    ensures ok { OnOk result
        ((WentToNext (E.state editor.old) (E.state editor.new)
        × (left_of control.new ≡ before (Do (core_of body.now))
        (before (Again (core_of body.now)) (left_of control.old))))
        ⊎ (Gathered (E.state editor.old) (E.state editor.new)
        × (left_of control.new ≡ left_of control.old))) }
    ensures err { OnErr result ((E.state editor.new ≡ E.state editor.old)
        × (left_of control.new ≡ left_of control.old)) }
{
    control.make_room()?;
    if editor.next() {
        control.put(Task::Again(body));
        control.put(Task::Do(body));
    } else {
        editor.gather();
    }
    Ok(())
}

// Starts a statement.
fn start<'a, E: Editor>(
    alloc: Global,
    procs: &'a Procs,
    core: &'a Core,
    control: &mut Control<'a>,
    editor: &mut E,
) -> Result<(), RunFault>
    requires { Safe E.notation (procs_of procs.now)
        (before (Do (core_of core.now)) (left_of control.old)) (E.state editor.old) }
    ensures ok { OnOk result (Turn E.notation (procs_of procs.now)
        (before (Do (core_of core.now)) (left_of control.old)) (E.state editor.old)
        (left_of control.new) (E.state editor.new)) }
    ensures deep { (place : ℕ) → result ≡ Err (RunFault.TooDeep place) →
        comes_to E.notation (procs_of procs.now)
        (before (Do (core_of core.now)) (left_of control.old)) (E.state editor.old)
        ≡ NotedTooDeep place }
    ensures err { OnErr result (Refused E.notation (procs_of procs.now)
        (before (Do (core_of core.now)) (left_of control.old)) (E.state editor.old)
        (left_of control.new) (E.state editor.new)) }
{
    match core {
        Core::Skip(_) => {}
        Core::Seq(statements, at) => start_rest(statements.as_slice(), *at, control)?,
        Core::If(query, yes, no, _) => start_choice(alloc, query, yes.get(), no.get(), control)?,
        Core::Let(var, query, body, _) => start_binding(alloc, *var, query, body.get(), control)?,
        Core::Snapshot(var, body, _) => start_snapshot(*var, body.get(), control, editor)?,
        Core::Insert(query, _) => start_insert(alloc, query, control, editor)?,
        Core::Delete(_) => editor.delete()?,
        Core::Rename(name, _) => editor.rename(*name)?,
        Core::Test(test, body, _) => start_test(*test, body.get(), control, editor)?,
        Core::Children(body, _) => start_children(body.get(), control, editor)?,
        Core::Left(body, _) => start_left(body.get(), control, editor)?,
        Core::Right(body, _) => start_right(body.get(), control, editor)?,
        Core::Iter(body, _) => start_iter(body.get(), control, editor)?,
        Core::Call(procedure, args, at) => {
            if control.depth == 0 {
                return Err(RunFault::TooDeep { place: at.from });
            }
            start_call(alloc, procs, *procedure, args, control)?;
        }
    }
    Ok(())
}
