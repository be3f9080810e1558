// Whole runs.
ghost use Rattle.std.specs.Prelude.{◌≡◌, ◌⊎◌, ℕ, [], IfOk, OnOk, OnErr, Err};
ghost use Rattle.flux_trees.specs.Hedge.{Plain, erase};
ghost use Rattle.flux_calculus.specs.Derives.{Derives, Exceeds};
ghost use Rattle.flux_calculus.specs.NotedEnding.{GivesNoted, NotedTooDeep};
ghost use Rattle.flux_core.specs.Statements.{core_of, procs_of};
ghost use Rattle.flux_run.specs.Machine.{Do, before, below, AreBound};
ghost use Rattle.flux_run.specs.Refusals.{IsDone, IsRefusedAt};
ghost use Rattle.flux_run.specs.Running.{CanRun, Continues, Performed, Safe, comes_to};
ghost use Rattle.flux_run.specs.Tasks.{tasks_of, left_of};

use crate::control::{Control, Task};
use crate::fault::RunFault;
use crate::steps::step;
use flux_core::{Core, Procs};
use flux_editor::Editor;
use flux_query::Env;
use std::alloc::{AllocError, Global};
use std::mem;

/// Carries a statement out on the focus, with so many calls to go inside one another, after FLUX's
/// judgement of updates. The environment is afterwards as it was, on every answer. After a refusal
/// the focus may stand anywhere in the document, and some changes may be made.
pub fn perform<E: Editor>(
    alloc: Global,
    procs: &Procs,
    core: &Core,
    env: &mut Env,
    editor: &mut E,
    depth: u32,
) -> Result<(), RunFault>
    requires { CanRun (procs_of procs.now) depth env.old (erase (E.state editor.old).focus)
        (core_of core.now) }
    ensures ok { OnOk result (Performed E.notation (procs_of procs.now) depth env.old
        (core_of core.now) (E.state editor.old) (E.state editor.new)) }
    ensures deep { (place : ℕ) → result ≡ Err (RunFault.TooDeep place) →
        Exceeds (procs_of procs.now) depth env.old (erase (E.state editor.old).focus)
        (core_of core.now) place }
    ensures done { (w : Plain) → Derives (procs_of procs.now) depth env.old
        (erase (E.state editor.old).focus) (core_of core.now) w → IsDone result }
    ensures refused { (place : ℕ) → Exceeds (procs_of procs.now) depth env.old
        (erase (E.state editor.old).focus) (core_of core.now) place →
        IsRefusedAt result place }
    ensures goes_on { Continues E.notation (E.state editor.old) (E.state editor.new) }
    ensures env { env.new ≡ env.old }
{
    let mut control = Control::new(alloc, depth, mem::replace(env, Env::new(alloc)));
    let outcome = go_through(alloc, procs, core, &mut control, editor);
    *env = control.into_env();
    outcome
}

// Does a statement, and all that comes of it. Where it is refused, some tasks may be left.
fn go_through<'a, E: Editor>(
    alloc: Global,
    procs: &'a Procs,
    core: &'a Core,
    control: &mut Control<'a>,
    editor: &mut E,
) -> Result<(), RunFault>
    requires tasks { tasks_of control.old.tasks.items ≡ [] }
    requires safe { Safe E.notation (procs_of procs.now)
        (before (Do (core_of core.now)) (left_of control.old)) (E.state editor.old) }
    ensures ok { OnOk result
        ((comes_to E.notation (procs_of procs.now)
        (before (Do (core_of core.now)) (left_of control.old)) (E.state editor.old)
        ≡ GivesNoted (E.state editor.new).focus (E.state editor.new).marks)
        × ((E.state editor.new).frames ≡ (E.state editor.old).frames)) }
    ensures deep { (place : ℕ) → result ≡ Err (RunFault.TooDeep place) →
        comes_to E.notation (procs_of procs.now)
        (before (Do (core_of core.now)) (left_of control.old)) (E.state editor.old)
        ≡ NotedTooDeep place }
    ensures goes_on { Continues E.notation (E.state editor.old) (E.state editor.new) }
    ensures bound { AreBound (tasks_of control.new.tasks.items) control.new.env }
    ensures env { below (tasks_of control.new.tasks.items) control.new.env ≡ control.old.env }
{
    control.make_room()?;
    control.put(Task::Do(core));
    'tasks: while let Some(task) = control.pop() {
        step(alloc, procs, task, control, editor)?;
    }
    Ok(())
}

/// Carries a statement out on a whole document, with nothing bound. After a refusal the document,
/// its notes, and all that could be taken back are as before, and the focus is the whole document.
/// Nothing is committed.
pub fn run<E: Editor>(
    alloc: Global,
    procs: &Procs,
    main: &Core,
    editor: &mut E,
    depth: u32,
) -> Result<(), RunFault>
    requires frames { (E.state editor.old).frames ≡ [] }
    requires fits { CanRun (procs_of procs.now) depth [] (erase (E.state editor.old).focus)
        (core_of main.now) }
    ensures ok { OnOk result (Performed E.notation (procs_of procs.now) depth [] (core_of main.now)
        (E.state editor.old) (E.state editor.new)) }
    ensures deep { (place : ℕ) → result ≡ Err (RunFault.TooDeep place) →
        Exceeds (procs_of procs.now) depth [] (erase (E.state editor.old).focus)
        (core_of main.now) place }
    ensures done { (w : Plain) → Derives (procs_of procs.now) depth []
        (erase (E.state editor.old).focus) (core_of main.now) w → IsDone result }
    ensures refused { (place : ℕ) → Exceeds (procs_of procs.now) depth []
        (erase (E.state editor.old).focus) (core_of main.now) place →
        IsRefusedAt result place }
    ensures goes_on { OnOk result (Continues E.notation (E.state editor.old) (E.state editor.new)) }
    ensures as_before { OnErr result (E.state editor.new ≡ E.state editor.old) }
{
    let mark = editor.mark();
    let mut env = Env::new(alloc);
    let outcome = perform(alloc, procs, main, &mut env, editor, depth);
    if outcome.is_err() {
        editor.rollback(mark);
    }
    outcome
}
