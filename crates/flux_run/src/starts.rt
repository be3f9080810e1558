// How each statement begins: what is pushed, and what the editor is asked for. Where memory is
// wanting, all is as it was.
ghost use Rattle.std.specs.Prelude.{◌≡◌, ◌≢◌, ◌⊎◌, ◌<◌, ◌∷◌, List, [], map, true, false, Some, IsSome, IfOk, OnOk, OnErr, Err, Ok};
ghost use Rattle.flux_trees.specs.Hedge.{Plain, nil, erase, IsElement};
ghost use Rattle.flux_calculus.specs.Core.{in_order, proc_of};
ghost use Rattle.flux_calculus.specs.Core as calculus;
ghost use Rattle.flux_calculus.specs.Query.{Environment, value};
ghost use Rattle.flux_calculus.specs.Derives.{condition, bound_to};
ghost use Rattle.flux_query.specs.Read.{query_of};
ghost use Rattle.flux_core.specs.Statements.{core_of, procs_of};
ghost use Rattle.flux_editor.specs.Looks.{look_of};
ghost use Rattle.flux_editor.specs.Editing.{WentDown, WentLeft, WentRight, WentToFirst, after_insert};
ghost use Rattle.flux_run.specs.Machine.{Do, Up, Widen, Again, before, binding_first, calling};
ghost use Rattle.flux_run.specs.Passing.{look_matches};
ghost use Rattle.flux_run.specs.Tasks.{left_of};

use crate::arguments::{bound, is_true};
use crate::control::{Control, Task};
use crate::passing::passes;
use flux_atom::Items;
use flux_calculus::{Span, Test, Var};
use flux_core::{Core, Procs};
use flux_editor::Editor;
use flux_query::{Query, eval};
use std::alloc::{AllocError, Global};
use std::mem;

// Statements one behind the other.
pub(crate) fn start_rest<'a>(
    statements: &'a [Core],
    at: Span,
    control: &mut Control<'a>,
) -> Result<(), AllocError>
    ensures ok { OnOk result
        (((statements.now ≡ []) × (left_of control.new ≡ left_of control.old))
        ⊎ ((s : Core) × (ss : List Core) × (statements.now ≡ s ∷ ss)
        × (left_of control.new ≡ before (Do (core_of s))
        (before (Do (in_order at (map core_of ss))) (left_of control.old))))) }
    ensures err { OnErr result (left_of control.new ≡ left_of control.old) }
{
    if let [first, rest @ ..] = statements {
        control.make_room()?;
        control.put(Task::Rest(rest, at));
        control.put(Task::Do(first));
    }
    Ok(())
}

// One of two statements.
pub(crate) fn start_choice<'a>(
    alloc: Global,
    query: &Query,
    yes: &'a Core,
    no: &'a Core,
    control: &mut Control<'a>,
) -> Result<(), AllocError>
    requires { IsSome (condition control.old.env (query_of query.now)) }
    ensures ok { OnOk result
        (((condition control.old.env (query_of query.now) ≡ Some true)
        × (left_of control.new ≡ before (Do (core_of yes.now)) (left_of control.old)))
        ⊎ ((condition control.old.env (query_of query.now) ≡ Some false)
        × (left_of control.new ≡ before (Do (core_of no.now)) (left_of control.old)))) }
    ensures err { OnErr result (left_of control.new ≡ left_of control.old) }
{
    control.make_room()?;
    if is_true(alloc, query, &mut control.env)? {
        control.put(Task::Do(yes));
    } else {
        control.put(Task::Do(no));
    }
    Ok(())
}

// A statement with a variable of the value of a query.
pub(crate) fn start_binding<'a>(
    alloc: Global,
    var: Var,
    query: &Query,
    body: &'a Core,
    control: &mut Control<'a>,
) -> Result<(), AllocError>
    requires { IsSome (value control.old.env (query_of query.now)) }
    ensures ok { OnOk result
        ((u : Plain) × (value control.old.env (query_of query.now) ≡ Some u)
        × (left_of control.new ≡ binding_first var u (core_of body.now) (left_of control.old))) }
    ensures err { OnErr result (left_of control.new ≡ left_of control.old) }
{
    control.make_room()?;
    let value = eval(alloc, query, &mut control.env)?;
    control.env.bind(var, value)?;
    control.put(Task::Unbind);
    control.put(Task::Do(body));
    Ok(())
}

// A statement with a variable of the focus.
pub(crate) fn start_snapshot<'a, E: Editor>(
    var: Var,
    body: &'a Core,
    control: &mut Control<'a>,
    editor: &E,
) -> Result<(), AllocError>
    ensures ok { OnOk result
        (left_of control.new ≡ binding_first var (erase (E.state editor.now).focus)
        (core_of body.now) (left_of control.old)) }
    ensures err { OnErr result (left_of control.new ≡ left_of control.old) }
{
    control.make_room()?;
    let value = editor.snapshot()?;
    control.env.bind(var, value)?;
    control.put(Task::Unbind);
    control.put(Task::Do(body));
    Ok(())
}

// The value of a query where no tree is.
pub(crate) fn start_insert<E: Editor>(
    alloc: Global,
    query: &Query,
    control: &mut Control<'_>,
    editor: &mut E,
) -> Result<(), AllocError>
    requires empty { (E.state editor.old).focus ≡ nil }
    requires value { IsSome (value control.old.env (query_of query.now)) }
    ensures ok { OnOk result
        ((w : Plain) × (value control.old.env (query_of query.now) ≡ Some w)
        × (E.state editor.new ≡ after_insert E.notation w (E.state editor.old))) }
    ensures err { OnErr result (E.state editor.new ≡ E.state editor.old) }
    ensures same { left_of control.new ≡ left_of control.old }
{
    let value = eval(alloc, query, &mut control.env)?;
    editor.insert(value.view())
}

// A statement on a tree that passes a test.
pub(crate) fn start_test<'a, E: Editor>(
    test: Test,
    body: &'a Core,
    control: &mut Control<'a>,
    editor: &E,
) -> Result<(), AllocError>
    ensures ok { OnOk result
        (((look_matches test (look_of (E.state editor.now).focus) ≡ true)
        × (left_of control.new ≡ before (Do (core_of body.now)) (left_of control.old)))
        ⊎ ((look_matches test (look_of (E.state editor.now).focus) ≡ false)
        × (left_of control.new ≡ left_of control.old))) }
    ensures err { OnErr result (left_of control.new ≡ left_of control.old) }
{
    if passes(test, editor.look()) {
        control.make_room()?;
        control.put(Task::Do(body));
    }
    Ok(())
}

// A statement on the content of an element.
pub(crate) fn start_children<'a, E: Editor>(
    body: &'a Core,
    control: &mut Control<'a>,
    editor: &mut E,
) -> Result<(), AllocError>
    requires { IsElement (E.state editor.old).focus }
    ensures ok { OnOk result (WentDown (E.state editor.old) (E.state editor.new)
        × (left_of control.new
        ≡ before (Do (core_of body.now)) (before Up (left_of control.old)))) }
    ensures err { OnErr result ((E.state editor.new ≡ E.state editor.old)
        × (left_of control.new ≡ left_of control.old)) }
{
    control.make_room()?;
    editor.down()?;
    control.put(Task::Up);
    control.put(Task::Do(body));
    Ok(())
}

// A statement on the empty run before the focus.
pub(crate) fn start_left<'a, E: Editor>(
    body: &'a Core,
    control: &mut Control<'a>,
    editor: &mut E,
) -> Result<(), AllocError>
    ensures ok { OnOk result (WentLeft (E.state editor.old) (E.state editor.new)
        × (left_of control.new
        ≡ before (Do (core_of body.now)) (before Widen (left_of control.old)))) }
    ensures err { OnErr result ((E.state editor.new ≡ E.state editor.old)
        × (left_of control.new ≡ left_of control.old)) }
{
    control.make_room()?;
    editor.to_left()?;
    control.put(Task::Widen);
    control.put(Task::Do(body));
    Ok(())
}

// A statement on the empty run behind the focus.
pub(crate) fn start_right<'a, E: Editor>(
    body: &'a Core,
    control: &mut Control<'a>,
    editor: &mut E,
) -> Result<(), AllocError>
    ensures ok { OnOk result (WentRight (E.state editor.old) (E.state editor.new)
        × (left_of control.new
        ≡ before (Do (core_of body.now)) (before Widen (left_of control.old)))) }
    ensures err { OnErr result ((E.state editor.new ≡ E.state editor.old)
        × (left_of control.new ≡ left_of control.old)) }
{
    control.make_room()?;
    editor.to_right()?;
    control.put(Task::Widen);
    control.put(Task::Do(body));
    Ok(())
}

// A statement on each tree.
pub(crate) fn start_iter<'a, E: Editor>(
    body: &'a Core,
    control: &mut Control<'a>,
    editor: &mut E,
) -> Result<(), AllocError>
    ensures ok { OnOk result
        ((WentToFirst (E.state editor.old) (E.state editor.new)
        × (left_of control.new ≡ before (Do (core_of body.now))
        (before (Again (core_of body.now)) (left_of control.old))))
        ⊎ (((E.state editor.old).focus ≡ nil) × (E.state editor.new ≡ E.state editor.old)
        × (left_of control.new ≡ left_of control.old))) }
    ensures err { OnErr result ((E.state editor.new ≡ E.state editor.old)
        × (left_of control.new ≡ left_of control.old)) }
{
    control.make_room()?;
    if editor.first()? {
        control.put(Task::Again(body));
        control.put(Task::Do(body));
    }
    Ok(())
}

// The body of a procedure, where a call is to go.
pub(crate) fn start_call<'a>(
    alloc: Global,
    procs: &'a Procs,
    procedure: u32,
    args: &Items<Query>,
    control: &mut Control<'a>,
) -> Result<(), AllocError>
    requires depth { 0 < control.old.depth }
    requires fits { (q : calculus.Proc) × (proc_of (procs_of procs.now) procedure ≡ Some q)
        × IsSome (bound_to control.old.env q.params (map query_of args.now)) }
    ensures ok { OnOk result
        ((q : calculus.Proc) × (δ : Environment)
        × (proc_of (procs_of procs.now) procedure ≡ Some q)
        × (bound_to control.old.env q.params (map query_of args.now) ≡ Some δ)
        × (left_of control.new ≡ calling q.body δ (left_of control.old))) }
    ensures err { OnErr result (left_of control.new ≡ left_of control.old) }
{
    let proc = procs.get(procedure);
    control.make_room()?;
    let env = bound(
        alloc,
        proc.params.as_slice(),
        args.as_slice(),
        &mut control.env,
    )?;
    let callers = mem::replace(&mut control.env, env);
    control.put(Task::Return(control.depth, callers));
    control.put(Task::Do(&proc.body));
    control.depth -= 1;
    Ok(())
}
