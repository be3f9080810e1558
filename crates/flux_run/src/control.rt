// What is left of a run.
ghost use Rattle.std.specs.Prelude.{◌≡◌, ◌<◌, ◌≤◌, ◌+◌, ◌∷◌, [], OnOk, MatchOption, vec_len};
ghost use Rattle.std.specs.Vec.{vec_capacity};
ghost use Rattle.flux_run.specs.Machine.{below, AreBound};
ghost use Rattle.flux_run.specs.Tasks.{task_of, tasks_of};

use flux_calculus::Span;
use flux_core::Core;
use flux_query::Env;
use std::alloc::{AllocError, Global};

// What is still to be done.
#[derive(Drop)]
pub(crate) enum Task<'a> {
    Do(&'a Core),
    // What is left of statements one behind the other, with the span of them all.
    Rest(&'a [Core], Span),
    Up,
    Widen,
    Again(&'a Core),
    Unbind,
    // The calls to go and the environment of the caller.
    Return(u32, Env),
}

// The tasks, the last one of which is the next to be done, the calls to go, and what is bound.
#[derive(Drop)]
pub(crate) struct Control<'a> {
    pub(crate) tasks: Vec<Task<'a>>,
    pub(crate) depth: u32,
    pub(crate) env: Env,
}

impl<'a> Control<'a> {
    pub(crate) fn new(alloc: Global, depth: u32, env: Env) -> Control<'a>
        ensures tasks { tasks_of result.tasks.items ≡ [] }
        ensures depth { result.depth ≡ depth }
        ensures env { result.env ≡ env }
    {
        Control {
            tasks: Vec::new(alloc),
            depth,
            env,
        }
    }

    // Takes room for two tasks.
    pub(crate) fn make_room(&mut self) -> Result<(), AllocError>
        ensures ok { OnOk result (vec_len self.new.tasks + 2 ≤ vec_capacity self.new.tasks) }
        ensures tasks { tasks_of self.new.tasks.items ≡ tasks_of self.old.tasks.items }
        ensures depth { self.new.depth ≡ self.old.depth }
        ensures env { self.new.env ≡ self.old.env }
    {
        self.tasks.reserve(2)
    }

    // Adds a task, where there is room.
    pub(crate) fn put(&mut self, task: Task<'a>)
        requires { vec_len self.old.tasks < vec_capacity self.old.tasks }
        ensures tasks { tasks_of self.new.tasks.items ≡ task_of task.entry ∷ tasks_of self.old.tasks.items }
        ensures len { vec_len self.new.tasks ≡ vec_len self.old.tasks + 1 }
        ensures room { vec_capacity self.old.tasks ≤ vec_capacity self.new.tasks }
        ensures depth { self.new.depth ≡ self.old.depth }
        ensures env { self.new.env ≡ self.old.env }
    {
        if let Err(_) = self.tasks.push(task) {
            unreachable!()
        }
    }

    // Takes the next task.
    pub(crate) fn pop(&mut self) -> Option<Task<'a>>
        ensures tasks { MatchOption result
            ((tasks_of self.old.tasks.items ≡ []) × (tasks_of self.new.tasks.items ≡ []))
            (λ task. tasks_of self.old.tasks.items ≡ task_of task ∷ tasks_of self.new.tasks.items) }
        ensures len { MatchOption result (vec_len self.new.tasks ≡ 0)
            (λ _. vec_len self.new.tasks + 1 ≡ vec_len self.old.tasks) }
        ensures depth { self.new.depth ≡ self.old.depth }
        ensures env { self.new.env ≡ self.old.env }
    {
        self.tasks.pop()
    }

    // Drops all tasks, and gives back what is bound once they are gone.
    pub(crate) fn into_env(mut self) -> Env
        requires { AreBound (tasks_of self.tasks.items) self.env }
        ensures { result ≡ below (tasks_of self.entry.tasks.items) self.entry.env }
    {
        self.unwind();
        let Control {
            tasks: _,
            depth: _,
            env,
        } = self;
        env
    }

    fn unwind(&mut self)
        requires { AreBound (tasks_of self.old.tasks.items) self.old.env }
        ensures { self.new.env ≡ below (tasks_of self.old.tasks.items) self.old.env }
    {
        'tasks: while let Some(task) = self.pop() {
            match task {
                Task::Unbind => self.env.unbind(),
                Task::Return(_, env) => self.env = env,
                Task::Do(_) => {}
                Task::Rest(_, _) => {}
                Task::Up => {}
                Task::Widen => {}
                Task::Again(_) => {}
            }
        }
    }
}
