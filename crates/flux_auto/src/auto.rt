// The automaton of definitions and of the types that were added.
ghost use Rattle.std.specs.Prelude.{◌≡◌, ◌↔◌, ◌<◌, ◌++◌, ◌∷◌, [], ℕ, Some, IsTrue, length, slice_get, IfOk, OnOk, OnErr, IfSome};
ghost use Rattle.std.specs.Option.{option_map};
ghost use Rattle.flux_schema.specs.Definitions.{IsKnown};
ghost use Rattle.flux_schema.specs.Member.{Member};
ghost use Rattle.flux_forest.specs.View.{forest_of};
ghost use Rattle.flux_types.specs.Read.{ty_of};

use crate::Edge;
use crate::make::{begin, extend_or_stay};
use crate::nullable::nullable_names;
use crate::part::Part;
use crate::run::is_taken;
use crate::table::Table;
use crate::worklist::some_of;
use flux_atom::Name;
use flux_forest::{Forest, View};
use flux_types::{Defs, Ty, copy_of};
use std::alloc::{AllocError, Global};
use std::marker::Model;

/// A type that was added to an automaton. Contracts see its place among these, counted from 0. It
/// means nothing to another automaton.
#[derive(Clone, Copy, Debug)]
pub struct Start(usize);

impl Model for Start {
    ghost use Rattle.std.specs.Prelude.{ℕ};

    ghost Value = { ℕ };

    ghost view = { λ s. s.0 };

    ghost inverse = { λ s. record { 0 = s } };
}

// A type that was added, and its state.
#[derive(Drop)]
pub(crate) struct Added {
    pub(crate) ty: Ty,
    pub(crate) state: u64,
}

/// A tree automaton over forests, with a state for each type that was added. The states of a
/// definition are there once, however often it is used, but where a name stands outside all
/// elements, those of its body are made anew for what stands behind it. So names that double at
/// each step, as `X=Y,Y` and `Y=Z,Z` and so on, end in want of memory. Adding a type recurses by
/// its height and by that of each body, but by no chain of names.
#[derive(Drop)]
pub struct Auto {
    defs: Defs,
    other: Name,
    // of each definition, whether its name is nullable
    nullable: Vec<bool>,
    table: Table,
    added: Vec<Added>,
}

impl Model for Auto {
    ghost use Rattle.flux_auto.specs.Automaton.{Automaton, automaton_code};

    ghost Value = { Automaton };

    ghost coded = { automaton_code };

    ghost use Rattle.flux_auto.specs.Shown.{shown, IsRight};

    ghost view = { λ a. shown a.defs a.other a.table a.added.items };

    ghost invariant = { λ a. IsRight a.defs a.nullable.items a.table a.added.items };
}

impl Auto {
    ghost use Rattle.flux_auto.specs.TakesLaw.{TakesByEdges};
    ghost use Rattle.flux_auto.specs.Automaton.{IsSomeMember, TakesMembers, KeepsStates, EdgesInside, EdgesGiven};
    ghost use Rattle.flux_auto.specs.Part.{IsPartOf};

    /// An automaton of the definitions, to which no type was added. It keeps copies of them. An
    /// element of any label is shown by one with the label `other`, which may be one that no type
    /// names. What is a member doesn't depend on it.
    pub fn new(alloc: Global, defs: &Defs, other: Name) -> Result<Auto, AllocError>
        ensures definitions { IfOk result (λ auto. auto.definitions ≡ defs.now) }
        ensures other { IfOk result (λ auto. auto.other ≡ other) }
        ensures none { IfOk result (λ auto. auto.types ≡ []) }
    {
        let defs = defs.copy(alloc)?;
        let nullable = nullable_names(alloc, &defs)?;
        let table = begin(alloc, &defs, &nullable)?;
        let added = Vec::new(alloc);
        Ok(Auto {
            defs,
            other,
            nullable,
            table,
            added,
        })
    }

    /// Adds a type. Those that were added before keep their starts, also where this fails.
    pub fn add(&mut self, ty: &Ty) -> Result<Start, AllocError>
        requires { IsKnown self.old.definitions (ty_of ty.now) }
        ensures start { IfOk result (λ start. start ≡ length self.old.types) }
        ensures types { OnOk result (self.new.types ≡ self.old.types ++ ty_of ty.now ∷ []) }
        ensures definitions { OnOk result (self.new.definitions ≡ self.old.definitions) }
        ensures other { OnOk result (self.new.other ≡ self.old.other) }
        ensures states { OnOk result (KeepsStates self.old.states self.new.states) }
        ensures starts { (i s : ℕ)
            → slice_get self.old.starts i ≡ Some s → slice_get self.new.starts i ≡ Some s }
        ensures err { OnErr result (self.new ≡ self.old) }
    {
        let alloc = *self.added.allocator();
        let copied = copy_of(alloc, ty)?;
        self.added.try_reserve(1)?;
        let state = extend_or_stay(alloc, &self.defs, &self.nullable, &mut self.table, ty)?;
        let start = Start(self.added.len());
        if let Err(_) = self.added.push(Added { ty: copied, state }) {
            unreachable!()
        }
        Ok(start)
    }

    /// Whether a forest is a member of a type that was added. First it sorts the edges of the states
    /// that the type leads to by what they go by, which takes the time of going over them and the
    /// names up to the last label once; what other types and definitions have plays no part. The
    /// profile of a forest is the set of the states that take it. Each profile is kept once and has
    /// a number. A tree in front of a forest takes the time of looking up what its label, or kind
    /// of atom, and the numbers of the two profiles give. That is found when they meet for the
    /// first time: by filling a profile, and going over the edges of the label and of any label
    /// alone, or of the kind. The memory is that of the edges, of the profiles that differ and of
    /// what was found, and for each element that is open a number and the places of the trees
    /// before it that are still to come. It doesn't recurse.
    pub fn member(&self, start: Start, view: View<'_>) -> Result<bool, AllocError>
        requires { start < length self.now.types }
        ensures { IfOk result (λ found. IfSome (slice_get self.now.types start)
            (λ t. IsTrue found ↔ Member self.now.definitions (forest_of view.entry) t)) }
    {
        let alloc = *self.added.allocator();
        let rows = self.table.rows.as_slice();
        is_taken(alloc, rows, self.added[start.0].state, view)
    }

    /// A member of a type that was added, if it has one. An element of any label has the label
    /// that the automaton was made with, a number is 0, a truth value false and a text empty. Where
    /// names double what they stand for at each step, as `X=a[Y],a[Y]` and `Y=b[Z],b[Z]`, so do the
    /// members, and memory is wanting.
    pub fn some(&self, start: Start) -> Result<Option<Forest>, AllocError>
        requires { start < length self.now.types }
        ensures { IfOk result (λ found. IfSome (slice_get self.now.types start)
            (λ t. IsSomeMember self.now t found)) }
    {
        let alloc = *self.added.allocator();
        let rows = self.table.rows.as_slice();
        some_of(alloc, rows, self.other, self.added[start.0].state)
    }

    /// How many states there are: they are the numbers below it.
    pub fn states(&self) -> u64
        ensures count { result ≡ length self.now.states }
        ensures law { TakesByEdges self.now.states }
        ensures edges { EdgesInside self.now.states }
        ensures labels { EdgesGiven self.now }
    {
        self.table.rows.len() as u64
    }

    /// The state of a type that was added: it takes the members of the type.
    pub fn state(&self, start: Start) -> u64
        requires { start < length self.now.types }
        ensures state { slice_get self.now.starts start ≡ Some result }
        ensures within { result < length self.now.states }
        ensures members { IfSome (slice_get self.now.types start) (TakesMembers self.now result) }
    {
        self.added[start.0].state
    }

    /// Whether a state takes the empty forest.
    pub fn ends(&self, state: u64) -> bool
        requires { state < length self.now.states }
        ensures { option_map (λ s. s.ends) (slice_get self.now.states state) ≡ Some result }
    {
        self.table.rows[state as usize].ends
    }

    /// The trees that a state goes on by.
    pub fn edges(&self, state: u64) -> &[Edge]
        requires { state < length self.now.states }
        ensures { option_map (λ s. s.edges) (slice_get self.now.states state) ≡ Some result.now }
    {
        self.table.rows[state as usize].edges.as_slice()
    }

    /// The part of the automaton that states lead to. They are its first states, in order.
    pub fn part(&self, alloc: Global, states: &[u64]) -> Result<Part, AllocError>
        ensures { IfOk result (IsPartOf self.now.states states.now) }
    {
        Part::of(alloc, self.table.rows.as_slice(), states)
    }
}
