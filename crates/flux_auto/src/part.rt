// The part of an automaton that some of its states lead to.
ghost use Rattle.std.specs.Prelude.{◌≡◌, length, map, IfOk, OnOk, IfSome};
ghost use Rattle.flux_auto.specs.Built.{state_of};
ghost use Rattle.flux_auto.specs.Part.{IsNumber, AreNumbered, MoreNumbered, IsRenamed, AreRenamed, IsCopied, IsPartOf};

use crate::Edge;
use crate::arcs::Arcs;
use crate::set::Set;
use crate::sets::{arcs_of, set_of_nil};
use crate::table::Row;
use indexmap::IndexMap;
use std::alloc::{AllocError, Global};
use std::marker::Model;

// The states that were reached, in the order of their new numbers, and the new number of each.
#[derive(Drop)]
pub(crate) struct Numbers {
    pub(crate) olds: Vec<u64>,
    pub(crate) news: IndexMap<u64, u64>,
}

// The first states, which have their places as numbers.
fn begin(alloc: Global, states: &[u64]) -> Result<Numbers, AllocError>
    ensures olds { IfOk result (λ numbers. numbers.olds.items ≡ states.now) }
    ensures right { IfOk result AreNumbered }
{
    let mut news = IndexMap::new(alloc);
    for index in 0..states.len() {
        news.insert(states[index], index as u64)?;
    }
    let olds = states.to_vec(alloc)?;
    Ok(Numbers { olds, news })
}

// The number that a state has, if it has one.
fn known(numbers: &Numbers, state: u64) -> Option<u64>
    requires { AreNumbered numbers.now }
    ensures { IfSome result (IsNumber numbers.now.olds.items state) }
{
    numbers.news.get(&state).copied()
}

// The number of a state, which has one from now on.
fn number(numbers: &mut Numbers, state: u64) -> Result<u64, AllocError>
    requires { AreNumbered numbers.old }
    ensures is { IfOk result (IsNumber numbers.new.olds.items state) }
    ensures right { OnOk result (AreNumbered numbers.new) }
    ensures more { OnOk result (MoreNumbered numbers.old numbers.new) }
{
    if let Some(number) = known(numbers, state) {
        return Ok(number);
    }
    let number = numbers.olds.len() as u64;
    numbers.olds.push(state)?;
    numbers.news.insert(state, number)?;
    Ok(number)
}

fn renamed(edge: &Edge, numbers: &mut Numbers) -> Result<Edge, AllocError>
    requires { AreNumbered numbers.old }
    ensures is { IfOk result (IsRenamed numbers.new.olds.items edge.now) }
    ensures right { OnOk result (AreNumbered numbers.new) }
    ensures more { OnOk result (MoreNumbered numbers.old numbers.new) }
{
    match edge {
        Edge::Atom(kind, next) => {
            let next = number(numbers, *next)?;
            Ok(Edge::Atom(*kind, next))
        }
        Edge::Elem(label, content, next) => {
            let content = number(numbers, *content)?;
            let next = number(numbers, *next)?;
            Ok(Edge::Elem(*label, content, next))
        }
        Edge::AnyElem(content, next) => {
            let content = number(numbers, *content)?;
            let next = number(numbers, *next)?;
            Ok(Edge::AnyElem(content, next))
        }
    }
}

fn renamed_all(
    alloc: Global,
    edges: &[Edge],
    numbers: &mut Numbers,
) -> Result<Vec<Edge>, AllocError>
    requires { AreNumbered numbers.old }
    ensures are { IfOk result (λ all. AreRenamed numbers.new.olds.items edges.now all.items) }
    ensures right { OnOk result (AreNumbered numbers.new) }
    ensures more { OnOk result (MoreNumbered numbers.old numbers.new) }
{
    let mut all = Vec::new(alloc);
    for edge in edges {
        all.push(renamed(edge, numbers)?)?;
    }
    Ok(all)
}

// A state of the part. One that isn't there takes nothing.
fn copied(alloc: Global, rows: &[Row], state: u64, numbers: &mut Numbers) -> Result<Row, AllocError>
    requires { AreNumbered numbers.old }
    ensures is { IfOk result (λ copy.
        IsCopied numbers.new.olds.items (map state_of rows.now) state (state_of copy)) }
    ensures right { OnOk result (AreNumbered numbers.new) }
    ensures more { OnOk result (MoreNumbered numbers.old numbers.new) }
{
    match rows.get(state as usize) {
        Some(row) => {
            let ends = row.ends;
            let edges = renamed_all(alloc, row.edges.as_slice(), numbers)?;
            Ok(Row { ends, edges })
        }
        None => Ok(Row {
            ends: false,
            edges: Vec::new(alloc),
        }),
    }
}

// The part that states lead to. They are its first states.
pub(crate) fn part_of(alloc: Global, rows: &[Row], states: &[u64]) -> Result<Vec<Row>, AllocError>
    ensures { IfOk result (λ part.
        IsPartOf (map state_of rows.now) states.now (map state_of part.items)) }
{
    let mut numbers = begin(alloc, states)?;
    let mut part = Vec::new(alloc);
    while part.len() < numbers.olds.len() {
        let state = numbers.olds[part.len()];
        let copy = copied(alloc, rows, state, &mut numbers)?;
        part.push(copy)?;
    }
    Ok(part)
}

/// States of an automaton with all that they lead to, numbered anew.
#[derive(Drop)]
pub struct Part {
    rows: Vec<Row>,
}

impl Model for Part {
    ghost use Rattle.std.specs.Prelude.{List, map};
    ghost use Rattle.std.specs.Coded.{coded_list};
    ghost use Rattle.flux_auto.specs.Takes.{State};
    ghost use Rattle.flux_auto.specs.Automaton.{state_code};
    ghost use Rattle.flux_auto.specs.Built.{state_of};

    ghost Value = { List State };

    ghost coded = { coded_list state_code };

    ghost view = { λ p. map state_of p.rows.items };
}

impl Part {
    ghost use Rattle.flux_auto.specs.Takes.{profile_nil};
    ghost use Rattle.flux_auto.specs.Arcs.{IsIndex};

    pub(crate) fn of(alloc: Global, rows: &[Row], states: &[u64]) -> Result<Part, AllocError>
        ensures { IfOk result (λ part. IsPartOf (map state_of rows.now) states.now part) }
    {
        let rows = part_of(alloc, rows, states)?;
        Ok(Part { rows })
    }

    /// How many states there are: they are the numbers below it.
    pub fn states(&self) -> u64
        ensures { result ≡ length self.now }
    {
        self.rows.len() as u64
    }

    /// The states that take the empty forest.
    pub fn nothing(&self, alloc: Global) -> Result<Set, AllocError>
        ensures { IfOk result (λ set. set ≡ profile_nil self.now) }
    {
        set_of_nil(alloc, self.rows.as_slice())
    }

    /// The edges of the states, by the trees that they go by.
    pub fn arcs(&self, alloc: Global) -> Result<Arcs, AllocError>
        ensures { IfOk result (IsIndex self.now) }
    {
        arcs_of(alloc, self.rows.as_slice())
    }
}
