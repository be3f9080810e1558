// Sets of states, a bit for each state.
ghost use Rattle.std.specs.Prelude.{◌≡◌, false, true, replicate, set, IfOk, fold};
ghost use Rattle.std.specs.Bool.{beq};
ghost use Rattle.std.specs.Cmp.{partial_equiv_from_equiv, bool_eq_equiv, booleans_Decides};
ghost use Rattle.std.specs.Cmp.Lexicographic.{pointwise, pointwise_decides, lists_equiv};
ghost use Rattle.std.specs.Hash as fed;
ghost use Rattle.flux_auto.specs.Takes.{has};
ghost use Rattle.flux_auto.specs.Set.{with_block, words_of};

use crate::block::Block;
use std::alloc::{AllocError, Global};
use std::hash::{Hash, Hasher};
use std::marker::Model;

/// For each of the states below a count, whether it is in the set. Contracts see these truth
/// values, in order.
#[derive(Drop)]
pub struct Set {
    words: Vec<u64>,
    count: usize,
}

impl Model for Set {
    ghost use Rattle.std.specs.Prelude.{List, Bool};

    ghost Value = { List Bool };

    ghost use Rattle.flux_auto.specs.Set.{flags, IsPacked};

    ghost view = { λ s. flags s.words.items s.count };

    ghost invariant = { λ s. IsPacked s.words.items s.count };
}

impl Set {
    /// None of so many states.
    pub fn none(alloc: Global, count: usize) -> Result<Set, AllocError>
        ensures { IfOk result (λ set. set ≡ replicate count false) }
    {
        let words = vec![in alloc; 0u64; count / 64 + 1]?;
        Ok(Set { words, count })
    }

    /// Whether the set has a state; it has none from its count on.
    pub fn has(&self, state: u64) -> bool
        ensures { result ≡ has self.now state }
    {
        let state = state as usize;
        state < self.count && (self.words[state / 64] >> (state % 64)) & 1 == 1
    }

    /// Puts a state below the count into the set, and does nothing with another.
    pub fn insert(&mut self, state: u64)
        ensures { self.new ≡ set self.old state true }
    {
        let state = state as usize;
        if state < self.count {
            self.words[state / 64] |= 1u64 << (state % 64);
        }
    }

    /// Puts the states of a block that are below the count into the set.
    pub fn insert_all(&mut self, states: Block)
        ensures { self.new ≡ with_block self.old states }
    {
        let number = states.number as usize;
        if number < self.count / 64 {
            self.words[number] |= states.bits;
        } else if number == self.count / 64 {
            self.words[number] |= states.bits & ((1u64 << (self.count % 64)) - 1);
        }
    }
}

impl PartialEq for Set {
    ghost eq = { pointwise beq };

    ghost laws = { partial_equiv_from_equiv (lists_equiv bool_eq_equiv) };

    fn eq(&self, other: &Set) -> bool {
        self.count == other.count && self.words == other.words
    }
}

impl Eq for Set {
    ghost laws = { lists_equiv bool_eq_equiv };
}

impl Hash for Set {
    ghost hash_input = { λ s. fed.slice fed.u64 (words_of s) };

    ghost respects_eq = { (fed.same_Alike (λ s. fed.slice fed.u64 (words_of s)) (pointwise_decides booleans_Decides)).fed };

    fn hash<H: Hasher>(&self, state: &mut H) {
        self.words.hash(state);
    }
}
