// A name that a table doesn't hold.
ghost use Rattle.std.specs.Prelude.{◌≡◌, ◌-◌, ◌^◌, ◌<◌, ℕ, List, [], ◌∷◌, ◌++◌, length, string_bytes, IfOk, OnErr};
ghost use Rattle.flux_atom.specs.Fresh.{candidate, IsFresh};
ghost use Rattle.flux_atom.specs.Names.{IsName, IsTable};

use crate::{Name, Names};
use std::alloc::{AllocError, Global};

/// Adds a name that the table lacks: the first of `other`, `other1`, `other2` and so on.
pub fn fresh(alloc: Global, names: &mut Names) -> Result<Name, AllocError>
    requires { length names.old < 2 ^ 32 - 1 }
    ensures added { IfOk result (λ name. (text : List ℕ) × IsFresh names.old text
        × (names.new ≡ names.old ++ text ∷ []) × (name ≡ length names.old)) }
    ensures unchanged { OnErr result (names.new ≡ names.old) }
    ensures table { IsTable names.new }
{
    let text = first_lacked(alloc, names)?;
    names.intern(text.as_str())
}

fn first_lacked(alloc: Global, names: &Names) -> Result<String, AllocError>
    requires { length names.now < 2 ^ 32 - 1 }
    ensures first { IfOk result (λ text. IsFresh names.now (string_bytes text)) }
    ensures name { IfOk result (λ text. IsName (string_bytes text)) }
    ensures table { IsTable names.now }
{
    for number in 0..names.len() + 1 {
        let text = candidate(alloc, number)?;
        if !names.holds(text.as_str()) {
            return Ok(text);
        }
    }
    // There are more candidates than names.
    unreachable!()
}

fn candidate(alloc: Global, number: usize) -> Result<String, AllocError>
    ensures { IfOk result (λ text. string_bytes text ≡ candidate number) }
{
    if number == 0 {
        String::from_str(alloc, "other")
    } else {
        format!(in alloc; "other{number}")
    }
}
