// The procedures of a script, by their names.
ghost use Rattle.std.specs.Prelude.{◌≡◌, ◌∷◌, ◌++◌, [], None, Some, map, length, find, not, nat_eq, MatchOption, IfOk, IfErr, OnOk};
ghost use Rattle.std.specs.List.{position_or_len};
ghost use Rattle.indexmap.specs.IndexMap.{keys, get};
ghost use Rattle.indexmap.specs.IndexSet.{contains, insert_key};
ghost use Rattle.flux_grammar.specs.NormalFaults.{again, repeated, repeated_procs};
ghost use Rattle.flux_normal.specs.Heads.{has_name};
ghost use Rattle.flux_normal.specs.Procedures.{head_written, mention_of_param, IsRepeat};

use crate::NormFault;
use flux_atom::Name;
use flux_grammar::{ParamDef, ProcDef};
use indexmap::{IndexMap, IndexSet};
use std::alloc::{AllocError, Global};
use std::marker::Model;

/// The procedures of a script, each a name and how many parameters it has. A procedure is found by
/// the hash of its name's number.
#[derive(Drop)]
pub(crate) struct Procedures {
    parameters: IndexMap<u32, u32>,
}

impl Model for Procedures {
    ghost use Rattle.std.specs.Prelude.{ℕ, List, ◌<◌, ◌^◌, length};
    ghost use Rattle.std.specs.Coded.{coded_list, coded_ℕ, coded×};

    ghost Value = { List (ℕ × ℕ) };

    ghost coded = { coded_list (coded× coded_ℕ coded_ℕ) };

    ghost view = { λ p. p.parameters.entries };

    ghost invariant = { λ p. length p.parameters.entries < 2 ^ 32 };
}

/// A procedure that has a name.
#[derive(Clone, Copy)]
pub(crate) struct Found {
    pub(crate) index: u32,
    pub(crate) parameters: u32,
}

impl Procedures {
    /// The procedures, where their names differ, and those of the parameters of each. Memory is
    /// wanting also where there are more than 32 bits can number.
    pub(crate) fn of(alloc: Global, procs: &[ProcDef]) -> Result<Procedures, NormFault>
        ensures heads { IfOk result (λ procedures. procedures ≡ map head_written procs.now) }
        ensures differ { OnOk result (repeated_procs [] procs.now ≡ []) }
        ensures fault { IfErr result (IsRepeat (repeated_procs [] procs.now)) }
    {
        if procs.len() > u32::MAX as usize {
            return Err(NormFault::Memory(AllocError));
        }
        let mut parameters = IndexMap::new(alloc);
        for proc in procs {
            match add(alloc, &mut parameters, proc) {
                Ok(()) => {}
                Err(fault) => return Err(fault),
            }
        }
        Ok(Procedures { parameters })
    }

    /// The procedure of this name.
    pub(crate) fn find(&self, name: Name) -> Option<Found>
        ensures { MatchOption result
            (find (has_name name) self.now ≡ None)
            (λ found. (found.index ≡ position_or_len (has_name name) self.now)
            × (find (has_name name) self.now ≡ Some (name, found.parameters))) }
    {
        let (index, _, parameters) = self.parameters.get_full(&name.number())?;
        Some(Found {
            index: index as u32,
            parameters: *parameters,
        })
    }
}

// Adds a procedure whose name none of them has.
fn add(alloc: Global, parameters: &mut IndexMap<u32, u32>, proc: &ProcDef) -> Result<(), NormFault>
    ensures ok { OnOk result
        (parameters.new.entries ≡ parameters.old.entries ++ head_written proc.now ∷ []) }
    ensures differ { OnOk result
        (again (keys parameters.old) (proc.now.name, proc.now.at.from)
        ++ repeated [] (map mention_of_param proc.now.params) ≡ []) }
    ensures fault { IfErr result
        (IsRepeat (again (keys parameters.old) (proc.now.name, proc.now.at.from)
        ++ repeated [] (map mention_of_param proc.now.params))) }
{
    let name = proc.name.number();
    if parameters.contains_key(&name) {
        return Err(NormFault::Duplicate {
            place: proc.at.from,
        });
    }
    if let Err(fault) = check_params(alloc, proc.params.as_slice()) {
        return Err(fault);
    }
    let count = proc.params.as_slice().len();
    if count > u32::MAX as usize {
        return Err(NormFault::Memory(AllocError));
    }
    put(parameters, name, count as u32)?;
    Ok(())
}

fn put(parameters: &mut IndexMap<u32, u32>, name: u32, count: u32) -> Result<(), AllocError>
    requires { get nat_eq parameters.old name ≡ None }
    ensures { OnOk result
        (parameters.new.entries ≡ parameters.old.entries ++ (name, count) ∷ []) }
{
    parameters.insert(name, count)?;
    Ok(())
}

// Parameters with names that differ.
fn check_params(alloc: Global, params: &[ParamDef]) -> Result<(), NormFault>
    ensures differ { OnOk result (repeated [] (map mention_of_param params.now) ≡ []) }
    ensures fault { IfErr result (IsRepeat (repeated [] (map mention_of_param params.now))) }
{
    let mut seen: IndexSet<u32> = IndexSet::new(alloc);
    for param in params {
        if !remember(&mut seen, param.var.number())? {
            return Err(NormFault::Duplicate {
                place: param.at.from,
            });
        }
    }
    Ok(())
}

// Whether the number wasn't among them before.
fn remember(seen: &mut IndexSet<u32>, number: u32) -> Result<bool, AllocError>
    ensures added { IfOk result (λ added. added ≡ not (contains nat_eq seen.old number)) }
    ensures keys { OnOk result (seen.new.keys ≡ insert_key nat_eq seen.old.keys number) }
{
    let (_, added) = seen.insert_full(number)?;
    Ok(added)
}
