// Procedures, and what a script has of them.
ghost use Rattle.std.specs.Prelude.{◌<◌, ◌^◌, length};

use crate::{Core, Param};
use flux_atom::{Items, Name};
use flux_types::Ty;
use std::alloc::{AllocError, Global};

/// A procedure.
#[derive(Debug, Drop)]
pub struct Proc {
    pub name: Name,
    /// The parameters in the order of the text.
    pub params: Items<Param>,
    /// The type of the focuses that it is declared at.
    pub focus: Ty,
    /// The type that is declared for its results.
    pub result: Ty,
    /// Where that type begins in the script.
    pub result_at: u32,
    pub body: Core,
}

/// Procedures, each with its place as its index: fewer than 2^32.
#[derive(Debug, Drop)]
pub struct Procs {
    list: Items<Proc>,
    pub ghost few: { length list < 2 ^ 32 },
}

impl Procs {
    ghost use Rattle.std.specs.Prelude.{◌≡◌, ◌-◌, [], ◌∷◌, ◌++◌, Some, OnOk, OnErr};
    ghost use Rattle.flux_calculus.specs.Core.{proc_of};
    ghost use Rattle.flux_core.specs.Statements.{procedure_of, procs_of};

    /// No procedures. It takes no memory.
    pub fn new(alloc: Global) -> Procs
        ensures { procs_of result ≡ [] }
    {
        Procs {
            list: Items::new(alloc),
        }
    }

    /// Adds a procedure behind the others. Where memory is wanting, it is dropped.
    pub fn push(&mut self, proc: Proc) -> Result<(), AllocError>
        requires { length (procs_of self.old) < 2 ^ 32 - 1 }
        ensures ok { OnOk result (procs_of self.new ≡ procs_of self.old ++ procedure_of proc ∷ []) }
        ensures err { OnErr result (procs_of self.new ≡ procs_of self.old) }
    {
        self.list.push(proc)
    }

    /// The procedure with this index.
    pub fn get(&self, index: u32) -> &Proc
        requires { index < length (procs_of self.now) }
        ensures { proc_of (procs_of self.now) index ≡ Some (procedure_of result.now) }
    {
        &self.list.as_slice()[index as usize]
    }

    /// How many there are: the indices are the numbers below it.
    pub fn len(&self) -> u32
        ensures { result ≡ length (procs_of self.now) }
    {
        self.list.len() as u32
    }
}
