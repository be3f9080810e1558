// Why a run was refused, and the line that says so.
ghost use Rattle.std.specs.Prelude.{◌≡◌, ◌⊎◌, ◌≤◌, [], IfOk};
ghost use Rattle.flux_io.specs.Outside.{Rose};
ghost use Rattle.flux_report.specs.declared.line.ScriptFault.TheVariants.{TooLong};
ghost use Rattle.flux_report.specs.Lines.{script_text};
ghost use Rattle.flux_top.specs.Lines.{status_of, line_of};
ghost use Rattle.flux_top.specs.Clauses.{Appends};

use crate::Status;
use flux_atom::Names;
use flux_io::{Refused, Sink, write_all};
use flux_report::{ScriptFault, script_line};
use std::alloc::{AllocError, Global};

// What the command line may be.
const USAGE: &str = "usage: flux check SCRIPT | run [--depth N] SCRIPT DOC \
    | edits [--depth N] SCRIPT DOC | core SCRIPT | trial [--seed N] BOOKS\n";

/// Why a run is refused.
#[derive(Debug, Drop)]
pub enum Refusal {
    WrongWords,
    LongScript,
    /// The script is no tokens or has no reading, as this line tells.
    FaultyScript(Vec<u8>),
    OtherScript,
    LongDocument,
    /// The document spells no forest: the line and the column where its longest viable prefix
    /// ends.
    NoForest(u32, u32),
    NoRead,
    NoWrite,
    NoMemory,
}

impl Refusal {
    fn status(&self) -> Status
        ensures { result ≡ status_of self.now }
    {
        match self {
            Refusal::WrongWords => Status::Usage,
            Refusal::LongScript | Refusal::FaultyScript(_) | Refusal::OtherScript => Status::Script,
            Refusal::LongDocument | Refusal::NoForest(_, _) => Status::DocText,
            Refusal::NoRead => Status::ReadFault,
            Refusal::NoWrite => Status::WriteFault,
            Refusal::NoMemory => Status::Memory,
        }
    }

    // Its line, with the newline that ends it.
    fn line(self, alloc: Global) -> Result<Vec<u8>, AllocError>
        ensures { IfOk result (λ line. line.items ≡ line_of self) }
    {
        match self {
            Refusal::WrongWords => Vec::from_slice(alloc, USAGE.as_bytes()),
            Refusal::LongScript => long_script_line(alloc),
            Refusal::FaultyScript(line) => Ok(line),
            Refusal::OtherScript => Vec::from_slice(alloc, b"script: not built yet\n"),
            Refusal::LongDocument => {
                Vec::from_slice(alloc, b"document: longer than 33554432 bytes\n")
            }
            Refusal::NoForest(line, column) => no_forest_line(alloc, line, column),
            Refusal::NoRead => Vec::from_slice(alloc, b"flux: read fault\n"),
            Refusal::NoWrite => Vec::from_slice(alloc, b"flux: write fault\n"),
            Refusal::NoMemory => Vec::from_slice(alloc, b"flux: out of memory\n"),
        }
    }
}

fn long_script_line(alloc: Global) -> Result<Vec<u8>, AllocError>
    ensures { IfOk result (λ line. line.items ≡ script_text [] TooLong) }
{
    let mut line = Vec::new(alloc);
    script_line(
        alloc,
        &[],
        &ScriptFault::TooLong,
        &Names::new(alloc),
        &mut line,
    )?;
    Ok(line)
}

fn no_forest_line(alloc: Global, line: u32, column: u32) -> Result<Vec<u8>, AllocError>
    ensures { IfOk result (λ text. text.items ≡ line_of (Refusal.NoForest line column)) }
{
    let text = format!(in alloc; "document:{line}:{column}: no forest\n")?;
    Ok(text.into_bytes())
}

/// Writes the line of a refusal, and gives its status, or that of want of memory where the line
/// finds none. A line that can't be written changes no status.
pub fn refuse<X: Sink>(alloc: Global, err: &mut X, refusal: Refusal) -> Status
    ensures status { (result ≡ Status.Memory)
        ⊎ ((result ≡ status_of refusal)
        × Appends (X.written err.old) (X.written err.new)
        (Rose (X.faults err.old) (X.faults err.new)) (line_of refusal)) }
    ensures later { X.faults err.old ≤ X.faults err.new }
{
    let status = refusal.status();
    let Ok(line) = refusal.line(alloc) else {
        return Status::Memory;
    };
    match write_all(err, line.as_slice()) {
        Ok(()) | Err(Refused::Failed) => status,
        Err(Refused::Memory(_)) => Status::Memory,
    }
}
