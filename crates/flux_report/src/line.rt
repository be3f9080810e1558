// The line that tells why a script is refused.
ghost use Rattle.std.specs.Prelude.{◌≡◌, ◌-◌, ◌^◌, ◌<◌, ◌++◌, length, codes, string_bytes, IfOk, OnOk, OnErr};
ghost use Rattle.flux_report.specs.Lines.{placed_line, norm_text, script_text, IsShown};

use crate::line_and_column;
use flux_atom::Names;
use flux_lex::LexFault;
use flux_normal::NormFault;
use flux_syntax::SynFault;
use std::alloc::{AllocError, Global};

/// Why a script is refused.
#[derive(Debug, Drop)]
pub enum ScriptFault {
    /// It has more bytes than a script may have.
    TooLong,
    /// Its bytes are no tokens.
    Lex(LexFault),
    /// Its tokens have no reading.
    Syn(SynFault),
    /// Its names, types, calls or nesting are at fault.
    Norm(NormFault),
}

/// Appends the line of a fault, with the newline that ends it. Want of memory has no line. The
/// names are the script's.
pub fn script_line(
    alloc: Global,
    bytes: &[u8],
    fault: &ScriptFault,
    _names: &Names,
    out: &mut Vec<u8>,
) -> Result<(), AllocError>
    requires shown { IsShown bytes.now fault.now }
    requires short { length bytes.now < 2 ^ 32 - 1 }
    ensures ok { OnOk result (out.new.items ≡ out.old.items ++ script_text bytes.now fault.now) }
    ensures err { OnErr result (out.new.items ≡ out.old.items) }
{
    let line = fault_line(alloc, bytes, fault)?;
    out.extend_from_slice(line.as_bytes())
}

// The line of a fault. That of want of memory is empty.
fn fault_line(alloc: Global, bytes: &[u8], fault: &ScriptFault) -> Result<String, AllocError>
    requires short { length bytes.now < 2 ^ 32 - 1 }
    ensures { IfOk result (λ line. string_bytes line ≡ script_text bytes.now fault.now) }
{
    match fault {
        ScriptFault::TooLong => String::from_str(alloc, "script: longer than 1048576 bytes\n"),
        ScriptFault::Lex(LexFault::Bad { place }) => line_at(alloc, bytes, *place, "Bad"),
        ScriptFault::Syn(SynFault::Syntax { place }) => line_at(alloc, bytes, *place, "Syntax"),
        ScriptFault::Norm(fault) => norm_line(alloc, bytes, fault),
        ScriptFault::Lex(LexFault::Memory(_)) | ScriptFault::Syn(SynFault::Memory(_)) => {
            Ok(String::new(alloc))
        }
    }
}

// The line of a fault of names, types, calls and nesting.
fn norm_line(alloc: Global, bytes: &[u8], fault: &NormFault) -> Result<String, AllocError>
    requires short { length bytes.now < 2 ^ 32 - 1 }
    ensures { IfOk result (λ line. string_bytes line ≡ norm_text bytes.now fault.now) }
{
    match fault {
        NormFault::Duplicate { place } => line_at(alloc, bytes, *place, "Duplicate"),
        NormFault::UnknownType { place } => line_at(alloc, bytes, *place, "UnknownType"),
        NormFault::BigType { place } => line_at(alloc, bytes, *place, "BigType"),
        NormFault::Unguarded { place } => line_at(alloc, bytes, *place, "Unguarded"),
        NormFault::UnknownProc { place } => line_at(alloc, bytes, *place, "UnknownProc"),
        NormFault::Arity { place } => line_at(alloc, bytes, *place, "Arity"),
        NormFault::TooNested { place } => line_at(alloc, bytes, *place, "TooNested"),
        NormFault::Memory(_) => Ok(String::new(alloc)),
    }
}

// The line of a fault at a place.
fn line_at(alloc: Global, bytes: &[u8], place: u32, text: &str) -> Result<String, AllocError>
    requires short { length bytes.now < 2 ^ 32 - 1 }
    ensures { IfOk result (λ line. string_bytes line ≡ placed_line bytes.now place text.now) }
{
    let (line, column) = line_and_column(bytes, place);
    format!(in alloc; "script:{line}:{column}: {text}\n")
}
