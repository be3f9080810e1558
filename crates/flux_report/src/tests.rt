// What no clause says: that calls succeed. The lines were worked out by hand.
ghost use Rattle.std.specs.Prelude.{◌-◌, ◌^◌, ◌<◌, length};
ghost use Rattle.flux_report.specs.Lines.{IsShown};

use crate::{LexFault, NormFault, ScriptFault, SynFault, script_line};
use flux_atom::Names;
use std::alloc::{AllocError, Global};
use std::process::Abort;
use std::test::Fail;

fn line(alloc: Global, script: &[u8], fault: &ScriptFault) -> Result<Vec<u8>, AllocError>
    requires shown { IsShown script.now fault.now }
    requires short { length script.now < 2 ^ 32 - 1 }
{
    let mut line = Vec::new(alloc);
    script_line(alloc, script, fault, &Names::new(alloc), &mut line)?;
    Ok(line)
}

// The lines of faults that have a place, one of each kind, one behind the other.
fn lines(rt: &impl Abort, alloc: Global, script: &str, place: u32) -> Result<Vec<u8>, AllocError> {
    let script = script.as_bytes();
    assert!(rt; place as usize <= script.len());
    assert!(rt; script.len() < 100);
    let mut lines = line(alloc, script, &ScriptFault::Lex(LexFault::Bad { place }))?;
    let other = line(alloc, script, &ScriptFault::Syn(SynFault::Syntax { place }))?;
    lines.extend_from_slice(&other)?;
    let unguarded = ScriptFault::Norm(NormFault::Unguarded { place });
    let other = line(alloc, script, &unguarded)?;
    lines.extend_from_slice(&other)?;
    Ok(lines)
}

#[test]
fn shows_faults(rt: HostRuntime) -> Result<(), Fail> {
    let alloc = rt.alloc();
    for (script, place, position) in [
        ("", 0, "1:1"),
        ("abc", 0, "1:1"),
        ("abc", 3, "1:4"),
        ("a\nb", 1, "1:2"),
        ("a\nb", 2, "2:1"),
        ("a\nb", 3, "2:2"),
        ("\n\n", 2, "3:1"),
        ("a\r\n\tb", 4, "2:2"),
        ("é\né", 3, "2:1"),
        ("é\né", 2, "1:3"),
        ("012345678901", 11, "1:12"),
    ] {
        let lines = lines(&rt, alloc, script, place)?;
        let wanted = format!(in alloc;
            "script:{position}: Bad\nscript:{position}: Syntax\nscript:{position}: Unguarded\n"
        )?;
        assert_eq!(rt;
            lines.as_slice(),
            wanted.as_bytes(),
            "{script:?} at {place}"
        );
    }
    let line = line(alloc, b"", &ScriptFault::TooLong)?;
    assert_eq!(rt;
        line.as_slice(),
        b"script: longer than 1048576 bytes\n".as_slice()
    );
    Ok(())
}
