//! The commands that take a script.
ghost use Rattle.std.specs.Prelude.{◌≡◌};
ghost use Rattle.cv_commands.specs.Status.{script_status_of};

use cv_commands::{ScriptFault, read_all, script_status, with_files};
use std::fs::Files;

/// The script on standard input, with the texts of the files that it uploads.
pub(crate) fn given_script<R: Files + Input + AllocGlobal>(rt: &R) -> Result<Vec<u8>, ScriptFault> {
    let script = read_all(rt.alloc(), rt.reader())?;
    with_files(rt, script)
}

/// Writes the fault to standard error, if that is possible, and gives the exit status of a command whose script was not
/// read.
pub(crate) fn refuse_script<R: Eprint>(rt: &R, fault: &ScriptFault) -> u8
    ensures { result ≡ script_status_of fault.now }
{
    let _ = eprintln!(rt; "iconvd: {fault}");
    script_status(fault)
}
