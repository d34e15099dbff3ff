//! The commands that work from standard input to standard output.
use crate::console::{Console, chain};
use cv_commands::{RunFault, ask, run, show};
use std::test::Fail;

const SCRIPT: &[u8] = b"7 1 open US-ASCII ISO-8859-1\n7 2 conv 0 8 41e942\n8 1 close 3\n";

#[test]
fn ask_pipe_and_show_print_what_run_prints(rt: HostRuntime) -> Result<(), Fail> {
    let alone = Console::new(&rt, SCRIPT);
    run(&alone, 1)?;
    let lines = chain(&rt, SCRIPT, 1)?;
    assert!(rt; lines == alone.into_output());
    assert!(rt;
        lines.as_slice()
            == b"7 1 OK 00000000\n7 2 OK 0000000000000001413f42\n8 1 EBADF -\n".as_slice()
    );
    Ok(())
}

#[test]
fn a_script_at_fault_prints_nothing(rt: HostRuntime) -> Result<(), Fail> {
    let script = Console::new(&rt, b"7 1 close 0\n7 2 shut 0\n");
    assert!(rt; ask(&script).err() == Some(RunFault::Line(2)));
    assert!(rt; run(&script, 2).err() == Some(RunFault::Line(2)));
    assert!(rt; script.into_output().is_empty());
    Ok(())
}
