//! Scripts that upload files by name.
use cv_commands::{RunFault, ScriptFault, with_files};
use std::fs;
use std::test::Fail;

/// The longest text that one request uploads.
const LONGEST: usize = 1_048_567;

#[test]
fn a_file_is_uploaded_by_its_name(rt: HostRuntime) -> Result<(), Fail> {
    fs::write(&rt, "toy map", b"A|\n".as_slice())?;
    let script = b"# put @x\n7 1 put @toy map\n7 1 put a@b\n7 1 put  @x\n8  2 bye".as_slice();
    let read = with_files(&rt, Vec::from_slice(rt.alloc(), script)?);
    fs::remove_file(&rt, "toy map")?;
    let Ok(lines) = read else {
        return Err("not read".into());
    };
    let wanted = b"# put @x\n7 1 raw 1 417c0a\n7 1 put a@b\n7 1 put  @x\n8  2 bye\n".as_slice();
    assert!(rt; lines.as_slice() == wanted);
    Ok(())
}

#[test]
fn a_long_file_goes_in_parts(rt: HostRuntime) -> Result<(), Fail> {
    let text = vec![in rt.alloc(); b'x'; LONGEST + 1]?;
    fs::write(&rt, "long map", text.as_slice())?;
    let script = Vec::from_slice(rt.alloc(), b"7 1 put @long map".as_slice())?;
    let read = with_files(&rt, script);
    fs::remove_file(&rt, "long map")?;
    let Ok(lines) = read else {
        return Err("not read".into());
    };
    assert!(rt; lines.starts_with(b"7 1 raw 8 78".as_slice()));
    assert!(rt; lines.ends_with(b"78\n7 1 raw 1 78\n".as_slice()));
    let (first, second) = (b"7 1 raw 8 \n".len(), b"7 1 raw 1 78\n".len());
    assert_eq!(rt; lines.len(), first + 2 * LONGEST + second);
    Ok(())
}

#[test]
fn a_file_that_is_not_read_is_told_by_its_line(rt: HostRuntime) -> Result<(), Fail> {
    let script = Vec::from_slice(rt.alloc(), b"\n7 1 put @nowhere\n".as_slice())?;
    let read = with_files(&rt, script);
    assert!(rt; matches!(read, Err(ScriptFault::File { line: 2, .. })));
    // The script's own faults are reported first.
    let script = b"7 1 put @nowhere\n7 2 shut 0\n".as_slice();
    let read = with_files(&rt, Vec::from_slice(rt.alloc(), script)?);
    assert!(rt; matches!(read, Err(ScriptFault::Run(RunFault::Line(2)))));
    Ok(())
}
