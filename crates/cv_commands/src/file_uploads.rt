//! Charmap files that scripts upload: `put @FILE`.
ghost use Rattle.std.specs.Prelude.{◌≡◌, ◌==◌, Ok, false};
ghost use Rattle.std.specs.List.{list_any};
ghost use Rattle.cv_commands.specs.Status.{script_status_of};

use crate::fault::{RunFault, status};
use crate::hexadecimal::push_hex;
use crate::lines::{is, next_word};
use crate::script::{ask_script, cut_line, is_skipped};
use cv_frame::MOST_BODY;
use std::fs::{self, Files};
use std::io::{self, ErrorKind};
use std::str;
use thiserror::Error;

/// Why a script could not be read with its files. Its text is the program's error message.
#[derive(Debug, Drop, Error)]
pub enum ScriptFault {
    /// The script could not be read, or a line of it is not a command.
    #[error("{0}")]
    Run(RunFault),
    /// The file of this line could not be read. Lines are numbered from 1.
    #[error("line {line}: cannot read the file: {cause}")]
    File { line: u32, cause: io::Error },
}

impl From<RunFault> for ScriptFault {
    fn from(fault: RunFault) -> ScriptFault {
        ScriptFault::Run(fault)
    }
}

/// Returns the exit status of a command that ended by this fault: 2 for a line that is not a command, else 1.
pub fn script_status(fault: &ScriptFault) -> u8
    ensures { result ≡ script_status_of fault.now }
{
    match fault {
        ScriptFault::Run(fault) => status(fault),
        ScriptFault::File { .. } => 1,
    }
}

/// A line `CALLER TAG put @FILE`.
#[derive(Clone, Copy)]
struct Upload<'a> {
    caller: &'a [u8],
    tag: &'a [u8],
    path: &'a [u8],
}

/// Returns the words of a line that uploads a file, or `None` for any other line.
fn upload_in(line: &[u8]) -> Option<Upload<'_>> {
    if is_skipped(line) {
        return None;
    }
    let (caller, rest) = next_word(line)?;
    let (tag, rest) = next_word(rest)?;
    let (command, rest) = next_word(rest)?;
    if !is(command, b"put") {
        return None;
    }
    match rest {
        [b' ', b'@', path @ ..] => Some(Upload { caller, tag, path }),
        _ => None,
    }
}

/// Appends a line of the upload's caller and tag, with this command and the body in hexadecimal.
fn push_raw(
    out: &mut Vec<u8>,
    upload: &Upload<'_>,
    command: &[u8],
    body: &[u8],
) -> Result<(), RunFault> {
    out.extend_from_slice(upload.caller)?;
    out.push(b' ')?;
    out.extend_from_slice(upload.tag)?;
    out.extend_from_slice(command)?;
    push_hex(out, body)?;
    out.push(b'\n')?;
    Ok(())
}

/// Appends a line as it is.
fn push_line(out: &mut Vec<u8>, line: &[u8]) -> Result<(), RunFault> {
    out.extend_from_slice(line)?;
    out.push(b'\n')?;
    Ok(())
}

/// Appends the lines that upload a text: a PUT of at most 1,048,567 bytes, and before it PARTs of 1,048,567 bytes each
/// for a longer text.
fn push_upload(out: &mut Vec<u8>, upload: &Upload<'_>, text: &[u8]) -> Result<(), RunFault> {
    let mut rest = text;
    while rest.len() > MOST_BODY {
        let (part, others) = rest.split_at(MOST_BODY);
        push_raw(out, upload, b" raw 8 ", part)?;
        rest = others;
    }
    push_raw(out, upload, b" raw 1 ", rest)
}

/// Returns the text of a file. The path has to be UTF-8.
fn text_of<R: Files + AllocGlobal>(rt: &R, path: &[u8]) -> io::Result<Vec<u8>> {
    match str::from_utf8(path) {
        Ok(path) => fs::read(rt, path),
        Err(_) => Err(io::Error::from(ErrorKind::InvalidFilename)),
    }
}

/// Returns the script with the lines that upload the texts of its files in place of those that name the files.
fn with_texts<R: Files + AllocGlobal>(rt: &R, script: &[u8]) -> Result<Vec<u8>, ScriptFault> {
    let mut out = Vec::new(rt.alloc());
    let mut number: u32 = 0;
    let mut left = Some(script);
    while let Some(text) = left {
        let (line, others) = cut_line(text);
        left = others;
        number = number.saturating_add(1);
        match upload_in(line) {
            Some(upload) => {
                let text = text_of(rt, upload.path).map_err(|cause| ScriptFault::File {
                    line: number,
                    cause,
                })?;
                push_upload(&mut out, &upload, &text)?;
            }
            None => push_line(&mut out, line)?,
        }
    }
    Ok(out)
}

/// Replaces each line `CALLER TAG put @FILE` of a script by `raw` lines that upload the text of the file. A text above
/// 1,048,567 bytes needs several lines, each with a reply. FILE is the rest of the line. If the script has an at sign,
/// a fault of its own is returned before any file is read, with the line's number in the given script.
pub fn with_files<R: Files + AllocGlobal>(rt: &R, script: Vec<u8>) -> Result<Vec<u8>, ScriptFault>
    // A script without an at sign is returned unchanged.
    ensures same { list_any (λ byte. byte == 64) script.items ≡ false → result ≡ Ok script }
{
    if !script.contains(&b'@') {
        return Ok(script);
    }
    ask_script(rt.alloc(), &script)?;
    with_texts(rt, &script)
}
