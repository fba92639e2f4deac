use crate::machine::place::done;
use std::process::{Command, Stdio};
use std::{mem, str};
use test_rows::{AnswerText, RowFault};

/// Adds what a script of the shell writes in the row's folder.
pub fn put_said(
    rt: &HostRuntime,
    script: &str,
    place: &str,
    out: &mut AnswerText,
) -> Result<(), RowFault> {
    let mut shell = Command::new(rt.alloc(), "/bin/sh")?;
    let said = said_by(rt, &mut shell, script, place);
    mem::drop(shell);
    let said = said?;
    match str::from_utf8(said.as_slice()) {
        Ok(text) => out.put_quoted(text),
        Err(_) => out.fail(RowFault::BadArgument),
    }
    Ok(())
}

fn said_by(
    rt: &HostRuntime,
    shell: &mut Command,
    script: &str,
    place: &str,
) -> Result<Vec<u8>, RowFault> {
    shell.arg("-c")?;
    shell.arg(script)?;
    shell.current_dir(place)?;
    shell.stdin(Stdio::null());
    shell.stderr(Stdio::inherit());
    let output = done(shell.output(rt))?;
    if output.status.success() {
        Ok(output.stdout)
    } else {
        Err(RowFault::BadArgument)
    }
}
