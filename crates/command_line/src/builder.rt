ghost use Rattle.std.specs.Prelude.{◌≡◌, IfOk, IfErr};
ghost use Rattle.command_line.specs.Launch.{IsLaunch, IsError};
ghost use Rattle.command_line.specs.Texts.{runtime_value};

use crate::environment::environment;
use crate::streams::{stderr_file, stdin_file, stdout_file};
use crate::texts::{Scope, is_plain, runtime_value};
use crate::words::words;
use crate::{BuildError, BuildFault, Launch, LaunchText, Runtime};
use cwl_process::Tool;
use cwl_value::Value;
use plain_data::Keyed;
use std::alloc::Global;

/// What to start for `tool` with the values `inputs`, in the folders of `runtime`.
///
/// An input that isn't among `inputs` counts as null where it has a binding; a reference finds `inputs` as they are. A launch is
/// refused where a reference has no value (B1), where an argument's binding has no `valueFrom` (B2), where a value is no text
/// or an operating system doesn't take a text (B3), or where there is no word (B4); where several causes hold, the fault is
/// one of them. (CWL v1.2, Command Line Tool, "Input binding" and "Runtime environment".)
pub fn build(
    alloc: Global,
    tool: &Tool,
    inputs: &Keyed<Value>,
    runtime: &Runtime,
) -> Result<Launch, BuildError>
    ensures launch { IfOk result (IsLaunch tool.now inputs.now runtime.now) }
    ensures refused { IfErr result (IsError tool.now inputs.now runtime.now) }
{
    let around = runtime_value(alloc, runtime)?;
    let scope = Scope {
        inputs,
        runtime: &around,
    };
    let launch = launch_in(alloc, tool, scope, runtime);
    drop(around);
    launch
}

/// The same, where references find the scope.
fn launch_in(
    alloc: Global,
    tool: &Tool,
    scope: Scope<'_>,
    runtime: &Runtime,
) -> Result<Launch, BuildError>
    requires { scope.runtime.now ≡ runtime_value runtime.now }
    ensures launch { IfOk result (IsLaunch tool.now scope.entry.inputs.now runtime.now) }
    ensures refused { IfErr result (IsError tool.now scope.entry.inputs.now runtime.now) }
{
    let words = words(alloc, tool, scope)?;
    if words.is_empty() {
        return Err(BuildError::Refused(BuildFault::EmptyCommand));
    }
    let env = environment(alloc, tool, runtime, scope)?;
    if !is_plain(runtime.outdir.as_str()) {
        return Err(BuildError::Refused(BuildFault::NotText(LaunchText::Folder)));
    }
    let stdin = stdin_file(alloc, tool, scope)?;
    let stdout = stdout_file(alloc, tool, scope)?;
    let stderr = stderr_file(alloc, tool, scope)?;
    Ok(Launch {
        words,
        env,
        stdin,
        stdout,
        stderr,
        dir: runtime.outdir.copied(alloc)?,
    })
}
