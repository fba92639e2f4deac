//! The command of a tool for its inputs, without a run.
ghost use Rattle.std.specs.Prelude.{◌≡◌, ℕ, List, IfOk, option_copied, unwrap_or};
ghost use Rattle.input_files.specs.Given.{named_inputs, null, or_default, value_under};
ghost use Rattle.program_words.specs.RunWords.{wish_of_run};
ghost use Rattle.program_words.specs.ShellWords.{IsLineOf};
ghost use Rattle.show_call.specs.Showings as spec;

use command_line::{BuildError, BuildFault, Launch, Runtime, build};
use cwl_process::{Tool, ToolInput};
use cwl_value::Value;
use end_words::{Exit, of_failure};
use plain_data::{Items, Keyed, Text};
use program_words::line_of;
use run_given::{Call, from_root};
use run_rules::Cause;
use std::alloc::{AllocError, Global};
use std::mem;

/// Ends the program with the command of a tool in one line, its files if they are given.
pub fn exit_of_command(
    alloc: Global,
    tool: &Tool,
    given: &Keyed<Value>,
    call: &Call<'_>,
) -> Result<Exit, AllocError>
    ensures { IfOk result (spec.IsCommandEnd tool.now (named_inputs tool.now.inputs given.now)
        (spec.first_runtime call.now.here.now (wish_of_run call.now.words.now) call.now.path.now)) }
{
    let runtime = runtime_of(alloc, call)?;
    let values = values_of(alloc, tool.inputs.as_slice(), given)?;
    let built = build(alloc, tool, &values, &runtime);
    mem::drop(values);
    mem::drop(runtime);
    match built {
        Ok(launch) => exit_of_launch(alloc, launch),
        Err(BuildError::Refused(fault)) => without_launch(alloc, fault),
        Err(BuildError::OutOfMemory) => Err(AllocError),
    }
}

fn exit_of_launch(alloc: Global, launch: Launch) -> Result<Exit, AllocError>
    ensures { IfOk result (λ exit. (line : List ℕ) × IsLineOf launch line
        × (exit ≡ Exit.Output line)) }
{
    let line = line_of(alloc, &launch)?;
    mem::drop(launch);
    Ok(Exit::Output(Text::from_string(line)))
}

fn without_launch(alloc: Global, fault: BuildFault) -> Result<Exit, AllocError>
    ensures { IfOk result (λ exit. exit ≡ spec.failed (Cause.Build fault)) }
{
    of_failure(alloc, Items::new(alloc), Cause::Build(fault))
}

fn runtime_of(alloc: Global, call: &Call<'_>) -> Result<Runtime, AllocError>
    ensures { IfOk result (λ runtime. runtime
        ≡ spec.first_runtime call.now.here.now (wish_of_run call.now.words.now) call.now.path.now) }
{
    let work = from_root(alloc, call.here, call.words.work)?;
    let folder = work.as_str();
    let outdir = Text::from_string(format!(in alloc; "{folder}/j0/out")?);
    let tmpdir = Text::from_string(format!(in alloc; "{folder}/j0/tmp")?);
    let path_env = Text::from_text(alloc, call.path)?;
    mem::drop(work);
    Ok(Runtime {
        outdir,
        tmpdir,
        path_env,
    })
}

// The values of a tool's inputs, with its defaults.
#[tactic(auto, using(input_forms::proofs::Folds::fold_map_more))]
fn values_of(
    alloc: Global,
    inputs: &[(Text, ToolInput)],
    given: &Keyed<Value>,
) -> Result<Keyed<Value>, AllocError>
    ensures { IfOk result (λ values. values ≡ named_inputs inputs.now given.now) }
{
    let mut values = Keyed::new(alloc);
    for (name, input) in inputs {
        let value = value_of(alloc, given, name, &input.default)?;
        let replaced = values.insert(name.copied(alloc)?, value)?;
        mem::drop(replaced);
    }
    Ok(values)
}

fn value_of(
    alloc: Global,
    given: &Keyed<Value>,
    name: &Text,
    default: &Option<Value>,
) -> Result<Value, AllocError>
    ensures { IfOk result (λ value. value
        ≡ or_default default.now (value_under name.now given.now)) }
{
    match given_or_default(given, name, default) {
        None => Ok(Value::Null),
        Some(value) => value.clone_in(alloc),
    }
}

// The value that is given, or the default in place of null.
fn given_or_default<'a>(
    given: &'a Keyed<Value>,
    name: &Text,
    default: &'a Option<Value>,
) -> Option<&'a Value>
    ensures { unwrap_or (option_copied result) null
        ≡ or_default default.now (value_under name.now given.now) }
{
    match given.get(name.as_str()) {
        None | Some(Value::Null) => default.as_ref(),
        value => value,
    }
}
