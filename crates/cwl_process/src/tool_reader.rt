//! Reads tools.
ghost use Rattle.std.specs.Prelude.{◌≡◌, false, IfOk, codes};
ghost use Rattle.serde_json.specs.Find.{get};
ghost use Rattle.serde_json.specs.View.{view};
ghost use Rattle.serde_json.specs.Written.{has_float};
ghost use Rattle.document_table.specs.Kept.{kept};
ghost use Rattle.document_table.specs.Entries.{MayHaveForm};
ghost use Rattle.document_table.specs.declared.form.Form.TheVariants as form;
ghost use Rattle.document_table.specs.declared.form.Kind.TheVariants as kind;
ghost use Rattle.cwl_process.specs.Bindings.{bindings_at};
ghost use Rattle.cwl_process.specs.Parameters.{tool_input_in, tool_output_in};
ghost use Rattle.cwl_process.specs.Simple.{texts_at};
ghost use Rattle.cwl_process.specs.Tools.{entries_at, exit_codes_in, streams_in, tool_in, written_in};

use crate::acting::read_asked;
use crate::bindings::bindings_at;
use crate::entries::Entries;
use crate::from_entry::entries_at;
use crate::simple::{ints_at, texts_at};
use crate::templates::template_at;
use crate::tool::{Asked, Binding, ExitCodes, Streams, Tool, ToolInput, ToolOutput};
use document_table::{Form, Kind, kept_text};
use plain_data::{Items, Text};
use serde_json::Value;
use std::alloc::{AllocError, Global};
use std::mem;

/// The tool that an object represents, inside of what is asked around it.
pub fn read_tool(alloc: Global, around: &Asked, value: &Value) -> Result<Tool, AllocError>
    requires inputs { MayHaveForm (form.Objects kind.ToolInput)
        (get (codes "inputs") (view value.now)) }
    requires outputs { MayHaveForm (form.Objects kind.ToolOutput)
        (get (codes "outputs") (view value.now)) }
    requires requirements { MayHaveForm form.Requirements
        (get (codes "requirements") (view value.now)) }
    requires hints { MayHaveForm form.Hints (get (codes "hints") (view value.now)) }
    requires whole { has_float (kept (form.Object kind.Tool) (view value.now)) ≡ false }
    ensures { IfOk result (λ tool. tool ≡ tool_in around.now (view value.now)) }
{
    let command = read_command(alloc, value)?;
    let parameters = match read_parameters(alloc, value) {
        Ok(parameters) => parameters,
        Err(error) => {
            mem::drop(command);
            return Err(error);
        }
    };
    match read_asked(alloc, around, value) {
        Ok(asked) => {
            let (base_command, arguments, streams, exit_codes, written) = command;
            let (inputs, outputs) = parameters;
            Ok(Tool {
                base_command,
                arguments,
                inputs,
                outputs,
                streams,
                exit_codes,
                asked,
                written,
            })
        }
        Err(error) => {
            mem::drop(command);
            mem::drop(parameters);
            Err(error)
        }
    }
}

type Command = (Items<Text>, Items<Binding>, Streams, ExitCodes, Text);

/// What a tool says of its command, and the text that tells it from others.
fn read_command(alloc: Global, value: &Value) -> Result<Command, AllocError>
    requires { has_float (kept (form.Object kind.Tool) (view value.now)) ≡ false }
    ensures { IfOk result (λ made. made ≡ (
      texts_at (codes "baseCommand") (view value.now),
      bindings_at (codes "arguments") (view value.now),
      streams_in (view value.now),
      exit_codes_in (view value.now),
      written_in (view value.now),
    )) }
{
    let written = written_in(alloc, value)?;
    let base_command = texts_at(alloc, "baseCommand", value)?;
    let arguments = bindings_at(alloc, "arguments", value)?;
    let (streams, exit_codes) = read_streams_and_codes(alloc, value)?;
    Ok((base_command, arguments, streams, exit_codes, written))
}

fn read_parameters(
    alloc: Global,
    value: &Value,
) -> Result<(Entries<ToolInput>, Entries<ToolOutput>), AllocError>
    requires inputs { MayHaveForm (form.Objects kind.ToolInput)
        (get (codes "inputs") (view value.now)) }
    requires outputs { MayHaveForm (form.Objects kind.ToolOutput)
        (get (codes "outputs") (view value.now)) }
    ensures { IfOk result (λ made. made ≡ (
      entries_at kind.ToolInput tool_input_in (codes "inputs") (view value.now),
      entries_at kind.ToolOutput tool_output_in (codes "outputs") (view value.now),
    )) }
{
    let inputs = entries_at(alloc, "", Kind::ToolInput, "inputs", value)?;
    match entries_at(alloc, "", Kind::ToolOutput, "outputs", value) {
        Ok(outputs) => Ok((inputs, outputs)),
        Err(error) => {
            mem::drop(inputs);
            Err(error)
        }
    }
}

fn written_in(alloc: Global, value: &Value) -> Result<Text, AllocError>
    requires { has_float (kept (form.Object kind.Tool) (view value.now)) ≡ false }
    ensures { IfOk result (λ written. written ≡ written_in (view value.now)) }
{
    match value {
        Value::Object(_) => kept_text(alloc, Form::Object(Kind::Tool), value),
        _ => Text::from_text(alloc, ""),
    }
}

fn read_streams_and_codes(alloc: Global, value: &Value) -> Result<(Streams, ExitCodes), AllocError>
    ensures { IfOk result
        (λ made. (made.0 ≡ streams_in (view value.now))
        × (made.1 ≡ exit_codes_in (view value.now))) }
{
    let exit_codes = read_exit_codes(alloc, value)?;
    let streams = read_streams(alloc, value)?;
    Ok((streams, exit_codes))
}

fn read_streams(alloc: Global, value: &Value) -> Result<Streams, AllocError>
    ensures { IfOk result (λ streams. streams ≡ streams_in (view value.now)) }
{
    let stdin = template_at(alloc, "stdin", value)?;
    let stdout = template_at(alloc, "stdout", value)?;
    let stderr = template_at(alloc, "stderr", value)?;
    Ok(Streams {
        stdin,
        stdout,
        stderr,
    })
}

fn read_exit_codes(alloc: Global, value: &Value) -> Result<ExitCodes, AllocError>
    ensures { IfOk result (λ codes. codes ≡ exit_codes_in (view value.now)) }
{
    let success = ints_at(alloc, "successCodes", value)?;
    let temporary = ints_at(alloc, "temporaryFailCodes", value)?;
    let permanent = ints_at(alloc, "permanentFailCodes", value)?;
    Ok(ExitCodes {
        success,
        temporary,
        permanent,
    })
}
