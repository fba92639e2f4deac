//! Resolves defaults on the URL of their document.
ghost use Rattle.std.specs.Prelude.{◌≡◌, IfOk, map, option_and_then};
ghost use Rattle.serde_json.specs.View.{view};
ghost use Rattle.document_table.specs.Entries.{entry_seen};
ghost use Rattle.cwl_process.specs.FirstFaults.{first_in};
ghost use Rattle.url.specs.Parts.{Parts};
ghost use Rattle.document_links.specs.Defaults.{default_fault, defaults_fault, each_on, on_base, step_input_on, tool_input_on, tool_on, workflow_input_on};

use crate::places::has_long;
use cwl_process::{
    Entries, StepInput, Tool, ToolInput, WorkflowInput, default_at, have_fileless_defaults,
};
use cwl_value::{Value as CwlValue, holds_files};
use document_table::{Cause, DocumentFault, Kind, entries, here, under};
use file_values::{FileError, resolve};
use plain_data::Text;
use serde_json::Value;
use std::alloc::{AllocError, Global};
use std::mem;
use url::Url;

/// A parameter that may have a default.
pub(crate) trait OnBase: Sized {
    ghost meaning: { Parts → Self → Self };

    /// The parameter with its default resolved.
    fn on_base(self, alloc: Global, base: &Url) -> Result<Self, AllocError>
        ensures { IfOk result (λ made. made ≡ meaning base.now self) };
}

impl OnBase for ToolInput {
    ghost meaning = { tool_input_on };

    fn on_base(self, alloc: Global, base: &Url) -> Result<ToolInput, AllocError> {
        let mut input = self;
        let default = mem::replace(&mut input.default, None);
        match default_on(alloc, base, default) {
            Ok(default) => {
                mem::drop(mem::replace(&mut input.default, default));
                Ok(input)
            }
            Err(error) => {
                mem::drop(input);
                Err(error)
            }
        }
    }
}

impl OnBase for WorkflowInput {
    ghost meaning = { workflow_input_on };

    fn on_base(self, alloc: Global, base: &Url) -> Result<WorkflowInput, AllocError> {
        let mut input = self;
        let default = mem::replace(&mut input.default, None);
        match default_on(alloc, base, default) {
            Ok(default) => {
                mem::drop(mem::replace(&mut input.default, default));
                Ok(input)
            }
            Err(error) => {
                mem::drop(input);
                Err(error)
            }
        }
    }
}

impl OnBase for StepInput {
    ghost meaning = { step_input_on };

    fn on_base(self, alloc: Global, base: &Url) -> Result<StepInput, AllocError> {
        let mut input = self;
        let default = mem::replace(&mut input.default, None);
        match default_on(alloc, base, default) {
            Ok(default) => {
                mem::drop(mem::replace(&mut input.default, default));
                Ok(input)
            }
            Err(error) => {
                mem::drop(input);
                Err(error)
            }
        }
    }
}

/// Each parameter with its default resolved.
pub(crate) fn each_on<T: OnBase + Drop>(
    alloc: Global,
    base: &Url,
    all: Entries<T>,
) -> Result<Entries<T>, AllocError>
    ensures { IfOk result (λ made. made ≡ each_on T.meaning base.now all) }
{
    let mut made = Vec::new(alloc);
    for entry in all.into_vec() {
        made.push(one_on(alloc, base, entry)?)?;
    }
    Ok(Entries::from_distinct(made))
}

fn one_on<T: OnBase + Drop>(
    alloc: Global,
    base: &Url,
    entry: (Text, T),
) -> Result<(Text, T), AllocError>
    ensures { IfOk result (λ made. made ≡ (entry.0, T.meaning base.now entry.1)) }
{
    let (id, parameter) = entry;
    match parameter.on_base(alloc, base) {
        Ok(parameter) => Ok((id, parameter)),
        Err(error) => {
            mem::drop(id);
            Err(error)
        }
    }
}

/// The tool with the defaults of its inputs resolved.
pub(crate) fn tool_on(alloc: Global, base: &Url, tool: Tool) -> Result<Tool, AllocError>
    ensures { IfOk result (λ made. made ≡ tool_on base.now tool) }
{
    let mut tool = tool;
    let inputs = mem::replace(&mut tool.inputs, Entries::from_distinct(Vec::new(alloc)));
    match each_on(alloc, base, inputs) {
        Ok(inputs) => {
            mem::drop(mem::replace(&mut tool.inputs, inputs));
            Ok(tool)
        }
        Err(error) => {
            mem::drop(tool);
            Err(error)
        }
    }
}

fn default_on(
    alloc: Global,
    base: &Url,
    default: Option<CwlValue>,
) -> Result<Option<CwlValue>, AllocError>
    ensures { IfOk result (λ found. found ≡ option_and_then (on_base base.now) default) }
{
    match default {
        None => Ok(None),
        Some(value) => on_base(alloc, base, value),
    }
}

/// The value on a base, where each place in it has a path. A value without places is handed on.
#[tactic(auto, using(crate::proofs::Fileless::value_stays))]
fn on_base(alloc: Global, base: &Url, value: CwlValue) -> Result<Option<CwlValue>, AllocError>
    ensures { IfOk result (λ found. found ≡ on_base base.now value) }
{
    if !holds_files(&value) {
        return Ok(Some(value));
    }
    if has_long(base, &value) {
        mem::drop(value);
        return Ok(None);
    }
    match resolve(alloc, value, base) {
        Ok(found) => Ok(Some(found)),
        Err(FileError::OutOfMemory) => Err(AllocError),
        Err(FileError::Refused(_)) => Ok(None),
    }
}

// ---- what is wrong

/// The first default, of the objects in a field's list or map, with a place that has no path. Those without Files and Directories are not read.
#[tactic(auto, using(crate::proofs::Fileless::no_default_fault))]
pub(crate) fn defaults_fault(
    alloc: Global,
    base: &Url,
    kind: Kind,
    name: &str,
    value: &Value,
) -> Result<Option<DocumentFault>, AllocError>
    ensures { IfOk result
        (λ fault. fault ≡ defaults_fault base.now kind name.now (view value.now)) }
{
    let Some(found) = value.get(name) else {
        return Ok(None);
    };
    if have_fileless_defaults(found) {
        return Ok(None);
    }
    let all = entries(alloc, kind, found)?;
    match first_default_fault(alloc, base, all.as_slice())? {
        None => Ok(None),
        Some(fault) => Ok(Some(under(alloc, name, fault)?)),
    }
}

fn first_default_fault(
    alloc: Global,
    base: &Url,
    all: &[(&str, &Value)],
) -> Result<Option<DocumentFault>, AllocError>
    ensures { IfOk result
        (λ fault. fault ≡ first_in (default_fault base.now) (map entry_seen all.now)) }
{
    for entry in all {
        if let Some(fault) = default_fault(alloc, base, entry.1)? {
            return Ok(Some(under(alloc, entry.0, fault)?));
        }
    }
    Ok(None)
}

fn default_fault(
    alloc: Global,
    base: &Url,
    value: &Value,
) -> Result<Option<DocumentFault>, AllocError>
    ensures { IfOk result (λ fault. fault ≡ default_fault base.now (view value.now)) }
{
    let Some(default) = default_at(alloc, value)? else {
        return Ok(None);
    };
    match on_base(alloc, base, default)? {
        None => Ok(Some(under(alloc, "default", here(alloc, Cause::WrongForm))?)),
        Some(found) => {
            mem::drop(found);
            Ok(None)
        }
    }
}
