//! Samples on inputs: what is read of files, what links give, what a process takes.

use cwl_process::{Merge, Pick, StepInput, Tool, ToolInput, Workflow, WorkflowInput};
use cwl_value::Value;
use input_files::{
    ContentsError, InputError, each_once, heads_wanted, input_paths, inputs_for, process_inputs,
    push_defaults, push_fields, push_root_inputs, root_fields, with_contents,
};
use input_forms::{tool_lines, tool_template, workflow_lines, workflow_template};
use link_values::{LinkError, merge, pick, step_input, value_froms, when_value};
use param_refs::Template;
use plain_data::{Items, Keyed, Text};
use staging::Measure;
use std::alloc::{AllocError, Global};

/// A sample of `input_files`.
pub fn measured_inputs(
    alloc: Global,
    tool: &Tool,
    given: &Keyed<Value>,
    measures: &Keyed<Measure>,
) -> Result<(), InputError> {
    let paths = input_paths(alloc, tool.inputs.as_slice(), given)?; // each to be measured, each once
    let inputs = inputs_for(alloc, tool.inputs.as_slice(), given, measures)?; // or Kind, Missing or Secondary, with the input's name
    Ok(())
}

/// A sample of `input_files`.
pub fn read_inputs(
    alloc: Global,
    tool: &Tool,
    staged: Keyed<Value>,
    heads: &Keyed<Items<u8>>,
) -> Result<(), ContentsError> {
    let paths = heads_wanted(alloc, tool.inputs.as_slice(), &staged)?; // once the inputs are staged: each to be read, each once
    let inputs = with_contents(alloc, tool.inputs.as_slice(), staged, heads)?; // or TooLong or NotUtf8, with the input's name
    Ok(())
}

/// A sample of `input_files`.
pub fn measured_paths(
    alloc: Global,
    root: &Workflow,
    tool: &Tool,
    given: &Keyed<Value>,
) -> Result<(), AllocError> {
    let mut paths = Items::new(alloc);
    push_fields(alloc, given, &mut paths)?; // every path of the input object
    push_root_inputs(alloc, root.inputs.as_slice(), given, &mut paths)?; // the root's defaults, and where files are looked for
    push_defaults(alloc, tool.inputs.as_slice(), &mut paths)?; // the defaults of each process inside; push_value for those of steps
    let paths = each_once(alloc, paths.as_slice())?; // each to be measured
    Ok(())
}

/// A sample of `input_files`.
pub fn fields_and_inputs(
    alloc: Global,
    root: &Workflow,
    tool: &Tool,
    given: &Keyed<Value>,
    measures: &Keyed<Measure>,
) -> Result<(), InputError> {
    let fields = root_fields(alloc, root.inputs.as_slice(), given, measures)?; // once: as measured, with the files beside
    let inputs = process_inputs(alloc, tool.inputs.as_slice(), &fields, measures)?; // at the root and in each step: or Kind, Missing or Secondary
    Ok(())
}

/// A sample of `link_values`.
pub fn linked_value(alloc: Global, values: Vec<Value>, input: &StepInput) -> Result<(), LinkError> {
    let value = merge(alloc, Some(Merge::Flattened), values)?; // [1, 2] and 3: [1, 2, 3]
    let value = pick(alloc, Some(Pick::FirstNonNull), value)?; // 1
    let value = step_input(alloc, input, value)?; // picked; the input's default in place of null, and if it has no source
    Ok(())
}

/// A sample of `link_values`.
pub fn inputs_of_step(
    alloc: Global,
    inputs: &[(Text, StepInput)],
    given: &Keyed<Value>,
    when: &Template,
) -> Result<(), LinkError> {
    let inputs = value_froms(alloc, inputs, given)?; // each after its valueFrom
    let goes_on = when_value(when, &inputs)?; // false: the step is skipped
    Ok(())
}

/// The sample of `input_forms`.
pub fn forms_of_inputs(alloc: Global, tool: &Tool, workflow: &Workflow) -> Result<(), AllocError> {
    let lines = tool_lines(alloc, tool.inputs.as_slice())?; // "input list: File, required"
    let text = tool_template(alloc, tool.inputs.as_slice())?; // {\n  "list": {"class":"File","location":"FILE"}\n}
    let lines = workflow_lines(alloc, workflow.inputs.as_slice())?;
    let text = workflow_template(alloc, workflow.inputs.as_slice())?;
    Ok(())
}
