//! Writes tools as JSON.
use crate::process::{put_asked, put_default, put_key, put_text, put_texts};
use crate::template::{put_template, put_templates};
use crate::types::members_text;
use cwl_process::{
    Binding, InputType, OutputBinding, OutputType, SecondaryFile, Tool, ToolInput, ToolOutput,
};
use cwl_types::MemberType;
use plain_data::{Items, Text};
use std::alloc::Global;
use test_rows::AnswerText;

pub(crate) fn put_tool(alloc: Global, out: &mut AnswerText, tool: &Tool) {
    out.put("{\"baseCommand\":");
    put_texts(out, tool.base_command.as_slice());
    put_arguments(out, tool.arguments.as_slice());
    put_inputs(alloc, out, tool.inputs.as_slice());
    put_outputs(alloc, out, tool.outputs.as_slice());
    put_template(out, "stdin", &tool.streams.stdin);
    put_template(out, "stdout", &tool.streams.stdout);
    put_template(out, "stderr", &tool.streams.stderr);
    put_codes(out, "success", tool.exit_codes.success.as_slice());
    put_codes(out, "temporary", tool.exit_codes.temporary.as_slice());
    put_codes(out, "permanent", tool.exit_codes.permanent.as_slice());
    put_asked(out, &tool.asked);
    out.put("}");
}

fn put_codes(out: &mut AnswerText, name: &str, codes: &[i32]) {
    if codes.is_empty() {
        return;
    }
    put_key(out, name);
    out.put("[");
    for code in codes {
        out.put_comma();
        out.put_whole(*code as i64);
    }
    out.put("]");
}

fn put_arguments(out: &mut AnswerText, all: &[Binding]) {
    out.put(",\"arguments\":[");
    for binding in all {
        out.put_comma();
        put_binding(out, binding);
    }
    out.put("]");
}

fn put_binding(out: &mut AnswerText, binding: &Binding) {
    out.put("{\"position\":");
    out.put_whole(binding.position as i64);
    out.put(",\"separate\":");
    out.put_flag(binding.separate);
    put_text(out, "prefix", &binding.prefix);
    put_text(out, "itemSeparator", &binding.item_separator);
    put_template(out, "valueFrom", &binding.value_from);
    out.put("}");
}

fn put_inputs(alloc: Global, out: &mut AnswerText, inputs: &[(Text, ToolInput)]) {
    out.put(",\"inputs\":{");
    for entry in inputs {
        put_key(out, entry.0.as_str());
        put_input(alloc, out, &entry.1);
    }
    out.put("}");
}

fn put_input(alloc: Global, out: &mut AnswerText, input: &ToolInput) {
    out.put("{\"type\":");
    match &input.kind {
        InputType::Stdin => out.put("\"stdin\""),
        InputType::Members(members) => put_members(alloc, out, members),
    }
    put_default(alloc, out, &input.default);
    if let Some(binding) = &input.binding {
        out.put(",\"binding\":");
        put_binding(out, binding);
    }
    if input.load_contents {
        out.put(",\"loadContents\":true");
    }
    put_secondaries(out, &input.secondary_files);
    out.put("}");
}

fn put_outputs(alloc: Global, out: &mut AnswerText, outputs: &[(Text, ToolOutput)]) {
    out.put(",\"outputs\":{");
    for entry in outputs {
        put_key(out, entry.0.as_str());
        put_output(alloc, out, &entry.1);
    }
    out.put("}");
}

fn put_output(alloc: Global, out: &mut AnswerText, output: &ToolOutput) {
    out.put("{\"type\":");
    match &output.kind {
        OutputType::Stdout => out.put("\"stdout\""),
        OutputType::Stderr => out.put("\"stderr\""),
        OutputType::Members(members) => put_members(alloc, out, members),
    }
    if let Some(binding) = &output.binding {
        put_output_binding(out, binding);
    }
    put_secondaries(out, &output.secondary_files);
    out.put("}");
}

fn put_output_binding(out: &mut AnswerText, binding: &OutputBinding) {
    out.put(",\"binding\":{\"loadContents\":");
    out.put_flag(binding.load_contents);
    if let Some(glob) = &binding.glob {
        out.put(",\"glob\":");
        put_templates(out, glob.as_slice());
    }
    put_template(out, "outputEval", &binding.output_eval);
    out.put("}");
}

/// The files that come with the File of a parameter; each after whether it has to be there.
pub(crate) fn put_secondaries(out: &mut AnswerText, files: &Items<SecondaryFile>) {
    if files.is_empty() {
        return;
    }
    out.put(",\"secondaryFiles\":[");
    for file in files.as_slice() {
        out.put_comma();
        out.put(if file.required {
            "\"needed\","
        } else {
            "\"optional\","
        });
        out.put_quoted(file.pattern.as_str());
    }
    out.put("]");
}

/// A type as one text: the list of its members.
pub(crate) fn put_members(alloc: Global, out: &mut AnswerText, members: &Items<MemberType>) {
    match members_text(alloc, members.as_slice()) {
        Err(fault) => out.fail(fault),
        Ok(text) => out.put_quoted(text.as_str()),
    }
}
