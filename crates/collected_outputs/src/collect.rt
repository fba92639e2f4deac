//! The outputs of a job.
ghost use Rattle.std.specs.Option.{option_copied};
ghost use Rattle.std.specs.Prelude.{◌≡◌, ◌∷◌, [], false, is_some, Ok, Some, IfOk, IfErr, OnOk};
ghost use Rattle.cwl_types.specs.declared.types.MemberType as member;
ghost use Rattle.cwl_types.specs.declared.types.PlainType.TheVariants as plain;
ghost use Rattle.collected_outputs.specs.Collected.{IsCollected, IsFault, AreGathered, object_entry};
ghost use Rattle.collected_outputs.specs.LeftBehind.{left_behind, left_with};
ghost use Rattle.collected_outputs.specs.Gives.{Refuses};
ghost use Rattle.collected_outputs.specs.Outputs as spec;
ghost use Rattle.collected_outputs.specs.Outputs.{AreNames, AreOutputs, HasValue, globs_in, has_object, value_beside};
ghost use Rattle.collected_outputs.specs.Listing.{listing_of};
ghost use Rattle.collected_outputs.specs.Readable.{is_readable};
ghost use Rattle.collected_outputs.specs.inner.Steps.{left_of, texts_in, texts_by, HasNone, NoNames, NoOutputs, BindsOutput, BindsNone};
ghost use Rattle.collected_outputs.specs.inner.Written.{GathersNone};

use crate::by_type::value_by_type;
use crate::checked::checked;
use crate::classes::object_has_class;
use crate::contents::load_all;
use crate::evaluation::{Speaks, runtime_of, value_in};
use crate::fault::{CollectError, CollectFault, Stop};
use crate::listing::{Entry, listing_of};
use crate::matches::matched_names;
use crate::object::OUTPUT_OBJECT;
use crate::patterns::{read_patterns, texts_of};
use crate::secondary::with_secondary;
use crate::values::{push_value, values_of};
use crate::written::{at_output, from_object, put_output, whole};
use cwl_process::{OutputBinding, OutputType, Tool, ToolOutput};
use cwl_types::{MemberType, PlainType};
use cwl_value::Value;
use param_refs::Template;
use plain_data::{Items, Keyed, Text};
use staging::Found;
use std::alloc::{AllocError, Global};
use value_depth::is_object_within_limit;

/// The files that took a command's streams, by their names in the output folder; empty where a stream was discarded.
#[derive(Clone, Copy, Drop)]
pub struct StreamNames<'a> {
    pub stdout: &'a str,
    pub stderr: &'a str,
}

/// What a child left behind, and what it was given: all that its outputs are collected from.
#[derive(Clone, Copy, Drop)]
pub struct LeftBehind<'a> {
    /// The tool's inputs as the child had them.
    pub inputs: &'a Keyed<Value>,
    pub streams: StreamNames<'a>,
    /// All that is below its output folder.
    pub found: &'a [Found],
    /// First bytes of files there, by name.
    pub heads: &'a Keyed<Items<u8>>,
}

/// What outputs are collected from.
#[derive(Clone, Copy, Drop)]
pub(crate) struct Folder<'a> {
    pub(crate) listing: &'a Keyed<Entry>,
    pub(crate) heads: &'a Keyed<Items<u8>>,
    pub(crate) streams: StreamNames<'a>,
    pub(crate) speaks: Speaks<'a>,
}

/// Collects the outputs of a job whose command has ended well (CWL v1.2, CommandLineTool, "Output binding").
///
/// First bytes are wanted of `cwl.output.json` where it is found, and else of the files whose contents are asked for. A File or
/// Directory of an output stands at its name below the folder, which is a `Url` place; the folder itself is `.`.
pub fn collect_outputs(
    alloc: Global,
    tool: &Tool,
    left: LeftBehind<'_>,
) -> Result<Keyed<Value>, CollectError>
    ensures bindings { IfOk result (λ outputs. has_object (listing_of left.entry.found.now) ≡ false
        → AreOutputs (left_behind left.entry) tool.now.outputs (Ok outputs)) }
    ensures ok { IfOk result
        (λ outputs. IsCollected (left_behind left.entry) tool.now.outputs (Ok outputs)) }
    ensures err { IfErr result (IsFault (left_behind left.entry) tool.now.outputs) }
{
    let listing = listing_of(alloc, left.found)?;
    let collected = collect_from(alloc, tool, left, &listing);
    drop(listing);
    collected
}

fn collect_from(
    alloc: Global,
    tool: &Tool,
    left: LeftBehind<'_>,
    listing: &Keyed<Entry>,
) -> Result<Keyed<Value>, CollectError>
    ensures bindings { IfOk result (λ outputs. has_object listing.now ≡ false
        → AreOutputs (left_with left.entry listing.now) tool.now.outputs (Ok outputs)) }
    ensures ok { IfOk result
        (λ outputs. IsCollected (left_with left.entry listing.now) tool.now.outputs (Ok outputs)) }
    ensures err { IfErr result (IsFault (left_with left.entry listing.now) tool.now.outputs) }
{
    let runtime = runtime_of(alloc)?;
    let folder = Folder {
        listing,
        heads: left.heads,
        streams: left.streams,
        speaks: Speaks {
            inputs: left.inputs,
            runtime: &runtime,
        },
    };
    let collected = readable_outputs(alloc, tool, folder);
    drop(runtime);
    collected
}

// The outputs, where their JSON can be read back as these values.
fn readable_outputs(
    alloc: Global,
    tool: &Tool,
    folder: Folder<'_>,
) -> Result<Keyed<Value>, CollectError>
    ensures bindings { IfOk result (λ outputs. has_object folder.entry.listing.now ≡ false
        → AreOutputs (left_of folder.entry) tool.now.outputs (Ok outputs)) }
    ensures ok { IfOk result (λ outputs. IsCollected (left_of folder.entry) tool.now.outputs
        (Ok outputs)) }
    ensures err { IfErr result (IsFault (left_of folder.entry) tool.now.outputs) }
{
    let outputs = outputs_of(alloc, tool, folder)?;
    if is_readable(&outputs) {
        Ok(outputs)
    } else {
        drop(outputs);
        Err(whole(Stop::Refused(CollectFault::NotTyped)))
    }
}

fn is_readable(outputs: &Keyed<Value>) -> bool
    ensures { result ≡ is_readable outputs.now }
{
    !object_has_class(outputs) && is_object_within_limit(outputs)
}

fn outputs_of(alloc: Global, tool: &Tool, folder: Folder<'_>) -> Result<Keyed<Value>, CollectError>
    ensures bindings { IfOk result (λ outputs. spec.has_object folder.entry.listing.now ≡ false
        → spec.AreOutputs (left_of folder.entry) tool.now.outputs (Ok outputs)) }
    ensures ok { IfOk result (λ outputs. AreGathered (left_of folder.entry) tool.now.outputs
        (Ok outputs)) }
    ensures err { IfErr result (GathersNone (left_of folder.entry) tool.now.outputs) }
{
    match object_entry(folder.listing) {
        None => from_bindings(alloc, tool, folder),
        Some(entry) => from_object(alloc, tool, folder.listing, folder.heads, entry),
    }
}

/// The file that is the whole output object, where it is found.
pub(crate) fn object_entry(listing: &Keyed<Entry>) -> Option<&Entry>
    ensures there { is_some result ≡ spec.has_object listing.now }
    ensures entry { option_copied result ≡ object_entry listing.now }
{
    let entry = listing.get(OUTPUT_OBJECT)?;
    if entry.is_dir { None } else { Some(entry) }
}

fn from_bindings(
    alloc: Global,
    tool: &Tool,
    folder: Folder<'_>,
) -> Result<Keyed<Value>, CollectError>
    ensures ok { IfOk result (λ outputs. spec.AreOutputs (left_of folder.entry) tool.now.outputs
        (Ok outputs)) }
    ensures err { IfErr result (NoOutputs (left_of folder.entry) tool.now.outputs) }
{
    let mut outputs = Keyed::new(alloc);
    for output in tool.outputs.as_slice() {
        bind_output(alloc, &output.0, &output.1, folder, &mut outputs)?;
    }
    Ok(outputs)
}

fn bind_output(
    alloc: Global,
    id: &Text,
    output: &ToolOutput,
    folder: Folder<'_>,
    outputs: &mut Keyed<Value>,
) -> Result<(), CollectError>
    ensures ok { OnOk result (BindsOutput (left_of folder.entry) id.now output.now outputs.old
        outputs.new) }
    ensures err { IfErr result (BindsNone (left_of folder.entry) id.now output.now) }
{
    match bound_value(alloc, output, folder) {
        Ok(value) => Ok(put_output(alloc, id, value, outputs)?),
        Err(stop) => Err(at_output(alloc, id, stop)?),
    }
}

// The value of an output by its type and binding.
fn bound_value(alloc: Global, output: &ToolOutput, folder: Folder<'_>) -> Result<Value, Stop>
    ensures ok { IfOk result (λ v. HasValue (left_of folder.entry) output.now (Ok v)) }
    ensures err { IfErr result (HasNone (left_of folder.entry) output.now) }
{
    let names = names_of(alloc, output, folder)?;
    output_value(alloc, output, folder, names.as_slice())
}

fn output_value(
    alloc: Global,
    output: &ToolOutput,
    folder: Folder<'_>,
    names: &[Text],
) -> Result<Value, Stop>
    ensures ok { IfOk result (λ v. spec.output_value (left_of folder.entry) output.now names.now
        ≡ Ok v) }
    ensures err { IfErr result
        (Refuses (spec.output_value (left_of folder.entry) output.now names.now)) }
{
    let value = value_beside(alloc, output, folder, names)?;
    let checked = checked(alloc, folder.listing, &output.kind, &value);
    drop(value);
    checked
}

fn value_beside(
    alloc: Global,
    output: &ToolOutput,
    folder: Folder<'_>,
    names: &[Text],
) -> Result<Value, Stop>
    ensures ok { IfOk result (λ v. value_beside (left_of folder.entry) output.now names.now
        ≡ Ok v) }
    ensures err { IfErr result
        (Refuses (value_beside (left_of folder.entry) output.now names.now)) }
{
    let value = unchecked_value(alloc, output, folder, names)?;
    with_secondary(
        alloc,
        folder.listing,
        output.secondary_files.as_slice(),
        value,
    )
}

/// The names that the output's patterns match.
pub(crate) fn names_of(
    alloc: Global,
    output: &ToolOutput,
    folder: Folder<'_>,
) -> Result<Items<Text>, Stop>
    ensures ok { IfOk result
        (λ names. AreNames folder.entry.listing.now (texts_by folder.entry output.now) (Ok names)) }
    ensures err { IfErr result
        (NoNames folder.entry.listing.now (texts_by folder.entry output.now)) }
{
    match &output.kind {
        OutputType::Stdout => Ok(Items::new(alloc)),
        OutputType::Stderr => Ok(Items::new(alloc)),
        OutputType::Members(_) => match &output.binding {
            None => Ok(Items::new(alloc)),
            Some(binding) => names_of_binding(alloc, binding, folder),
        },
    }
}

fn names_of_binding(
    alloc: Global,
    binding: &OutputBinding,
    folder: Folder<'_>,
) -> Result<Items<Text>, Stop>
    ensures ok { IfOk result
        (λ names. AreNames folder.entry.listing.now
        (texts_in folder.entry (globs_in (Some binding.now))) (Ok names)) }
    ensures err { IfErr result
        (NoNames folder.entry.listing.now (texts_in folder.entry (globs_in (Some binding.now)))) }
{
    match &binding.glob {
        None => Ok(Items::new(alloc)),
        Some(templates) => names_by(alloc, templates.as_slice(), folder),
    }
}

fn names_by(alloc: Global, templates: &[Template], folder: Folder<'_>) -> Result<Items<Text>, Stop>
    ensures ok { IfOk result
        (λ names. AreNames folder.entry.listing.now (texts_in folder.entry templates.now)
        (Ok names)) }
    ensures err { IfErr result
        (NoNames folder.entry.listing.now (texts_in folder.entry templates.now)) }
{
    let texts = texts_of(alloc, templates, folder.speaks)?;
    let patterns = read_patterns(alloc, texts.as_slice())?;
    Ok(matched_names(alloc, folder.listing, patterns.as_slice())?)
}

fn unchecked_value(
    alloc: Global,
    output: &ToolOutput,
    folder: Folder<'_>,
    names: &[Text],
) -> Result<Value, Stop>
    ensures ok { IfOk result (λ v. spec.unchecked (left_of folder.entry) output.now.kind
        output.now.binding names.now ≡ Ok v) }
    ensures err { IfErr result
        (Refuses (spec.unchecked (left_of folder.entry) output.now.kind output.now.binding
        names.now)) }
{
    match &output.kind {
        OutputType::Stdout => stream_value(alloc, folder, folder.streams.stdout),
        OutputType::Stderr => stream_value(alloc, folder, folder.streams.stderr),
        OutputType::Members(members) => match &output.binding {
            None => Ok(Value::Null),
            Some(binding) => value_of_binding(alloc, members, binding, folder, names),
        },
    }
}

fn stream_value(alloc: Global, folder: Folder<'_>, name: &str) -> Result<Value, Stop>
    ensures ok { IfOk result (λ v. spec.stream_value (left_of folder.entry) name.now ≡ Ok v) }
    ensures err { IfErr result (Refuses (spec.stream_value (left_of folder.entry) name.now)) }
{
    let mut found = Items::new(alloc);
    push_value(alloc, folder.listing, name, &mut found)?;
    let members = file_type(alloc)?;
    value_by_type(&members, found)
}

fn file_type(alloc: Global) -> Result<Items<MemberType>, AllocError>
    ensures { IfOk result (λ members. members ≡ member.Plain plain.File ∷ []) }
{
    let mut members = Items::new(alloc);
    members.push(MemberType::Plain(PlainType::File))?;
    Ok(members)
}

fn value_of_binding(
    alloc: Global,
    members: &Items<MemberType>,
    binding: &OutputBinding,
    folder: Folder<'_>,
    names: &[Text],
) -> Result<Value, Stop>
    ensures ok { IfOk result (λ v. spec.value_of_binding (left_of folder.entry) members.now
        (Some binding.now) names.now ≡ Ok v) }
    ensures err { IfErr result
        (Refuses (spec.value_of_binding (left_of folder.entry) members.now (Some binding.now)
        names.now)) }
{
    if binding.glob.is_none() && binding.output_eval.is_none() {
        return Ok(Value::Null);
    }
    let matched = matched_values(alloc, binding.load_contents, folder, names)?;
    evaluated(members, &binding.output_eval, folder, matched)
}

fn evaluated(
    members: &Items<MemberType>,
    output_eval: &Option<Template>,
    folder: Folder<'_>,
    matched: Items<Value>,
) -> Result<Value, Stop>
    ensures ok { IfOk result (λ v. spec.evaluated (left_of folder.entry) members.now output_eval.now
        matched ≡ Ok v) }
    ensures err { IfErr result
        (Refuses (spec.evaluated (left_of folder.entry) members.now output_eval.now matched)) }
{
    match output_eval {
        None => value_by_type(members, matched),
        Some(template) => value_in(template, folder.speaks, &Value::of_items(matched)),
    }
}

fn matched_values(
    alloc: Global,
    load: bool,
    folder: Folder<'_>,
    names: &[Text],
) -> Result<Items<Value>, Stop>
    ensures ok { IfOk result (λ vs. spec.matched_values (left_of folder.entry) load names.now
        ≡ Ok vs) }
    ensures err { IfErr result
        (Refuses (spec.matched_values (left_of folder.entry) load names.now)) }
{
    let values = values_of(alloc, folder.listing, names)?;
    if load {
        load_all(alloc, folder.heads, values)
    } else {
        Ok(values)
    }
}
