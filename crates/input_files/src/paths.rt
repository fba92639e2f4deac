//! The paths that are measured.
ghost use Rattle.std.specs.Prelude.{◌≡◌, ◌++◌, IfOk, OnOk};
ghost use Rattle.std.specs.List.{flat_map};
ghost use Rattle.input_files.specs.Paths as spec;

use crate::beside::push_looked_for;
use crate::names::each_once;
use crate::parameter::Parameter;
use cwl_process::ToolInput;
use cwl_value::{DirVal, FileVal, Place, Value};
use plain_data::{Items, Keyed, Text};
use std::alloc::{AllocError, Global};

/// The paths to measure before a run of a tool: those of every File and Directory of what is given and of the tool's
/// defaults, and those at which files are looked for that an input declares and a File lacks.
pub fn input_paths(
    alloc: Global,
    inputs: &[(Text, ToolInput)],
    given: &Keyed<Value>,
) -> Result<Items<Text>, AllocError>
    ensures { IfOk result (λ paths. paths ≡ spec.input_paths inputs.now given.now) }
{
    let mut paths = Items::new(alloc);
    push_fields(alloc, given, &mut paths)?;
    push_root_inputs(alloc, inputs, given, &mut paths)?;
    each_once(alloc, paths.as_slice())
}

/// Adds what the inputs of the root add to the paths of what is given: those of the defaults, and those at which files are
/// looked for that an input declares and a File lacks.
pub fn push_root_inputs<P: Parameter>(
    alloc: Global,
    inputs: &[(Text, P)],
    given: &Keyed<Value>,
    paths: &mut Items<Text>,
) -> Result<(), AllocError>
    ensures { OnOk result (paths.new ≡ paths.old ++ spec.root_adds P.of inputs.now given.now) }
{
    for input in inputs {
        push_root_input(alloc, given, input, paths)?;
    }
    Ok(())
}

fn push_root_input<P: Parameter>(
    alloc: Global,
    given: &Keyed<Value>,
    input: &(Text, P),
    paths: &mut Items<Text>,
) -> Result<(), AllocError>
    ensures { OnOk result (paths.new ≡ paths.old ++ spec.root_input_adds P.of given.now input.now) }
{
    let declared = input.1.secondary_files();
    if let Some(value) = given.get(input.0.as_str()) {
        push_looked_for(alloc, declared, value, paths)?;
    }
    if let Some(value) = input.1.default() {
        push_value(alloc, value, paths)?;
        push_looked_for(alloc, declared, value, paths)?;
    }
    Ok(())
}

/// Adds the paths of the defaults of a process that is not the root.
pub fn push_defaults<P: Parameter>(
    alloc: Global,
    inputs: &[(Text, P)],
    paths: &mut Items<Text>,
) -> Result<(), AllocError>
    ensures { OnOk result (paths.new ≡ paths.old ++ spec.paths_of_defaults P.of inputs.now) }
{
    for input in inputs {
        if let Some(default) = input.1.default() {
            push_value(alloc, default, paths)?;
        }
    }
    Ok(())
}

/// Adds the paths of the Files and Directories of a value, at any depth.
#[cycle(paths)]
pub fn push_value(alloc: Global, value: &Value, paths: &mut Items<Text>) -> Result<(), AllocError>
    ensures { OnOk result (paths.new ≡ paths.old ++ spec.paths_of value.now) }
{
    match value {
        Value::FileVal(file) => push_file(alloc, file, paths),
        Value::DirVal(dir) => push_dir(alloc, dir, paths),
        Value::List(items) => push_items(alloc, items.as_items(), paths),
        Value::Fields(fields) => push_fields(alloc, fields, paths),
        _ => Ok(()),
    }
}

#[cycle(paths)]
fn push_file(alloc: Global, file: &FileVal, paths: &mut Items<Text>) -> Result<(), AllocError>
    ensures { OnOk result (paths.new ≡ paths.old ++ spec.paths_of_file file.now) }
{
    push_own(alloc, &file.place, paths)?;
    push_items(alloc, &file.secondary, paths)
}

#[cycle(paths)]
fn push_dir(alloc: Global, dir: &DirVal, paths: &mut Items<Text>) -> Result<(), AllocError>
    ensures { OnOk result (paths.new ≡ paths.old ++ spec.paths_of_dir dir.now) }
{
    push_own(alloc, &dir.place, paths)?;
    match &dir.listing {
        None => Ok(()),
        Some(items) => push_items(alloc, items, paths),
    }
}

#[cycle(paths)]
fn push_items(
    alloc: Global,
    items: &Items<Value>,
    paths: &mut Items<Text>,
) -> Result<(), AllocError>
    ensures { OnOk result (paths.new ≡ paths.old ++ spec.paths_of_items items.now) }
{
    for item in items.as_slice() {
        push_value(alloc, item, paths)?;
    }
    Ok(())
}

/// Adds the paths of the Files and Directories of named values, at any depth.
#[cycle(paths)]
pub fn push_fields(
    alloc: Global,
    fields: &Keyed<Value>,
    paths: &mut Items<Text>,
) -> Result<(), AllocError>
    ensures { OnOk result (paths.new ≡ paths.old ++ spec.paths_of_fields fields.now) }
{
    for field in fields.as_slice() {
        push_value(alloc, &field.1, paths)?;
    }
    Ok(())
}

/// Adds the path of a place, where it is one.
pub(crate) fn push_own(
    alloc: Global,
    place: &Place,
    paths: &mut Items<Text>,
) -> Result<(), AllocError>
    ensures { OnOk result (paths.new ≡ paths.old ++ spec.own_path place.now) }
{
    match place {
        Place::Path(path) => paths.push(path.copied(alloc)?),
        _ => Ok(()),
    }
}
