//! The contents of the Files of inputs that ask for them.
ghost use Rattle.std.specs.Prelude.{◌≡◌, ◌++◌, Ok, Some, IfOk, IfErr, OnOk, map};
ghost use Rattle.std.specs.List.{flat_map};
ghost use Rattle.std.specs.Option.{option_copied};
ghost use Rattle.std.specs.Str.{is_utf8};
ghost use Rattle.input_files.specs.Given.{with_file, files_in};
ghost use Rattle.input_files.specs.Contents as spec;
ghost use Rattle.input_files.specs.Refusals.{RefusesContents};

use crate::fault::{ContentsError, ContentsFault};
use crate::files::items_of;
use crate::names::each_once;
use crate::paths::push_own;
use cwl_process::ToolInput;
use cwl_value::{FileVal, MOST_CONTENTS, Place, Value, items_by_value};
use plain_data::{Items, Keyed, Text};
use std::alloc::{AllocError, Global};
use std::str;

/// The paths of the files whose first bytes are read once the inputs are staged, by the order of the inputs' names:
/// the Files of inputs that ask for contents, but for those that are too long.
pub fn heads_wanted(
    alloc: Global,
    inputs: &[(Text, ToolInput)],
    staged: &Keyed<Value>,
) -> Result<Items<Text>, AllocError>
    ensures { IfOk result (λ paths. paths ≡ spec.heads_wanted inputs.now staged.now) }
{
    let asked = asked_by(alloc, inputs)?;
    let mut paths = Items::new(alloc);
    for field in staged.as_slice() {
        push_wanted(alloc, &asked, field, &mut paths)?;
    }
    each_once(alloc, paths.as_slice())
}

/// The staged inputs, the first bytes of each File of an input that asks for them as its contents.
///
/// # Errors
///
/// The first fault by the order of the inputs' names: `TooLong` or `NotUtf8`; `OutOfMemory`.
pub fn with_contents(
    alloc: Global,
    inputs: &[(Text, ToolInput)],
    staged: Keyed<Value>,
    heads: &Keyed<Items<u8>>,
) -> Result<Keyed<Value>, ContentsError>
    ensures ok { IfOk result (λ named. spec.with_contents inputs.now staged heads.now ≡ Ok named) }
    ensures err { IfErr result (RefusesContents (spec.with_contents inputs.now staged heads.now)) }
{
    let asked = asked_by(alloc, inputs)?;
    match contents_fault(alloc, &asked, heads, &staged)? {
        Some(fault) => Err(ContentsError::Refused(fault)),
        None => Ok(all_loaded(alloc, &asked, heads, staged)?),
    }
}

// Whether each input asks for contents, by name.
fn asked_by(alloc: Global, inputs: &[(Text, ToolInput)]) -> Result<Keyed<bool>, AllocError>
    ensures { IfOk result (λ asked. asked ≡ spec.asked_by inputs.now) }
{
    let mut asked = Keyed::new(alloc);
    for input in inputs {
        let name = input.0.copied(alloc)?;
        asked.insert(name, input.1.load_contents)?;
    }
    Ok(asked)
}

fn loads(asked: &Keyed<bool>, name: &Text) -> bool
    ensures { result ≡ spec.loads asked.now name.now }
{
    match asked.get(name.as_str()) {
        None => false,
        Some(asks) => *asks,
    }
}

fn push_wanted(
    alloc: Global,
    asked: &Keyed<bool>,
    field: &(Text, Value),
    paths: &mut Items<Text>,
) -> Result<(), AllocError>
    ensures { OnOk result (paths.new ≡ paths.old ++ spec.field_wants asked.now field.now) }
{
    if !loads(asked, &field.0) {
        return Ok(());
    }
    push_files(alloc, &field.1, paths)
}

fn push_files(alloc: Global, value: &Value, paths: &mut Items<Text>) -> Result<(), AllocError>
    ensures { OnOk result (paths.new ≡ paths.old ++ flat_map spec.file_wants (files_in value.now)) }
{
    for item in items_of(value) {
        if let Value::FileVal(file) = item {
            push_head(alloc, file, paths)?;
        }
    }
    Ok(())
}

fn push_head(alloc: Global, file: &FileVal, paths: &mut Items<Text>) -> Result<(), AllocError>
    ensures { OnOk result (paths.new ≡ paths.old ++ spec.file_wants file.now) }
{
    if is_too_long(file) {
        return Ok(());
    }
    push_own(alloc, &file.place, paths)
}

fn is_too_long(file: &FileVal) -> bool
    ensures { result ≡ spec.is_too_long file.now }
{
    file.size.unwrap_or(0) > MOST_CONTENTS
}

fn contents_fault(
    alloc: Global,
    asked: &Keyed<bool>,
    heads: &Keyed<Items<u8>>,
    staged: &Keyed<Value>,
) -> Result<Option<ContentsFault>, AllocError>
    ensures { IfOk result (λ fault. fault ≡ spec.contents_fault asked.now heads.now staged.now) }
{
    for field in staged.as_slice() {
        let fault = field_fault(alloc, asked, heads, field)?;
        if fault.is_some() {
            return Ok(fault);
        }
    }
    Ok(None)
}

fn field_fault(
    alloc: Global,
    asked: &Keyed<bool>,
    heads: &Keyed<Items<u8>>,
    field: &(Text, Value),
) -> Result<Option<ContentsFault>, AllocError>
    ensures { IfOk result (λ fault. fault ≡ spec.field_fault asked.now heads.now field.now) }
{
    if !loads(asked, &field.0) {
        return Ok(None);
    }
    files_fault(alloc, heads, &field.0, &field.1)
}

fn files_fault(
    alloc: Global,
    heads: &Keyed<Items<u8>>,
    name: &Text,
    value: &Value,
) -> Result<Option<ContentsFault>, AllocError>
    ensures { IfOk result (λ fault. fault
        ≡ spec.files_fault heads.now name.now (files_in value.now)) }
{
    for item in items_of(value) {
        if let Value::FileVal(file) = item {
            let fault = file_fault(alloc, heads, name, file)?;
            if fault.is_some() {
                return Ok(fault);
            }
        }
    }
    Ok(None)
}

// What is wrong with a File's contents.
fn file_fault(
    alloc: Global,
    heads: &Keyed<Items<u8>>,
    name: &Text,
    file: &FileVal,
) -> Result<Option<ContentsFault>, AllocError>
    ensures { IfOk result (λ fault. fault ≡ spec.file_fault heads.now name.now file.now) }
{
    if is_too_long(file) {
        return Ok(Some(ContentsFault::TooLong(name.copied(alloc)?)));
    }
    match head_of(heads, &file.place) {
        Some(bytes) if !is_text(bytes) => Ok(Some(ContentsFault::NotUtf8(name.copied(alloc)?))),
        _ => Ok(None),
    }
}

fn is_text(bytes: &[u8]) -> bool
    ensures { result ≡ is_utf8 bytes.now }
{
    match str::from_utf8(bytes) {
        Ok(_) => true,
        Err(_) => false,
    }
}

fn head_of<'h>(heads: &'h Keyed<Items<u8>>, place: &Place) -> Option<&'h [u8]>
    ensures { option_copied result ≡ spec.head_at heads.now place.now }
{
    match place {
        Place::Path(path) => match heads.get(path.as_str()) {
            None => None,
            Some(bytes) => Some(bytes.as_slice()),
        },
        _ => None,
    }
}

fn all_loaded(
    alloc: Global,
    asked: &Keyed<bool>,
    heads: &Keyed<Items<u8>>,
    staged: Keyed<Value>,
) -> Result<Keyed<Value>, AllocError>
    ensures { IfOk result (λ named. named ≡ map (spec.field_loaded asked.now heads.now) staged) }
{
    let mut named = Vec::new(alloc);
    for (name, value) in staged.into_entries() {
        let loaded = value_loaded(alloc, loads(asked, &name), heads, value)?;
        named.push((name, loaded))?;
    }
    Ok(Keyed::from_sorted(named))
}

fn value_loaded(
    alloc: Global,
    asks: bool,
    heads: &Keyed<Items<u8>>,
    value: Value,
) -> Result<Value, AllocError>
    ensures { IfOk result (λ v. v ≡ spec.value_loaded asks heads.now value) }
{
    if !asks {
        return Ok(value);
    }
    match value {
        Value::List(items) => {
            let items = items_by_value(alloc, items)?;
            Ok(Value::of_items(items_loaded(alloc, heads, items)?))
        }
        other => one_loaded(alloc, heads, other),
    }
}

fn items_loaded(
    alloc: Global,
    heads: &Keyed<Items<u8>>,
    values: Items<Value>,
) -> Result<Items<Value>, AllocError>
    ensures { IfOk result (λ vs. vs ≡ map (with_file (spec.file_loaded heads.now)) values) }
{
    let mut loaded = Items::new(alloc);
    for value in values.into_vec() {
        loaded.push(one_loaded(alloc, heads, value)?)?;
    }
    Ok(loaded)
}

fn one_loaded(alloc: Global, heads: &Keyed<Items<u8>>, value: Value) -> Result<Value, AllocError>
    ensures { IfOk result (λ v. v ≡ with_file (spec.file_loaded heads.now) value) }
{
    match value {
        Value::FileVal(file) => Ok(Value::FileVal(file_loaded(alloc, heads, file)?)),
        other => Ok(other),
    }
}

// The File with its first bytes as its contents.
fn file_loaded(
    alloc: Global,
    heads: &Keyed<Items<u8>>,
    file: FileVal,
) -> Result<FileVal, AllocError>
    ensures { IfOk result (λ f. f ≡ spec.file_loaded heads.now file) }
{
    let contents = contents_of(alloc, heads, &file.place)?;
    let mut file = file;
    file.contents = contents;
    Ok(file)
}

fn contents_of(
    alloc: Global,
    heads: &Keyed<Items<u8>>,
    place: &Place,
) -> Result<Option<Text>, AllocError>
    ensures { IfOk result (λ text. text ≡ spec.text_of (spec.head_at heads.now place.now)) }
{
    match head_of(heads, place) {
        None => Ok(None),
        Some(bytes) => text_of(alloc, bytes),
    }
}

// The text of a head; none where it is no text.
fn text_of(alloc: Global, bytes: &[u8]) -> Result<Option<Text>, AllocError>
    ensures { IfOk result (λ text. text ≡ spec.text_of (Some bytes.now)) }
{
    match str::from_utf8(bytes) {
        Ok(text) => Ok(Some(Text::from_text(alloc, text)?)),
        Err(_) => Ok(None),
    }
}
