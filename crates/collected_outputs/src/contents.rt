//! The contents of files that an output asks for.
ghost use Rattle.std.specs.Prelude.{◌≡◌, Ok, Some, IfOk, IfErr};
ghost use Rattle.std.specs.Option.{option_copied};
ghost use Rattle.collected_outputs.specs.Contents as spec;
ghost use Rattle.collected_outputs.specs.Gives.{Refuses};

use crate::fault::{CollectFault, Stop};
use cwl_value::{FileVal, MOST_CONTENTS, Place, Value};
use plain_data::{Items, Keyed, Text};
use std::alloc::{AllocError, Global};
use std::str;

/// Reads the contents of each File among the values.
pub(crate) fn load_all(
    alloc: Global,
    heads: &Keyed<Items<u8>>,
    values: Items<Value>,
) -> Result<Items<Value>, Stop>
    ensures ok { IfOk result (λ vs. spec.all_loaded heads.now values ≡ Ok vs) }
    ensures err { IfErr result (Refuses (spec.all_loaded heads.now values)) }
{
    let mut loaded = Items::new(alloc);
    for value in values.into_vec() {
        loaded.push(load_one(alloc, heads, value)?)?;
    }
    Ok(loaded)
}

fn load_one(alloc: Global, heads: &Keyed<Items<u8>>, value: Value) -> Result<Value, Stop>
    ensures ok { IfOk result (λ v. spec.loaded heads.now value ≡ Ok v) }
    ensures err { IfErr result (Refuses (spec.loaded heads.now value)) }
{
    match value {
        Value::FileVal(file) => Ok(Value::FileVal(load_file(alloc, heads, file)?)),
        other => Ok(other),
    }
}

fn load_file(alloc: Global, heads: &Keyed<Items<u8>>, file: FileVal) -> Result<FileVal, Stop>
    ensures ok { IfOk result (λ f. spec.file_loaded heads.now file ≡ Ok f) }
    ensures err { IfErr result (Refuses (spec.file_loaded heads.now file)) }
{
    let contents = contents_of(alloc, heads, &file)?;
    let mut file = file;
    file.contents = contents;
    Ok(file)
}

// The whole file as text, from its first bytes.
fn contents_of(
    alloc: Global,
    heads: &Keyed<Items<u8>>,
    file: &FileVal,
) -> Result<Option<Text>, Stop>
    ensures ok { IfOk result (λ contents. spec.contents_of heads.now file.now ≡ Ok contents) }
    ensures err { IfErr result (Refuses (spec.contents_of heads.now file.now)) }
{
    if file.size.unwrap_or(0) > MOST_CONTENTS {
        return Err(Stop::Refused(CollectFault::TooLong));
    }
    match head_of(heads, &file.place) {
        None => Ok(None),
        Some(bytes) => Ok(Some(text_of(alloc, bytes)?)),
    }
}

fn head_of<'h>(heads: &'h Keyed<Items<u8>>, place: &Place) -> Option<&'h [u8]>
    ensures { option_copied result ≡ spec.head_at heads.now place.now }
{
    match place {
        Place::Url(name) => match heads.get(name.as_str()) {
            None => None,
            Some(bytes) => Some(bytes.as_slice()),
        },
        _ => None,
    }
}

fn text_of(alloc: Global, bytes: &[u8]) -> Result<Text, Stop>
    ensures ok { IfOk result (λ text. spec.text_of (Some bytes.now) ≡ Ok (Some text)) }
    ensures err { IfErr result (Refuses (spec.text_of (Some bytes.now))) }
{
    match str::from_utf8(bytes) {
        Ok(text) => Ok(Text::from_text(alloc, text)?),
        Err(_) => Err(Stop::Refused(CollectFault::NotUtf8)),
    }
}
