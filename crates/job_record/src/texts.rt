//! The texts in which a row is kept.

ghost use Rattle.std.specs.Prelude.{◌≡◌, Some, None, Ok, IfOk, IfErr, IsUtf8, option_map};
ghost use Rattle.serde_json.specs.View.{view, items_view};
ghost use Rattle.serde_json.specs.Written.{compact_text};
ghost use Rattle.cwl_value.specs.Json.{json_of};
ghost use Rattle.cwl_value.specs.Texts.{ReadsAs};
ghost use Rattle.cwl_value.specs.declared.value.Value.{Fields};
ghost use Rattle.job_record.specs.Texts.{found_json, files_json, found_in, list_in, text_at, flag_at, number_at, ReadsAsFiles, texts_of, ReadsAsRow, AreUtf8};
ghost use Rattle.job_rows.specs.Storable.{IsKept};
ghost use Rattle.job_record.specs.OpenMap.{bytes_in};
ghost use Rattle.job_record.specs.Columns.{Misreads};

use crate::changes::GREATEST_NUMBER;
use crate::fault::RecordFault;
use cwl_value::{Value, ValueRefusal, copy_fields, read_value, to_json};
use job_rows::Row;
use plain_data::{Items, Keyed, Text};
use serde_json::Value as Json;
use staging::Found;
use std::alloc::{AllocError, Global};
use std::mem;

/// A row as the table has it.
#[derive(Drop)]
pub struct Stored {
    pub key: Text,
    pub outputs: Text,
    pub files: Text,
    pub cost: u64,
    pub archived: bool,
}

/// The row's texts, with the flag that says whether it keeps an archive.
pub fn stored_of(alloc: Global, row: &Row, archived: bool) -> Result<Stored, AllocError>
    ensures texts { IfOk result (λ s. s ≡ texts_of (record row.now { archived = archived })) }
    ensures reads { IfOk result (λ s. IsKept row.now.outputs
        → ReadsAsRow s (record row.now { archived = archived })) }
    ensures utf8 { IfOk result AreUtf8 }
{
    Ok(Stored {
        key: Text::from_text(alloc, row.key.as_str())?,
        outputs: outputs_text(alloc, &row.outputs)?,
        files: files_text(alloc, &row.files)?,
        cost: row.cost,
        archived,
    })
}

/// The bytes of the files that the text lists, held to the greatest number that the store has. R1 if it does not read.
pub fn bytes_in(alloc: Global, text: &Text) -> Result<u64, RecordFault>
    ensures ok { IfOk result (λ bytes. (files : _) × ReadsAsFiles text.now files
        × (bytes ≡ bytes_in files)) }
    ensures err { IfErr result (Misreads ((files : _) → ¬ ReadsAsFiles text.now files)) }
{
    let files = read_files(alloc, text)?;
    Ok(bytes_of(&files))
}

fn bytes_of(files: &Items<Found>) -> u64
    ensures { result ≡ bytes_in files.now }
{
    let mut bytes: u64 = 0;
    for file in files.as_slice() {
        bytes = bytes.saturating_add(file.size);
    }
    bytes.min(GREATEST_NUMBER)
}

/// The row that the texts stand for.
pub fn row_of(alloc: Global, stored: Stored) -> Result<Row, RecordFault>
    ensures ok { IfOk result (ReadsAsRow stored) }
    ensures err { IfErr result (Misreads ((row : _) → ¬ ReadsAsRow stored row)) }
{
    let files = read_files(alloc, &stored.files)?;
    match read_outputs(alloc, &stored.outputs) {
        Ok(outputs) => Ok(Row {
            key: stored.key,
            outputs,
            files,
            cost: stored.cost,
            archived: stored.archived,
        }),
        Err(fault) => Err(fault),
    }
}

// The canonical text of the object that the outputs are.
#[tactic(auto, using(cwl_value::proofs::NoFloat::exact))]
fn outputs_text(alloc: Global, outputs: &Keyed<Value>) -> Result<Text, AllocError>
    ensures text { IfOk result (λ text. text ≡ compact_text (json_of (Fields outputs.now))) }
    ensures utf8 { IfOk result IsUtf8 }
    ensures reads { IfOk result (λ text. IsKept outputs.now
        → ReadsAs text (Ok (Fields outputs.now))) }
{
    let object = Value::Fields(copy_fields(alloc, outputs)?);
    let json = to_json(alloc, &object);
    mem::drop(object);
    Ok(Text::from_string(json?.to_string(alloc)?))
}

// Named outputs: any other value, a File among them, is R1.
fn read_outputs(alloc: Global, text: &Text) -> Result<Keyed<Value>, RecordFault>
    ensures ok { IfOk result (λ outputs. ReadsAs text.now (Ok (Fields outputs))) }
    ensures err { IfErr result
        (Misreads ((outputs : _) → ¬ ReadsAs text.now (Ok (Fields outputs)))) }
{
    match read_value(alloc, text.as_str().as_bytes()) {
        Ok(Value::Fields(outputs)) => Ok(outputs),
        Ok(other) => {
            mem::drop(other);
            Err(RecordFault::NotARecord)
        }
        Err(ValueRefusal::OutOfMemory) => Err(RecordFault::OutOfMemory),
        Err(_) => Err(RecordFault::NotARecord),
    }
}

/// A compact list of `[name, is_dir, size, sum]`.
#[tactic(auto, using(crate::proofs::Files::exact, crate::proofs::WrittenRow::files_read, crate::proofs::WrittenRow::files_depth))]
fn files_text(alloc: Global, files: &Items<Found>) -> Result<Text, AllocError>
    ensures text { IfOk result (λ text. text ≡ compact_text (files_json files.now)) }
    ensures utf8 { IfOk result IsUtf8 }
    ensures reads { IfOk result (λ text. ReadsAsFiles text files.now) }
{
    Ok(Text::from_string(json_of_files(alloc, files)?.to_string(alloc)?))
}

fn json_of_files(alloc: Global, files: &Items<Found>) -> Result<Json, AllocError>
    ensures { IfOk result (λ json. view json ≡ files_json files.now) }
{
    let mut list = Vec::new(alloc);
    for found in files.as_slice() {
        list.push(json_of_found(alloc, found)?)?;
    }
    Ok(Json::Array(list))
}

fn json_of_found(alloc: Global, found: &Found) -> Result<Json, AllocError>
    ensures { IfOk result (λ json. view json ≡ found_json found.now) }
{
    let mut fields = Vec::with_capacity(alloc, 4)?;
    fields.push(Json::try_from_str(alloc, found.name.as_str())?)?;
    fields.push(Json::Bool(found.is_dir))?;
    fields.push(Json::from(found.size))?;
    fields.push(Json::try_from_str(alloc, found.sum.as_str())?)?;
    Ok(Json::Array(fields))
}

fn read_files(alloc: Global, text: &Text) -> Result<Items<Found>, RecordFault>
    ensures ok { IfOk result (ReadsAsFiles text.now) }
    ensures err { IfErr result (Misreads ((files : _) → ¬ ReadsAsFiles text.now files)) }
{
    let json = match Json::from_str(alloc, text.as_str()) {
        Ok(json) => json,
        Err(error) if error.is_memory() => return Err(RecordFault::OutOfMemory),
        Err(_) => return Err(RecordFault::NotARecord),
    };
    match &json {
        Json::Array(list) => read_list(alloc, list.as_slice()),
        _ => Err(RecordFault::NotARecord),
    }
}

fn read_list(alloc: Global, list: &[Json]) -> Result<Items<Found>, RecordFault>
    ensures ok { IfOk result (λ files. list_in (items_view list.now) ≡ Some files) }
    ensures err { IfErr result (Misreads (list_in (items_view list.now) ≡ None)) }
{
    let mut files = Vec::new(alloc);
    for entry in list {
        files.push(read_found(alloc, entry)?)?;
    }
    Ok(Items::from_vec(files))
}

fn read_found(alloc: Global, entry: &Json) -> Result<Found, RecordFault>
    ensures ok { IfOk result (λ found. found_in (view entry.now) ≡ Some found) }
    ensures err { IfErr result (Misreads (found_in (view entry.now) ≡ None)) }
{
    let (Some(name), Some(is_dir), Some(size), Some(sum), None) = (
        text_at(entry, 0),
        flag_at(entry, 1),
        number_at(entry, 2),
        text_at(entry, 3),
        entry.get(4),
    ) else {
        return Err(RecordFault::NotARecord);
    };
    Ok(Found {
        name: Text::from_text(alloc, name)?,
        is_dir,
        size,
        sum: Text::from_text(alloc, sum)?,
    })
}

fn text_at(entry: &Json, at: usize) -> Option<&str>
    ensures { option_map (λ text. text.now) result ≡ text_at at (view entry.now) }
{
    entry.get(at)?.as_str()
}

fn flag_at(entry: &Json, at: usize) -> Option<bool>
    ensures { result ≡ flag_at at (view entry.now) }
{
    entry.get(at)?.as_bool()
}

fn number_at(entry: &Json, at: usize) -> Option<u64>
    ensures { result ≡ number_at at (view entry.now) }
{
    entry.get(at)?.as_u64()
}
