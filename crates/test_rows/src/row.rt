ghost use Rattle.std.specs.Prelude.{◌≡◌, option_map, option_and_then, IfOk, false, string_bytes};
ghost use Rattle.std.specs.Result.{result_ok};
ghost use Rattle.serde_json.specs.Find.{get, as_array, as_bool, as_i64, as_number, as_str, as_u64};
ghost use Rattle.serde_json.specs.View.{view, items_view};
ghost use Rattle.serde_json.specs.Written.{has_float, compact_text};

use crate::fault::RowFault;
use serde_json::Value as Json;
use std::alloc::{AllocError, Global};

/// A row: its name, its call, and the call's arguments by their names.
#[derive(Drop)]
pub struct Row {
    pub members: Json,
}

impl Row {
    /// Reads a row from a line.
    pub fn read(alloc: Global, line: &str) -> Result<Row, RowFault> {
        match Json::from_str(alloc, line) {
            Ok(members) => Row::from_members(members),
            Err(error) if error.is_memory() => Err(RowFault::OutOfMemory),
            Err(_) => Err(RowFault::NotARow),
        }
    }

    fn from_members(members: Json) -> Result<Row, RowFault> {
        let row = Row { members };
        if row.text("row").is_ok() && row.text("call").is_ok() {
            Ok(row)
        } else {
            Err(RowFault::NotARow)
        }
    }

    pub fn name(&self) -> &str {
        self.text("row").unwrap_or("?")
    }

    pub fn call(&self) -> &str {
        self.text("call").unwrap_or("?")
    }

    /// The argument as it is written, or `None` where the row lacks it.
    pub fn find(&self, argument: &str) -> Option<&Json>
        ensures { option_map (λ json. view json.now) result
            ≡ get argument.now (view self.now.members) }
    {
        self.members.get(argument)
    }

    pub fn json(&self, argument: &str) -> Result<&Json, RowFault>
        ensures { option_map (λ json. view json.now) (result_ok result)
            ≡ get argument.now (view self.now.members) }
    {
        self.find(argument).ok_or(RowFault::BadArgument)
    }

    pub fn text(&self, argument: &str) -> Result<&str, RowFault>
        ensures { option_map (λ text. text.now) (result_ok result)
            ≡ option_and_then as_str (get argument.now (view self.now.members)) }
    {
        self.json(argument)?.as_str().ok_or(RowFault::BadArgument)
    }

    /// A whole number below 2^64.
    pub fn natural(&self, argument: &str) -> Result<u64, RowFault>
        ensures { result_ok result
            ≡ option_and_then as_u64
            (option_and_then as_number (get argument.now (view self.now.members))) }
    {
        self.json(argument)?.as_u64().ok_or(RowFault::BadArgument)
    }

    /// A whole number from -2^63 to 2^63 - 1.
    pub fn whole(&self, argument: &str) -> Result<i64, RowFault>
        ensures { result_ok result
            ≡ option_and_then as_i64
            (option_and_then as_number (get argument.now (view self.now.members))) }
    {
        self.json(argument)?.as_i64().ok_or(RowFault::BadArgument)
    }

    pub fn flag(&self, argument: &str) -> Result<bool, RowFault>
        ensures { result_ok result
            ≡ option_and_then as_bool (get argument.now (view self.now.members)) }
    {
        self.json(argument)?.as_bool().ok_or(RowFault::BadArgument)
    }

    pub fn list(&self, argument: &str) -> Result<&[Json], RowFault>
        ensures { option_map (λ items. items_view items.now) (result_ok result)
            ≡ option_and_then as_array (get argument.now (view self.now.members)) }
    {
        match self.json(argument)?.as_array() {
            Some(items) => Ok(items.as_slice()),
            None => Err(RowFault::BadArgument),
        }
    }
}

/// The JSON of a value, without space.
pub fn json_text(alloc: Global, json: &Json) -> Result<String, RowFault>
    ensures { IfOk result (λ text. has_float (view json.now) ≡ false
        → string_bytes text ≡ compact_text (view json.now)) }
{
    Ok(json.to_string(alloc)?)
}

/// A text as JSON, in its quotes.
pub fn quoted(alloc: Global, text: &str) -> Result<String, RowFault> {
    json_text(alloc, &Json::String(owned(alloc, text)?))
}

fn owned(alloc: Global, text: &str) -> Result<String, AllocError> {
    String::from_str(alloc, text)
}
