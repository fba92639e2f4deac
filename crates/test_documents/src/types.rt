//! Reads the types of rows, and writes them as lists of members.
use crate::arguments::value_of;
use crate::documents::told;
use cwl_types::{ArrayType, ItemBinding, MemberType, PlainType, read_type};
use document_table::{Form, fault_in};
use plain_data::Text;
use std::alloc::Global;
use test_rows::{AnswerText, Row, RowFault};
use type_check::fits;

/// The members of the row's type, or its fault.
pub(crate) fn read(alloc: Global, row: &Row) -> Result<String, RowFault> {
    let kind = row.json("type")?;
    if let Some(fault) = fault_in(alloc, Form::Type, kind)? {
        return Ok(told(alloc, &fault)?);
    }
    let members = read_type(alloc, kind)?;
    members_text(alloc, members.as_slice())
}

/// Whether the row's value fits its type, or the type's fault.
pub(crate) fn fits_type(alloc: Global, row: &Row) -> Result<String, RowFault> {
    let kind = row.json("type")?;
    if let Some(fault) = fault_in(alloc, Form::Type, kind)? {
        return Ok(told(alloc, &fault)?);
    }
    let value = value_of(alloc, row.json("value")?)?;
    let members = read_type(alloc, kind)?;
    let mut out = AnswerText::new(alloc);
    out.put_flag(fits(&value, &members));
    out.finish()
}

/// The list of the members.
pub(crate) fn members_text(alloc: Global, members: &[MemberType]) -> Result<String, RowFault> {
    let mut out = AnswerText::new(alloc);
    put_members(&mut out, members);
    out.finish()
}

#[cycle(members)]
fn put_members(out: &mut AnswerText, members: &[MemberType]) {
    out.put("[");
    for member in members {
        out.put_comma();
        match member {
            MemberType::Plain(plain) => out.put(name_of(*plain)),
            MemberType::Array(array) => put_array(out, array),
            MemberType::Enum(symbols) => put_enum(out, symbols.as_slice()),
        }
    }
    out.put("]");
}

#[cycle(members)]
fn put_array(out: &mut AnswerText, array: &ArrayType) {
    out.put("array");
    put_members(out, array.items.as_slice());
    if let Some(binding) = &array.binding {
        put_binding(out, binding);
    }
}

fn put_binding(out: &mut AnswerText, binding: &ItemBinding) {
    out.put(if binding.separate {
        " apart"
    } else {
        " joined"
    });
    if let Some(prefix) = &binding.prefix {
        out.put_quoted(prefix.as_str());
    }
}

fn put_enum(out: &mut AnswerText, symbols: &[Text]) {
    out.put("enum(");
    for symbol in symbols {
        out.put_quoted(symbol.as_str());
    }
    out.put(")");
}

fn name_of(plain: PlainType) -> &'static str {
    match plain {
        PlainType::Null => "null",
        PlainType::Boolean => "boolean",
        PlainType::Int => "int",
        PlainType::Long => "long",
        PlainType::Text => "string",
        PlainType::File => "File",
        PlainType::Directory => "Directory",
        PlainType::Any => "Any",
    }
}
