//! The bindings of a tool, in the order of their words.
ghost use Rattle.std.specs.Prelude.{◌≡◌, ◌++◌, IfOk, OnOk, map};
ghost use Rattle.std.specs.Option.{option_copied};
ghost use Rattle.std.specs.List.{enumerate_from, filter_map, list_any};
ghost use Rattle.command_line.specs.Added.{array_binds_items, binds_items};
ghost use Rattle.command_line.specs.Order.{AreInOrder, bound_argument, bound_input, is_list, types_of};
ghost use Rattle.command_line.specs.inner.View.{bound_of, bound_or_none, value_or_null};

use cwl_process::{Binding, InputType, Tool, ToolInput};
use cwl_types::{ArrayType, MemberType};
use cwl_value::Value;
use plain_data::{Keyed, Text};
use std::alloc::{AllocError, Global};

/// What a binding is of.
#[derive(Clone, Copy, PartialEq, Eq, PartialOrd, Ord)]
pub(crate) enum Origin<'t> {
    /// An argument, by its index.
    Argument(usize),
    /// An input, by its id.
    Input(&'t str),
}

/// What the words of bindings are ordered by.
#[derive(Clone, Copy, PartialEq, Eq, PartialOrd, Ord)]
pub(crate) struct Key<'t> {
    pub position: i32,
    pub origin: Origin<'t>,
}

/// A binding under its key, with the value and the type of its input.
#[derive(Clone, Copy)]
pub(crate) struct BoundRow<'t> {
    pub key: Key<'t>,
    /// None where it is an empty one.
    pub binding: Option<&'t Binding>,
    pub types: &'t [MemberType],
    pub value: Option<&'t Value>,
}

/// The bindings of `tool`, in the order of their words.
pub(crate) fn in_order<'t>(
    alloc: Global,
    tool: &'t Tool,
    inputs: &'t Keyed<Value>,
) -> Result<Vec<BoundRow<'t>>, AllocError>
    ensures { IfOk result (λ rows. AreInOrder tool.now inputs.now (map bound_of rows.items)) }
{
    let mut rows = Vec::new(alloc);
    push_arguments(&mut rows, tool.arguments.as_slice())?;
    push_inputs(&mut rows, tool.inputs.as_slice(), inputs)?;
    rows.sort_by_key(|row| row.key)?;
    Ok(rows)
}

fn push_arguments<'t>(
    rows: &mut Vec<BoundRow<'t>>,
    arguments: &'t [Binding],
) -> Result<(), AllocError>
    ensures { OnOk result (map bound_of rows.new.items ≡ map bound_of rows.old.items
        ++ map bound_argument (enumerate_from 0 arguments.now)) }
{
    for index in 0..arguments.len() {
        let binding = &arguments[index];
        rows.push(BoundRow {
            key: Key {
                position: binding.position,
                origin: Origin::Argument(index),
            },
            binding: Some(binding),
            types: &[],
            value: None,
        })?;
    }
    Ok(())
}

fn push_inputs<'t>(
    rows: &mut Vec<BoundRow<'t>>,
    entries: &'t [(Text, ToolInput)],
    inputs: &'t Keyed<Value>,
) -> Result<(), AllocError>
    ensures { OnOk result (map bound_of rows.new.items ≡ map bound_of rows.old.items
        ++ filter_map (bound_input inputs.now) entries.now) }
{
    for entry in entries {
        if let Some(row) = row_of(entry, inputs) {
            rows.push(row)?;
        }
    }
    Ok(())
}

/// The input's binding, or an empty one where its value is a list whose items may have one.
fn row_of<'t>(entry: &'t (Text, ToolInput), inputs: &'t Keyed<Value>) -> Option<BoundRow<'t>>
    ensures { bound_or_none result ≡ bound_input inputs.now entry.now }
{
    let value = inputs.get(entry.0.as_str());
    let types = types_of(&entry.1.kind);
    let origin = Origin::Input(entry.0.as_str());
    match &entry.1.binding {
        Some(binding) => Some(BoundRow {
            key: Key {
                position: binding.position,
                origin,
            },
            binding: Some(binding),
            types,
            value,
        }),
        None if is_list(value) && any_binds_items(types) => Some(BoundRow {
            key: Key {
                position: 0,
                origin,
            },
            binding: None,
            types,
            value,
        }),
        None => None,
    }
}

fn types_of(kind: &InputType) -> &[MemberType]
    ensures { result.now ≡ types_of kind.now }
{
    match kind {
        InputType::Stdin => &[],
        InputType::Members(members) => members.as_slice(),
    }
}

fn is_list(value: Option<&Value>) -> bool
    ensures { result ≡ is_list (value_or_null (option_copied value.entry)) }
{
    match value {
        Some(value) => matches!(value, Value::List(_)),
        None => false,
    }
}

#[cycle(binding)]
fn any_binds_items(members: &[MemberType]) -> bool
    ensures { result ≡ list_any binds_items members.now }
{
    for member in members {
        if binds_items(member) {
            return true;
        }
    }
    false
}

/// Whether the member has, at any depth, an array type with a binding of its own.
#[cycle(binding)]
fn binds_items(member: &MemberType) -> bool
    ensures { result ≡ binds_items member.now }
{
    match member {
        MemberType::Array(array) => array_binds(array),
        MemberType::Plain(_) | MemberType::Enum(_) => false,
    }
}

#[cycle(binding)]
fn array_binds(array: &ArrayType) -> bool
    ensures { result ≡ array_binds_items array.now }
{
    array.binding.is_some() || any_binds_items(array.items.as_slice())
}
