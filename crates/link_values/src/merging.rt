//! One value made of the values of all links.

ghost use Rattle.std.specs.Prelude.{◌≡◌, ◌≢◌, ◌++◌, Some, None, IfOk, IsOk, OnOk};
ghost use Rattle.cwl_process.specs.declared.links.Merge.TheVariants.{Flattened};
ghost use Rattle.link_values.specs.Merged.{merged, items_or_one};

use cwl_process::Merge;
use cwl_value::{Value, items_by_value};
use plain_data::Items;
use std::alloc::{AllocError, Global};

/// The value of links with these values (CWL v1.2, Workflow, `linkMerge`). Without a method no link gives null, one
/// link gives its value, and several links are nested.
pub fn merge(alloc: Global, method: Option<Merge>, values: Vec<Value>) -> Result<Value, AllocError>
    ensures value { IfOk result (λ value. value ≡ merged method values.items) }

    // Only items that move need memory.
    ensures in_place { method ≢ Some Flattened → IsOk result }
{
    match method {
        Some(Merge::Nested) => Ok(Value::of_items(Items::from_vec(values))),
        Some(Merge::Flattened) => flattened(alloc, values),
        None => Ok(unmerged(values)),
    }
}

fn unmerged(values: Vec<Value>) -> Value
    ensures { result ≡ merged None values.items }
{
    let mut values = values;
    if values.len() > 1 {
        return Value::of_items(Items::from_vec(values));
    }
    match values.pop() {
        Some(value) => value,
        None => Value::Null,
    }
}

fn flattened(alloc: Global, values: Vec<Value>) -> Result<Value, AllocError>
    ensures { IfOk result (λ value. value ≡ merged (Some Flattened) values.items) }
{
    let mut items = Vec::new(alloc);
    for value in values {
        push_items(alloc, &mut items, value)?;
    }
    Ok(Value::of_items(Items::from_vec(items)))
}

// Adds the items of a list, or a value that is no list.
fn push_items(alloc: Global, items: &mut Vec<Value>, value: Value) -> Result<(), AllocError>
    ensures { OnOk result (items.new.items ≡ items.old.items ++ items_or_one value) }
{
    match value {
        Value::List(list) => push_all(items, items_by_value(alloc, list)?.into_vec()),
        other => Ok(items.push(other)?),
    }
}

fn push_all(items: &mut Vec<Value>, more: Vec<Value>) -> Result<(), AllocError>
    ensures { OnOk result (items.new.items ≡ items.old.items ++ more.items) }
{
    for item in more {
        items.push(item)?;
    }
    Ok(())
}
