//! Where files are copied to.
use cwl_value::{Place, Value, from_json};
use plain_data::{Items, Keyed};
use staging::{Move, StagePlan, deliver_plan, stage_plan};
use std::alloc::{AllocError, Global};
use test_rows::{Row, RowFault, quoted};

/// The copies of the plan for `values`, each as its source and its target, and then the new paths of all Files and
/// Directories in their order.
pub(crate) fn answer(alloc: Global, row: &Row) -> Result<String, RowFault> {
    let values = from_json(alloc, row.json("values")?).map_err(|_refusal| RowFault::BadArgument)?;
    let answer = planned(alloc, row, &values);
    drop(values);
    answer
}

fn planned(alloc: Global, row: &Row, values: &Value) -> Result<String, RowFault> {
    let Value::Fields(fields) = values else {
        return Err(RowFault::BadArgument);
    };
    let plan = plan_of(alloc, row.call(), fields, row.text("dir")?)?;
    let answer = plan_text(alloc, &plan);
    drop(plan);
    answer
}

fn plan_of(
    alloc: Global,
    call: &str,
    fields: &Keyed<Value>,
    dir: &str,
) -> Result<StagePlan, RowFault> {
    match call {
        "stage_plan" => Ok(stage_plan(alloc, fields, dir)?),
        "deliver_plan" => Ok(deliver_plan(alloc, fields, dir)?),
        _ => Err(RowFault::UnknownCall),
    }
}

fn plan_text(alloc: Global, plan: &StagePlan) -> Result<String, RowFault> {
    let mut text = String::from_str(alloc, "[[")?;
    push_moves(alloc, &mut text, plan.moves.as_slice())?;
    text.push_str("],[")?;
    push_field_paths(alloc, &mut text, &plan.value)?;
    text.push_str("]]")?;
    Ok(text)
}

fn push_moves(alloc: Global, text: &mut String, moves: &[Move]) -> Result<(), RowFault> {
    for one in moves {
        push_comma(text)?;
        text.push('[')?;
        push_quoted(alloc, text, one.source.as_str())?;
        text.push(',')?;
        push_quoted(alloc, text, one.target.as_str())?;
        text.push(']')?;
    }
    Ok(())
}

fn push_comma(text: &mut String) -> Result<(), AllocError> {
    if text.as_str().ends_with('[') {
        return Ok(());
    }
    Ok(text.push(',')?)
}

fn push_quoted(alloc: Global, text: &mut String, part: &str) -> Result<(), RowFault> {
    text.push_str(quoted(alloc, part)?.as_str())?;
    Ok(())
}

#[cycle(paths)]
fn push_field_paths(
    alloc: Global,
    text: &mut String,
    fields: &Keyed<Value>,
) -> Result<(), RowFault> {
    for field in fields.as_slice() {
        push_paths(alloc, text, &field.1)?;
    }
    Ok(())
}

#[cycle(paths)]
fn push_paths(alloc: Global, text: &mut String, value: &Value) -> Result<(), RowFault> {
    match value {
        Value::FileVal(file) => {
            push_path(alloc, text, &file.place)?;
            push_item_paths(alloc, text, &file.secondary)
        }
        Value::DirVal(dir) => {
            push_path(alloc, text, &dir.place)?;
            match &dir.listing {
                None => Ok(()),
                Some(entries) => push_item_paths(alloc, text, entries),
            }
        }
        Value::List(items) => push_item_paths(alloc, text, items.as_items()),
        Value::Fields(fields) => push_field_paths(alloc, text, fields),
        _ => Ok(()),
    }
}

#[cycle(paths)]
fn push_item_paths(alloc: Global, text: &mut String, items: &Items<Value>) -> Result<(), RowFault> {
    for item in items.as_slice() {
        push_paths(alloc, text, item)?;
    }
    Ok(())
}

fn push_path(alloc: Global, text: &mut String, place: &Place) -> Result<(), RowFault> {
    push_comma(text)?;
    push_quoted(alloc, text, path_of(place))
}

fn path_of(place: &Place) -> &str {
    match place {
        Place::Path(path) => path.as_str(),
        _ => "?",
    }
}
