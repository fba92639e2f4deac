use crate::machine::listing::{put_listing, put_measure};
use crate::script::{listing_of, text_at};
use plain_data::{Items, Keyed};
use serde_json::Value as Json;
use staging::{Measure, Move, StagePlan, listing_in};
use std::alloc::Global;
use std::mem;
use test_rows::{AnswerText, Row, RowFault};

/// Writes a copy of the row's listing.
pub fn put_listing_copy(alloc: Global, row: &Row, out: &mut AnswerText) -> Result<(), RowFault> {
    let found = listing_of(alloc, row.json("found")?)?;
    let copy = listing_in(alloc, &found);
    mem::drop(found);
    put_listing(out, copy?.as_slice());
    Ok(())
}

/// Writes a measure, as it stands in a script.
pub fn put_scripted(out: &mut AnswerText, measure: &Measure) {
    let is_folder = matches!(measure, Measure::Folder(_));
    if is_folder {
        out.put("{\"folder\":");
    }
    put_measure(out, measure);
    if is_folder {
        out.put("}");
    }
}

/// Writes a copy of the row's plan: each move's source and target.
pub fn put_plan_copy(alloc: Global, row: &Row, out: &mut AnswerText) -> Result<(), RowFault> {
    let plan = plan_of(alloc, row)?;
    let copy = plan.clone_in(alloc);
    mem::drop(plan);
    let copy = copy?;
    put_moves(out, copy.moves.as_slice());
    mem::drop(copy);
    Ok(())
}

fn plan_of(alloc: Global, row: &Row) -> Result<StagePlan, RowFault> {
    let mut moves = Items::new(alloc);
    for planned in row.list("moves")? {
        moves.push(move_of(alloc, planned)?)?;
    }
    Ok(StagePlan {
        moves,
        value: Keyed::new(alloc),
    })
}

fn move_of(alloc: Global, json: &Json) -> Result<Move, RowFault> {
    let source = text_at(alloc, json, 0)?;
    let target = text_at(alloc, json, 1)?;
    Ok(Move { source, target })
}

fn put_moves(out: &mut AnswerText, moves: &[Move]) {
    out.put("[");
    for planned in moves {
        out.put_comma();
        out.put("[");
        out.put_quoted(planned.source.as_str());
        out.put(",");
        out.put_quoted(planned.target.as_str());
        out.put("]");
    }
    out.put("]");
}
