//! What is said of a plan.
ghost use Rattle.std.specs.Prelude.{◌≡◌, length};

use crate::texts::{Given, bad_line, certificate_of};
use plain_data::Text;
use plan_checker::{Charges, Graph, Plan, check};
use plan_words::{Known, plan_lines, plan_picture, plan_reasons};
use serde_json::Value as Json;
use std::alloc::{AllocError, Global};
use test_rows::{Row, RowFault, quoted};

/// What is wanted of it.
#[derive(Clone, Copy)]
pub(crate) enum Wanted {
    Lines,
    Reasons,
    Picture,
}

/// What is said of the plan of a row's certificate, whose jobs stand at the row's `places`, are known as `known` says, and of which `near` has lines.
pub(crate) fn said(alloc: Global, row: &Row, wanted: Wanted) -> Result<String, RowFault> {
    match certificate_of(alloc, row)? {
        Given::Certificate(graph, plan, charges) => {
            words_on(alloc, row, wanted, &graph, &plan, &charges)
        }
        Given::BadLine(line) => bad_line(alloc, line),
    }
}

fn words_on(
    alloc: Global,
    row: &Row,
    wanted: Wanted,
    graph: &Graph,
    plan: &Plan,
    charges: &Charges,
) -> Result<String, RowFault> {
    let Ok(cost) = check(graph, plan, charges) else {
        return Err(RowFault::BadArgument);
    };
    let places = texts_in(alloc, row.list("places")?)?;
    if places.len() != graph.vertices().len() {
        return Err(RowFault::BadArgument);
    }
    let places = places.as_slice();
    let text = match wanted {
        Wanted::Lines => plan_lines(alloc, cost, plan, places)?,
        Wanted::Reasons => reasons(alloc, row, graph, plan, places)?,
        Wanted::Picture => plan_picture(alloc, cost, graph, plan, charges, places)?,
    };
    quoted(alloc, text.as_str())
}

fn reasons(
    alloc: Global,
    row: &Row,
    graph: &Graph,
    plan: &Plan,
    places: &[Text],
) -> Result<Text, RowFault>
    requires marks { length plan.now.marks ≡ length graph.now }
    requires places { length places.now ≡ length graph.now }
{
    let known = known_in(alloc, row.list("known")?)?;
    let near = texts_in(alloc, row.list("near")?)?;
    if known.len() != places.len() || near.len() != places.len() {
        return Err(RowFault::BadArgument);
    }
    let (known, near) = (known.as_slice(), near.as_slice());
    Ok(plan_reasons(alloc, graph, plan, known, near, places)?)
}

fn texts_in(alloc: Global, list: &[Json]) -> Result<Vec<Text>, AllocError> {
    let mut texts = Vec::new(alloc);
    for text in list {
        texts.push(Text::from_text(alloc, text.as_str().unwrap_or("?"))?)?;
    }
    Ok(texts)
}

fn known_in(alloc: Global, words: &[Json]) -> Result<Vec<Known>, RowFault> {
    let mut known = Vec::new(alloc);
    for word in words {
        known.push(known_as(word.as_str().unwrap_or("?"))?)?;
    }
    Ok(known)
}

fn known_as(word: &str) -> Result<Known, RowFault> {
    match word {
        "not reusable" => Ok(Known::NotReusable),
        "not recorded" => Ok(Known::NotRecorded),
        "not archived" => Ok(Known::NotArchived),
        "archived" => Ok(Known::Archived),
        _ => Err(RowFault::BadArgument),
    }
}
