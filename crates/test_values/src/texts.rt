//! Texts: their order, their copies, and how they are printed.
use crate::values::coded;
use plain_data::{Items, Text};
use serde_json::Value as Json;
use std::alloc::Global;
use std::cmp::Ordering;
use test_rows::{Row, RowFault, quoted};

/// `order` compares two texts. `texts` copies a list of them, and answers with the copy where it is equal to the list,
/// with all texts one after another, and with the last one.
pub(crate) fn answer(alloc: Global, row: &Row) -> Result<String, RowFault> {
    match row.call() {
        "order" => compared(alloc, row),
        "texts" => listed(alloc, row),
        _ => Err(RowFault::UnknownCall),
    }
}

fn compared(alloc: Global, row: &Row) -> Result<String, RowFault> {
    let one = Text::from_text(alloc, row.text("one")?)?;
    let other = Text::from_text(alloc, row.text("other")?)?;
    coded(alloc, order_word(&one, &other))
}

// The order, where every comparison says the same.
fn order_word(one: &Text, other: &Text) -> &'static str {
    match (
        one.cmp(other),
        *one < *other,
        *one == *other,
        one.equals(other),
    ) {
        (Ordering::Less, true, false, false) => "less",
        (Ordering::Equal, false, true, true) => "equal",
        (Ordering::Greater, false, false, false) => "greater",
        _ => "?",
    }
}

fn listed(alloc: Global, row: &Row) -> Result<String, RowFault> {
    let mut texts = texts_of(alloc, row.list("texts")?)?;
    let answer = list_text(alloc, &mut texts);
    drop(texts);
    answer
}

// One text that grows, in place of three that are alive together.
fn list_text(alloc: Global, texts: &mut Items<Text>) -> Result<String, RowFault> {
    let mut answer = String::from_str(alloc, "[")?;
    push_part(&mut answer, &copy_text(alloc, texts)?, ",")?;
    push_part(&mut answer, &joined(alloc, texts)?, ",")?;
    push_part(&mut answer, &last_text(alloc, texts)?, "]")?;
    Ok(answer)
}

fn push_part(answer: &mut String, part: &String, end: &str) -> Result<(), RowFault> {
    answer.push_str(part.as_str())?;
    answer.push_str(end)?;
    Ok(())
}

fn texts_of(alloc: Global, list: &[Json]) -> Result<Items<Text>, RowFault> {
    let mut texts = Items::new(alloc);
    for json in list {
        let letters = json.as_str().ok_or(RowFault::BadArgument)?;
        texts.push(Text::from_text(alloc, letters)?)?;
    }
    Ok(texts)
}

fn copy_text(alloc: Global, texts: &Items<Text>) -> Result<String, RowFault> {
    let copy = texts.copied(alloc)?;
    if copy == *texts {
        Ok(format!(in alloc; "{copy:?}")?)
    } else {
        coded(alloc, "?")
    }
}

fn joined(alloc: Global, texts: &Items<Text>) -> Result<String, RowFault> {
    let mut joined = String::new(alloc);
    for text in texts.as_slice() {
        write!(joined, "{text}")?;
    }
    quoted(alloc, joined.as_str())
}

fn last_text(alloc: Global, texts: &mut Items<Text>) -> Result<String, RowFault> {
    match texts.pop() {
        Some(text) => quoted(alloc, text.into_string().as_str()),
        None => coded(alloc, "null"),
    }
}
