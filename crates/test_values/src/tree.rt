//! The smallest recursive type over texts, items and named values.
ghost use Rattle.std.specs.Prelude.{◌≡◌, IfOk};

use plain_data::{Items, Keyed, Text};
use serde_json::Value as Json;
use serde_json::value::Map;
use std::alloc::{AllocError, Global};
use test_rows::{Row, RowFault};

#[cycle(tree)]
#[derive(Debug, Drop, PartialEq)]
enum Tree {
    Leaf(u64),
    Name(Text),
    List(Items<Tree>),
    Fields(Keyed<Tree>),
}

/// The copy of the tree that JSON stands for, as it is printed, where it is equal to the tree.
pub(crate) fn answer(alloc: Global, row: &Row) -> Result<String, RowFault> {
    let tree = tree_of(alloc, row.json("json")?)?;
    let copy = copied(alloc, &tree)?;
    let same = copy == tree;
    drop(tree);
    shown(alloc, copy, same)
}

fn shown(alloc: Global, copy: Tree, same: bool) -> Result<String, RowFault> {
    let text = format!(in alloc; "{copy:?}");
    drop(copy);
    if same {
        Ok(text?)
    } else {
        Err(RowFault::BadArgument)
    }
}

#[cycle(read)]
fn tree_of(alloc: Global, json: &Json) -> Result<Tree, RowFault> {
    match json {
        Json::Number(number) => Ok(Tree::Leaf(number.as_u64().ok_or(RowFault::BadArgument)?)),
        Json::String(text) => Ok(Tree::Name(Text::from_text(alloc, text.as_str())?)),
        Json::Array(items) => Ok(Tree::List(list_of(alloc, items)?)),
        Json::Object(members) => Ok(Tree::Fields(fields_of(alloc, members)?)),
        _ => Err(RowFault::BadArgument),
    }
}

#[cycle(read)]
fn list_of(alloc: Global, items: &Vec<Json>) -> Result<Items<Tree>, RowFault> {
    let mut list = Items::new(alloc);
    for item in items {
        list.push(tree_of(alloc, item)?)?;
    }
    Ok(list)
}

#[cycle(read)]
fn fields_of(alloc: Global, members: &Map<String, Json>) -> Result<Keyed<Tree>, RowFault> {
    let mut fields = Keyed::new(alloc);
    for (key, member) in members.iter() {
        let name = Text::from_text(alloc, key.as_str())?;
        drop(fields.insert(name, tree_of(alloc, member)?)?);
    }
    Ok(fields)
}

#[cycle(copies)]
fn copied(alloc: Global, tree: &Tree) -> Result<Tree, AllocError>
    ensures { IfOk result (λ copy. copy ≡ tree.now) }
{
    match tree {
        Tree::Leaf(number) => Ok(Tree::Leaf(*number)),
        Tree::Name(text) => Ok(Tree::Name(text.copied(alloc)?)),
        Tree::List(items) => Ok(Tree::List(items_copied(alloc, items)?)),
        Tree::Fields(fields) => Ok(Tree::Fields(fields_copied(alloc, fields)?)),
    }
}

#[cycle(copies)]
fn items_copied(alloc: Global, items: &Items<Tree>) -> Result<Items<Tree>, AllocError>
    ensures { IfOk result (λ copy. copy ≡ items.now) }
{
    let mut copies = Vec::new(alloc);
    for item in items.as_slice() {
        copies.push(copied(alloc, item)?)?;
    }
    Ok(Items::from_vec(copies))
}

#[cycle(copies)]
fn fields_copied(alloc: Global, fields: &Keyed<Tree>) -> Result<Keyed<Tree>, AllocError>
    ensures { IfOk result (λ copy. copy ≡ fields.now) }
{
    let mut copies = Vec::new(alloc);
    for entry in fields.as_slice() {
        let name = entry.0.copied(alloc)?;
        copies.push((name, copied(alloc, &entry.1)?))?;
    }
    Ok(Keyed::from_sorted(copies))
}
