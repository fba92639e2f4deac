//! What is copied together.
ghost use Rattle.std.specs.Prelude.{◌≡◌, ◌++◌, ◌∷◌, [], IfOk, OnOk};
ghost use Rattle.staging.specs.Groups.{path_of as path_at, name_of as name_in, copied, copied_file, copied_dir, groups_of_items, groups_of_fields};

use crate::group::Member;
use cwl_value::{DirVal, FileVal, Place, Value};
use plain_data::{Items, Keyed, Text};
use std::alloc::{AllocError, Global};

/// The groups of values, by the order of the names.
#[cycle(groups)]
pub(crate) fn push_field_groups(
    alloc: Global,
    fields: &Keyed<Value>,
    groups: &mut Vec<Items<Member>>,
) -> Result<(), AllocError>
    ensures { OnOk result (groups.new.items ≡ groups.old.items ++ groups_of_fields fields.now) }
{
    for field in fields.as_slice() {
        push_groups(alloc, &field.1, groups)?;
    }
    Ok(())
}

#[cycle(groups)]
fn push_groups(
    alloc: Global,
    value: &Value,
    groups: &mut Vec<Items<Member>>,
) -> Result<(), AllocError>
    ensures { OnOk result (groups.new.items ≡ groups.old.items ++ (copied value.now).groups) }
{
    match value {
        Value::FileVal(file) => push_group(groups, file_group(alloc, file)?),
        Value::DirVal(dir) => push_group(groups, dir_group(alloc, dir)?),
        Value::List(items) => push_item_groups(alloc, items.as_items(), groups),
        Value::Fields(fields) => push_field_groups(alloc, fields, groups),
        _ => Ok(()),
    }
}

#[cycle(groups)]
fn push_item_groups(
    alloc: Global,
    items: &Items<Value>,
    groups: &mut Vec<Items<Member>>,
) -> Result<(), AllocError>
    ensures { OnOk result (groups.new.items ≡ groups.old.items ++ groups_of_items items.now) }
{
    for item in items.as_slice() {
        push_groups(alloc, item, groups)?;
    }
    Ok(())
}

fn push_group(groups: &mut Vec<Items<Member>>, group: Items<Member>) -> Result<(), AllocError>
    ensures { OnOk result (groups.new.items ≡ groups.old.items ++ group ∷ []) }
{
    groups.push(group)?;
    Ok(())
}

/// A File and its secondary files.
pub(crate) fn file_group(alloc: Global, file: &FileVal) -> Result<Items<Member>, AllocError>
    ensures { IfOk result (λ group. (copied_file file.now).groups ≡ group ∷ []) }
{
    let mut group = Items::new(alloc);
    group.push(member(alloc, &file.place, &file.basename)?)?;
    for value in file.secondary.as_slice() {
        push_secondary(alloc, value, &mut group)?;
    }
    Ok(group)
}

fn push_secondary(alloc: Global, value: &Value, group: &mut Items<Member>) -> Result<(), AllocError>
    ensures { OnOk result (group.new ≡ group.old ++ (copied value.now).own) }
{
    match value {
        Value::FileVal(file) => group.push(member(alloc, &file.place, &file.basename)?),
        Value::DirVal(dir) => group.push(member(alloc, &dir.place, &dir.basename)?),
        _ => Ok(()),
    }
}

/// A Directory, which is copied whole.
pub(crate) fn dir_group(alloc: Global, dir: &DirVal) -> Result<Items<Member>, AllocError>
    ensures { IfOk result (λ group. (copied_dir dir.now).groups ≡ group ∷ []) }
{
    let mut group = Items::new(alloc);
    group.push(member(alloc, &dir.place, &dir.basename)?)?;
    Ok(group)
}

fn member(alloc: Global, place: &Place, name: &Option<Text>) -> Result<Member, AllocError>
    ensures { IfOk result (λ m. m
        ≡ record { source = path_at place.now; name = name_in name.now }) }
{
    Ok(Member {
        source: Text::from_text(alloc, path_of(place))?,
        name: Text::from_text(alloc, name_of(name))?,
    })
}

fn path_of(place: &Place) -> &str
    ensures { result.now ≡ path_at place.now }
{
    match place {
        Place::Path(path) => path.as_str(),
        _ => "",
    }
}

/// The basename, or the empty name.
pub(crate) fn name_of(name: &Option<Text>) -> &str
    ensures { result.now ≡ name_in name.now }
{
    match name {
        None => "",
        Some(name) => name.as_str(),
    }
}
