//! Copies, equal to what was copied: in new memory, but for lists that are shared.
ghost use Rattle.std.specs.Prelude.{◌≡◌, IfOk};
ghost use Rattle.cwl_value.specs.declared.value.Value as value;

use crate::place::{JobPlace, Place, Segment};
use crate::value::{DirVal, FileVal, Value};
use plain_data::{Items, Keyed, SharedItems, Text, copied_if_any};
use std::alloc::{AllocError, Global};

/// Copies of the texts of a File: its basename, its checksum and its contents.
pub(crate) fn copy_texts(
    alloc: Global,
    basename: &Option<Text>,
    checksum: &Option<Text>,
    contents: &Option<Text>,
) -> Result<(Option<Text>, Option<Text>, Option<Text>), AllocError>
    ensures basename { IfOk result (λ copies. copies.0 ≡ basename.now) }
    ensures checksum { IfOk result (λ copies. copies.1 ≡ checksum.now) }
    ensures contents { IfOk result (λ copies. copies.2 ≡ contents.now) }
{
    let basename = copied_if_any(alloc, basename)?;
    let checksum = copied_if_any(alloc, checksum)?;
    let contents = copied_if_any(alloc, contents)?;
    Ok((basename, checksum, contents))
}

fn copy_index(alloc: Global, index: &Items<usize>) -> Result<Items<usize>, AllocError>
    ensures { IfOk result (λ copy. copy ≡ index.now) }
{
    Ok(Items::from_vec(Vec::from_slice(alloc, index.as_slice())?))
}

impl Segment {
    pub fn clone_in(&self, alloc: Global) -> Result<Segment, AllocError>
        ensures { IfOk result (λ copy. copy ≡ self.now) }
    {
        Ok(Segment {
            step: self.step.copied(alloc)?,
            index: copy_index(alloc, &self.index)?,
        })
    }
}

pub fn copy_job(alloc: Global, job: &JobPlace) -> Result<JobPlace, AllocError>
    ensures { IfOk result (λ copy. copy ≡ job.now) }
{
    let mut copies = Items::from_vec(Vec::with_capacity(alloc, job.len())?);
    for segment in job.as_slice() {
        copies.push(segment.clone_in(alloc)?)?;
    }
    Ok(copies)
}

impl Place {
    pub fn clone_in(&self, alloc: Global) -> Result<Place, AllocError>
        ensures { IfOk result (λ copy. copy ≡ self.now) }
    {
        match self {
            Place::Nowhere => Ok(Place::Nowhere),
            Place::Url(location) => Ok(Place::Url(location.copied(alloc)?)),
            Place::Path(path) => Ok(Place::Path(path.copied(alloc)?)),
            Place::Made(job, name) => {
                Ok(Place::Made(copy_job(alloc, job)?, name.copied(alloc)?))
            }
        }
    }
}

impl Value {
    /// An equal value. A list that is shared gets a further owner, and the rest is in new memory.
    #[cycle(copy)]
    pub fn clone_in(&self, alloc: Global) -> Result<Value, AllocError>
        ensures { IfOk result (λ copy. copy ≡ self.now) }
    {
        match self {
            Value::Null => Ok(Value::Null),
            Value::Bool(flag) => Ok(Value::Bool(*flag)),
            Value::Whole(number) => Ok(Value::Whole(*number)),
            Value::Text(text) => Ok(Value::Text(text.copied(alloc)?)),
            Value::FileVal(file) => Ok(Value::FileVal(file.clone_in(alloc)?)),
            Value::DirVal(dir) => Ok(Value::DirVal(dir.clone_in(alloc)?)),
            Value::List(items) => match items.another()? {
                Some(other) => Ok(Value::List(other)),
                None => Ok(Value::of_items(copy_items(alloc, items.as_items())?)),
            },
            Value::Fields(fields) => Ok(Value::Fields(copy_fields(alloc, fields)?)),
        }
    }
}

impl FileVal {
    #[cycle(copy)]
    pub fn clone_in(&self, alloc: Global) -> Result<FileVal, AllocError>
        ensures { IfOk result (λ copy. copy ≡ self.now) }
    {
        let secondary = copy_items(alloc, &self.secondary)?;
        let place = self.place.clone_in(alloc)?;
        let (basename, checksum, contents) = copy_texts(
            alloc,
            &self.basename,
            &self.checksum,
            &self.contents,
        )?;
        Ok(FileVal {
            place,
            basename,
            checksum,
            size: self.size,
            contents,
            secondary,
        })
    }
}

impl DirVal {
    #[cycle(copy)]
    pub fn clone_in(&self, alloc: Global) -> Result<DirVal, AllocError>
        ensures { IfOk result (λ copy. copy ≡ self.now) }
    {
        let place = self.place.clone_in(alloc)?;
        let basename = copied_if_any(alloc, &self.basename)?;
        let listing = match &self.listing {
            None => None,
            Some(items) => Some(copy_items(alloc, items)?),
        };
        Ok(DirVal {
            place,
            basename,
            listing,
        })
    }
}

#[cycle(copy)]
pub fn copy_items(alloc: Global, items: &Items<Value>) -> Result<Items<Value>, AllocError>
    ensures { IfOk result (λ copy. copy ≡ items.now) }
{
    let mut copies = Items::from_vec(Vec::with_capacity(alloc, items.len())?);
    for item in items.as_slice() {
        copies.push(item.clone_in(alloc)?)?;
    }
    Ok(copies)
}

#[cycle(copy)]
pub fn copy_fields(alloc: Global, fields: &Keyed<Value>) -> Result<Keyed<Value>, AllocError>
    ensures { IfOk result (λ copy. copy ≡ fields.now) }
{
    let mut copies = Vec::with_capacity(alloc, fields.len())?;
    for field in fields.as_slice() {
        let name = field.0.copied(alloc)?;
        copies.push((name, field.1.clone_in(alloc)?))?;
    }
    Ok(Keyed::from_sorted(copies))
}

impl Value {
    /// The list of these items, without memory.
    pub fn of_items(items: Items<Value>) -> Value
        ensures { result ≡ value.List items }
    {
        Value::List(SharedItems::from_items(items))
    }

    /// The same value. Where it is a list, its copies share it.
    pub fn shared(self, alloc: Global) -> Result<Value, AllocError>
        ensures { IfOk result (λ shared. shared ≡ self) }
    {
        match self {
            Value::List(items) => Ok(Value::List(items.shared(alloc)?)),
            other => Ok(other),
        }
    }
}

/// The items of a list by value: copies where it has further owners, and else without memory.
pub fn items_by_value(alloc: Global, list: SharedItems<Value>) -> Result<Items<Value>, AllocError>
    ensures { IfOk result (λ items. items ≡ list) }
{
    match list.into_items() {
        Ok(items) => Ok(items),
        Err(kept) => {
            let items = copy_items(alloc, kept.as_items());
            drop(kept);
            items
        }
    }
}
