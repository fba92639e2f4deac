use cwl_value::{JobPlace, Place, Segment, place_text};
use plain_data::{Items, Text};
use serde_json::Value as Json;
use std::alloc::Global;
use test_rows::{Row, RowFault, quoted};

/// `place_text` prints the place of a job, and `clone_place` the copy of a place in its output.
pub(crate) fn answer(alloc: Global, row: &Row) -> Result<String, RowFault> {
    let steps = row.list("job")?;
    match row.call() {
        "place_text" => printed(alloc, &job_of(alloc, steps)?),
        "clone_place" => copied(alloc, steps, row.text("name")?),
        _ => Err(RowFault::UnknownCall),
    }
}

fn printed(alloc: Global, job: &JobPlace) -> Result<String, RowFault> {
    let text = place_text(alloc, job)?;
    quoted(alloc, text.as_str())
}

fn copied(alloc: Global, steps: &[Json], name: &str) -> Result<String, RowFault> {
    let name = Text::from_text(alloc, name)?;
    let place = Place::Made(job_of(alloc, steps)?, name);
    let copy = place.clone_in(alloc);
    drop(place);
    let copy = copy?;
    shown(alloc, &copy)
}

fn shown(alloc: Global, place: &Place) -> Result<String, RowFault> {
    match place {
        Place::Made(job, name) => {
            let job = printed(alloc, job)?;
            Ok(format!(in alloc; "[{job},{:?}]", name.as_str())?)
        }
        _ => Err(RowFault::BadArgument),
    }
}

// Each step is its id followed by its indexes.
fn job_of(alloc: Global, steps: &[Json]) -> Result<JobPlace, RowFault> {
    let mut job: JobPlace = Items::new(alloc);
    for step in steps {
        job.push(segment_of(alloc, step)?)?;
    }
    Ok(job)
}

fn segment_of(alloc: Global, step: &Json) -> Result<Segment, RowFault> {
    let parts = step.as_array().ok_or(RowFault::BadArgument)?;
    let Some((id, indexes)) = parts.as_slice().split_first() else {
        return Err(RowFault::BadArgument);
    };
    let id = id.as_str().ok_or(RowFault::BadArgument)?;
    let index = numbers_of(alloc, indexes)?;
    Ok(Segment {
        step: Text::from_text(alloc, id)?,
        index,
    })
}

/// The numbers of a list.
pub(crate) fn numbers_of(alloc: Global, list: &[Json]) -> Result<Items<usize>, RowFault> {
    let mut numbers = Items::new(alloc);
    for json in list {
        let number = json.as_u64().ok_or(RowFault::BadArgument)?;
        numbers.push(number as usize)?;
    }
    Ok(numbers)
}
