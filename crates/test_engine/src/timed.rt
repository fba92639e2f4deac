//! How long the machine takes over a run, and how long the unfolding of its process takes alone.
use crate::alone::{Chance, drive, left_at, one_byte};
use crate::run::{Case, case_of, core_of};
use cwl_value::{FileVal, JobPlace, Place, Value, copy_job};
use job_graph::{Unfolding, input_paths};
use plain_data::{Items, Keyed};
use staging::{Found, Measure};
use std::alloc::{AllocError, Global};
use std::mem;
use test_records::bench::{micros_since, now};
use test_rows::{Row, RowFault};

/// The jobs of a row's run, the microseconds of the machine for all of it, and those of its unfolding alone.
pub fn answer(rt: &HostRuntime, row: &Row) -> Result<String, RowFault> {
    let case = case_of(rt.alloc(), row)?;
    let times = times_of(rt, row, &case);
    mem::drop(case);
    times
}

fn times_of(rt: &HostRuntime, row: &Row, case: &Case) -> Result<String, RowFault> {
    let start = now(rt)?;
    run_through(rt.alloc(), row, case)?;
    let run = micros_since(rt, start)?;
    let start = now(rt)?;
    let jobs = jobs_unfolded(rt.alloc(), case)?;
    let unfolding = micros_since(rt, start)?;
    Ok(format!(in rt.alloc(); "{{\"jobs\":{jobs},\"run\":{run},\"unfolding\":{unfolding}}}")?)
}

/// Runs a process whose jobs all succeed.
fn run_through(alloc: Global, row: &Row, case: &Case) -> Result<(), RowFault> {
    let mut core = core_of(alloc, row, case, false)?;
    let driven = drive(alloc, &mut core, &mut Chance::new(0));
    mem::drop(core);
    driven
}

/// How many jobs come to be known until all are learned.
fn jobs_unfolded(alloc: Global, case: &Case) -> Result<usize, RowFault> {
    let measures = all_there(alloc, case)?;
    let process = case.process.as_process();
    let Ok(mut unfolding) = Unfolding::new(alloc, process, &case.inputs, measures) else {
        return Err(RowFault::BadArgument);
    };
    let jobs = jobs_learned(alloc, &mut unfolding);
    mem::drop(unfolding);
    jobs
}

/// Each input file is there.
fn all_there(alloc: Global, case: &Case) -> Result<Keyed<Measure>, AllocError> {
    let mut measures = Keyed::new(alloc);
    for path in input_paths(alloc, case.process.as_process(), &case.inputs)?.into_vec() {
        drop(measures.insert(path, one_byte(alloc)?)?);
    }
    Ok(measures)
}

/// How many jobs come to be known, where each job's outputs are learned as soon as it is known.
fn jobs_learned(alloc: Global, unfolding: &mut Unfolding<'_>) -> Result<usize, RowFault> {
    for number in 0..MOST_JOBS {
        let Some(known) = unfolding.known().get(number) else {
            return Ok(number);
        };
        let place = copy_job(alloc, &known.job.place)?;
        learn_at(alloc, unfolding, place)?;
    }
    Ok(MOST_JOBS)
}

/// Learns the outputs of the job at a place.
fn learn_at(alloc: Global, unfolding: &mut Unfolding<'_>, place: JobPlace) -> Result<(), RowFault> {
    match outputs_at(alloc, &place) {
        Ok(outputs) => match unfolding.learn(place, outputs) {
            Ok(()) => Ok(()),
            Err(_) => Err(RowFault::BadArgument),
        },
        Err(AllocError) => {
            mem::drop(place);
            Err(RowFault::OutOfMemory)
        }
    }
}

const MOST_JOBS: usize = 20_000;

/// The one output `o` of a job: the file that it left behind.
fn outputs_at(alloc: Global, place: &JobPlace) -> Result<Keyed<Value>, AllocError> {
    let left = left_at(alloc, place)?;
    let outputs = outputs_of(alloc, left.as_slice());
    mem::drop(left);
    outputs
}

fn outputs_of(alloc: Global, all: &[Found]) -> Result<Keyed<Value>, AllocError> {
    let mut outputs = Keyed::new(alloc);
    for left in all {
        let name = left.name.copied(alloc)?;
        mem::drop(outputs.insert(name, file_of(alloc, left)?)?);
    }
    Ok(outputs)
}

fn file_of(alloc: Global, left: &Found) -> Result<Value, AllocError> {
    let path = left.name.copied(alloc)?;
    let basename = left.name.copied(alloc)?;
    let checksum = left.sum.copied(alloc)?;
    Ok(Value::FileVal(FileVal {
        place: Place::Url(path),
        basename: Some(basename),
        checksum: Some(checksum),
        size: Some(left.size),
        contents: None,
        secondary: Items::new(alloc),
    }))
}
