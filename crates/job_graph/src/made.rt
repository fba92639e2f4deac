//! The outputs of jobs, as the rest of the process sees them: each file in them at the place of its job.
ghost use Rattle.std.specs.Prelude.{◌≡◌, IfOk, option_map};
ghost use Rattle.std.specs.Map.{keys_of};
ghost use Rattle.std.specs.Option.{option_copied};
ghost use Rattle.link_values.specs.StepInputs.{null, value_under};
ghost use Rattle.job_graph.specs.Jobs.{outs_of};
ghost use Rattle.job_graph.specs.inner.Views.{resolved_of};
ghost use Rattle.job_graph.specs.Made.{fields_made};

use crate::learned::Learned;
use crate::mark::Marked;
use crate::walk::Out;
use cwl_process::{Entries, ToolOutput};
use cwl_value::{JobPlace, Place, Placing, Value, copy_job, placed};
use plain_data::{Items, Keyed};
use staging::Measure;
use std::alloc::{AllocError, Global};

/// A place whose job has ended, with its outputs: their files are named relative to the job's output folder.
#[derive(Drop)]
pub(crate) struct Resolved {
    pub at: Marked,
    pub outputs: Keyed<Value>,
}

impl Resolved {
    pub(crate) fn new(place: JobPlace, outputs: Keyed<Value>) -> Resolved
        ensures { resolved_of result ≡ record { place = place; outputs = outputs } }
    {
        let at = Marked::new(place);
        Resolved { at, outputs }
    }
}

/// What is known of the world outside the process.
#[derive(Drop)]
pub(crate) struct Facts {
    /// What is at the paths of the input files.
    pub measures: Keyed<Measure>,
    /// The jobs that have ended, in the order learned.
    pub learned: Learned,
}

/// The outputs of the job at a place, by the ids of its tool's outputs.
pub(crate) fn job_outs(
    alloc: Global,
    found: Option<&Keyed<Value>>,
    outputs: &Entries<ToolOutput>,
    place: &JobPlace,
) -> Result<Items<Out>, AllocError>
    ensures { IfOk result (λ outs. outs
        ≡ outs_of (keys_of outputs.now)
        (option_map (fields_made place.now) (option_copied found.entry))) }
{
    let mut outs = Items::from_vec(Vec::with_capacity(alloc, outputs.len())?);
    for output in outputs.as_slice() {
        let name = output.0.copied(alloc)?;
        outs.push((name, out_value(alloc, found, output.0.as_str(), place)?))?;
    }
    Ok(outs)
}

fn out_value(
    alloc: Global,
    found: Option<&Keyed<Value>>,
    name: &str,
    place: &JobPlace,
) -> Result<Option<Value>, AllocError>
    ensures { IfOk result (λ value. value
        ≡ option_map (value_under name.now)
        (option_map (fields_made place.now) (option_copied found.entry))) }
{
    match found {
        None => Ok(None),
        Some(outputs) => {
            let value = value_under(alloc, outputs, name, place)?;
            Ok(Some(value.shared(alloc)?))
        }
    }
}

/// The job that made files: a relative name in its output folder becomes the job's.
#[derive(Drop)]
struct MadeBy<'a> {
    job: &'a JobPlace,
}

impl Placing for MadeBy<'_> {
    ghost use Rattle.job_graph.specs.Made.{made_place};

    ghost goes = { λ made. made_place made.job.now };

    fn place(&self, alloc: Global, place: &Place) -> Result<Place, AllocError> {
        match place {
            Place::Url(name) => {
                let job = copy_job(alloc, self.job)?;
                Ok(Place::Made(job, name.copied(alloc)?))
            }
            _ => place.clone_in(alloc),
        }
    }
}

/// The value under a name, made by the job at a place.
#[tactic(auto, using(crate::proofs::Outs::made_none, crate::proofs::Outs::made_some))]
fn value_under(
    alloc: Global,
    outputs: &Keyed<Value>,
    name: &str,
    place: &JobPlace,
) -> Result<Value, AllocError>
    ensures { IfOk result (λ value. value
        ≡ value_under name.now (fields_made place.now outputs.now)) }
{
    match outputs.get(name) {
        None => Ok(nothing()),
        Some(value) => placed(alloc, &MadeBy { job: place }, value),
    }
}

fn nothing() -> Value
    ensures { result ≡ null }
{
    Value::Null
}
