//! Which steps of a workflow have jobs that a plan does not know.
ghost use Rattle.std.specs.Prelude.{◌≡◌, ◌++◌, IfOk, OnOk, map, position, option_copied, bytes_eq};
ghost use Rattle.std.specs.List.{flat_map, list_any};
ghost use Rattle.plan_waits.specs.Waiting as spec;

use cwl_process::{Source, StepInput};
use cwl_value::{JobPlace, Segment};
use document_links::{Process, Step};
use plain_data::{Items, Text};
use std::alloc::{AllocError, Global};

/// A job that a plan knows.
#[derive(Drop)]
pub struct PlannedJob {
    pub place: JobPlace,
    /// Its outputs are known only once it has run.
    pub is_open: bool,
}

/// What a plan knows of a step.
#[derive(Drop)]
struct Standing {
    id: Text,
    /// The numbers of the steps whose outputs it reads.
    reads: Items<usize>,
    /// A job of it is known, so its inputs are.
    is_known: bool,
    /// A known job of it is open.
    is_open: bool,
    /// It is a workflow, and in it a step reads one with an open job.
    is_open_inside: bool,
}

/// The steps that are open within as many links as there are steps are all that are open.
pub fn open_steps_are_open()
    ensures { spec.OpenStepsAreOpen }
{}

/// The ids of those steps of a workflow, in the order of the document, of which jobs can't be known before open jobs have run.
pub fn waiting_steps(
    alloc: Global,
    process: &Process,
    jobs: &[PlannedJob],
) -> Result<Vec<Text>, AllocError>
    ensures { IfOk result (λ ids. ids.items ≡ spec.waiting_steps process.now jobs.now) }
{
    match process {
        Process::Tool(_) => Ok(Vec::new(alloc)),
        Process::Workflow(workflow) => { waiting_among(alloc, workflow.steps.as_slice(), jobs) }
    }
}

fn waiting_among(
    alloc: Global,
    steps: &[(Text, Step)],
    jobs: &[PlannedJob],
) -> Result<Vec<Text>, AllocError>
    ensures { IfOk result (λ ids. ids.items
        ≡ spec.waiting_among (map (spec.standing steps.now jobs.now) steps.now)) }
{
    let standings = standings_of(alloc, steps, jobs)?;
    let flags = open_after(alloc, standings.as_slice())?;
    named_of(alloc, standings.as_slice(), flags.as_slice())
}

fn named_of(alloc: Global, standings: &[Standing], flags: &[bool]) -> Result<Vec<Text>, AllocError>
    ensures { IfOk result (λ ids. ids.items ≡ flat_map (spec.named flags.now) standings.now) }
{
    let mut ids = Vec::new(alloc);
    for standing in standings {
        add_named(alloc, &mut ids, standing, flags)?;
    }
    Ok(ids)
}

fn add_named(
    alloc: Global,
    ids: &mut Vec<Text>,
    standing: &Standing,
    flags: &[bool],
) -> Result<(), AllocError>
    ensures { OnOk result (ids.new.items ≡ ids.old.items ++ spec.named flags.now standing.now) }
{
    if standing.is_open_inside || waits(standing, flags) {
        ids.push(standing.id.copied(alloc)?)?;
    }
    Ok(())
}

// Which steps are open, by their numbers: those with an open job, and those that wait.
fn open_after(alloc: Global, standings: &[Standing]) -> Result<Vec<bool>, AllocError>
    ensures { IfOk result (λ flags. flags.items ≡ spec.open_steps standings.now) }
{
    let mut flags = first_open(alloc, standings)?;
    for links in 0..standings.len() {
        let next = next_open(alloc, standings, flags.as_slice())?;
        if next.as_slice() == flags.as_slice() {
            return Ok(next);
        }
        flags = next;
    }
    Ok(flags)
}

fn first_open(alloc: Global, standings: &[Standing]) -> Result<Vec<bool>, AllocError>
    ensures { IfOk result (λ flags. flags.items ≡ spec.open_within 0 standings.now) }
{
    let mut flags = Vec::with_capacity(alloc, standings.len())?;
    for standing in standings {
        flags.push(standing.is_open)?;
    }
    Ok(flags)
}

// One link further.
fn next_open(alloc: Global, standings: &[Standing], flags: &[bool]) -> Result<Vec<bool>, AllocError>
    ensures { IfOk result (λ next. next.items ≡ map (spec.is_open flags.now) standings.now) }
{
    let mut next = Vec::with_capacity(alloc, standings.len())?;
    for standing in standings {
        next.push(standing.is_open || waits(standing, flags))?;
    }
    Ok(next)
}

// Whether no job of a step is known, and it reads an open step.
fn waits(standing: &Standing, flags: &[bool]) -> bool
    ensures { result ≡ spec.waits flags.now standing.now }
{
    !standing.is_known && reads_open(standing.reads.as_slice(), flags)
}

fn reads_open(reads: &[usize], flags: &[bool]) -> bool
    ensures { result ≡ list_any (spec.open_at flags.now) reads.now }
{
    for number in reads {
        if open_at(flags, *number) {
            return true;
        }
    }
    false
}

fn open_at(flags: &[bool], number: usize) -> bool
    ensures { result ≡ spec.open_at flags.now number }
{
    match flags.get(number) {
        Some(is_open) => *is_open,
        None => false,
    }
}

fn standings_of(
    alloc: Global,
    steps: &[(Text, Step)],
    jobs: &[PlannedJob],
) -> Result<Vec<Standing>, AllocError>
    ensures { IfOk result (λ standings. standings.items
        ≡ map (spec.standing steps.now jobs.now) steps.now) }
{
    let mut standings = Vec::with_capacity(alloc, steps.len())?;
    for step in steps {
        standings.push(standing_of(alloc, steps, jobs, step)?)?;
    }
    Ok(standings)
}

fn standing_of(
    alloc: Global,
    steps: &[(Text, Step)],
    jobs: &[PlannedJob],
    step: &(Text, Step),
) -> Result<Standing, AllocError>
    ensures { IfOk result (λ standing. standing ≡ spec.standing steps.now jobs.now step.now) }
{
    let id = step.0.copied(alloc)?;
    let reads = Items::from_vec(reads_of(alloc, steps, step.1.inputs.as_slice())?);
    Ok(Standing {
        is_known: is_known(jobs, id.as_str()),
        is_open: has_open(jobs, id.as_str()),
        is_open_inside: is_open_inside(&step.1.process, jobs, id.as_str()),
        id,
        reads,
    })
}

// The numbers of the steps that these inputs are linked to.
fn reads_of(
    alloc: Global,
    steps: &[(Text, Step)],
    inputs: &[(Text, StepInput)],
) -> Result<Vec<usize>, AllocError>
    ensures { IfOk result (λ reads. reads.items ≡ flat_map (spec.reads_by steps.now) inputs.now) }
{
    let mut reads = Vec::new(alloc);
    for (_, input) in inputs {
        if let Some(sources) = &input.links.sources {
            add_reads(&mut reads, steps, sources.as_slice())?;
        }
    }
    Ok(reads)
}

fn add_reads(
    reads: &mut Vec<usize>,
    steps: &[(Text, Step)],
    sources: &[Source],
) -> Result<(), AllocError>
    ensures { OnOk result (reads.new.items ≡ reads.old.items
        ++ flat_map (spec.read_by steps.now) sources.now) }
{
    for source in sources {
        add_read(reads, steps, source)?;
    }
    Ok(())
}

fn add_read(
    reads: &mut Vec<usize>,
    steps: &[(Text, Step)],
    source: &Source,
) -> Result<(), AllocError>
    ensures { OnOk result (reads.new.items ≡ reads.old.items ++ spec.read_by steps.now source.now) }
{
    if let Some(number) = number_at(steps, &source.step) {
        reads.push(number)?;
    }
    Ok(())
}

fn number_at(steps: &[(Text, Step)], id: &Option<Text>) -> Option<usize>
    ensures { result ≡ spec.number_at steps.now id.now }
{
    match id {
        None => None,
        Some(id) => number_of(steps, id.as_str()),
    }
}

fn number_of(steps: &[(Text, Step)], id: &str) -> Option<usize>
    ensures { result ≡ position (λ step. bytes_eq step.0 id.now) steps.now }
{
    steps.iter().position(|step| step.0.as_str() == id)
}

// Whether a job of the step of this id is known, or one inside the step.
fn is_known(jobs: &[PlannedJob], id: &str) -> bool
    ensures { result ≡ list_any (spec.is_job_of id.now) jobs.now }
{
    jobs.iter().any(|job| is_at(job.place.as_slice(), id))
}

fn has_open(jobs: &[PlannedJob], id: &str) -> bool
    ensures { result ≡ list_any (spec.is_open_job_of id.now) jobs.now }
{
    jobs.iter()
        .any(|job| job.is_open && is_at(job.place.as_slice(), id))
}

fn is_at(place: &[Segment], id: &str) -> bool
    ensures { result ≡ spec.is_at id.now place.now }
{
    match place {
        [] => false,
        [segment, ..] => segment.step.as_str() == id,
    }
}

fn is_open_inside(process: &Process, jobs: &[PlannedJob], id: &str) -> bool
    ensures { result ≡ list_any (spec.is_awaited_job_of process.now id.now) jobs.now }
{
    jobs.iter().any(|job| job.is_open && is_awaited_in(process, job.place.as_slice(), id))
}

fn is_awaited_in(process: &Process, place: &[Segment], id: &str) -> bool
    ensures { result ≡ spec.is_awaited_in process.now id.now place.now }
{
    match place {
        [] => false,
        [segment, rest @ ..] => { segment.step.as_str() == id && is_awaited(process, rest) }
    }
}

// Whether a step of a process, or of one inside it on the way to a place, reads the step on that way.
fn is_awaited(process: &Process, place: &[Segment]) -> bool
    ensures { result ≡ spec.is_awaited process.now place.now }
{
    match place {
        [] => false,
        [segment, rest @ ..] => {
            let id = segment.step.as_str();
            if is_read_in(process, id) {
                return true;
            }
            match inner(process, id) {
                Some(inside) => is_awaited(inside, rest),
                None => false,
            }
        }
    }
}

// The process of a step.
fn inner<'a>(process: &'a Process, id: &str) -> Option<&'a Process>
    ensures { option_copied result ≡ spec.inner process.now id.now }
{
    match process {
        Process::Tool(_) => None,
        Process::Workflow(workflow) => step_process(workflow.steps.as_slice(), id),
    }
}

fn step_process<'a>(steps: &'a [(Text, Step)], id: &str) -> Option<&'a Process>
    ensures { option_copied result ≡ spec.step_process id.now steps.now }
{
    for (other, step) in steps {
        if other.as_str() == id {
            return Some(&step.process);
        }
    }
    None
}

fn is_read_in(process: &Process, id: &str) -> bool
    ensures { result ≡ spec.is_read_in process.now id.now }
{
    match process {
        Process::Tool(_) => false,
        Process::Workflow(workflow) => is_read_among(workflow.steps.as_slice(), id),
    }
}

fn is_read_among(steps: &[(Text, Step)], id: &str) -> bool
    ensures { result ≡ list_any (spec.reads id.now) steps.now }
{
    steps.iter().any(|step| reads(step, id))
}

fn reads(step: &(Text, Step), id: &str) -> bool
    ensures { result ≡ spec.reads id.now step.now }
{
    step.1
        .inputs
        .as_slice()
        .iter()
        .any(|input| is_linked_to(&input.1, id))
}

fn is_linked_to(input: &StepInput, id: &str) -> bool
    ensures { result ≡ spec.is_linked_to id.now input.now }
{
    match &input.links.sources {
        None => false,
        Some(sources) => sources.as_slice().iter().any(|source| is_from(source, id)),
    }
}

fn is_from(source: &Source, id: &str) -> bool
    ensures { result ≡ spec.is_from id.now source.now }
{
    match &source.step {
        None => false,
        Some(step) => step.as_str() == id,
    }
}
