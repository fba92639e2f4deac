//! What the program says of a plan.
ghost use Rattle.std.specs.Prelude.{◌≡◌, ◌<◌, ◌++◌, [], flat_map, length, map, slice_index_or, zip, IfOk};
ghost use Rattle.plan_checker.specs.Format.{certificate_text};
ghost use Rattle.plan_words.specs.Lines.{plan_lines};
ghost use Rattle.plan_words.specs.Reasons.{reasons};
ghost use Rattle.plan_call.specs.Plans.{AreCounted, AreTextsOf, AreWaiting, IsPlanTold, earlier_words, is_open, paper_of as paper, plan_fault_exit, planned_job, steps_waiting};
ghost use Rattle.end_words.specs.RunEnds.{place_json};
ghost use Rattle.program_words.specs.Visible.{visible};

use crate::looks::Look;
use cwl_value::{JobPlace, copy_job};
use document_links::Process;
use end_words::{Exit, PlanTexts, of_failure, of_fault, place_in};
use plain_data::Text;
use plan_checker::write_certificate;
use plan_waits::{PlannedJob, waiting_steps};
use plan_words::{
    Known, first_named, plan_lines, plan_picture, plan_reasons, push_earlier, waiting_line,
};
use proc_host::Entry;
use program_words::visible_text;
use run_facts::{Earlier, earlier_of, tool_at};
use run_watch::KeptJobs;
use std::alloc::{AllocError, Global};
use std::mem;
use workflow_engine::{PlanFault, Planned};

/// Says how a plan of a process ends the program, over whose host this is the log; the record had these jobs, and gave these answers.
pub fn exit_of_plan(
    alloc: Global,
    log: &[Entry],
    process: &Process,
    made: Result<Planned, PlanFault>,
    answers: &[Look],
    kept: &KeptJobs,
    dot: bool,
) -> Result<Exit, AllocError>
    requires { IfOk made AreCounted }
    ensures { IfOk result (IsPlanTold process.now (zip kept.now.parts kept.now.costs) dot log.now
        made) }
{
    match made {
        Ok(made) => {
            let texts = texts_of(alloc, process, &made, answers, kept, dot);
            mem::drop(made);
            Ok(Exit::Plan(texts?))
        }
        Err(fault) => exit_of_fault(alloc, log, fault),
    }
}

fn exit_of_fault(alloc: Global, log: &[Entry], fault: PlanFault) -> Result<Exit, AllocError>
    ensures { IfOk result (λ exit. exit ≡ plan_fault_exit log.now fault) }
{
    match fault {
        PlanFault::Failed(place, cause) => of_failure(alloc, place, cause),
        PlanFault::Run(fault) => {
            let told = of_fault(alloc, log, &fault);
            mem::drop(fault);
            told
        }
    }
}

fn texts_of(
    alloc: Global,
    process: &Process,
    made: &Planned,
    answers: &[Look],
    kept: &KeptJobs,
    dot: bool,
) -> Result<PlanTexts, AllocError>
    requires { AreCounted made.now }
    ensures { IfOk result (AreTextsOf process.now (zip kept.now.parts kept.now.costs) dot
        made.now) }
{
    let places = shown(alloc, made.places.as_slice())?;
    let known = known_of(alloc, process, made.places.as_slice(), answers)?;
    let near = near_of(alloc, process, made.places.as_slice(), answers)?;
    let waiting = waiting_of(
        alloc,
        process,
        made.places.as_slice(),
        known.as_slice(),
        kept,
    )?;
    texts_with(
        alloc,
        made,
        places.as_slice(),
        known.as_slice(),
        near.as_slice(),
        &waiting,
        dot,
    )
}

// The texts, with places that are written so.
fn texts_with(
    alloc: Global,
    made: &Planned,
    places: &[Text],
    known: &[Known],
    near: &[Text],
    waiting: &Text,
    dot: bool,
) -> Result<PlanTexts, AllocError>
    requires made { AreCounted made.now }
    requires places { length places.now ≡ length made.now.graph }
    requires known { length known.now ≡ length made.now.graph }
    requires near { length near.now ≡ length made.now.graph }
    ensures paper { IfOk result (λ texts. texts.paper ≡ paper dot made.now places.now) }
    ensures lines { IfOk result (λ texts. texts.lines
        ≡ plan_lines made.now.cost made.now.plan.marks places.now) }
    ensures reasons { IfOk result (λ texts. texts.reasons
        ≡ reasons made.now.graph made.now.plan.marks known.now near.now places.now
        ++ waiting.now) }
{
    let lines = plan_lines(alloc, made.cost, &made.plan, places)?;
    let reasons = plan_reasons(alloc, &made.graph, &made.plan, known, near, places)?;
    let reasons = followed_by(reasons, waiting)?;
    let paper = paper_of(alloc, made, places, dot)?;
    Ok(PlanTexts {
        paper,
        lines,
        reasons,
    })
}

fn followed_by(first: Text, second: &Text) -> Result<Text, AllocError>
    ensures { IfOk result (λ both. both ≡ first ++ second.now) }
{
    let mut both = first.into_string();
    both.push_str(second.as_str())?;
    Ok(Text::from_string(both))
}

// The lines on the steps that wait for jobs at these places, of a record that had these jobs.
fn waiting_of(
    alloc: Global,
    process: &Process,
    places: &[JobPlace],
    known: &[Known],
    kept: &KeptJobs,
) -> Result<Text, AllocError>
    requires { length known.now ≡ length places.now }
    ensures { IfOk result (AreWaiting process.now (zip kept.now.parts kept.now.costs)
        (steps_waiting process.now places.now known.now)) }
{
    let jobs = jobs_at(alloc, places, known)?;
    let ids = waiting_steps(alloc, process, jobs.as_slice())?;
    lines_on(alloc, process, ids.as_slice(), kept)
}

// Which steps these are, and what earlier jobs of their tools took.
fn lines_on(
    alloc: Global,
    process: &Process,
    ids: &[Text],
    kept: &KeptJobs,
) -> Result<Text, AllocError>
    ensures { IfOk result (AreWaiting process.now (zip kept.now.parts kept.now.costs) ids.now) }
{
    let names = visible_texts(alloc, ids)?;
    let line = waiting_line(alloc, names.as_slice())?;
    let earlier = earlier_of(
        alloc,
        process,
        first_named(ids),
        kept.parts.as_slice(),
        kept.costs.as_slice(),
    )?;
    with_earlier(alloc, line, earlier.as_slice())
}

fn with_earlier(alloc: Global, line: Text, earlier: &[Earlier]) -> Result<Text, AllocError>
    ensures { IfOk result (λ text. text ≡ line ++ flat_map earlier_words earlier.now) }
{
    let mut text = line.into_string();
    for own in earlier {
        let name = visible_text(alloc, &own.step)?;
        push_earlier(&mut text, &name, own.jobs, own.mean)?;
    }
    Ok(Text::from_string(text))
}

fn jobs_at(
    alloc: Global,
    places: &[JobPlace],
    known: &[Known],
) -> Result<Vec<PlannedJob>, AllocError>
    requires { length known.now ≡ length places.now }
    ensures { IfOk result (λ jobs. jobs.items ≡ map planned_job (zip places.now known.now)) }
{
    let mut jobs = Vec::with_capacity(alloc, places.len())?;
    for number in 0..places.len() {
        jobs.push(job_at(alloc, places, known, number)?)?;
    }
    Ok(jobs)
}

fn job_at(
    alloc: Global,
    places: &[JobPlace],
    known: &[Known],
    number: usize,
) -> Result<PlannedJob, AllocError>
    requires place { number < length places.now }
    requires known { number < length known.now }
    ensures { IfOk result (λ job. job ≡ planned_job (
      slice_index_or places.now number [],
      slice_index_or known.now number Known.NotRecorded,
    )) }
{
    Ok(PlannedJob {
        place: copy_job(alloc, &places[number])?,
        is_open: is_open(known[number]),
    })
}

// Whether the record has nothing of a job that could be used, so that its outputs are known once it has run.
fn is_open(known: Known) -> bool
    ensures { result ≡ is_open known }
{
    match known {
        Known::NotReusable | Known::NotRecorded => true,
        Known::NotArchived | Known::Archived => false,
    }
}

fn visible_texts(alloc: Global, texts: &[Text]) -> Result<Vec<Text>, AllocError>
    ensures { IfOk result (λ shown. shown.items ≡ map visible texts.now) }
{
    let mut shown = Vec::with_capacity(alloc, texts.len())?;
    for text in texts {
        shown.push(visible_text(alloc, text)?)?;
    }
    Ok(shown)
}

// The picture of a plan, or its certificate.
fn paper_of(alloc: Global, made: &Planned, places: &[Text], dot: bool) -> Result<Text, AllocError>
    requires made { AreCounted made.now }
    requires places { length places.now ≡ length made.now.graph }
    ensures { IfOk result (λ text. text ≡ paper dot made.now places.now) }
{
    if dot {
        return plan_picture(
            alloc,
            made.cost,
            &made.graph,
            &made.plan,
            &made.charges,
            places,
        );
    }
    certificate_of(alloc, made)
}

fn certificate_of(alloc: Global, made: &Planned) -> Result<Text, AllocError>
    requires { AreCounted made.now }
    ensures { IfOk result (λ text. text ≡ certificate_text made.now.graph made.now.plan.marks
        made.now.charges) }
{
    let text = write_certificate(alloc, &made.graph, &made.plan, &made.charges)?;
    Ok(Text::from_string(text))
}

// The places of jobs as JSON text.
fn shown(alloc: Global, places: &[JobPlace]) -> Result<Vec<Text>, AllocError>
    ensures texts { IfOk result (λ texts. texts.items ≡ map place_json places.now) }
    ensures count { IfOk result (λ texts. length texts.items ≡ length places.now) }
{
    let mut texts = Vec::with_capacity(alloc, places.len())?;
    for place in places {
        texts.push(place_in(alloc, place)?)?;
    }
    Ok(texts)
}

// What is known of the jobs at these places. The record was asked for each whose tool allows reuse, in their order.
fn known_of(
    alloc: Global,
    process: &Process,
    places: &[JobPlace],
    answers: &[Look],
) -> Result<Vec<Known>, AllocError>
    ensures { IfOk result (λ known. length known.items ≡ length places.now) }
{
    let mut known = Vec::with_capacity(alloc, places.len())?;
    let mut answered: usize = 0;
    for place in places {
        let (one, count) = known_at(process, place, answers, answered);
        known.push(one)?;
        answered = count;
    }
    Ok(known)
}

// How each of these jobs differs from the nearest one that is recorded, in lines, if that was looked for.
fn near_of(
    alloc: Global,
    process: &Process,
    places: &[JobPlace],
    answers: &[Look],
) -> Result<Vec<Text>, AllocError>
    ensures { IfOk result (λ near. length near.items ≡ length places.now) }
{
    let mut near = Vec::with_capacity(alloc, places.len())?;
    let mut answered: usize = 0;
    for place in places {
        let (_, count) = known_at(process, place, answers, answered);
        near.push(near_at(alloc, answers, answered, count)?)?;
        answered = count;
    }
    Ok(near)
}

// The lines of an answer, if one was for the job.
fn near_at(
    alloc: Global,
    answers: &[Look],
    answered: usize,
    count: usize,
) -> Result<Text, AllocError> {
    match answers.get(answered) {
        Some(look) if answered < count => look.near.copied(alloc),
        _ => Ok(Text::from_string(String::new(alloc))),
    }
}

// What is known of the job at a place, if so many answers were for jobs before it, and for how many they were with it.
fn known_at(
    process: &Process,
    place: &JobPlace,
    answers: &[Look],
    answered: usize,
) -> (Known, usize) {
    if !is_reusable(process, place) {
        return (Known::NotReusable, answered);
    }
    let known = match answers.get(answered) {
        Some(look) => look.known,
        None => Known::NotRecorded,
    };
    (known, answered.saturating_add(1))
}

fn is_reusable(process: &Process, place: &JobPlace) -> bool {
    match tool_at(process, place.as_slice()) {
        None => true,
        Some(tool) => tool.asked.reuse(),
    }
}
