//! Which steps of a workflow read another, and which wait for its outputs: they are found at once, with no look at all steps.
ghost use Rattle.std.specs.Prelude.{◌≡◌, ◌++◌, ◌∷◌, ◌+◌, ◌<◌, ◌==◌, ◌&&◌, ℕ, Bool, [], IfOk, IfSome, OnOk, bytes_eq, cond, count_by, get_or, length, true, unwrap_or};
ghost use Rattle.document_links.specs.declared.process.Step.{out-Step};
ghost use Rattle.std.specs.List.{list_any};
ghost use Rattle.plain_data.specs.ByName.{value_at};
ghost use Rattle.job_graph.specs.Words.{Name};
ghost use Rattle.job_graph.specs.declared.readers.Awaited.{Awaited as AwaitedOutput};
ghost use Rattle.job_graph.specs.inner.Counts.{Awaits, awaited_of, is_output, sources_by, waits_for};
ghost use Rattle.job_graph.specs.inner.Going.{is_from, reads};
ghost use Rattle.job_graph.specs.inner.Readers.{IsTableOf, Notes, row_of, stands};

use crate::links::sources_of;
use cwl_process::{Entries, Source};
use document_links::Step;
use plain_data::{Items, Keyed, Text};
use std::alloc::{AllocError, Global};

/// The readers of each step of a workflow. It is made once, when a walk through the workflow begins to be kept.
#[derive(Drop)]
pub(crate) struct Readers {
    /// The number of each step, by its id.
    numbers: Keyed<usize>,
    /// By the id of a step, the numbers of those that read one of its outputs, ascending, each once.
    rows: Keyed<Items<usize>>,
    /// By the id of a step, those of its outputs that others wait for.
    awaited: Keyed<Items<Awaited>>,
}

/// An output of a step, and the numbers of the steps that have it as a source: one for each of these sources.
#[derive(Drop)]
pub(crate) struct Awaited {
    pub name: Text,
    pub numbers: Items<usize>,
}

impl Readers {
    pub(crate) fn of(alloc: Global, steps: &Entries<Step>) -> Result<Readers, AllocError>
        ensures { IfOk result (λ readers. IsTableOf readers steps.now) }
    {
        let mut readers = Readers {
            numbers: Keyed::new(alloc),
            rows: Keyed::new(alloc),
            awaited: Keyed::new(alloc),
        };
        let entries = steps.as_slice();
        for number in 0..entries.len() {
            let step = &entries[number];
            let id = step.0.copied(alloc)?;
            drop(readers.numbers.insert(id, number)?);
            note_step(alloc, &mut readers.rows, &step.1, number)?;
            await_step(alloc, &mut readers.awaited, &step.1, number)?;
        }
        Ok(readers)
    }

    /// The number of the step of this id.
    pub(crate) fn number_of(&self, id: &str) -> Option<usize>
        ensures { result ≡ value_at id.now self.now.numbers }
    {
        self.numbers.get(id).copied()
    }

    /// The numbers of the steps that read the one of this id.
    pub(crate) fn reading(&self, id: &str) -> &[usize]
        ensures { result.now ≡ row_of id.now self.now.rows }
    {
        match self.rows.get(id) {
            None => &[],
            Some(row) => row.as_slice(),
        }
    }

    /// The outputs of the step of this id that others wait for.
    pub(crate) fn awaited(&self, id: &str) -> &[Awaited]
        ensures { result.now ≡ awaited_of id.now self.now.awaited }
    {
        match self.awaited.get(id) {
            None => &[],
            Some(outputs) => outputs.as_slice(),
        }
    }
}

/// Notes a step of this number as a reader of those that it reads.
fn note_step(
    alloc: Global,
    rows: &mut Keyed<Items<usize>>,
    step: &Step,
    number: usize,
) -> Result<(), AllocError>
    ensures { OnOk result (Notes number (λ id. reads id step.now) rows.old rows.new) }
{
    for input in step.inputs.as_slice() {
        note_sources(alloc, rows, sources_of(&input.1.links), number)?;
    }
    Ok(())
}

fn note_sources(
    alloc: Global,
    rows: &mut Keyed<Items<usize>>,
    sources: &[Source],
    number: usize,
) -> Result<(), AllocError>
    ensures { OnOk result (Notes number (λ id. list_any (is_from id) sources.now) rows.old
        rows.new) }
{
    for source in sources {
        note_source(alloc, rows, source, number)?;
    }
    Ok(())
}

fn note_source(
    alloc: Global,
    rows: &mut Keyed<Items<usize>>,
    source: &Source,
    number: usize,
) -> Result<(), AllocError>
    ensures { OnOk result (Notes number (λ id. is_from id source.now) rows.old rows.new) }
{
    match &source.step {
        None => Ok(()),
        Some(id) => note(alloc, rows, id, number),
    }
}

/// Adds a number to the row of an id, if it is not the last one there already.
fn note(
    alloc: Global,
    rows: &mut Keyed<Items<usize>>,
    id: &Text,
    number: usize,
) -> Result<(), AllocError>
    ensures { OnOk result (Notes number (bytes_eq id.now) rows.old rows.new) }
{
    if is_last(rows, id.as_str(), number) {
        return Ok(());
    }
    let taken = rows.insert(id.copied(alloc)?, Items::new(alloc))?;
    let row = with_number(alloc, taken, number)?;
    drop(rows.insert(id.copied(alloc)?, row)?);
    Ok(())
}

fn is_last(rows: &Keyed<Items<usize>>, id: &str, number: usize) -> bool
    ensures { result ≡ true → stands number id.now rows.now ≡ true }
{
    match rows.get(id) {
        None => false,
        Some(row) => match row.as_slice().last() {
            None => false,
            Some(last) => *last == number,
        },
    }
}

fn with_number(
    alloc: Global,
    taken: Option<Items<usize>>,
    number: usize,
) -> Result<Items<usize>, AllocError>
    ensures { IfOk result (λ row. row ≡ unwrap_or taken [] ++ number ∷ []) }
{
    let mut row = match taken {
        None => Items::new(alloc),
        Some(row) => row,
    };
    row.push(number)?;
    Ok(row)
}

/// Notes the number of a step with each output that it has as a source.
fn await_step(
    alloc: Global,
    awaited: &mut Keyed<Items<Awaited>>,
    step: &Step,
    number: usize,
) -> Result<(), AllocError>
    ensures { OnOk result
        (Awaits number (λ id test. sources_by (is_output id test) (out-Step step.now).inputs)
        awaited.old awaited.new) }
{
    for input in step.inputs.as_slice() {
        await_sources(alloc, awaited, sources_of(&input.1.links), number)?;
    }
    Ok(())
}

fn await_sources(
    alloc: Global,
    awaited: &mut Keyed<Items<Awaited>>,
    sources: &[Source],
    number: usize,
) -> Result<(), AllocError>
    ensures { OnOk result (Awaits number (λ id test. count_by (is_output id test) sources.now)
        awaited.old awaited.new) }
{
    for source in sources {
        await_source(alloc, awaited, source, number)?;
    }
    Ok(())
}

fn await_source(
    alloc: Global,
    awaited: &mut Keyed<Items<Awaited>>,
    source: &Source,
    number: usize,
) -> Result<(), AllocError>
    ensures { OnOk result (Awaits number (λ id test. cond (is_output id test source.now) 1 0)
        awaited.old awaited.new) }
{
    match &source.step {
        None => Ok(()),
        Some(id) => await_output(alloc, awaited, id, &source.name, number),
    }
}

fn await_output(
    alloc: Global,
    awaited: &mut Keyed<Items<Awaited>>,
    id: &Text,
    name: &Text,
    number: usize,
) -> Result<(), AllocError>
    ensures { OnOk result
        (Awaits number (λ other test. cond (bytes_eq id.now other && test name.now) 1 0)
        awaited.old awaited.new) }
{
    let taken = awaited.insert(id.copied(alloc)?, Items::new(alloc))?;
    let outputs = with_awaited(alloc, taken, name, number)?;
    drop(awaited.insert(id.copied(alloc)?, outputs)?);
    Ok(())
}

/// Adds a number to those of an output.
fn with_awaited(
    alloc: Global,
    taken: Option<Items<Awaited>>,
    name: &Text,
    number: usize,
) -> Result<Items<Awaited>, AllocError>
    ensures { IfOk result (λ outputs. (test : Name → Bool) (m : ℕ) → waits_for test m outputs
        ≡ waits_for test m (unwrap_or taken []) + cond (number == m && test name.now) 1 0) }
{
    let mut outputs = match taken {
        None => Vec::new(alloc),
        Some(outputs) => outputs.into_vec(),
    };
    match place_of(outputs.as_slice(), name) {
        Some(place) => outputs[place].numbers.push(number)?,
        None => {
            let name = name.copied(alloc)?;
            let numbers = with_number(alloc, None, number)?;
            outputs.push(Awaited { name, numbers })?;
        }
    }
    Ok(Items::from_vec(outputs))
}

/// The place of an output of this name.
fn place_of(outputs: &[Awaited], name: &Text) -> Option<usize>
    ensures { IfSome result (λ place. (place < length outputs.now)
        × ((one : AwaitedOutput) → one ≡ get_or outputs.now place one → one.name ≡ name.now)) }
{
    for place in 0..outputs.len() {
        if outputs[place].name.equals(name) {
            return Some(place);
        }
    }
    None
}
