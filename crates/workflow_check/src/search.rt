//! Looks for an order of steps or for a circle of their links, in one walk along the links. What it finds is checked by `order`, so a
//! mistake here could cost time and memory, and change no answer.
use cwl_process::{Source, StepInput};
use document_links::Step;
use plain_data::{Items, Text};
use std::alloc::{AllocError, Global};
use std::collections::BTreeMap;

/// What the walk finds of steps, which are named by their places.
#[derive(Drop)]
pub(crate) struct Search<'p> {
    /// A number under the id of each step that is left, higher than those of its sources.
    pub ranks: BTreeMap<&'p str, usize>,
    pub states: Vec<State>,
    /// A link to a step that is still open.
    pub back: Option<Link>,
}

/// How far the walk is with a step.
#[derive(Clone, Copy, Drop)]
pub(crate) enum State {
    New,
    /// Its sources are being looked at, and it was come to as a source of the step of that place. The first of a walk opens itself.
    Open(usize),
    Left,
}

/// The one step waits for the other.
#[derive(Clone, Copy, Drop)]
pub(crate) struct Link {
    pub waits: usize,
    pub source: usize,
}

/// What is to be done next.
#[derive(Clone, Copy, Drop)]
enum Task {
    /// Comes to the source of the link.
    Open(Link),
    /// Leaves the step, whose sources are all done.
    Leave(usize),
}

/// Walks from each step to its sources first.
pub(crate) fn walk_steps<'p>(
    alloc: Global,
    steps: &'p [(Text, Step)],
) -> Result<Search<'p>, AllocError> {
    let mut found = Search {
        ranks: BTreeMap::new(alloc),
        states: vec![in alloc; State::New; steps.len()]?,
        back: None,
    };
    walk(alloc, steps, &mut found)?;
    Ok(found)
}

fn walk<'p>(
    alloc: Global,
    steps: &'p [(Text, Step)],
    found: &mut Search<'p>,
) -> Result<(), AllocError> {
    let places = places(alloc, steps)?;
    let mut tasks = all_to_open(alloc, steps.len())?;
    for _task in 0..u64::MAX {
        let Some(task) = tasks.pop() else { break };
        take(steps, &places, &mut tasks, found, task)?;
        if found.back.is_some() {
            break;
        }
    }
    Ok(())
}

/// The place of each step by its id.
fn places<'p>(
    alloc: Global,
    steps: &'p [(Text, Step)],
) -> Result<BTreeMap<&'p str, usize>, AllocError> {
    let mut places = BTreeMap::new(alloc);
    for (place, entry) in steps.iter().enumerate() {
        places.insert(entry.0.as_str(), place)?;
    }
    Ok(places)
}

fn all_to_open(alloc: Global, count: usize) -> Result<Vec<Task>, AllocError> {
    let mut tasks = Vec::new(alloc);
    for place in 0..count {
        tasks.push(Task::Open(Link {
            waits: place,
            source: place,
        }))?;
    }
    Ok(tasks)
}

fn take<'p>(
    steps: &'p [(Text, Step)],
    places: &BTreeMap<&str, usize>,
    tasks: &mut Vec<Task>,
    found: &mut Search<'p>,
    task: Task,
) -> Result<(), AllocError> {
    match task {
        Task::Leave(place) => leave(steps, found, place),
        Task::Open(link) => open(steps, places, tasks, found, link),
    }
}

fn leave<'p>(
    steps: &'p [(Text, Step)],
    found: &mut Search<'p>,
    place: usize,
) -> Result<(), AllocError> {
    if let Some(state) = found.states.get_mut(place) {
        *state = State::Left;
    }
    if let Some(entry) = steps.get(place) {
        let rank = found.ranks.len() + 1;
        found.ranks.insert(entry.0.as_str(), rank)?;
    }
    Ok(())
}

fn open(
    steps: &[(Text, Step)],
    places: &BTreeMap<&str, usize>,
    tasks: &mut Vec<Task>,
    found: &mut Search<'_>,
    link: Link,
) -> Result<(), AllocError> {
    match found.states.get_mut(link.source) {
        None => Ok(()),
        Some(state) => match *state {
            State::Left => Ok(()),
            State::Open(_) => {
                found.back = Some(link);
                Ok(())
            }
            State::New => {
                *state = State::Open(link.waits);
                tasks.push(Task::Leave(link.source))?;
                push_sources(steps, places, tasks, link.source)
            }
        },
    }
}

fn push_sources(
    steps: &[(Text, Step)],
    places: &BTreeMap<&str, usize>,
    tasks: &mut Vec<Task>,
    place: usize,
) -> Result<(), AllocError> {
    if let Some(entry) = steps.get(place) {
        for input in entry.1.inputs.as_slice() {
            push_input(places, tasks, place, &input.1)?;
        }
    }
    Ok(())
}

fn push_input(
    places: &BTreeMap<&str, usize>,
    tasks: &mut Vec<Task>,
    place: usize,
    input: &StepInput,
) -> Result<(), AllocError> {
    if let Some(sources) = &input.links.sources {
        for source in sources.as_slice() {
            push_source(places, tasks, place, source)?;
        }
    }
    Ok(())
}

fn push_source(
    places: &BTreeMap<&str, usize>,
    tasks: &mut Vec<Task>,
    waits: usize,
    source: &Source,
) -> Result<(), AllocError> {
    if let Some(id) = &source.step {
        if let Some(place) = places.get(id.as_str()) {
            let source = *place;
            tasks.push(Task::Open(Link { waits, source }))?;
        }
    }
    Ok(())
}
