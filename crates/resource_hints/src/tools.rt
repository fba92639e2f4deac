//! The tools of a document, and which hint counts at each.
ghost use Rattle.std.specs.Prelude.{◌≡◌, IfOk, Ok, OnOk};
ghost use Rattle.serde_json.specs.View.{view};
ghost use Rattle.document_table.specs.Entries.{entry_seen};
ghost use Rattle.document_links.specs.Homes.{home_seen};
ghost use Rattle.document_links.specs.Library.{finds_in};
ghost use Rattle.resource_hints.specs.Hints.{IsAskedBy, asked_below, asked_by, place_in, run_asked, step_asked, steps_asked, tool_asked, with_each};

use crate::amounts::Resources;
use crate::hints::asked_in;
use cwl_process::is_workflow;
use document_links::{Docs, Document, Home, Library, MOST_WORKFLOWS, Target, run_of};
use document_table::{Indexed, Kind, entries};
use plain_data::{Keyed, Text};
use serde_json::Value;
use std::alloc::{AllocError, Global};
use url::Url;

/// Returns what the hints of a document at that URL, and of those that it leads to, ask for at each tool, under the place of its jobs without
/// tuples, as `main/align/sort`. A tool at which no hint counts is not there.
///
/// The document is one that `read_process` takes: of another one what is said means nothing.
pub fn resources_of(
    alloc: Global,
    document: &Document,
    base: &Url,
    docs: &Docs,
) -> Result<Keyed<Resources>, AllocError>
    ensures { IfOk result (IsAskedBy document.now base.now docs.now) }
{
    let library = docs.look_up();
    match document.sound() {
        None => Ok(Keyed::new(alloc)),
        Some(found) => asked_of(alloc, library, base, found),
    }
}

fn asked_of(
    alloc: Global,
    library: &Library,
    base: &Url,
    document: &Indexed,
) -> Result<Keyed<Resources>, AllocError>
    ensures { IfOk result (λ asked. asked
        ≡ asked_by (finds_in library.now) base.now (Ok (view document.now.json))) }
{
    let mut asked = Keyed::new(alloc);
    let home = Home {
        url: base,
        document,
    };
    let root = document.root().process;
    add_process(
        alloc,
        library,
        MOST_WORKFLOWS,
        home,
        None,
        "main",
        root,
        &mut asked,
    )?;
    Ok(asked)
}

/// Adds the tools that a process comes to. So many workflows at most are inside one another.
#[cycle(tools)]
fn add_process(
    alloc: Global,
    library: &Library,
    levels: usize,
    home: Home<'_>,
    around: Option<Resources>,
    place: &str,
    value: &Value,
    asked: &mut Keyed<Resources>,
) -> Result<(), AllocError>
    ensures { OnOk result (asked.new ≡ with_each
        (asked_below (finds_in library.now) levels (home_seen home.entry) around place.now
        (view value.now))
        asked.old) }
{
    let within = asked_in(alloc, around, value)?;
    if !is_workflow(value) {
        return add_tool(alloc, place, within, asked);
    }
    if levels == 0 {
        return Ok(());
    }
    add_steps(
        alloc,
        library,
        levels - 1,
        home,
        within,
        place,
        value,
        asked,
    )
}

fn add_tool(
    alloc: Global,
    place: &str,
    within: Option<Resources>,
    asked: &mut Keyed<Resources>,
) -> Result<(), AllocError>
    ensures { OnOk result (asked.new ≡ with_each (tool_asked place.now within) asked.old) }
{
    if let Some(resources) = within {
        asked.insert(Text::from_text(alloc, place)?, resources)?;
    }
    Ok(())
}

#[cycle(tools)]
fn add_steps(
    alloc: Global,
    library: &Library,
    levels: usize,
    home: Home<'_>,
    around: Option<Resources>,
    place: &str,
    value: &Value,
    asked: &mut Keyed<Resources>,
) -> Result<(), AllocError>
    ensures { OnOk result (asked.new ≡ with_each
        (steps_asked (asked_below (finds_in library.now) levels) (finds_in library.now)
        (home_seen home.entry) around place.now (view value.now))
        asked.old) }
{
    let Some(found) = value.get("steps") else {
        return Ok(());
    };
    let all = entries(alloc, Kind::Step, found)?;
    for entry in all.as_slice() {
        add_step(alloc, library, levels, home, around, place, *entry, asked)?;
    }
    Ok(())
}

#[cycle(tools)]
fn add_step(
    alloc: Global,
    library: &Library,
    levels: usize,
    home: Home<'_>,
    around: Option<Resources>,
    place: &str,
    step: (&str, &Value),
    asked: &mut Keyed<Resources>,
) -> Result<(), AllocError>
    ensures { OnOk result (asked.new ≡ with_each
        (step_asked (asked_below (finds_in library.now) levels) (finds_in library.now)
        (home_seen home.entry) around place.now (entry_seen step.entry))
        asked.old) }
{
    let Some(run) = step.1.get("run") else {
        return Ok(());
    };
    let within = asked_in(alloc, around, step.1)?;
    let place = place_in(alloc, place, step.0)?;
    add_run(
        alloc,
        library,
        levels,
        home,
        within,
        place.as_str(),
        run,
        asked,
    )
}

/// Adds the tools that what a step runs comes to.
#[cycle(tools)]
fn add_run(
    alloc: Global,
    library: &Library,
    levels: usize,
    home: Home<'_>,
    around: Option<Resources>,
    place: &str,
    run: &Value,
    asked: &mut Keyed<Resources>,
) -> Result<(), AllocError>
    ensures { OnOk result (asked.new ≡ with_each
        (run_asked (asked_below (finds_in library.now) levels) (finds_in library.now)
        (home_seen home.entry) around place.now (view run.now))
        asked.old) }
{
    match run_of(alloc, library, home, run)? {
        None => Ok(()),
        Some(Target::Here(value)) => {
            add_process(alloc, library, levels, home, around, place, value, asked)
        }
        Some(Target::There(url, document)) => {
            let root = document.root();
            let other = Home {
                url: &url,
                document,
            };
            add_process(
                alloc,
                library,
                levels,
                other,
                around,
                place,
                root.process,
                asked,
            )
        }
    }
}

fn place_in(alloc: Global, place: &str, step: &str) -> Result<Text, AllocError>
    ensures { IfOk result (λ inner. inner ≡ place_in place.now step.now) }
{
    let mut text = String::from_str(alloc, place)?;
    text.push('/')?;
    text.push_str(step)?;
    Ok(Text::from_string(text))
}
