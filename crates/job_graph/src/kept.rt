//! What is kept of the walk from the root, so that it goes on where one more place is learned.
ghost use Rattle.std.specs.Prelude.{◌≡◌, ◌⊎◌, ◌+◌, IfOk, [], map, true};
ghost use Rattle.job_graph.specs.Apart.{ids_differ, workflow_ids_differ};
ghost use Rattle.job_graph.specs.Equations.{workflow_meaning_of};
ghost use Rattle.job_graph.specs.inner.Going.{LeavesOut, facts_before};
ghost use Rattle.job_graph.specs.inner.Kept.{HasRooted, IsOfRoot, KeepsRoot, KeepsWorkflow, met_by, root_walk};
ghost use Rattle.job_graph.specs.inner.Views.{made_from, met_of};

use crate::inputs::workflow_inputs;
use crate::links::Env;
use crate::made::Facts;
use crate::nested::{Deeper, Nested, walk_deeper, with_nested};
use crate::readers::Readers;
use crate::waiting::with_counts;
use crate::walk::{Walk, failed_process, walk_tool};
use crate::workflow::walk_keeping;
use cwl_value::{Segment, Value};
use document_links::{Process, Workflow};
use plain_data::{Items, Keyed};
use std::alloc::{AllocError, Global};

/// The inputs of the root workflow, the outputs of those of its steps that were walked, what each step waits for, and what is kept inside one of them.
#[derive(Drop)]
pub(crate) struct Kept {
    pub inputs: Keyed<Value>,
    pub readers: Readers,
    pub env: Env,
    /// How many values each step still waits for.
    pub counts: Vec<usize>,
    /// What is kept along the place that was learned last, the outermost last.
    pub nested: Items<Nested>,
    /// How many places were learned by then. Once more are, `nested` says nothing.
    pub since: usize,
}

/// The walk from the root, and what is kept of it. Of a tool nothing is.
#[derive(Drop)]
pub(crate) struct Rooted<'a> {
    pub walk: Walk<'a>,
    pub kept: Option<Kept>,
}

/// The walk from the root: it goes on from what is kept, where one more place was learned, and what was met before may be left out.
pub(crate) fn walk_from_root<'a>(
    alloc: Global,
    facts: &Facts,
    process: &'a Process,
    fields: &Keyed<Value>,
    kept: Option<Kept>,
) -> Result<Rooted<'a>, AllocError>
    requires kept { KeepsRoot (facts_before facts.now) fields.now process.now kept }
    requires apart { ids_differ process.now ≡ true }
    ensures met { IfOk result (λ found. LeavesOut (met_by facts.now fields.now process.now kept)
        (map met_of found.walk.met) (root_walk facts.now fields.now process.now).met) }
    ensures outs { IfOk result (λ found. found.walk.outs
        ≡ (root_walk facts.now fields.now process.now).outs) }
    ensures kept { IfOk result
        (λ found. KeepsRoot facts.now fields.now process.now found.kept) }
{
    match process {
        Process::Tool(tool) => {
            let walk = walk_tool(alloc, facts, tool, &Items::new(alloc), fields)?;
            Ok(Rooted { walk, kept: None })
        }
        Process::Workflow(workflow) => match kept {
            None => walk_whole(alloc, facts, workflow, fields),
            Some(kept) => go_on(alloc, facts, workflow, fields, kept),
        },
    }
}

/// The walk through the root workflow from its beginning.
fn walk_whole<'a>(
    alloc: Global,
    facts: &Facts,
    workflow: &'a Workflow,
    fields: &Keyed<Value>,
) -> Result<Rooted<'a>, AllocError>
    ensures { IfOk result
        (HasRooted facts.now fields.now workflow.now
        (workflow_meaning_of facts.now.measures (made_from facts.now) workflow.now [] fields.now)) }
{
    let root = Items::new(alloc);
    match workflow_inputs(alloc, &facts.measures, workflow.inputs.as_slice(), fields)? {
        Ok(inputs) => {
            let outputs = workflow.outputs.as_slice();
            let walked = walk_keeping(alloc, facts, &workflow.steps, outputs, &root, &inputs)?;
            let walked = with_counts(alloc, walked, &workflow.steps)?;
            let readers = Readers::of(alloc, &workflow.steps)?;
            Ok(with_kept(
                inputs,
                readers,
                with_nested(walked, Items::new(alloc)),
                facts.learned.len(),
            ))
        }
        Err(cause) => {
            let walk = failed_process(alloc, &root, cause, &workflow.outputs)?;
            Ok(Rooted { walk, kept: None })
        }
    }
}

/// The walk through the root workflow, by what is kept of it.
fn go_on<'a>(
    alloc: Global,
    facts: &Facts,
    workflow: &'a Workflow,
    fields: &Keyed<Value>,
    kept: Kept,
) -> Result<Rooted<'a>, AllocError>
    requires kept { IsOfRoot (facts_before facts.now) fields.now workflow.now kept }
    requires apart { workflow_ids_differ workflow.now ≡ true }
    ensures met { IfOk result (λ found. LeavesOut
        (workflow_meaning_of facts.now.measures (made_from (facts_before facts.now)) workflow.now []
        fields.now).met (map met_of found.walk.met)
        (workflow_meaning_of facts.now.measures (made_from facts.now) workflow.now []
        fields.now).met) }
    ensures outs { IfOk result (λ found. found.walk.outs
        ≡ (workflow_meaning_of facts.now.measures (made_from facts.now) workflow.now []
        fields.now).outs) }
    ensures kept { IfOk result (λ found. KeepsWorkflow facts.now fields.now workflow.now
        found.kept) }
{
    let Some(last) = facts.learned.last() else {
        drop(kept);
        return walk_whole(alloc, facts, workflow, fields);
    };
    let root = Items::new(alloc);
    let Kept {
        inputs,
        readers,
        env,
        counts,
        nested,
        since,
    } = kept;
    let nested = where_new(alloc, nested, since, facts.learned.len());
    let steps = &workflow.steps;
    let outputs = workflow.outputs.as_slice();
    let ended: &[Segment] = last.at.place.as_slice();
    let deeper = walk_deeper(
        alloc, facts, steps, &readers, outputs, &root, &inputs, env, counts, nested, ended,
    )?;
    Ok(with_kept(inputs, readers, deeper, facts.learned.len()))
}

/// What is kept inside, where one place alone was learned since.
fn where_new(alloc: Global, nested: Items<Nested>, since: usize, learned: usize) -> Items<Nested>
    ensures { (result ≡ []) ⊎ ((result ≡ nested) × (since + 1 ≡ learned)) }
{
    if since < learned && learned - since == 1 {
        return nested;
    }
    drop(nested);
    Items::new(alloc)
}

fn with_kept<'a>(
    inputs: Keyed<Value>,
    readers: Readers,
    deeper: Deeper<'a>,
    since: usize,
) -> Rooted<'a>
    ensures walk { result.walk ≡ deeper.entry.walk }
    ensures kept { result.kept ≡ Some (record {
      inputs = inputs;
      readers = readers;
      env = deeper.entry.env;
      counts = deeper.entry.counts;
      nested = deeper.entry.nested;
      since = since;
    }) }
{
    let Deeper {
        walk,
        env,
        counts,
        nested,
    } = deeper;
    Rooted {
        walk,
        kept: Some(Kept {
            inputs,
            readers,
            env,
            counts,
            nested,
            since,
        }),
    }
}
