//! No two steps of a workflow have one id, at any depth: what the type `Entries` keeps.
ghost use Rattle.std.specs.Prelude.{◌≡◌, true};
ghost use Rattle.job_graph.specs.Apart.{ids_differ, workflow_ids_differ};

use document_links::{Process, Workflow};

/// Looks at each workflow of a process, so that a proof has of the process what the type keeps of each workflow.
#[cycle(ids)]
pub fn see_ids(process: &Process)
    ensures { ids_differ process.now ≡ true }
{
    match process {
        Process::Tool(_) => {}
        Process::Workflow(workflow) => see_steps(workflow),
    }
}

#[cycle(ids)]
fn see_steps(workflow: &Workflow)
    ensures { workflow_ids_differ workflow.now ≡ true }
{
    let steps = workflow.steps.as_slice();
    for entry in steps {
        see_ids(&entry.1.process);
    }
}
