//! What a run goes on by where memory runs out for what follows from an answer.
ghost use Rattle.std.specs.Prelude.{◌≡◌, bytes_eq};
ghost use Rattle.std.specs.List.{IsDistinct};
ghost use Rattle.std.specs.Map.{keys_of};
ghost use Rattle.run_core.specs.inner.Anyway.{CanGoOn, HasRowInOrder, job_in};

use crate::course::known_in;
use crate::state::{Course, Phase};
use crate::{Answer, RecordAnswer};
use collected_outputs::{every_folder_has_outputs_or_a_fault, some_heads_are_wanted};
use command_line::every_tool_has_a_launch_or_is_refused;
use cwl_process::Tool;
use job_reuse::{files_are_the_same_or_not, outputs_are_the_same_or_not, rows_are_sound_or_not};
use plan_checker::each_has_least;

/// Something follows from each answer: the phase's job has a launch or is refused one, a folder has outputs or there is a fault
/// why not, a row is one of its job's tool or is none, fetched files are a row's or are not, and each graph has a Least plan.
pub(crate) fn can_go_on(course: &Course<'_>, phase: &Phase, answer: &Answer)
    ensures { CanGoOn course.now (job_in phase.now) answer.now }
{
    if let Some(known) = known_in(&course.known).get(job_in(phase)) {
        see_inputs(known.job.tool);
    }
    every_tool_has_a_launch_or_is_refused();
    every_folder_has_outputs_or_a_fault();
    some_heads_are_wanted();
    see_row(answer);
    rows_are_sound_or_not();
    outputs_are_the_same_or_not();
    files_are_the_same_or_not();
    each_has_least();
}

/// The outputs of a row that was found are in the order of their names.
fn see_row(answer: &Answer)
    ensures { HasRowInOrder answer.now }
{
    if let Answer::Record(RecordAnswer::Found(Some(row))) = answer {
        let _outputs = row.outputs.as_slice();
    }
}

/// No two inputs of a tool have one id.
fn see_inputs(tool: &Tool)
    ensures { IsDistinct bytes_eq (keys_of tool.now.inputs) }
{
    let _inputs = tool.inputs.as_slice();
}

/// The number of the job that the phase is of; where it is of none, that of any.
fn job_in(phase: &Phase) -> usize
    ensures { result ≡ job_in phase.now }
{
    match phase {
        Phase::Staging(job) | Phase::Working(job, _) => *job,
        _ => 0,
    }
}
