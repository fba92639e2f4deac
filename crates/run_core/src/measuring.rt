//! The input files are measured before anything else, and then the first jobs are known.
ghost use Rattle.std.specs.Prelude.{◌≡◌, ◌<◌, ◌+◌, ◌^◌, [], OnErr, OnOk, IfOk};
ghost use Rattle.job_graph.specs.Equations.{walker};
ghost use Rattle.job_graph.specs.Paths.{input_paths};
ghost use Rattle.run_core.specs.inner.Course.{past_of};
ghost use Rattle.run_core.specs.inner.Knows.{IsUnfolded};
ghost use Rattle.run_core.specs.inner.Measures.{Begins, MeasuresOn, TakesMeasure};
ghost use Rattle.run_core.specs.inner.Turns.{PutsNext};

use crate::choice::pick;
use crate::course::{end_by, settle};
use crate::state::{Course, Given, Measuring, Phase, Turn};
use crate::turn::waiting;
use crate::turns::{last_first, put_next};
use job_graph::{UnfoldError, Unfolding, input_paths};
use plain_data::{Keyed, Text};
use proc_host::HostRequest;
use staging::Measure;
use std::alloc::{AllocError, Global};

/// Before any answer.
pub(crate) fn begun<'a>(
    alloc: Global,
    given: &Given<'a>,
    course: &mut Course<'a>,
) -> Result<Turn, AllocError>
    requires { course.old.folders + 1 < 2 ^ 64 }
    ensures { IfOk result (λ turn. Begins given.now course.old turn course.new) }
{
    let paths = input_paths(alloc, given.process, given.inputs)?;
    let measuring = Measuring {
        left: last_first(paths),
        measures: Keyed::new(alloc),
    };
    measure_on(alloc, given, course, measuring)
}

/// An input file is measured.
pub(crate) fn measured<'a>(
    alloc: Global,
    given: &Given<'a>,
    course: &mut Course<'a>,
    mut measuring: Measuring,
    measure: &Measure,
) -> Result<Turn, AllocError>
    requires { course.old.folders + 1 < 2 ^ 64 }
    ensures is { IfOk result (λ turn. TakesMeasure given.now course.old measuring measure.now turn
        course.new) }
    ensures flying { OnErr result (course.new.tickets.items ≡ course.old.tickets.items) }
{
    put_measure(alloc, &mut measuring, measure)?;
    measure_on(alloc, given, course, measuring)
}

fn put_measure(
    alloc: Global,
    measuring: &mut Measuring,
    measure: &Measure,
) -> Result<(), AllocError>
    ensures { OnOk result (PutsNext measuring.old.left measuring.old.measures measure.now
        measuring.new.left measuring.new.measures) }
{
    let measure = measure.clone_in(alloc)?;
    put_next(&mut measuring.left, &mut measuring.measures, measure)
}

/// The next input file is measured; where all are, the first jobs are known.
fn measure_on<'a>(
    alloc: Global,
    given: &Given<'a>,
    course: &mut Course<'a>,
    measuring: Measuring,
) -> Result<Turn, AllocError>
    requires { course.old.folders + 1 < 2 ^ 64 }
    ensures is { IfOk result (λ turn. MeasuresOn given.now course.old measuring turn course.new) }
    ensures flying { OnErr result (course.new.tickets.items ≡ course.old.tickets.items) }
{
    match measuring.left.as_slice() {
        [] => {
            let Measuring { left: _, measures } = measuring;
            know(alloc, given, course, measures)?;
            pick(alloc, given, course)
        }
        [.., path] => {
            let path = path.copied(alloc)?;
            Ok(waiting(
                alloc,
                HostRequest::Measure(path),
                Phase::Measuring(measuring),
            ))
        }
    }
}

/// The first jobs are known, or a fault has settled the end.
fn know<'a>(
    alloc: Global,
    given: &Given<'a>,
    course: &mut Course<'a>,
    measures: Keyed<Measure>,
) -> Result<(), AllocError>
    ensures is { OnOk result
        (IsUnfolded (walker given.now.process.now given.now.inputs.now measures) [] course.old
        course.new) }
    ensures past { OnErr result (past_of course.new ≡ past_of course.old) }
{
    match Unfolding::new(alloc, given.process, given.inputs, measures) {
        Ok(unfolding) => {
            course.of_first = false;
            course.known = Some(unfolding);
            Ok(())
        }
        Err(UnfoldError::Refused(fault)) => {
            settle(course, end_by(fault));
            Ok(())
        }
        Err(UnfoldError::OutOfMemory) => Err(AllocError),
    }
}
