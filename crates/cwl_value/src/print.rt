//! Places of jobs as text.
ghost use Rattle.std.specs.Prelude.{◌≡◌, ◌++◌, ◌∷◌, [], IfOk, OnOk, string_bytes, decimal};
ghost use Rattle.cwl_value.specs.Places.{index_text, segment_text, job_text};

use crate::place::{JobPlace, Segment};
use plain_data::{Items, Text};
use std::alloc::{AllocError, Global};

/// A job's place as text: `main`, then `/` and the id of each step, with its indexes, as in `main/align/sort[0,2]`.
pub fn place_text(alloc: Global, job: &JobPlace) -> Result<Text, AllocError>
    ensures { IfOk result (λ text. text ≡ job_text job.now) }
{
    let mut text = String::from_str(alloc, "main")?;
    for segment in job.as_slice() {
        push_segment(alloc, &mut text, segment)?;
    }
    Ok(Text::from_string(text))
}

fn push_segment(alloc: Global, text: &mut String, segment: &Segment) -> Result<(), AllocError>
    ensures { OnOk result (string_bytes text.new
        ≡ string_bytes text.old ++ segment_text segment.now) }
{
    text.push('/')?;
    text.push_str(segment.step.as_str())?;
    push_index(alloc, text, &segment.index)
}

fn push_index(alloc: Global, text: &mut String, index: &Items<usize>) -> Result<(), AllocError>
    ensures { OnOk result (string_bytes text.new
        ≡ string_bytes text.old ++ index_text index.now) }
{
    let Some((first, rest)) = index.as_slice().split_first() else {
        return Ok(());
    };
    text.push('[')?;
    push_number(alloc, text, *first)?;
    for number in rest {
        text.push(',')?;
        push_number(alloc, text, *number)?;
    }
    text.push(']')
}

fn push_number(alloc: Global, text: &mut String, number: usize) -> Result<(), AllocError>
    ensures { OnOk result (string_bytes text.new ≡ string_bytes text.old ++ decimal number) }
{
    let digits = format!(in alloc; "{number}")?;
    text.push_str(digits.as_str())
}
