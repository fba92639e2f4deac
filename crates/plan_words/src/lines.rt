//! The lines of a plan.
ghost use Rattle.std.specs.Prelude.{◌≡◌, ◌<◌, ◌++◌, ◌∷◌, [], length, IfOk, OnOk, string_bytes};
ghost use Rattle.plan_checker.specs.Format.{letter};
ghost use Rattle.plan_words.specs.Lines.{cost_line, job_line, plan_lines};

use crate::parts::{mark_at, place_at};
use plain_data::Text;
use plan_checker::{Mark, Plan};
use std::alloc::{AllocError, Global};

/// Says what a plan costs and, for each job by its number, what is done with it: `cost N`, then lines `NUMBER MARK PLACE`.
pub fn plan_lines(
    alloc: Global,
    cost: u64,
    plan: &Plan,
    places: &[Text],
) -> Result<Text, AllocError>
    requires { length places.now ≡ length plan.now.marks }
    ensures { IfOk result (λ text. text ≡ plan_lines cost plan.now.marks places.now) }
{
    let mut text = cost_line(alloc, cost)?;
    for number in 0..places.len() {
        push_line(&mut text, plan, places, number)?;
    }
    Ok(Text::from_string(text))
}

fn cost_line(alloc: Global, cost: u64) -> Result<String, AllocError>
    ensures { IfOk result (λ text. string_bytes text ≡ cost_line cost) }
{
    format!(in alloc; "cost {cost}\n")
}

// The line of a job.
fn push_line(
    text: &mut String,
    plan: &Plan,
    places: &[Text],
    number: usize,
) -> Result<(), AllocError>
    requires mark { number < length plan.now.marks }
    requires place { number < length places.now }
    ensures { OnOk result (string_bytes text.new ≡ string_bytes text.old
        ++ job_line plan.now.marks places.now number) }
{
    let letter = letter_of(mark_at(plan, number));
    let place = place_at(places, number);
    write!(text, "{number} {letter} {place}\n")
}

fn letter_of(mark: Mark) -> &'static str
    ensures { result.now ≡ letter mark ∷ [] }
{
    match mark {
        Mark::Load => "L",
        Mark::Compute => "C",
        Mark::Prune => "P",
    }
}
