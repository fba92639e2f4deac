//! The lines on the steps of which a plan does not know all jobs.
ghost use Rattle.std.specs.Prelude.{◌≡◌, ◌<◌, ◌≤◌, ◌++◌, length, IfOk, OnOk, string_bytes};
ghost use Rattle.plan_words.specs.Lines.{texts_below};
ghost use Rattle.plan_words.specs.Waiting.{average_words, count_words, earlier_line, end_words, few, first_named, jobs_words, line_of, mean_words, name_words, one_words, separator, step_words, took_words, waiting_line};

use crate::parts::place_at;
use plain_data::Text;
use std::alloc::{AllocError, Global};

/// How many of the steps are named.
const MOST_NAMED: usize = 5;

/// Says how many steps wait for the jobs of a plan, and names the first of them: `2 steps wait for these: sort, merge`. If none waits the
/// text is empty.
pub fn waiting_line(alloc: Global, names: &[Text]) -> Result<Text, AllocError>
    ensures { IfOk result (λ text. text ≡ waiting_line names.now) }
{
    let mut text = String::new(alloc);
    if !names.is_empty() {
        push_line(&mut text, names)?;
    }
    Ok(Text::from_string(text))
}

/// Those of the steps that are named.
pub fn first_named(names: &[Text]) -> &[Text]
    ensures { result.now ≡ first_named names.now }
{
    &names[..few(names.len())]
}

/// Says of a step that waits how many jobs of its tool there were, and how many milliseconds they took on average:
/// `  sort: 3 earlier jobs of this tool took 1200 ms on average`.
pub fn push_earlier(
    text: &mut String,
    name: &Text,
    jobs: usize,
    mean: u64,
) -> Result<(), AllocError>
    ensures { OnOk result (string_bytes text.new ≡ string_bytes text.old
        ++ earlier_line name.now jobs mean) }
{
    push_step(text, name)?;
    push_took(text, jobs, mean)
}

fn push_step(text: &mut String, name: &Text) -> Result<(), AllocError>
    ensures { OnOk result (string_bytes text.new ≡ string_bytes text.old ++ step_words name.now) }
{
    write!(text, "  {name}: ")
}

fn push_took(text: &mut String, jobs: usize, mean: u64) -> Result<(), AllocError>
    ensures { OnOk result (string_bytes text.new ≡ string_bytes text.old ++ took_words jobs mean) }
{
    if jobs == 1 {
        push_one(text, mean)
    } else {
        push_average(text, jobs, mean)
    }
}

fn push_one(text: &mut String, took: u64) -> Result<(), AllocError>
    ensures { OnOk result (string_bytes text.new ≡ string_bytes text.old ++ one_words took) }
{
    write!(text, "1 earlier job of this tool took {took} ms\n")
}

fn push_average(text: &mut String, jobs: usize, mean: u64) -> Result<(), AllocError>
    ensures { OnOk result (string_bytes text.new ≡ string_bytes text.old
        ++ average_words jobs mean) }
{
    push_jobs(text, jobs)?;
    push_mean(text, mean)
}

fn push_jobs(text: &mut String, jobs: usize) -> Result<(), AllocError>
    ensures { OnOk result (string_bytes text.new ≡ string_bytes text.old ++ jobs_words jobs) }
{
    write!(text, "{jobs} earlier jobs of this tool took ")
}

fn push_mean(text: &mut String, mean: u64) -> Result<(), AllocError>
    ensures { OnOk result (string_bytes text.new ≡ string_bytes text.old ++ mean_words mean) }
{
    write!(text, "{mean} ms on average\n")
}

fn push_line(text: &mut String, names: &[Text]) -> Result<(), AllocError>
    ensures { OnOk result (string_bytes text.new ≡ string_bytes text.old ++ line_of names.now) }
{
    push_count(text, names.len())?;
    push_names(text, names, few(names.len()))?;
    text.push_str(end_words(names.len()))
}

fn push_count(text: &mut String, count: usize) -> Result<(), AllocError>
    ensures { OnOk result (string_bytes text.new ≡ string_bytes text.old ++ count_words count) }
{
    if count == 1 {
        text.push_str("1 step waits for these")
    } else {
        write!(text, "{count} steps wait for these")
    }
}

fn few(count: usize) -> usize
    ensures value { result ≡ few count }
    ensures most { result ≤ count }
{
    if count > MOST_NAMED {
        MOST_NAMED
    } else {
        count
    }
}

// So many of the names, the first ones.
fn push_names(text: &mut String, names: &[Text], count: usize) -> Result<(), AllocError>
    requires { count ≤ length names.now }
    ensures { OnOk result (string_bytes text.new ≡ string_bytes text.old
        ++ texts_below count (name_words names.now)) }
{
    for number in 0..count {
        push_name(text, names, number)?;
    }
    Ok(())
}

fn push_name(text: &mut String, names: &[Text], number: usize) -> Result<(), AllocError>
    requires { number < length names.now }
    ensures { OnOk result (string_bytes text.new ≡ string_bytes text.old
        ++ name_words names.now number) }
{
    let (before, name) = (separator(number), place_at(names, number));
    write!(text, "{before}{name}")
}

fn separator(number: usize) -> &'static str
    ensures { result.now ≡ separator number }
{
    if number == 0 { ": " } else { ", " }
}

fn end_words(count: usize) -> &'static str
    ensures { result.now ≡ end_words count }
{
    if count > MOST_NAMED { ", ..\n" } else { "\n" }
}
