//! Workflows that are made from a number.

use crate::alone::Chance;
use std::alloc::Global;
use test_rows::{AnswerText, Row, RowFault};

/// The row of a run that a number decides: a workflow of 3 to 14 jobs, its slots, and what a fetch costs.
///
/// Each job is a step, and reads the files of some of the steps before it. The file of the last step is wanted, and those of some others.
pub fn row_of(alloc: Global, chance: &mut Chance) -> Result<Row, RowFault> {
    let mut out = AnswerText::new(alloc);
    let jobs = 3 + chance.below(12);
    out.put("{\"row\":\"generated\",\"call\":\"run\",\"inputs\":{},\"slots\":");
    out.put_natural(1 + chance.below(3));
    out.put(",\"base\":");
    out.put_natural(chance.below(6));
    out.put(
        ",\"document\":{\"cwlVersion\":\"v1.2\",\"class\":\"Workflow\",\"inputs\":{},\"outputs\":{",
    );
    put_outputs(&mut out, chance, jobs);
    out.put("},\"steps\":{");
    for job in 0..jobs {
        out.put_comma();
        put_step(&mut out, job, chance.next());
    }
    out.put("}}}");
    let text = out.finish()?;
    Row::read(alloc, text.as_str())
}

fn put_outputs(out: &mut AnswerText, chance: &mut Chance, jobs: u64) {
    for job in 0..jobs {
        if job + 1 == jobs || chance.below(4) == 0 {
            out.put_comma();
            put_name(out, "o", job);
            out.put(":{\"type\":\"File\",\"outputSource\":\"s");
            out.put_natural(job);
            out.put("/o\"}");
        }
    }
}

fn put_name(out: &mut AnswerText, letter: &str, number: u64) {
    out.put("\"");
    out.put(letter);
    out.put_natural(number);
    out.put("\"");
}

/// A step, which reads the files of the steps that `parents` decides.
fn put_step(out: &mut AnswerText, job: u64, parents: u64) {
    put_name(out, "s", job);
    out.put(":{\"in\":{");
    put_sources(out, job, parents);
    out.put(
        "},\"out\":[\"o\"],\"run\":{\"class\":\"CommandLineTool\",\"baseCommand\":\"true\",\"arguments\":[",
    );
    put_name(out, "s", job);
    out.put("],\"inputs\":{");
    put_types(out, job, parents);
    out.put("},\"outputs\":{\"o\":{\"type\":\"File\",\"outputBinding\":{\"glob\":\"o\"}}}}}");
}

fn put_sources(out: &mut AnswerText, job: u64, parents: u64) {
    for parent in 0..job {
        if is_parent(parents, parent) {
            out.put_comma();
            put_name(out, "f", parent);
            out.put(":\"s");
            out.put_natural(parent);
            out.put("/o\"");
        }
    }
}

fn put_types(out: &mut AnswerText, job: u64, parents: u64) {
    for parent in 0..job {
        if is_parent(parents, parent) {
            out.put_comma();
            put_name(out, "f", parent);
            out.put(":\"File\"");
        }
    }
}

/// Whether a step before is read: about each third is.
fn is_parent(parents: u64, number: u64) -> bool {
    Chance::new(parents.wrapping_add(number)).below(3) == 0
}
