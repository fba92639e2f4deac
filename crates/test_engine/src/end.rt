use collected_outputs::OutputFault;
use cwl_value::{JobPlace, Value, canonical_text, place_text};
use input_files::ContentsFault;
use run_core::{Cause, CollectCause, Outcome, Report, RunFault};
use std::alloc::Global;
use test_hosts::answers::{put_numbers, put_text};
use test_rows::{AnswerText, RowFault};

/// Writes how a run ended, as JSON.
pub fn put_end(alloc: Global, out: &mut AnswerText, end: &Result<Report, RunFault>) {
    match end {
        Ok(report) => put_outcome(alloc, out, &report.outcome),
        Err(fault) => put_run_fault(alloc, out, fault),
    }
}

fn put_outcome(alloc: Global, out: &mut AnswerText, outcome: &Outcome) {
    match outcome {
        Outcome::Success(outputs) => put_success(alloc, out, outputs),
        Outcome::PermanentFail(place, cause) => {
            out.put("{\"permanentFail\":");
            put_place(alloc, out, place);
            out.put(",\"cause\":");
            let mut text = AnswerText::new(alloc);
            put_cause(&mut text, cause);
            put_text(out, text);
            out.put("}");
        }
        Outcome::TemporaryFail(place) => {
            out.put("{\"temporaryFail\":");
            put_place(alloc, out, place);
            out.put("}");
        }
    }
}

fn put_success(alloc: Global, out: &mut AnswerText, outputs: &Value) {
    out.put("{\"success\":");
    match canonical_text(alloc, outputs) {
        Ok(text) => out.put(text.as_str()),
        Err(_) => out.fail(RowFault::OutOfMemory),
    }
    out.put("}");
}

/// Writes the place of a job, as JSON.
pub fn put_place(alloc: Global, out: &mut AnswerText, place: &JobPlace) {
    match place_text(alloc, place) {
        Ok(text) => out.put_quoted(text.as_str()),
        Err(_) => out.fail(RowFault::OutOfMemory),
    }
}

fn put_cause(out: &mut AnswerText, cause: &Cause) {
    match cause {
        Cause::Equation(cause) => put_equation(out, cause),
        Cause::Build(fault) => put_both(out, "Build ", fault.code()),
        Cause::Exit(Some(code)) => {
            out.put("Exit ");
            out.put_whole(*code as i64);
        }
        Cause::Exit(None) => out.put("Exit by a signal"),
        Cause::Collect(CollectCause::Input(fault)) => put_contents(out, fault),
        Cause::Collect(CollectCause::Output(fault)) => put_collect(out, fault),
    }
}

fn put_both(out: &mut AnswerText, first: &str, second: &str) {
    out.put(first);
    out.put(second);
}

/// Writes the code of a step that has no value, or the input that has none.
fn put_equation(out: &mut AnswerText, cause: &job_graph::Cause) {
    match cause {
        job_graph::Cause::Missing(input) => put_both(out, "Missing ", input.as_str()),
        job_graph::Cause::Secondary(input) => put_both(out, "Secondary ", input.as_str()),
        job_graph::Cause::Kind(input) => put_both(out, "Kind ", input.as_str()),
        job_graph::Cause::Link(fault) => out.put(fault.code()),
        job_graph::Cause::Reference(fault) => out.put(fault.code()),
        job_graph::Cause::Scatter(fault) => out.put(fault.code()),
    }
}

/// Writes the code of refused contents, and the input.
fn put_contents(out: &mut AnswerText, fault: &ContentsFault) {
    match fault {
        ContentsFault::TooLong(input) => put_both(out, "Collect G4 ", input.as_str()),
        ContentsFault::NotUtf8(input) => put_both(out, "Collect G9 ", input.as_str()),
    }
}

/// Writes the code of a refusal, and the output that it was met at.
fn put_collect(out: &mut AnswerText, fault: &OutputFault) {
    put_both(out, "Collect ", fault.fault.code());
    if let Some(output) = &fault.output {
        put_both(out, " ", output.as_str());
    }
}

fn put_run_fault(alloc: Global, out: &mut AnswerText, fault: &RunFault) {
    match fault {
        RunFault::Host(fault, running) => {
            put_code(out, fault.code());
            out.put(",\"running\":");
            put_numbers(out, running.as_slice());
            out.put("}");
        }
        RunFault::Record(refusal) => {
            put_code(out, refusal.code());
            out.put("}");
        }
        RunFault::Mismatch(place) => {
            put_code(out, "Mismatch");
            out.put(",\"place\":");
            put_place(alloc, out, place);
            out.put("}");
        }
        RunFault::TooManyJobs => {
            put_code(out, "TooManyJobs");
            out.put("}");
        }
        RunFault::OutOfMemory => out.fail(RowFault::OutOfMemory),
    }
}

// Begins the object that tells of a fault.
fn put_code(out: &mut AnswerText, code: &str) {
    out.put("{\"fault\":");
    out.put_quoted(code);
}
