use crate::answers::put_text;
use command_line::Launch;
use plain_data::Items;
use proc_host::{Entry, HostRequest};
use staging::{Found, StagePlan};
use std::alloc::Global;
use test_rows::AnswerText;

/// Writes the requests of a log, as a JSON list of texts.
pub fn put_requests(alloc: Global, out: &mut AnswerText, log: &[Entry]) {
    out.put("[");
    for entry in log {
        out.put_comma();
        let mut text = AnswerText::new(alloc);
        put_words(&mut text, &entry.request);
        put_text(out, text);
    }
    out.put("]");
}

fn put_words(out: &mut AnswerText, request: &HostRequest) {
    match request {
        HostRequest::Stage(plan, number) => {
            out.put("stage ");
            out.put_natural(*number);
            put_moves(out, plan);
        }
        HostRequest::Start(launch) => put_start(out, launch),
        HostRequest::Measure(path) => put_path(out, "measure ", path.as_str()),
        HostRequest::Head(path, limit) => {
            out.put("head ");
            out.put_natural(*limit);
            put_path(out, " ", path.as_str());
        }
        HostRequest::Collect => out.put("collect"),
        HostRequest::Scan(folder) => put_path(out, "scan ", folder.as_str()),
        HostRequest::Fetch(key, number, files) => {
            out.put("fetch ");
            out.put_natural(*number);
            put_path(out, " ", key.as_str());
            put_names(out, files);
        }
        HostRequest::Store(key, folder, files) => {
            put_path(out, "store ", key.as_str());
            put_path(out, " ", folder.as_str());
            put_names(out, files);
        }
        HostRequest::Deliver(plan) => {
            out.put("deliver");
            put_moves(out, plan);
        }
        HostRequest::Discard(key) => put_path(out, "discard ", key.as_str()),
    }
}

fn put_path(out: &mut AnswerText, before: &str, path: &str) {
    out.put(before);
    out.put(path);
}

/// Writes the words of a start, behind the folder that it runs in.
fn put_start(out: &mut AnswerText, launch: &Launch) {
    put_path(out, "start in ", launch.dir.as_str());
    out.put(":");
    for word in launch.words.as_slice() {
        put_path(out, " ", word.as_str());
    }
}

/// Writes the name of each entry of a listing.
fn put_names(out: &mut AnswerText, files: &Items<Found>) {
    for file in files.as_slice() {
        put_path(out, " ", file.name.as_str());
    }
}

/// Writes each move of a plan.
fn put_moves(out: &mut AnswerText, plan: &StagePlan) {
    for planned in plan.moves.as_slice() {
        put_path(out, " ", planned.source.as_str());
        put_path(out, " to ", planned.target.as_str());
    }
}
