use proc_host::HostError;
use staging::{Found, Measure};
use test_rows::AnswerText;

/// Adds a listing: name, whether it is a folder, size and sum of each entry.
pub fn put_listing(out: &mut AnswerText, found: &[Found]) {
    out.put("[");
    for entry in found {
        out.put_comma();
        put_entry(out, entry);
    }
    out.put("]");
}

fn put_entry(out: &mut AnswerText, entry: &Found) {
    out.put("[");
    out.put_quoted(entry.name.as_str());
    out.put(",");
    out.put_flag(entry.is_dir);
    out.put(",");
    out.put_natural(entry.size);
    out.put(",");
    out.put_quoted(entry.sum.as_str());
    out.put("]");
}

/// Adds what is at a path: null where nothing is, size and sum of a file, the listing of a folder.
pub fn put_measure(out: &mut AnswerText, measure: &Measure) {
    match measure {
        Measure::Absent => out.put("null"),
        Measure::File { size, sum } => {
            out.put("[");
            out.put_natural(*size);
            out.put(",");
            out.put_quoted(sum.as_str());
            out.put("]");
        }
        Measure::Folder(found) => put_listing(out, found.as_slice()),
    }
}

/// Adds the code of a call's fault.
pub fn put_fault(out: &mut AnswerText, error: HostError) {
    match error {
        HostError::Fault(fault) => out.put_quoted(fault.code()),
        HostError::OutOfMemory => out.put_quoted("memory"),
    }
}

/// Adds an exit code, or null where a signal ended the child.
pub fn put_code(out: &mut AnswerText, code: Option<i32>) {
    match code {
        Some(code) => out.put_whole(code as i64),
        None => out.put("null"),
    }
}
