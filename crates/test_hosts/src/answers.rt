//! Pieces of answers that several rows have.
use test_rows::AnswerText;

/// Writes a text that was written piece by piece, as JSON.
pub fn put_text(out: &mut AnswerText, text: AnswerText) {
    match text.finish() {
        Ok(text) => out.put_quoted(text.as_str()),
        Err(fault) => out.fail(fault),
    }
}

/// Writes the JSON list of these numbers.
pub fn put_numbers(out: &mut AnswerText, all: &[u64]) {
    out.put("[");
    for number in all {
        out.put_comma();
        out.put_natural(*number);
    }
    out.put("]");
}
