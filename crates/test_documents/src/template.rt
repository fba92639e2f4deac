//! Writes templates as JSON: the list of their parts, a plain one as its text, a reference as the list of its symbol and segments.
use crate::process::put_key;
use param_refs::{Part, Reference, Segment, Template};
use test_rows::AnswerText;

pub(crate) fn put_template(out: &mut AnswerText, name: &str, template: &Option<Template>) {
    if let Some(template) = template {
        put_key(out, name);
        put_parts(out, template);
    }
}

pub(crate) fn put_templates(out: &mut AnswerText, templates: &[Template]) {
    out.put("[");
    for template in templates {
        out.put_comma();
        put_parts(out, template);
    }
    out.put("]");
}

pub(crate) fn put_parts(out: &mut AnswerText, template: &Template) {
    out.put("[");
    for part in template.parts() {
        out.put_comma();
        match part {
            Part::Plain(text) => out.put_quoted(text.as_str()),
            Part::Referred(reference) => put_reference(out, reference),
        }
    }
    out.put("]");
}

fn put_reference(out: &mut AnswerText, reference: &Reference) {
    out.put("[");
    out.put_quoted(reference.symbol.as_str());
    for segment in reference.segments.as_slice() {
        out.put(",");
        match segment {
            Segment::Key(key) => out.put_quoted(key.as_str()),
            Segment::Index(digits) => out.put(digits.as_str()),
        }
    }
    out.put("]");
}
