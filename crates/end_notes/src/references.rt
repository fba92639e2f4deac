//! What is said of references that have no value.

use param_refs::{Part, Reference, Segment, Template};
use plain_data::Text;
use run_facts::{Known, Reach, keys_words, known_words, reach_of};
use std::alloc::{AllocError, Global};

/// How many names are shown.
const MOST_NAMES: usize = 10;

/// How many references are shown that may have a value, and may have none.
const MOST_DOUBTED: usize = 5;

/// What texts may speak of: inputs, by their names, and `runtime`.
#[derive(Drop)]
pub struct Scope<'a> {
    pub inputs: Vec<(&'a Text, Known<'a>)>,
    pub runtime: Runtime,
}

/// What texts find under `runtime`. If it has folders, they see the paths of files too.
#[derive(Clone, Copy, Debug, Drop, PartialEq, Eq)]
pub enum Runtime {
    /// There is none.
    None,
    Cores,
    CoresAndFolders,
}

/// A text with references, and what `self` is in it.
#[derive(Clone, Copy, Drop)]
pub struct Spoken<'a> {
    pub template: &'a Template,
    pub own: Known<'a>,
}

impl Scope<'_> {
    fn sees_paths(&self) -> bool {
        self.runtime == Runtime::CoresAndFolders
    }
}

/// Adds a line on the first reference of these texts that has no value, as far as types show; if there is none, on the first that
/// need not have one.
pub fn add_references(
    alloc: Global,
    scope: &Scope<'_>,
    texts: &[Spoken<'_>],
    lines: &mut Vec<String>,
) -> Result<(), AllocError> {
    let mut found = Vec::new(alloc);
    add_valueless(alloc, scope, texts, &mut found)?;
    if found.is_empty() {
        add_reaching(alloc, scope, texts, Reach::Maybe, &mut found)?;
        found.truncate(MOST_DOUBTED);
    } else {
        found.truncate(1);
    }
    for line in found {
        lines.push(line)?;
    }
    Ok(())
}

/// Adds a line on each reference of these texts that has no value, as far as types show.
pub(crate) fn add_valueless(
    alloc: Global,
    scope: &Scope<'_>,
    texts: &[Spoken<'_>],
    lines: &mut Vec<String>,
) -> Result<(), AllocError> {
    add_reaching(alloc, scope, texts, Reach::Never, lines)
}

fn add_reaching(
    alloc: Global,
    scope: &Scope<'_>,
    texts: &[Spoken<'_>],
    reach: Reach,
    lines: &mut Vec<String>,
) -> Result<(), AllocError> {
    for spoken in texts {
        add_in_text(alloc, scope, *spoken, reach, lines)?;
    }
    Ok(())
}

// Adds a line on each reference of a text that reaches so far.
fn add_in_text(
    alloc: Global,
    scope: &Scope<'_>,
    spoken: Spoken<'_>,
    reach: Reach,
    lines: &mut Vec<String>,
) -> Result<(), AllocError> {
    for part in spoken.template.parts() {
        if let Part::Referred(reference) = part {
            if reach_in(scope, spoken.own, reference) == reach {
                lines.push(line_on(alloc, scope, spoken, reference, reach)?)?;
            }
        }
    }
    Ok(())
}

fn reach_in(scope: &Scope<'_>, own: Known<'_>, reference: &Reference) -> Reach {
    let segments = reference.segments.as_slice();
    match reference.symbol.as_str() {
        "inputs" => reach_of_input(scope, segments),
        "self" => reach_of(own, segments, scope.sees_paths()),
        "null" => reach_of(Known::Null, segments, scope.sees_paths()),
        "runtime" => reach_of_runtime(scope.runtime, segments),
        _ => Reach::Never,
    }
}

fn reach_of_input(scope: &Scope<'_>, segments: &[Segment]) -> Reach {
    match segments {
        [] => Reach::Always,
        [Segment::Key(name), rest @ ..] => match input_named(scope, name.as_str()) {
            Some(known) => reach_of(known, rest, scope.sees_paths()),
            None => Reach::Never,
        },
        _ => Reach::Never,
    }
}

fn input_named<'a>(scope: &Scope<'a>, name: &str) -> Option<Known<'a>> {
    for (other, known) in scope.inputs.iter() {
        if other.as_str() == name {
            return Some(*known);
        }
    }
    None
}

fn reach_of_runtime(runtime: Runtime, segments: &[Segment]) -> Reach {
    match (runtime, segments) {
        (Runtime::None, _) => Reach::Never,
        (_, []) => Reach::Always,
        (_, [Segment::Key(key)]) if key.as_str() == "cores" => Reach::Always,
        (Runtime::CoresAndFolders, [Segment::Key(key), ..])
            if key.as_str() == "outdir" || key.as_str() == "tmpdir" => {
            if segments.len() == 1 {
                Reach::Always
            } else {
                Reach::Maybe
            }
        }
        _ => Reach::Never,
    }
}

// ---- words

fn line_on(
    alloc: Global,
    scope: &Scope<'_>,
    spoken: Spoken<'_>,
    reference: &Reference,
    reach: Reach,
) -> Result<String, AllocError> {
    let text = written(alloc, spoken.template)?;
    let words = words_on(alloc, scope, spoken.own, reference, reach)?;
    format!(in alloc; "in `{text}`: {words}")
}

fn words_on(
    alloc: Global,
    scope: &Scope<'_>,
    own: Known<'_>,
    reference: &Reference,
    reach: Reach,
) -> Result<String, AllocError> {
    let segments = reference.segments.as_slice();
    match (reference.symbol.as_str(), segments) {
        ("inputs", [Segment::Key(name), rest @ ..]) => {
            match input_named(scope, name.as_str()) {
                Some(known) => lacking(alloc, scope, name.as_str(), known, rest, reach),
                None => {
                    let names = names_of(alloc, scope)?;
                    format!(in alloc; "there is no input `{name}`; {names}")
                }
            }
        }
        ("inputs", _) => lacking(alloc, scope, "inputs", Known::Nothing, segments, reach),
        ("self", _) => lacking(alloc, scope, "self", own, segments, reach),
        ("null", _) => lacking(alloc, scope, "null", Known::Nothing, segments, reach),
        ("runtime", _) if scope.runtime != Runtime::None => {
            no_runtime(alloc, scope.runtime, segments)
        }
        (symbol, _) => format!(in alloc; "`{symbol}` is not known"),
    }
}

// The first names of inputs.
fn names_of(alloc: Global, scope: &Scope<'_>) -> Result<String, AllocError> {
    if scope.inputs.is_empty() {
        return String::from_str(alloc, "there are none");
    }
    let mut words = String::from_str(alloc, "there are")?;
    for (name, _) in scope.inputs.iter().take(MOST_NAMES) {
        words.push_str(" `")?;
        words.push_str(name.as_str())?;
        words.push('`')?;
    }
    if scope.inputs.len() > MOST_NAMES {
        words.push_str(" ..")?;
    }
    Ok(words)
}

fn no_runtime(alloc: Global, runtime: Runtime, segments: &[Segment]) -> Result<String, AllocError> {
    let way = written_way(alloc, segments)?;
    let keys = match runtime {
        Runtime::CoresAndFolders => "`.cores` `.outdir` `.tmpdir`",
        _ => "`.cores`",
    };
    format!(in alloc; "`runtime` has no `{way}`; it has {keys}")
}

// What is known of a value that has not, or need not have, what the rest of a reference leads to, and the keys that there are.
fn lacking(
    alloc: Global,
    scope: &Scope<'_>,
    name: &str,
    known: Known<'_>,
    rest: &[Segment],
    reach: Reach,
) -> Result<String, AllocError> {
    let mut words = described(alloc, name, known)?;
    words.push_str(match reach {
        Reach::Never => "has no `",
        _ => "need not have `",
    })?;
    words.push_str(written_way(alloc, rest)?.as_str())?;
    words.push('`')?;
    match (reach, rest) {
        (Reach::Never, _) => add_keys(alloc, scope, known, &mut words)?,
        (_, [Segment::Index(_), ..]) => words.push_str("; items are counted from 0")?,
        _ => {}
    }
    if is_path(rest) && !scope.sees_paths() {
        words.push_str("; paths are seen by what makes a command alone")?;
    }
    Ok(words)
}

// `NAME is TYPE, and `, or `NAME ` if nothing is known.
fn described(alloc: Global, name: &str, known: Known<'_>) -> Result<String, AllocError> {
    match known_words(alloc, known)? {
        Some(kind) => format!(in alloc; "`{name}` is {kind}, and "),
        None => format!(in alloc; "`{name}` "),
    }
}

fn add_keys(
    alloc: Global,
    scope: &Scope<'_>,
    known: Known<'_>,
    words: &mut String,
) -> Result<(), AllocError> {
    match keys_words(alloc, known, scope.sees_paths())? {
        Some(keys) => {
            words.push_str("; ")?;
            words.push_str(keys.as_str())
        }
        None => Ok(()),
    }
}

// Whether a reference ends with a key that has a path.
fn is_path(segments: &[Segment]) -> bool {
    match segments.last() {
        Some(Segment::Key(key)) => matches!(key.as_str(), "path" | "dirname" | "location"),
        _ => false,
    }
}

// ---- texts

/// A text as it is written, but for how the keys of its references are.
pub fn written(alloc: Global, template: &Template) -> Result<String, AllocError> {
    let mut text = String::new(alloc);
    for part in template.parts() {
        match part {
            Part::Plain(plain) => text.push_str(plain.as_str())?,
            Part::Referred(reference) => add_reference(reference, &mut text)?,
        }
    }
    Ok(text)
}

fn add_reference(reference: &Reference, text: &mut String) -> Result<(), AllocError> {
    text.push_str("$(")?;
    text.push_str(reference.symbol.as_str())?;
    for segment in reference.segments.as_slice() {
        add_segment(segment, text)?;
    }
    text.push(')')
}

fn written_way(alloc: Global, segments: &[Segment]) -> Result<String, AllocError> {
    let mut text = String::new(alloc);
    for segment in segments {
        add_segment(segment, &mut text)?;
    }
    Ok(text)
}

fn add_segment(segment: &Segment, text: &mut String) -> Result<(), AllocError> {
    match segment {
        Segment::Key(key) if is_symbol(key.as_str()) => {
            text.push('.')?;
            text.push_str(key.as_str())
        }
        Segment::Key(key) => {
            text.push_str("['")?;
            text.push_str(key.as_str())?;
            text.push_str("']")
        }
        Segment::Index(digits) => {
            text.push('[')?;
            text.push_str(digits.as_str())?;
            text.push(']')
        }
    }
}

// Whether a key can stand behind a dot.
fn is_symbol(key: &str) -> bool {
    !key.is_empty()
        && key
            .as_bytes()
            .iter()
            .all(|byte| byte.is_ascii_alphanumeric() || *byte == b'_')
}
