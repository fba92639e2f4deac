//! What a text of a document has to be.
ghost use Rattle.std.specs.Prelude.{◌≡◌, ◌==◌, ◌||◌, [], ◌∷◌, length, not, codes};
ghost use Rattle.std.specs.List.{list_any, after_last};
ghost use Rattle.document_table.specs.Texts.{has_byte, has_hash, plain_id, is_id, is_listed, is_step_id, is_source, is_type_text, is_one_of, pick_values, link_merges, scatter_methods, types_ending};

pub(crate) fn has_byte(text: &str, byte: u8) -> bool
    ensures { result ≡ has_byte byte text.now }
{
    text.as_bytes().iter().any(|c| *c == byte)
}

/// What an id stands for: of one that begins with `#`, the part after its last `/`, or after the `#`
/// where there is no `/`.
pub fn plain_id(text: &str) -> &str
    ensures { result.now ≡ plain_id text.now }
{
    match text.strip_prefix('#') {
        None => text,
        Some(rest) => last_part(rest),
    }
}

fn last_part(text: &str) -> &str
    ensures { result.now ≡ after_last (λ c. c == 47) text.now }
{
    match text.rfind('/') {
        None => text,
        Some(at) => &text[at + 1..],
    }
}

/// Whether a text begins with `#`.
pub fn has_hash(text: &str) -> bool
    ensures { result ≡ has_hash text.now }
{
    text.starts_with('#')
}

/// Whether a text that may stand for an id that begins with `#` doesn't stand for an empty one.
pub(crate) fn is_listed(text: &str) -> bool
    ensures { result ≡ is_listed text.now }
{
    !has_hash(text) || !plain_id(text).is_empty()
}

/// Whether a text is an id: it is not empty, and has neither `/` nor `#`.
pub(crate) fn is_id(text: &str) -> bool
    ensures { result ≡ is_id text.now }
{
    !text.is_empty() && !has_byte(text, b'/') && !has_byte(text, b'#')
}

/// Whether a text is the id of a step, which has no `[` either.
pub(crate) fn is_step_id(text: &str) -> bool
    ensures { result ≡ is_step_id text.now }
{
    is_id(text) && !has_byte(text, b'[')
}

pub(crate) fn is_scatter_method(text: &str) -> bool
    ensures { result ≡ is_one_of scatter_methods text.now }
{
    matches!(
        text,
        "dotproduct" | "nested_crossproduct" | "flat_crossproduct"
    )
}

pub(crate) fn is_link_merge(text: &str) -> bool
    ensures { result ≡ is_one_of link_merges text.now }
{
    matches!(text, "merge_nested" | "merge_flattened")
}

pub(crate) fn is_pick_value(text: &str) -> bool
    ensures { result ≡ is_one_of pick_values text.now }
{
    matches!(
        text,
        "first_non_null" | "the_only_non_null" | "all_non_null"
    )
}

/// Whether a text names a type: one by its name, an array of it, or either with null.
pub(crate) fn is_type_text(text: &str) -> bool
    ensures { result ≡ is_type_text text.now }
{
    is_plain_type(text)
        || is_array_type(text)
        || is_optional_type(text)
        || is_optional_array_type(text)
}

fn is_plain_type(text: &str) -> bool
    ensures { result ≡ is_one_of (types_ending (codes "")) text.now }
{
    matches!(
        text,
        "null" | "boolean" | "int" | "long" | "string" | "File" | "Directory" | "Any"
    )
}

fn is_array_type(text: &str) -> bool
    ensures { result ≡ is_one_of (types_ending (codes "[]")) text.now }
{
    matches!(
        text,
        "null[]"
            | "boolean[]"
            | "int[]"
            | "long[]"
            | "string[]"
            | "File[]"
            | "Directory[]"
            | "Any[]"
    )
}

fn is_optional_type(text: &str) -> bool
    ensures { result ≡ is_one_of (types_ending (codes "?")) text.now }
{
    matches!(
        text,
        "null?" | "boolean?" | "int?" | "long?" | "string?" | "File?" | "Directory?" | "Any?"
    )
}

fn is_optional_array_type(text: &str) -> bool
    ensures { result ≡ is_one_of (types_ending (codes "[]?")) text.now }
{
    matches!(
        text,
        "null[]?"
            | "boolean[]?"
            | "int[]?"
            | "long[]?"
            | "string[]?"
            | "File[]?"
            | "Directory[]?"
            | "Any[]?"
    )
}

/// Whether a text names a source: `name`, or `step/name`.
pub fn is_source(text: &str) -> bool
    ensures { result ≡ is_source text.now }
{
    if is_id(text) {
        return true;
    }
    match text.split_once('/') {
        None => false,
        Some((step, name)) => is_id(step) && is_id(name),
    }
}
