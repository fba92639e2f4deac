//! What a reference can reach, as far as types tell before there is a value (CWL v1.2, "Parameter references").

use crate::value_words::type_words;
use cwl_types::{MemberType, PlainType};
use param_refs::Segment;
use plain_data::Items;
use std::alloc::{AllocError, Global};

/// What is known of a value before it is there.
#[derive(Clone, Copy, Drop)]
pub enum Known<'a> {
    Nothing,
    Null,
    File,
    /// It is of one of these types.
    Types(&'a Items<MemberType>),
}

/// Whether a value has what keys and indices lead to.
#[derive(Clone, Copy, Debug, Drop, PartialEq, Eq)]
pub enum Reach {
    Always,
    /// Some values of the type have it, and others have not.
    Maybe,
    Never,
}

/// A key of a File or Directory.
#[derive(Clone, Copy, Drop)]
enum FileKey {
    /// A text, which is always there.
    Text(&'static str),
    /// A text of a path, which only what makes a command may see.
    Path(&'static str),
    /// A text that need not be there.
    MaybeText(&'static str),
    /// A number that need not be there.
    MaybeWhole(&'static str),
    /// A list that need not be there.
    MaybeList(&'static str),
}

static FILE_KEYS: [FileKey; 11] = [
    FileKey::Text("basename"),
    FileKey::MaybeText("checksum"),
    FileKey::Text("class"),
    FileKey::MaybeText("contents"),
    FileKey::Path("dirname"),
    FileKey::Path("location"),
    FileKey::Text("nameext"),
    FileKey::Text("nameroot"),
    FileKey::Path("path"),
    FileKey::MaybeList("secondaryFiles"),
    FileKey::MaybeWhole("size"),
];

static FOLDER_KEYS: [FileKey; 5] = [
    FileKey::Text("basename"),
    FileKey::Text("class"),
    FileKey::MaybeList("listing"),
    FileKey::Path("location"),
    FileKey::Path("path"),
];

/// Whether a value has what these segments lead to, where the paths of files are seen or not.
pub fn reach_of(known: Known<'_>, segments: &[Segment], sees_paths: bool) -> Reach {
    match known {
        _ if segments.is_empty() => Reach::Always,
        Known::Nothing => Reach::Maybe,
        Known::Null => Reach::Never,
        Known::File => of_keys(&FILE_KEYS, segments, sees_paths),
        Known::Types(types) => of_types(types, segments, sees_paths),
    }
}

// What all of the types agree on.
#[cycle(reaching)]
fn of_types(types: &Items<MemberType>, segments: &[Segment], sees_paths: bool) -> Reach {
    let mut found = None;
    for member in types.as_slice() {
        let reach = of_type(member, segments, sees_paths);
        found = Some(agreed(found, reach));
    }
    found.unwrap_or(Reach::Maybe)
}

#[cycle(reaching)]
fn of_type(member: &MemberType, segments: &[Segment], sees_paths: bool) -> Reach {
    if segments.is_empty() {
        return Reach::Always;
    }
    match member {
        MemberType::Plain(kind) => of_plain(*kind, segments, sees_paths),
        MemberType::Enum(_) => of_text(segments),
        MemberType::Array(array) => match segments {
            [Segment::Index(_), rest @ ..] => doubted(of_types(&array.items, rest, sees_paths)),
            [Segment::Key(key)] if key.as_str() == "length" => Reach::Always,
            _ => Reach::Never,
        },
    }
}

fn agreed(before: Option<Reach>, reach: Reach) -> Reach {
    match before {
        Some(other) if other != reach => Reach::Maybe,
        _ => reach,
    }
}

// A list or a text may be shorter.
fn doubted(reach: Reach) -> Reach {
    match reach {
        Reach::Never => Reach::Never,
        Reach::Always | Reach::Maybe => Reach::Maybe,
    }
}

fn of_plain(kind: PlainType, segments: &[Segment], sees_paths: bool) -> Reach {
    match kind {
        PlainType::File => of_keys(&FILE_KEYS, segments, sees_paths),
        PlainType::Directory => of_keys(&FOLDER_KEYS, segments, sees_paths),
        PlainType::Text => of_text(segments),
        PlainType::Any => Reach::Maybe,
        PlainType::Null | PlainType::Boolean | PlainType::Int | PlainType::Long => Reach::Never,
    }
}

// An index of a text leads to a text.
fn of_text(segments: &[Segment]) -> Reach {
    let is_by_index = segments
        .iter()
        .all(|segment| matches!(segment, Segment::Index(_)));
    if is_by_index {
        Reach::Maybe
    } else {
        Reach::Never
    }
}

fn of_keys(keys: &[FileKey], segments: &[Segment], sees_paths: bool) -> Reach {
    let [Segment::Key(name), rest @ ..] = segments else {
        return Reach::Never;
    };
    for key in keys {
        if name_of(*key) == name.as_str() && is_seen(*key, sees_paths) {
            return of_key(*key, rest);
        }
    }
    Reach::Never
}

fn name_of(key: FileKey) -> &'static str {
    match key {
        FileKey::Text(name)
        | FileKey::Path(name)
        | FileKey::MaybeText(name)
        | FileKey::MaybeWhole(name)
        | FileKey::MaybeList(name) => name,
    }
}

fn is_seen(key: FileKey, sees_paths: bool) -> bool {
    sees_paths || !matches!(key, FileKey::Path(_))
}

fn of_key(key: FileKey, rest: &[Segment]) -> Reach {
    match key {
        FileKey::Text(_) | FileKey::Path(_) if rest.is_empty() => Reach::Always,
        _ if rest.is_empty() => Reach::Maybe,
        FileKey::MaybeWhole(_) => Reach::Never,
        FileKey::MaybeList(_) => Reach::Maybe,
        FileKey::Text(_) | FileKey::Path(_) | FileKey::MaybeText(_) => of_text(rest),
    }
}

/// What a value is known to be, in words; nothing where nothing is known.
pub fn known_words(alloc: Global, known: Known<'_>) -> Result<Option<String>, AllocError> {
    match known {
        Known::Nothing => Ok(None),
        Known::Null => Ok(Some(String::from_str(alloc, "null")?)),
        Known::File => Ok(Some(String::from_str(alloc, "File")?)),
        Known::Types(types) => Ok(Some(type_words(alloc, types)?)),
    }
}

/// The keys of the Files or Directories that a value is, or has as items, in words; nothing where it has neither.
pub fn keys_words(
    alloc: Global,
    known: Known<'_>,
    sees_paths: bool,
) -> Result<Option<String>, AllocError> {
    match kind_in(known) {
        Some(PlainType::File) => { Ok(Some(key_words(alloc, "a File", &FILE_KEYS, sees_paths)?)) }
        Some(PlainType::Directory) => {
            Ok(Some(key_words(alloc, "a Directory", &FOLDER_KEYS, sees_paths)?))
        }
        _ => Ok(None),
    }
}

fn key_words(
    alloc: Global,
    what: &str,
    keys: &[FileKey],
    sees_paths: bool,
) -> Result<String, AllocError> {
    let mut words = format!(in alloc; "{what} has")?;
    for key in keys {
        if is_seen(*key, sees_paths) {
            words.push_str(" `")?;
            words.push_str(name_of(*key))?;
            words.push('`')?;
        }
    }
    Ok(words)
}

fn kind_in(known: Known<'_>) -> Option<PlainType> {
    match known {
        Known::File => Some(PlainType::File),
        Known::Types(types) => kind_among(types),
        Known::Nothing | Known::Null => None,
    }
}

// The first File or Directory among types, and among those of items.
#[cycle(kinds)]
fn kind_among(types: &Items<MemberType>) -> Option<PlainType> {
    for member in types.as_slice() {
        if let Some(kind) = kind_of_member(member) {
            return Some(kind);
        }
    }
    None
}

#[cycle(kinds)]
fn kind_of_member(member: &MemberType) -> Option<PlainType> {
    match member {
        MemberType::Plain(PlainType::File) => Some(PlainType::File),
        MemberType::Plain(PlainType::Directory) => Some(PlainType::Directory),
        MemberType::Array(array) => kind_among(&array.items),
        MemberType::Plain(_) | MemberType::Enum(_) => None,
    }
}
