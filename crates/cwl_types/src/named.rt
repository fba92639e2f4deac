//! The types that a text names.
ghost use Rattle.std.specs.Prelude.{◌≡◌, map, option_map};
ghost use Rattle.cwl_types.specs.Named.{named_at, named_rows, named_type, row_seen};

use crate::types::PlainType;

/// A text that names a type.
#[derive(Clone, Copy, Drop)]
pub struct NamedType {
    pub text: &'static str,
    pub plain: PlainType,
    /// A list of the plain type.
    pub array: bool,
    /// That, or null.
    pub optional: bool,
}

static NAMED: [NamedType; 32] = [
    NamedType {
        text: "null",
        plain: PlainType::Null,
        array: false,
        optional: false,
    },
    NamedType {
        text: "boolean",
        plain: PlainType::Boolean,
        array: false,
        optional: false,
    },
    NamedType {
        text: "int",
        plain: PlainType::Int,
        array: false,
        optional: false,
    },
    NamedType {
        text: "long",
        plain: PlainType::Long,
        array: false,
        optional: false,
    },
    NamedType {
        text: "string",
        plain: PlainType::Text,
        array: false,
        optional: false,
    },
    NamedType {
        text: "File",
        plain: PlainType::File,
        array: false,
        optional: false,
    },
    NamedType {
        text: "Directory",
        plain: PlainType::Directory,
        array: false,
        optional: false,
    },
    NamedType {
        text: "Any",
        plain: PlainType::Any,
        array: false,
        optional: false,
    },
    NamedType {
        text: "null[]",
        plain: PlainType::Null,
        array: true,
        optional: false,
    },
    NamedType {
        text: "boolean[]",
        plain: PlainType::Boolean,
        array: true,
        optional: false,
    },
    NamedType {
        text: "int[]",
        plain: PlainType::Int,
        array: true,
        optional: false,
    },
    NamedType {
        text: "long[]",
        plain: PlainType::Long,
        array: true,
        optional: false,
    },
    NamedType {
        text: "string[]",
        plain: PlainType::Text,
        array: true,
        optional: false,
    },
    NamedType {
        text: "File[]",
        plain: PlainType::File,
        array: true,
        optional: false,
    },
    NamedType {
        text: "Directory[]",
        plain: PlainType::Directory,
        array: true,
        optional: false,
    },
    NamedType {
        text: "Any[]",
        plain: PlainType::Any,
        array: true,
        optional: false,
    },
    NamedType {
        text: "null?",
        plain: PlainType::Null,
        array: false,
        optional: true,
    },
    NamedType {
        text: "boolean?",
        plain: PlainType::Boolean,
        array: false,
        optional: true,
    },
    NamedType {
        text: "int?",
        plain: PlainType::Int,
        array: false,
        optional: true,
    },
    NamedType {
        text: "long?",
        plain: PlainType::Long,
        array: false,
        optional: true,
    },
    NamedType {
        text: "string?",
        plain: PlainType::Text,
        array: false,
        optional: true,
    },
    NamedType {
        text: "File?",
        plain: PlainType::File,
        array: false,
        optional: true,
    },
    NamedType {
        text: "Directory?",
        plain: PlainType::Directory,
        array: false,
        optional: true,
    },
    NamedType {
        text: "Any?",
        plain: PlainType::Any,
        array: false,
        optional: true,
    },
    NamedType {
        text: "null[]?",
        plain: PlainType::Null,
        array: true,
        optional: true,
    },
    NamedType {
        text: "boolean[]?",
        plain: PlainType::Boolean,
        array: true,
        optional: true,
    },
    NamedType {
        text: "int[]?",
        plain: PlainType::Int,
        array: true,
        optional: true,
    },
    NamedType {
        text: "long[]?",
        plain: PlainType::Long,
        array: true,
        optional: true,
    },
    NamedType {
        text: "string[]?",
        plain: PlainType::Text,
        array: true,
        optional: true,
    },
    NamedType {
        text: "File[]?",
        plain: PlainType::File,
        array: true,
        optional: true,
    },
    NamedType {
        text: "Directory[]?",
        plain: PlainType::Directory,
        array: true,
        optional: true,
    },
    NamedType {
        text: "Any[]?",
        plain: PlainType::Any,
        array: true,
        optional: true,
    },
];

fn named_rows() -> &'static [NamedType]
    ensures { map row_seen result.now ≡ named_rows }
{
    &NAMED
}

/// What a text names, if it names a type.
pub(crate) fn named_type(text: &str) -> Option<NamedType>
    ensures { option_map row_seen result ≡ named_type text.now }
{
    named_at(named_rows(), text)
}

fn named_at(rows: &[NamedType], text: &str) -> Option<NamedType>
    ensures { option_map row_seen result ≡ named_at text.now (map row_seen rows.now) }
{
    for row in rows {
        if row.text == text {
            return Some(*row);
        }
    }
    None
}
