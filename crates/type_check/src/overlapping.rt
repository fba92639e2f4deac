//! Which types by their names may have a value in common with another.
ghost use Rattle.std.specs.Prelude.{◌≡◌};
ghost use Rattle.std.specs.List.{list_any};
ghost use Rattle.std.specs.Str.{bytes_eq};
ghost use Rattle.type_check.specs.Overlaps.{plain_meets, plains_overlap};

use cwl_types::{MemberType, PlainType};
use plain_data::{Items, Text};

/// Whether a type by its name overlaps a member.
pub(crate) fn plain_meets(kind: PlainType, other: &MemberType) -> bool
    ensures { result ≡ plain_meets kind other.now }
{
    match other {
        MemberType::Plain(found) => plains_overlap(kind, *found),
        MemberType::Array(_) => matches!(kind, PlainType::Any),
        MemberType::Enum(_) => matches!(kind, PlainType::Any | PlainType::Text),
    }
}

fn plains_overlap(kind: PlainType, other: PlainType) -> bool
    ensures { result ≡ plains_overlap kind other }
{
    match (kind, other) {
        (PlainType::Null, PlainType::Null) => true,
        (PlainType::Null, _) | (_, PlainType::Null) => false,
        (PlainType::Any, _) | (_, PlainType::Any) => true,
        (PlainType::Boolean, PlainType::Boolean)
        | (PlainType::Int | PlainType::Long, PlainType::Int | PlainType::Long)
        | (PlainType::Text, PlainType::Text)
        | (PlainType::File, PlainType::File)
        | (PlainType::Directory, PlainType::Directory) => true,
        _ => false,
    }
}

/// Whether one of the texts is this one.
pub(crate) fn is_among(text: &Text, others: &Items<Text>) -> bool
    ensures { result ≡ list_any (λ other. bytes_eq other text.now) others.now }
{
    others
        .as_slice()
        .iter()
        .any(|other| other.as_str() == text.as_str())
}
