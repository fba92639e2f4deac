//! What an input wants.
ghost use Rattle.std.specs.Prelude.{◌≡◌, option_map};
ghost use Rattle.input_forms.specs.Wanted as spec;

use cwl_process::InputType;
use cwl_types::{MemberType, PlainType};
use plain_data::Items;

/// The types of an input of a tool; none where it is a File at standard input.
pub fn types_of(kind: &InputType) -> Option<&Items<MemberType>>
    ensures { option_map (λ types. types.now) result ≡ spec.types_of kind.now }
{
    match kind {
        InputType::Stdin => None,
        InputType::Members(members) => Some(members),
    }
}

/// Whether no value has to be given for these types.
pub fn admits_null(types: Option<&Items<MemberType>>) -> bool
    ensures { result ≡ spec.admits_null (option_map (λ types. types.now) types.entry) }
{
    match types {
        None => false,
        Some(members) => may_be_null(members),
    }
}

fn may_be_null(members: &Items<MemberType>) -> bool
    ensures { result ≡ spec.may_be_null members.now }
{
    for member in members.as_slice() {
        if is_null(member) {
            return true;
        }
    }
    false
}

fn is_null(member: &MemberType) -> bool
    ensures { result ≡ spec.member_is_null member.now }
{
    match member {
        MemberType::Plain(kind) => matches!(kind, PlainType::Null),
        MemberType::Array(_) | MemberType::Enum(_) => false,
    }
}
