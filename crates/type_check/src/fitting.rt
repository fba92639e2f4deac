//! Which values a type has.
ghost use Rattle.std.specs.Prelude.{◌≡◌};
ghost use Rattle.std.specs.List.{list_all};
ghost use Rattle.type_check.specs.Fits.{fits as fits_of, fits_member, is_plain};

use crate::overlapping::is_among;
use cwl_types::{MemberType, PlainType};
use cwl_value::Value;
use plain_data::Items;

/// Says whether a value is one of a type's (CWL v1.2, Command Line Tool Description, `CWLType`).
///
/// `int` has the whole numbers of 32 bits, `long` all of them; `Any` has every value but null; an array has the lists whose items
/// fit its items' type; an enum has the texts that it lists. Takes no memory.
#[cycle(fitting)]
pub fn fits(value: &Value, members: &Items<MemberType>) -> bool
    ensures { result ≡ fits_of members.now value.now }
{
    for member in members.as_slice() {
        if fits_member(value, member) {
            return true;
        }
    }
    false
}

/// Says whether a value is one of a single member's. Takes no memory.
#[cycle(fitting)]
pub fn fits_member(value: &Value, member: &MemberType) -> bool
    ensures { result ≡ fits_member member.now value.now }
{
    match member {
        MemberType::Plain(kind) => is_plain(value, *kind),
        MemberType::Array(array) => match value {
            Value::List(items) => all_fit(items.as_items(), &array.items),
            _ => false,
        },
        MemberType::Enum(symbols) => match value {
            Value::Text(text) => is_among(text, symbols),
            _ => false,
        },
    }
}

#[cycle(fitting)]
fn all_fit(values: &Items<Value>, members: &Items<MemberType>) -> bool
    ensures { result ≡ list_all (fits_of members.now) values.now }
{
    for value in values.as_slice() {
        if !fits(value, members) {
            return false;
        }
    }
    true
}

fn is_plain(value: &Value, kind: PlainType) -> bool
    ensures { result ≡ is_plain kind value.now }
{
    match kind {
        PlainType::Null => matches!(value, Value::Null),
        PlainType::Boolean => matches!(value, Value::Bool(_)),
        PlainType::Int => match value {
            Value::Whole(number) => i32::try_from(*number).is_ok(),
            _ => false,
        },
        PlainType::Long => matches!(value, Value::Whole(_)),
        PlainType::Text => matches!(value, Value::Text(_)),
        PlainType::File => matches!(value, Value::FileVal(_)),
        PlainType::Directory => matches!(value, Value::DirVal(_)),
        PlainType::Any => !matches!(value, Value::Null),
    }
}
