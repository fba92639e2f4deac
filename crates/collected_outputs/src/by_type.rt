//! The value that an output has by its type.
ghost use Rattle.std.specs.Prelude.{◌≡◌, [], Ok, IfOk, IfErr};
ghost use Rattle.std.specs.List.{list_any};
ghost use Rattle.collected_outputs.specs.ByType as spec;
ghost use Rattle.collected_outputs.specs.Gives.{Refuses};

use crate::fault::{CollectFault, Stop};
use cwl_types::MemberType;
use cwl_value::Value;
use plain_data::Items;
use type_check::fits;

/// The list of what matches, where the type has a list; else the one that does, or null.
pub(crate) fn value_by_type(
    members: &Items<MemberType>,
    values: Items<Value>,
) -> Result<Value, Stop>
    ensures ok { IfOk result (λ v. spec.value_by_type members.now values ≡ Ok v) }
    ensures err { IfErr result (Refuses (spec.value_by_type members.now values)) }
{
    if has_array(members.as_slice()) {
        return Ok(Value::of_items(values));
    }
    sole_value(members, values)
}

fn sole_value(members: &Items<MemberType>, values: Items<Value>) -> Result<Value, Stop>
    ensures ok { IfOk result (λ v. spec.sole_value members.now values ≡ Ok v) }
    ensures err { IfErr result (Refuses (spec.sole_value members.now values)) }
{
    let mut values = values;
    match values.pop() {
        None => null_or_none(members),
        Some(last) => {
            if values.is_empty() {
                Ok(last)
            } else {
                Err(Stop::Refused(CollectFault::TooMany))
            }
        }
    }
}

fn null_or_none(members: &Items<MemberType>) -> Result<Value, Stop>
    ensures ok { IfOk result (λ v. spec.sole_value members.now [] ≡ Ok v) }
    ensures err { IfErr result (Refuses (spec.sole_value members.now [])) }
{
    if fits(&Value::Null, members) {
        Ok(Value::Null)
    } else {
        Err(Stop::Refused(CollectFault::NoMatch))
    }
}

fn has_array(members: &[MemberType]) -> bool
    ensures { result ≡ list_any spec.is_array members.now }
{
    members.iter().any(|member| is_array(member))
}

fn is_array(member: &MemberType) -> bool
    ensures { result ≡ spec.is_array member.now }
{
    matches!(member, MemberType::Array(_))
}
