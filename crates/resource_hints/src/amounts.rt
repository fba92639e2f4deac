//! How much a hint asks for.
ghost use Rattle.std.specs.Prelude.{◌≡◌, option_map, option_and_then};
ghost use Rattle.cwl_process.specs.Simple.{value_seen};
ghost use Rattle.serde_json.specs.View.{number_view, view};
ghost use Rattle.resource_hints.specs.Amounts.{amount_in, amount_of, at_least, given, resources_in, rounded_up};

use serde_json::{Number, Value};
use std::num::saturating_f64_to_u64;

/// What a hint asks for at least, for each job: nothing where it says nothing that is understood.
#[derive(Clone, Copy, Drop)]
pub struct Resources {
    pub cores: Option<u64>,
    /// Memory in MiB.
    pub ram: Option<u64>,
    /// Room for temporary files in MiB.
    pub tmpdir: Option<u64>,
}

// 2^64
const TOO_MUCH: f64 = 18446744073709551616.0;

pub(crate) fn resources_in(hint: &Value) -> Resources
    ensures { result ≡ resources_in (view hint.now) }
{
    Resources {
        cores: at_least("coresMin", "coresMax", hint),
        ram: at_least("ramMin", "ramMax", hint),
        tmpdir: at_least("tmpdirMin", "tmpdirMax", hint),
    }
}

fn at_least(least: &str, most: &str, hint: &Value) -> Option<u64>
    ensures { result ≡ at_least least.now most.now (view hint.now) }
{
    match given(least, hint) {
        Some(value) => amount_in(value),
        None => amount_in(given(most, hint)?),
    }
}

fn given<'v>(name: &str, hint: &'v Value) -> Option<&'v Value>
    ensures { option_map value_seen result ≡ given name.now (view hint.now) }
{
    match hint.get(name) {
        Some(Value::Null) => None,
        found => found,
    }
}

fn amount_in(value: &Value) -> Option<u64>
    ensures { result ≡ amount_in (view value.now) }
{
    amount_of(value.as_number()?)
}

fn amount_of(number: &Number) -> Option<u64>
    ensures { result ≡ amount_of (number_view number.now) }
{
    if number.is_f64() {
        return rounded_up(number.as_f64()?);
    }
    number.as_u64()
}

fn rounded_up(amount: f64) -> Option<u64>
    ensures { result ≡ rounded_up amount }
{
    if 0.0 <= amount && amount < TOO_MUCH {
        Some(saturating_f64_to_u64(amount.ceil()))
    } else {
        None
    }
}
