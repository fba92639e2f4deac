//! Which files may be beside a File, and which in a Directory.
ghost use Rattle.std.specs.Prelude.{◌≡◌, ◌≢◌, Ok, Err, IfOk, IfErr};
ghost use Rattle.std.specs.List.{list_all};
ghost use Rattle.cwl_value.specs.Reading.{secondary_read, listing_read};
ghost use Rattle.cwl_value.specs.Secondary.{is_secondary, is_file, is_new, fit_beside as fits_beside, fit_inside as fits_inside};
ghost use Rattle.cwl_value.specs.declared.refusal.ValueRefusal.TheVariants.{OutOfMemory};

use crate::copy::items_by_value;
use crate::distinct::{is_taken, names_differ};
use crate::refusal::{FileField, ValueRefusal};
use crate::value::Value;
use plain_data::{Items, SharedItems, Text};
use std::alloc::{AllocError, Global};

/// The secondary files of a File of this name.
pub(crate) fn secondary_of(
    alloc: Global,
    name: &Option<Text>,
    listed: Option<SharedItems<Value>>,
) -> Result<Items<Value>, ValueRefusal>
    ensures ok { IfOk result (λ vs. secondary_read name.now listed ≡ Ok vs) }
    ensures err { IfErr result (λ e. e ≢ OutOfMemory → secondary_read name.now listed ≡ Err e) }
{
    match listed {
        None => Ok(Items::new(alloc)),
        Some(values) => if fit_beside(alloc, name, values.as_items())? {
            Ok(items_by_value(alloc, values)?)
        } else {
            Err(ValueRefusal::BadFile(FileField::SecondaryFiles))
        },
    }
}

/// The listing of a Directory.
pub(crate) fn listing_of(
    alloc: Global,
    listed: Option<SharedItems<Value>>,
) -> Result<Option<Items<Value>>, ValueRefusal>
    ensures ok { IfOk result (λ vs. listing_read listed ≡ Ok vs) }
    ensures err { IfErr result (λ e. e ≢ OutOfMemory → listing_read listed ≡ Err e) }
{
    match listed {
        None => Ok(None),
        Some(values) => if fit_inside(alloc, values.as_items())? {
            Ok(Some(items_by_value(alloc, values)?))
        } else {
            Err(ValueRefusal::BadFile(FileField::Listing))
        },
    }
}

fn fit_beside(alloc: Global, name: &Option<Text>, values: &Items<Value>) -> Result<bool, AllocError>
    ensures { IfOk result (λ fit. fit ≡ fits_beside name.now values.now) }
{
    let values = values.as_slice();
    Ok(all_secondary(values) && is_new(name, values) && names_differ(alloc, values)?)
}

fn fit_inside(alloc: Global, values: &Items<Value>) -> Result<bool, AllocError>
    ensures { IfOk result (λ fit. fit ≡ fits_inside values.now) }
{
    let values = values.as_slice();
    Ok(all_files(values) && names_differ(alloc, values)?)
}

fn secondary(value: &Value) -> bool
    ensures { result ≡ is_secondary value.now }
{
    match value {
        Value::FileVal(file) => file.secondary.is_empty(),
        Value::DirVal(_) => true,
        _ => false,
    }
}

fn file(value: &Value) -> bool
    ensures { result ≡ is_file value.now }
{
    matches!(value, Value::FileVal(_) | Value::DirVal(_))
}

fn is_new(name: &Option<Text>, values: &[Value]) -> bool
    ensures { result ≡ is_new name.now values.now }
{
    match name {
        None => true,
        Some(name) => !is_taken(name, values),
    }
}

fn all_secondary(values: &[Value]) -> bool
    ensures { result ≡ list_all is_secondary values.now }
{
    values.iter().all(|value| secondary(value))
}

fn all_files(values: &[Value]) -> bool
    ensures { result ≡ list_all is_file values.now }
{
    values.iter().all(|value| file(value))
}
