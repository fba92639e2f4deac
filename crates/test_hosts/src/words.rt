use crate::script::code_of;
use cwl_process::ExitCodes;
use plain_data::Items;
use proc_host::{ExitClass, HostFault, classify};
use std::alloc::Global;
use std::mem;
use test_rows::{AnswerText, Row, RowFault};

/// Writes the class of an exit code, by the row's lists of codes.
pub fn put_class(alloc: Global, row: &Row, out: &mut AnswerText) -> Result<(), RowFault> {
    let code = code_of(row.json("code")?)?;
    let codes = codes_of(alloc, row)?;
    let class = classify(&codes, code);
    mem::drop(codes);
    out.put_quoted(match class {
        ExitClass::Success => "Success",
        ExitClass::Temporary => "Temporary",
        ExitClass::Permanent => "Permanent",
    });
    Ok(())
}

fn codes_of(alloc: Global, row: &Row) -> Result<ExitCodes, RowFault> {
    let success = ints(alloc, row, "success")?;
    let temporary = ints(alloc, row, "temporary")?;
    let permanent = ints(alloc, row, "permanent")?;
    Ok(ExitCodes {
        success,
        temporary,
        permanent,
    })
}

// The codes of a list; none where it is absent.
fn ints(alloc: Global, row: &Row, name: &str) -> Result<Items<i32>, RowFault> {
    let mut codes = Items::new(alloc);
    if row.find(name).is_some() {
        for code in row.list(name)? {
            codes.push(code_of(code)?.ok_or(RowFault::BadArgument)?)?;
        }
    }
    Ok(codes)
}

/// Writes the code of a fault of the host.
pub fn put_fault_code(row: &Row, out: &mut AnswerText) -> Result<(), RowFault> {
    let fault = fault_named(row.text("fault")?).ok_or(RowFault::BadArgument)?;
    out.put(fault.code());
    Ok(())
}

fn fault_named(name: &str) -> Option<HostFault> {
    let fault = match name {
        "Measure" => HostFault::Measure,
        "Stage" => HostFault::Stage,
        "Start" => HostFault::Start,
        "Collect" => HostFault::Collect,
        "Scan" => HostFault::Scan,
        "Head" => HostFault::Head,
        "Fetch" => HostFault::Fetch,
        "Store" => HostFault::Store,
        "Deliver" => HostFault::Deliver,
        "Discard" => HostFault::Discard,
        _ => return None,
    };
    Some(fault)
}
