use cwl_value::name_parts;
use file_values::secondary_name;
use std::alloc::Global;
use test_rows::{Row, RowFault, quoted};

pub(crate) fn answer(alloc: Global, row: &Row) -> Result<String, RowFault> {
    let name = row.text("name")?;
    match row.call() {
        "name_parts" => {
            let (root, extension) = name_parts(name);
            pair(alloc, root, extension)
        }
        "secondary_name" => beside(alloc, row.text("pattern")?, name),
        _ => Err(RowFault::UnknownCall),
    }
}

fn beside(alloc: Global, pattern: &str, name: &str) -> Result<String, RowFault> {
    let beside = secondary_name(alloc, pattern, name)?;
    quoted(alloc, beside.as_str())
}

/// Two texts as a list.
pub(crate) fn pair(alloc: Global, first: &str, second: &str) -> Result<String, RowFault> {
    let first = quoted(alloc, first)?;
    let second = quoted(alloc, second)?;
    Ok(format!(in alloc; "[{first},{second}]")?)
}
