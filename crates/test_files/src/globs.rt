use staging::{GlobError, Pattern};
use std::alloc::Global;
use test_rows::{Row, RowFault};

/// Whether a pattern matches a name, or the code of what is wrong with the pattern.
pub(crate) fn answer(alloc: Global, row: &Row) -> Result<String, RowFault> {
    let name = row.text("name")?;
    let text = match Pattern::read(alloc, row.text("pattern")?) {
        Ok(pattern) => answer_text(pattern.matches(name)),
        Err(GlobError::Refused(fault)) => fault.code(),
        Err(GlobError::OutOfMemory) => return Err(RowFault::OutOfMemory),
    };
    Ok(String::from_str(alloc, text)?)
}

fn answer_text(is_match: bool) -> &'static str {
    if is_match { "true" } else { "false" }
}
