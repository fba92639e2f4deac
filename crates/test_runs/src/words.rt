use cwl_program::main_run;
use std::alloc::Global;
use std::str;
use test_rows::{Row, RowFault, quoted};

fn words_of(alloc: Global, row: &Row) -> Result<Vec<String>, RowFault> {
    let mut words = Vec::new(alloc);
    for word in row.list("words")? {
        let word = word.as_str().ok_or(RowFault::BadArgument)?;
        words.push(String::from_str(alloc, word)?)?;
    }
    Ok(words)
}

/// What the program answers and writes.
pub fn program(rt: &HostRuntime, row: &Row) -> Result<String, RowFault> {
    let alloc = rt.alloc();
    let words = words_of(alloc, row)?;
    let mut out = Vec::new(alloc);
    let mut err = Vec::new(alloc);
    let status = main_run(rt, words.as_slice(), "/bin", &mut out, &mut err);
    let out = written(alloc, out.as_slice())?;
    let err = written(alloc, err.as_slice())?;
    Ok(format!(in alloc; "{{\"status\":{status},\"out\":{out},\"err\":{err}}}")?)
}

fn written(alloc: Global, bytes: &[u8]) -> Result<String, RowFault> {
    match str::from_utf8(bytes) {
        Ok(text) => quoted(alloc, text),
        Err(_) => Err(RowFault::BadArgument),
    }
}
