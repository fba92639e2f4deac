use crate::fault::RowFault;
use crate::row::Row;
use std::alloc::Global;
use std::io;
use std::process::ExitCode;

/// The calls that a program of rows knows.
pub trait Answers {
    /// The answer of a row: JSON without space, or a code.
    fn answer(&self, alloc: Global, row: &Row) -> Result<String, RowFault>;
}

/// Writes a line for each line of the standard input: a heading as it is, and a row's name with its answer.
///
/// The status is 0 where every row has an answer, and else 1.
pub fn answer_rows<R: Input + Print + AllocGlobal, C: Answers>(
    rt: &R,
    calls: &C,
) -> io::Result<ExitCode> {
    let mut status = ExitCode::SUCCESS;
    for line in rt.lines(rt.alloc()) {
        if !line_answered(rt, calls, line?.as_str())? {
            status = ExitCode::FAILURE;
        }
    }
    Ok(status)
}

/// Writes the line that answers a line, and says whether it is an answer.
pub fn line_answered<R: Print + AllocGlobal, C: Answers>(
    rt: &R,
    calls: &C,
    line: &str,
) -> io::Result<bool> {
    if line.is_empty() || line.starts_with('#') {
        rt.println(line)?;
        return Ok(true);
    }
    match Row::read(rt.alloc(), line) {
        Ok(row) => row_answered(rt, calls, &row),
        Err(_) => not_answered(rt, "?"),
    }
}

fn row_answered<R: Print + AllocGlobal, C: Answers>(
    rt: &R,
    calls: &C,
    row: &Row,
) -> io::Result<bool> {
    match calls.answer(rt.alloc(), row) {
        Ok(answer) => {
            rt.println(format_args!("{} {answer}", row.name()))?;
            Ok(true)
        }
        Err(_) => not_answered(rt, row.name()),
    }
}

fn not_answered(rt: &impl Print, name: &str) -> io::Result<bool> {
    rt.println(format_args!("{name} ?"))?;
    Ok(false)
}
