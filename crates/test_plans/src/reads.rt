//! The text of a certificate, read and written.

use crate::texts::{Given, bad_line, certificate_in, certificate_of};
use plan_checker::{Charges, Graph, Plan, check, write_certificate};
use std::alloc::Global;
use test_rows::{Row, RowFault, quoted};

/// How many jobs a row's certificate has.
pub(crate) fn read(alloc: Global, row: &Row) -> Result<String, RowFault> {
    match certificate_of(alloc, row)? {
        Given::Certificate(graph, _, _) => {
            let count = graph.vertices().len();
            Ok(format!(in alloc; "{count}")?)
        }
        Given::BadLine(line) => bad_line(alloc, line),
    }
}

/// The first bad line of each strict prefix of a text, from the empty one on; 0 for one that is a certificate.
pub(crate) fn prefixes(alloc: Global, row: &Row) -> Result<String, RowFault> {
    let text = row.text("text")?.as_bytes();
    let mut lines = Vec::new(alloc);
    for end in 0..text.len() {
        lines.push(first_bad(alloc, &text[..end])?)?;
    }
    Ok(format!(in alloc; "{lines:?}")?)
}

/// The first bad line of a text, or 0.
fn first_bad(alloc: Global, text: &[u8]) -> Result<usize, RowFault> {
    match certificate_in(alloc, text)? {
        Given::Certificate(_, _, _) => Ok(0),
        Given::BadLine(line) => Ok(line),
    }
}

/// The text of a row's certificate, written again.
pub(crate) fn written(alloc: Global, row: &Row) -> Result<String, RowFault> {
    match certificate_of(alloc, row)? {
        Given::Certificate(graph, plan, charges) => { checked_text(alloc, &graph, &plan, &charges) }
        Given::BadLine(line) => bad_line(alloc, line),
    }
}

/// The text of a certificate that is checked.
pub(crate) fn checked_text(
    alloc: Global,
    graph: &Graph,
    plan: &Plan,
    charges: &Charges,
) -> Result<String, RowFault> {
    match check(graph, plan, charges) {
        Ok(_) => {
            let text = write_certificate(alloc, graph, plan, charges)?;
            quoted(alloc, text.as_str())
        }
        Err(_) => Err(RowFault::BadArgument),
    }
}
