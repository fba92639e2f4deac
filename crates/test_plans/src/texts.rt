//! The text of a certificate, as a row gives it.

use plan_checker::{CertificateError, Charges, Graph, Plan, read_certificate};
use serde_json::Value as Json;
use std::alloc::{AllocError, Global};
use test_rows::{Row, RowFault};

/// The certificate that a row gives, or the answer of its first bad line.
#[derive(Drop)]
pub(crate) enum Given {
    Certificate(Graph, Plan, Charges),
    BadLine(usize),
}

/// Reads the certificate of a row.
pub(crate) fn certificate_of(alloc: Global, row: &Row) -> Result<Given, RowFault> {
    let text = text_of(alloc, row)?;
    certificate_in(alloc, text.as_bytes())
}

/// Reads a certificate.
pub(crate) fn certificate_in(alloc: Global, bytes: &[u8]) -> Result<Given, RowFault> {
    match read_certificate(alloc, bytes) {
        Ok((graph, plan, charges)) => Ok(Given::Certificate(graph, plan, charges)),
        Err(CertificateError::NotACertificate(line)) => Ok(Given::BadLine(line)),
        Err(CertificateError::OutOfMemory) => Err(RowFault::OutOfMemory),
    }
}

/// The answer of a bad line.
pub(crate) fn bad_line(alloc: Global, line: usize) -> Result<String, RowFault> {
    Ok(format!(in alloc; "X1({line})")?)
}

/// The text of the certificate that a row gives.
fn text_of(alloc: Global, row: &Row) -> Result<String, RowFault> {
    if let Ok(text) = row.text("text") {
        return Ok(String::from_str(alloc, text)?);
    }
    if let Ok(line) = row.text("line") {
        return Ok(repeated(alloc, line, row.natural("count")?)?);
    }
    listed(alloc, row.list("jobs")?)
}

/// A certificate with so many jobs of the same line.
fn repeated(alloc: Global, line: &str, count: u64) -> Result<String, AllocError> {
    let mut text = format!(in alloc; "cwl-plan 1\njobs {count}\n")?;
    for _ in 0..count {
        text.push_str(line)?;
        text.push_str("\n")?;
    }
    text.push_str("end\n")?;
    Ok(text)
}

/// A certificate with jobs of these lines.
fn listed(alloc: Global, lines: &[Json]) -> Result<String, RowFault> {
    let count = lines.len();
    let mut text = format!(in alloc; "cwl-plan 1\njobs {count}\n")?;
    for line in lines {
        text.push_str(line.as_str().unwrap_or("?"))?;
        text.push_str("\n")?;
    }
    text.push_str("end\n")?;
    Ok(text)
}
