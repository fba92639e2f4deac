//! The text of a certificate, read.

ghost use Rattle.std.specs.Prelude.{◌≡◌, ◌≤◌, IfOk, IfErr, MatchOption, MatchResult};
ghost use Rattle.plan_checker.specs.Format.{IsFirstBad, IsRefusedText, IsTextOf};
ghost use Rattle.plan_checker.specs.inner.Reading.{BeginsWithCount, BeginsWithHead, BeginsWithLines, NoCount, StopsBy};

use crate::certificate_error::CertificateError;
use crate::charges::Charges;
use crate::draft::Draft;
use crate::graph::{Graph, MOST_VERTICES, fits};
use crate::number::{after, read_number};
use crate::plan::Plan;
use crate::row::Row;
use std::alloc::Global;
use std::mem;

/// Reads a certificate: the one whose text these very bytes are. Where they are no certificate's text, the refusal
/// names the first line that no certificate has behind the lines before it, counted from 1.
pub fn read_certificate(
    alloc: Global,
    bytes: &[u8],
) -> Result<(Graph, Plan, Charges), CertificateError>
    ensures read { IfOk result (λ read. IsTextOf bytes.now read.0 read.1.marks read.2) }
    ensures refused { IfErr result (IsRefusedText bytes.now) }
{
    let (count, text) = read_head(bytes)?;
    let (draft, rest) = read_rows(alloc, count, text)?;
    let Some(rest) = after(rest, b"end\n".as_slice()) else {
        return Err(CertificateError::NotACertificate(count + 3));
    };
    if !rest.is_empty() {
        return Err(CertificateError::NotACertificate(count + 4));
    }
    let (graph, plan, charges) = draft.certificate(alloc)?;
    Ok((graph, plan, charges))
}

/// Reads the first two lines: how many vertices there are, and what follows.
fn read_head(bytes: &[u8]) -> Result<(usize, &[u8]), CertificateError>
    ensures { MatchResult result (λ read. BeginsWithHead bytes.now read.0 read.1.now)
        (IsRefusedText bytes.now) }
{
    let Some(text) = after(bytes, b"cwl-plan 1\n".as_slice()) else {
        return Err(CertificateError::NotACertificate(1));
    };
    let Some((count, rest)) = read_count(text) else {
        return Err(CertificateError::NotACertificate(2));
    };
    Ok((count, rest))
}

/// Reads the line that counts the vertices, and gives what follows it.
fn read_count(text: &[u8]) -> Option<(usize, &[u8])>
    ensures { MatchOption result (NoCount text.now)
        (λ read. BeginsWithCount text.now read.0 read.1.now) }
{
    let Some(text) = after(text, b"jobs".as_slice()) else {
        return None;
    };
    let Some((count, rest)) = read_number(text) else {
        return None;
    };
    let Some(rest) = after(rest, b"\n".as_slice()) else {
        return None;
    };
    if count > MOST_VERTICES as u64 {
        return None;
    }
    Some((count as usize, rest))
}

/// Reads the lines of the vertices, the first of which is line 3, and gives what follows them.
fn read_rows(alloc: Global, count: usize, text: &[u8]) -> Result<(Draft, &[u8]), CertificateError>
    requires { count ≤ MOST_VERTICES }
    ensures { MatchResult result (λ read. BeginsWithLines text.now count read.0.vertices
        read.0.plan.marks read.0.charges read.1.now) (StopsBy text.now count) }
{
    let mut draft = Draft::new(alloc);
    let mut entries = 0;
    let mut rest = text;
    for i in 0..count {
        let Some((row, after)) = Row::read(alloc, rest, i)? else {
            mem::drop(draft);
            return Err(CertificateError::NotACertificate(i + 3));
        };
        if !fits(i, entries, &row.job) {
            mem::drop(row);
            mem::drop(draft);
            return Err(CertificateError::NotACertificate(i + 3));
        }
        entries += row.job.parents.len();
        draft.push(row)?;
        rest = after;
    }
    Ok((draft, rest))
}
