ghost use Rattle.std.specs.Prelude.{◌≡◌, IfOk};
ghost use Rattle.cwl_program.specs.Certificates.{IsCheck, IsJudgement, IsVerdict, ok_line};

use end_words::{Exit, Refusal};
use plain_data::Text;
use plan_checker::{CertificateError, Charges, Graph, Plan, check, read_certificate};
use run_given::{bytes_of, stopped, unread};
use std::alloc::{AllocError, Global};
use std::rt::Files;

/// Says what the certificate in a file shows, or that on standard input.
#[tactic(auto, using(crate::proofs::Ends::check_stops))]
pub fn exit_of_check<R: AllocGlobal + Files + Input>(rt: &R, file: &str) -> Result<Exit, AllocError>
    ensures { IfOk result (IsCheck file.now) }
{
    match bytes_of(rt, file) {
        Ok(bytes) => verdict(rt.alloc(), bytes.as_slice()),
        Err(trouble) => stopped(unread(rt.alloc(), trouble, file)),
    }
}

/// Says whether these bytes are a certificate, which shows its plan to be a cheapest one: `ok` with its cost, the first
/// rule that is broken, or that they are no certificate's text.
fn verdict(alloc: Global, bytes: &[u8]) -> Result<Exit, AllocError>
    ensures { IfOk result (IsVerdict bytes.now) }
{
    match read_certificate(alloc, bytes) {
        Ok(read) => judged(alloc, &read),
        Err(CertificateError::NotACertificate(line)) => Ok(Exit::Refused(Refusal::Certificate(
            line,
        ))),
        Err(CertificateError::OutOfMemory) => Err(AllocError),
    }
}

fn judged(alloc: Global, read: &(Graph, Plan, Charges)) -> Result<Exit, AllocError>
    ensures { IfOk result (IsJudgement read.now.0 read.now.1.marks read.now.2) }
{
    match check(&read.0, &read.1, &read.2) {
        Ok(cost) => said_ok(alloc, cost),
        Err(broken) => Ok(Exit::Broken(broken)),
    }
}

fn said_ok(alloc: Global, cost: u64) -> Result<Exit, AllocError>
    ensures { IfOk result (λ exit. exit ≡ Exit.Output (ok_line cost)) }
{
    Ok(Exit::Output(ok_text(alloc, cost)?))
}

fn ok_text(alloc: Global, cost: u64) -> Result<Text, AllocError>
    ensures { IfOk result (λ text. text ≡ ok_line cost) }
{
    Ok(Text::from_string(format!(in alloc; "ok {cost}")?))
}
