ghost use Rattle.std.specs.Prelude.{◌≡◌};
ghost use Rattle.proc_host.specs.ExitClass.{class_of, has as has_code, unlisted as unlisted_class};

use cwl_process::ExitCodes;
use std::marker::Model;

/// The right to a started child. It can't be dropped: it has to be spent, by `Host::close`.
pub struct Ticket {
    number: u64,
}

impl Model for Ticket {
    ghost use Rattle.std.specs.Prelude.{ℕ};

    ghost Value = { ℕ };

    ghost view = { λ fields. fields.number };
}

impl Ticket {
    /// For a host that has started a child, under a number that none of its running children has.
    pub fn new(number: u64) -> Ticket
        ensures { result ≡ number }
    {
        Self { number }
    }

    pub fn number(&self) -> u64
        ensures { result ≡ self.now }
    {
        self.number
    }

    /// For a host that closes the child.
    pub fn spend(self) -> u64
        ensures { result ≡ self }
    {
        let Ticket { number } = self;
        number
    }
}

/// How a child ended: its ticket, its exit code where it has one (a child that a signal ended has none), and
/// how long it ran.
#[derive(Clone, Copy, Debug, PartialEq, Eq)]
pub struct ChildEnd {
    pub ticket: u64,
    pub code: Option<i32>,
    pub millis: u64,
}

/// What an end means for the job (CWL v1.2, CommandLineTool: successCodes, temporaryFailCodes and permanentFailCodes).
#[derive(Clone, Copy, Debug, PartialEq, Eq)]
pub enum ExitClass {
    Success,
    Temporary,
    Permanent,
}

/// The class of an end: `Temporary` by a signal; else that of the first of the tool's lists that has the code, in the
/// order success, temporary, permanent; else `Success` at 0 and `Permanent` at every other code.
pub fn classify(codes: &ExitCodes, code: Option<i32>) -> ExitClass
    ensures { result ≡ class_of codes.now code }
{
    let Some(code) = code else {
        return ExitClass::Temporary;
    };
    if has(codes.success.as_slice(), code) {
        ExitClass::Success
    } else if has(codes.temporary.as_slice(), code) {
        ExitClass::Temporary
    } else if has(codes.permanent.as_slice(), code) {
        ExitClass::Permanent
    } else {
        unlisted(code)
    }
}

fn has(codes: &[i32], code: i32) -> bool
    ensures { result ≡ has_code code codes.now }
{
    codes.contains(&code)
}

fn unlisted(code: i32) -> ExitClass
    ensures { result ≡ unlisted_class code }
{
    match code {
        0 => ExitClass::Success,
        _ => ExitClass::Permanent,
    }
}
