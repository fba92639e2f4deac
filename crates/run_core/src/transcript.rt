//! What was asked and answered so far.
ghost use Rattle.std.specs.Prelude.{◌≡◌, ◌≤◌, ◌<◌, ◌+◌, ◌++◌, ◌∷◌, [], length, map, OnOk, OnErr};
ghost use Rattle.run_core.specs.inner.Answered.{most_answers, pair_of};

use crate::{Answer, Request};
use http_server::Log;
use std::alloc::AllocError;
use std::mem;

/// What was asked and answered so far. Proofs read the list, which takes no memory; when the machine runs it is a count.
#[derive(Drop)]
pub(crate) struct Transcript {
    pub past: Log<Request, Answer>,
    pub count: u64,
    ghost counted: { count ≡ length past.items },
}

impl Transcript {
    /// Nothing was asked yet.
    pub(crate) fn new() -> Transcript
        ensures { map pair_of result.past.items ≡ [] }
    {
        Transcript {
            past: Log::new(),
            count: 0,
        }
    }

    /// Adds a request with its answer.
    pub(crate) fn note(&mut self, request: Request, answer: Answer)
        requires { self.old.count < most_answers }
        ensures items { map pair_of self.new.past.items ≡ map pair_of self.old.past.items
            ++ record { request = request; answer = answer } ∷ [] }
        ensures count { self.new.count ≡ self.old.count + 1 }
    {
        let longer = Transcript {
            past: self.past.and(&request, &answer),
            count: self.count + 1,
        };
        mem::drop(request);
        mem::drop(answer);
        mem::drop(mem::replace(self, longer));
    }

    /// Whether so many more can be counted; an error if not.
    pub(crate) fn room_for(&self, more: usize) -> Result<(), AllocError>
        ensures room { OnOk result (self.now.count + more ≤ most_answers) }
        ensures none { OnErr result (most_answers < self.now.count + more) }
    {
        match self.count.checked_add(more as u64) {
            Some(_) => Ok(()),
            None => Err(AllocError),
        }
    }
}
