//! Whether vertices are needed, as flags that lie side by side: many are compared at once.
ghost use Rattle.std.specs.Prelude.{◌≡◌, ◌≤◌, ◌↔◌, IfOk, IsTrue, length};
ghost use Rattle.run_plan.specs.inner.Kept.{AreSameBetween, flags_in};

use plan_checker::Vertex;
use std::alloc::{AllocError, Global};

/// How many flags are compared at once.
const BLOCK: usize = 64;

/// Whether each of these vertices is needed.
pub(crate) fn flags_of(alloc: Global, vertices: &[Vertex]) -> Result<Vec<bool>, AllocError>
    ensures { IfOk result (λ flags. flags.items ≡ flags_in vertices.now) }
{
    let mut flags = Vec::with_capacity(alloc, vertices.len())?;
    for vertex in vertices {
        flags.push_reserved(vertex.needed);
    }
    Ok(flags)
}

/// The first of these flags, from a number on, that is another one now; else how many there are.
pub(crate) fn first_other(before: &[bool], needed: &[bool], from: usize) -> usize
    requires count { length before.now ≤ length needed.now }
    requires from { from ≤ length before.now }
    ensures within { (from ≤ result) × (result ≤ length before.now) }
    ensures same { AreSameBetween from result before.now needed.now }
{
    for number in past_same(before, needed, from)..before.len() {
        if before[number] != needed[number] {
            return number;
        }
    }
    before.len()
}

/// How far the flags are the same, from a number on, by blocks that are each compared at once.
fn past_same(before: &[bool], needed: &[bool], from: usize) -> usize
    requires count { length before.now ≤ length needed.now }
    requires from { from ≤ length before.now }
    ensures within { (from ≤ result) × (result ≤ length before.now) }
    ensures same { AreSameBetween from result before.now needed.now }
{
    let mut number = from;
    while number + BLOCK <= before.len() {
        let end = number + BLOCK;
        if !are_same(&before[number..end], &needed[number..end]) {
            return number;
        }
        number = end;
    }
    number
}

/// Whether these are the same flags.
fn are_same(some: &[bool], others: &[bool]) -> bool
    ensures { IsTrue result ↔ (some.now ≡ others.now) }
{
    some == others
}
