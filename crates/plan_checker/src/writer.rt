//! The text of a certificate, written.

ghost use Rattle.std.specs.Prelude.{◌≡◌, ℕ, ◌<◌, [], ◌∷◌, ◌++◌, length, All, IfOk, OnOk, string_bytes};
ghost use Rattle.std.specs.Fmt.{decimal};
ghost use Rattle.plan_checker.specs.Charges.{IsCounted};
ghost use Rattle.plan_checker.specs.Format.{certificate_text, flag, letter, line, load_field, pairs, row, spaced, AreSmallAt, IsSmall, IsTextOf};
ghost use Rattle.plan_checker.specs.inner.Claim.{graph_of, marks_of, charges_of, IsSized};

use crate::charges::Charges;
use crate::claim::Claim;
use crate::graph::Graph;
use crate::plan::{Mark, Plan};
use std::alloc::{AllocError, Global};

/// Writes the text of a certificate: one that `read_certificate` takes, and that is no other certificate's.
pub fn write_certificate(
    alloc: Global,
    graph: &Graph,
    plan: &Plan,
    charges: &Charges,
) -> Result<String, AllocError>
    requires marks_counted { length plan.now.marks ≡ length graph.now }
    requires charges_counted { IsCounted graph.now charges.now }
    ensures text { IfOk result (λ text. string_bytes text
        ≡ certificate_text graph.now plan.now.marks charges.now) }
    ensures read_back { IfOk result (λ text. IsTextOf (string_bytes text) graph.now plan.now.marks
        charges.now) }
{
    let claim = Claim {
        graph,
        plan,
        charges,
    };
    let count = graph.vertices().len();
    let mut text = String::from_str(alloc, "cwl-plan 1\njobs")?;
    push_number(&mut text, count as u64)?;
    text.push_str("\n")?;
    for i in 0..count {
        push_row(&mut text, &claim, i)?;
    }
    text.push_str("end\n")?;
    Ok(text)
}

/// Writes the line of a vertex.
fn push_row(text: &mut String, claim: &Claim, i: usize) -> Result<(), AllocError>
    requires there { i < length (graph_of claim.now) }
    requires sized { IsSized claim.now }
    ensures text { OnOk result (string_bytes text.new ≡ string_bytes text.old
        ++ line (row (graph_of claim.now) (marks_of claim.now) (charges_of claim.now) i)) }
    ensures small { OnOk result (AreSmallAt (charges_of claim.now) i) }
{
    let vertex = claim.vertex(i);
    push_start(text, claim.mark(i), vertex.needed)?;
    push_load(text, vertex.load)?;
    push_number(text, vertex.compute)?;
    push_number(text, claim.enter(i))?;
    push_number(text, claim.through(i))?;
    push_number(text, claim.pay(i))?;
    push_number(text, vertex.parents.len() as u64)?;
    push_pairs(text, vertex.parents.as_slice(), claim.passes(i))?;
    text.push_str("\n")?;
    Ok(())
}

/// Writes a number behind a space.
fn push_number(text: &mut String, number: u64) -> Result<(), AllocError>
    ensures { OnOk result (string_bytes text.new ≡ string_bytes text.old ++ spaced (number ∷ [])) }
{
    write!(text, " {number}")
}

/// Writes the mark and whether the vertex is needed.
fn push_start(text: &mut String, mark: Mark, needed: bool) -> Result<(), AllocError>
    ensures { OnOk result (string_bytes text.new ≡ string_bytes text.old
        ++ letter mark ∷ 32 ∷ flag needed ∷ []) }
{
    let letter = match mark {
        Mark::Load => "L",
        Mark::Compute => "C",
        Mark::Prune => "P",
    };
    text.push_str(letter)?;
    text.push_str(if needed { " 1" } else { " 0" })
}

/// Writes a load cost, or a dash where there is none.
fn push_load(text: &mut String, load: Option<u64>) -> Result<(), AllocError>
    ensures { OnOk result (string_bytes text.new ≡ string_bytes text.old ++ load_field load) }
{
    match load {
        Some(cost) => push_number(text, cost),
        None => text.push_str(" -"),
    }
}

/// Writes each parent and what is passed to it.
fn push_pairs(text: &mut String, parents: &[usize], amounts: &[u64]) -> Result<(), AllocError>
    requires { length amounts.now ≡ length parents.now }
    ensures text { OnOk result (string_bytes text.new ≡ string_bytes text.old
        ++ spaced (pairs parents.now amounts.now)) }
    ensures small { OnOk result (All IsSmall amounts.now) }
{
    for (i, parent) in parents.iter().enumerate() {
        push_number(text, *parent as u64)?;
        push_number(text, amounts[i])?;
    }
    Ok(())
}
