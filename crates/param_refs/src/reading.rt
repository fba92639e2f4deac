//! From a text to its template.
ghost use Rattle.std.specs.Prelude.{◌≡◌, ◌≢◌, Ok, Err, IfOk, IfErr, MatchOption, ◌<◌, length, List, ℕ, ◌∷◌};
ghost use Rattle.param_refs.specs.declared.fault.RefFault.{RefFault};
ghost use Rattle.param_refs.specs.declared.fault.RefError.TheVariants.{Refused};
ghost use Rattle.param_refs.specs.Grammar.{Reads};
ghost use Rattle.param_refs.specs.Parsed.{parsed};
ghost use Rattle.param_refs.specs.Refused.{IsError};
ghost use Rattle.param_refs.specs.inner.Scans.{PartThen};

use crate::fault::{RefError, RefFault};
use crate::opening::{is_escaped, opening};
use crate::scanner::reference;
use crate::template::{Part, Template};
use plain_data::{Items, Text};
use std::alloc::Global;

impl Template {
    /// Reads a text (CWL v1.2, "Parameter references").
    ///
    /// A text that has `$(` or `${` and a backslash anywhere is refused as `BackslashOut`. Else `${`, or a `$(` that
    /// begins no reference, is refused as `NotAReference`. Any other text stands for itself.
    pub fn read(alloc: Global, text: &str) -> Result<Template, RefError>
        ensures ok { IfOk result (λ template. parsed text.now ≡ Ok template) }
        ensures err { IfErr result (IsError (parsed text.now)) }
    {
        if is_escaped(text) {
            return Err(RefError::Refused(RefFault::BackslashOut));
        }
        let parts = parts(alloc, text)?;
        Ok(Template { parts, alloc })
    }
}

fn parts(alloc: Global, text: &str) -> Result<Items<Part>, RefError>
    ensures ok { IfOk result (λ parts. Reads text.now (Ok parts)) }
    ensures err { IfErr result (λ e. (fault : RefFault) → e ≡ Refused fault
        → Reads text.now (Err fault)) }
{
    let mut found = Items::new(alloc);
    let mut rest = text;
    while !rest.is_empty() {
        let (part, after) = part(alloc, rest)?;
        found.push(part)?;
        rest = after;
    }
    Ok(found)
}

// The first part of a text that isn't empty, and what follows it.
fn part(alloc: Global, text: &str) -> Result<(Part, &str), RefError>
    requires { 0 < length text.now }
    ensures ok { IfOk result (λ taken. PartThen text.now taken.0 taken.1.now) }
    ensures err { IfErr result (λ e. (fault : RefFault) → e ≡ Refused fault
        → Reads text.now (Err fault)) }
{
    let (plain, rest) = text.split_at(opening(text));
    if !plain.is_empty() {
        let copy = Text::from_text(alloc, plain)?;
        return Ok((Part::Plain(copy), rest));
    }
    let Some(inside) = inside(text) else {
        return Err(RefError::Refused(RefFault::NotAReference));
    };
    let (reference, rest) = reference(alloc, inside)?;
    Ok((Part::Referred(reference), rest))
}

// What follows the `$(` that a text begins with.
fn inside(text: &str) -> Option<&str>
    ensures { MatchOption result ((rest : List ℕ) → text.now ≢ 36 ∷ 40 ∷ rest) (λ inside. text.now
        ≡ 36 ∷ 40 ∷ inside.now) }
{
    let rest = text.strip_prefix('$')?;
    rest.strip_prefix('(')
}
