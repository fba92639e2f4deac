//! Reads requirements and hints that act on jobs.
ghost use Rattle.std.specs.Prelude.{◌≡◌, ◌⊎◌, None, IfOk, option_map, map, codes};
ghost use Rattle.std.specs.Option.{option_copied};
ghost use Rattle.serde_json.specs.Find.{get};
ghost use Rattle.serde_json.specs.View.{view};
ghost use Rattle.document_table.specs.Entries.{MayHaveForm, entry_seen};
ghost use Rattle.document_table.specs.declared.form.Form.TheVariants.{Hints, Requirements};
ghost use Rattle.cwl_process.specs.Acting.{acting_at, asked_in, environment_of, inside, last_of, nothing_asked, requirement_at, reuse_of, variable_in, variable_text, variables_in};
ghost use Rattle.cwl_process.specs.Simple.{value_seen};

use crate::entries::Entries;
use crate::from_entry::{FromEntry, entries_at};
use crate::simple::{flag_at, read_any_text};
use crate::templates::template_of;
use crate::tool::{Acting, Asked, Variable};
use document_table::{Kind, entries, main_field};
use plain_data::{Shared, Text};
use serde_json::Value;
use std::alloc::{AllocError, Global};

impl Asked {
    /// The variables of the environment that are in force.
    pub fn environment(&self) -> Option<&Entries<Variable>>
        ensures { option_copied result ≡ environment_of self.now }
    {
        match &self.requirements.environment {
            Some(environment) => Some(environment.as_ref()),
            None => shared_by(&self.hints.environment),
        }
    }

    /// Whether an earlier result may be used.
    pub fn reuse(&self) -> bool
        ensures { result ≡ reuse_of self.now }
    {
        match self.requirements.reuse {
            Some(reuse) => reuse,
            None => self.hints.reuse.unwrap_or(true),
        }
    }
}

fn shared_by<T: Drop>(value: &Option<Shared<T>>) -> Option<&T>
    ensures { option_copied result ≡ value.now }
{
    match value {
        Some(value) => Some(value.as_ref()),
        None => None,
    }
}

/// Nothing is asked around a document.
pub fn nothing_asked() -> Asked
    ensures { result ≡ nothing_asked }
{
    Asked {
        requirements: Acting {
            environment: None,
            reuse: None,
        },
        hints: Acting {
            environment: None,
            reuse: None,
        },
    }
}

/// What a process or step asks, inside of what is asked around it.
pub fn read_asked(alloc: Global, around: &Asked, value: &Value) -> Result<Asked, AllocError>
    requires requirements { MayHaveForm Requirements (get (codes "requirements") (view value.now)) }
    requires hints { MayHaveForm Hints (get (codes "hints") (view value.now)) }
    ensures { IfOk result (λ asked. asked ≡ asked_in around.now (view value.now)) }
{
    let requirements = read_acting(alloc, &around.requirements, "requirements", value)?;
    let hints = read_acting(alloc, &around.hints, "hints", value)?;
    Ok(Asked {
        requirements,
        hints,
    })
}

fn read_acting(
    alloc: Global,
    around: &Acting,
    field: &str,
    value: &Value,
) -> Result<Acting, AllocError>
    requires { MayHaveForm Requirements (get field.now (view value.now))
        ⊎ MayHaveForm Hints (get field.now (view value.now)) }
    ensures { IfOk result
        (λ acting. acting ≡ inside around.now (acting_at field.now (view value.now))) }
{
    let own = read_environment(alloc, field, value)?;
    let environment = match own {
        Some(own) => Some(Shared::new(alloc, own)?),
        None => inherited(&around.environment)?,
    };
    let reuse = match requirement_at(alloc, field, "WorkReuse", value)? {
        Some(found) => Some(flag_at("enableReuse", true, found)),
        None => around.reuse,
    };
    Ok(Acting { environment, reuse })
}

// A workflow's variables may be as many as its steps, so a copy for each step would grow with the square of the document.
fn inherited(
    environment: &Option<Shared<Entries<Variable>>>,
) -> Result<Option<Shared<Entries<Variable>>>, AllocError>
    ensures { IfOk result (λ shared. shared ≡ environment.now) }
{
    match environment {
        None => Ok(None),
        Some(environment) => Ok(Some(environment.share()?)),
    }
}

#[tactic(auto, using(crate::proofs::Requirements::found_variables))]
fn read_environment(
    alloc: Global,
    field: &str,
    value: &Value,
) -> Result<Option<Entries<Variable>>, AllocError>
    requires { MayHaveForm Requirements (get field.now (view value.now))
        ⊎ MayHaveForm Hints (get field.now (view value.now)) }
    ensures { IfOk result (λ environment. environment ≡ option_map variables_in
        (requirement_at field.now (codes "EnvVarRequirement") (view value.now))) }
{
    match requirement_at(alloc, field, "EnvVarRequirement", value)? {
        None => Ok(None),
        Some(found) => Ok(Some(entries_at(alloc, "", Kind::Variable, "envDef", found)?)),
    }
}

impl FromEntry for Variable {
    ghost meaning = { λ id. variable_in };

    fn from_entry(alloc: Global, id: &str, value: &Value) -> Result<Variable, AllocError> {
        let _ = id;
        let written = variable_text(alloc, value)?;
        let value = template_of(alloc, written.as_str())?;
        Ok(Variable { written, value })
    }
}

fn variable_text(alloc: Global, value: &Value) -> Result<Text, AllocError>
    ensures { IfOk result (λ text. text ≡ variable_text (view value.now)) }
{
    match main_field("envValue", value) {
        None => Text::from_text(alloc, ""),
        Some(found) => read_any_text(alloc, found),
    }
}

/// The requirement of that class, of those in the field.
pub(crate) fn requirement_at<'v>(
    alloc: Global,
    field: &str,
    class: &str,
    value: &'v Value,
) -> Result<Option<&'v Value>, AllocError>
    ensures { IfOk result (λ found. option_map value_seen found
        ≡ requirement_at field.now class.now (view value.now)) }
{
    match value.get(field) {
        None => Ok(None),
        Some(found) => {
            let all = entries(alloc, Kind::PlainRequirement, found)?;
            Ok(last_of(class, all.as_slice()))
        }
    }
}

fn last_of<'v>(class: &str, all: &[(&'v str, &'v Value)]) -> Option<&'v Value>
    ensures { option_map value_seen result ≡ last_of class.now None (map entry_seen all.now) }
{
    let mut last = None;
    for entry in all {
        if entry.0 == class {
            last = Some(entry.1);
        }
    }
    last
}
