//! What a launcher is told of a job.
ghost use Rattle.std.specs.Prelude.{◌≡◌, ◌++◌, ◌∷◌, [], IfOk, OnOk};
ghost use Rattle.resource_hints.specs.Told.{amount_told, resources_told, told_by, told_of, tool_place, variable};

use crate::amounts::Resources;
use command_line::Variable;
use cwl_value::{JobPlace, place_text};
use plain_data::{Items, Keyed, Text};
use std::alloc::{AllocError, Global};

/// Returns the variables for a launcher of a job: none if no hint counts at its tool; else DEPAROHI_PLACE, and DEPAROHI_CORES, DEPAROHI_RAM_MB
/// and DEPAROHI_TMPDIR_MB if the hint asks for it.
pub fn variables_for(
    alloc: Global,
    asked: &Keyed<Resources>,
    job: &JobPlace,
) -> Result<Items<Variable>, AllocError>
    ensures { IfOk result (λ variables. variables ≡ told_of asked.now job.now) }
{
    let place = tool_place(alloc, job)?;
    match asked.get(place.as_str()) {
        Some(resources) => told_by(alloc, job, resources),
        None => Ok(Items::new(alloc)),
    }
}

fn told_by(
    alloc: Global,
    job: &JobPlace,
    resources: &Resources,
) -> Result<Items<Variable>, AllocError>
    ensures { IfOk result (λ variables. variables ≡ told_by job.now resources.now) }
{
    let mut variables = Items::new(alloc);
    add(
        alloc,
        "DEPAROHI_PLACE",
        place_text(alloc, job)?,
        &mut variables,
    )?;
    add_resources(alloc, resources, &mut variables)?;
    Ok(variables)
}

fn add_resources(
    alloc: Global,
    resources: &Resources,
    variables: &mut Items<Variable>,
) -> Result<(), AllocError>
    ensures { OnOk result (variables.new ≡ variables.old ++ resources_told resources.now) }
{
    add_amount(alloc, "DEPAROHI_CORES", resources.cores, variables)?;
    add_amount(alloc, "DEPAROHI_RAM_MB", resources.ram, variables)?;
    add_amount(alloc, "DEPAROHI_TMPDIR_MB", resources.tmpdir, variables)
}

fn add_amount(
    alloc: Global,
    name: &str,
    amount: Option<u64>,
    variables: &mut Items<Variable>,
) -> Result<(), AllocError>
    ensures { OnOk result (variables.new ≡ variables.old ++ amount_told name.now amount) }
{
    match amount {
        None => Ok(()),
        Some(amount) => {
            let digits = Text::from_string(format!(in alloc; "{amount}")?);
            add(alloc, name, digits, variables)
        }
    }
}

fn add(
    alloc: Global,
    name: &str,
    text: Text,
    variables: &mut Items<Variable>,
) -> Result<(), AllocError>
    ensures { OnOk result (variables.new ≡ variables.old ++ variable name.now text ∷ []) }
{
    match Text::from_text(alloc, name) {
        Ok(name) => variables.push(Variable { name, text }),
        Err(error) => Err(error),
    }
}

fn tool_place(alloc: Global, job: &JobPlace) -> Result<Text, AllocError>
    ensures { IfOk result (λ place. place ≡ tool_place job.now) }
{
    let mut text = String::from_str(alloc, "main")?;
    for segment in job.as_slice() {
        text.push('/')?;
        text.push_str(segment.step.as_str())?;
    }
    Ok(Text::from_string(text))
}
