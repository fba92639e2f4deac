//! What the steps of a workflow give, found without going down their list.
ghost use Rattle.std.specs.Prelude.{◌≡◌, IfOk, option_map};
ghost use Rattle.std.specs.Option.{option_copied};
ghost use Rattle.plain_data.specs.ByName.{value_at};
ghost use Rattle.document_links.specs.declared.process.Step.{out-Step};
ghost use Rattle.workflow_check.specs.Scope.{file_type, lists, step_gift};
ghost use Rattle.workflow_check.specs.inner.Indexed.{IsMapOf};
ghost use Rattle.workflow_check.specs.inner.Seen.{gift_seen};

use crate::index::put_new;
use crate::scope::{Given, Outputs, outputs_of, step_given};
use crate::texts::Texts;
use cwl_types::MemberType;
use document_links::Step;
use plain_data::{Items, Text};
use std::alloc::{AllocError, Global};
use std::collections::BTreeMap;
use std::marker::Model;

/// A step with an index of what it gives, which contracts see as the step.
#[derive(Drop)]
pub(crate) struct StepOutputs<'p> {
    step: &'p Step,
    listed: Texts<'p>,
    given: Outputs<'p>,
}

impl<'p> Model for StepOutputs<'p> {
    ghost use Rattle.document_links.specs.declared.process.Step.{Step};
    ghost use Rattle.document_links.specs.contracts.process.Step as contract;
    ghost use Rattle.std.specs.Coded.{codes};
    ghost use Rattle.workflow_check.specs.inner.Ports.{IsOutputsOf};

    ghost Value = { Step };

    ghost coded = { Prim.hlevel (codes, contract.the_row.coded) };

    ghost view = { λ fields. fields.step.now };

    ghost invariant = { λ fields. IsOutputsOf fields.listed fields.given fields.step.now };
}

impl<'p> StepOutputs<'p> {
    fn of(alloc: Global, step: &'p Step) -> Result<StepOutputs<'p>, AllocError>
        ensures { IfOk result (λ outputs. outputs ≡ step.now) }
    {
        let listed = Texts::of(alloc, step.outputs.as_slice())?;
        let given = outputs_of(alloc, &step.process)?;
        Ok(StepOutputs {
            step,
            listed,
            given,
        })
    }

    /// Whether the step lists the output.
    pub(crate) fn lists(&self, name: &Text) -> bool
        ensures { result ≡ lists (out-Step self.now).outputs name.now }
    {
        self.listed.has(name)
    }

    /// What the step gives under a name, where its process has such an output.
    pub(crate) fn given(&self, name: &Text, file: &'p Items<MemberType>) -> Option<Given<'p>>
        requires { file.now ≡ file_type }
        ensures { option_map gift_seen result ≡ step_gift name.now self.now }
    {
        step_given(self.step, &self.given, name, file)
    }
}

/// The steps of a workflow under their ids, which contracts see as the list of them.
#[derive(Drop)]
pub(crate) struct Steps<'p> {
    entries: &'p [(Text, Step)],
    outputs: BTreeMap<&'p str, StepOutputs<'p>>,
}

impl<'p> Model for Steps<'p> {
    ghost use Rattle.std.specs.Prelude.{List, ℕ};
    ghost use Rattle.document_links.specs.declared.process.Step.{Step};
    ghost use Rattle.document_links.specs.contracts.process.Step as contract;
    ghost use Rattle.std.specs.Coded.{codes};
    ghost use Rattle.workflow_check.specs.inner.Indexed.{IsMapOf};

    ghost Value = { List (List ℕ × Step) };

    ghost coded = { Prim.hlevel (codes, contract.the_row.coded) };

    ghost view = { λ fields. fields.entries.now };

    ghost invariant = { λ fields. IsMapOf fields.outputs fields.entries.now };
}

impl<'p> Steps<'p> {
    /// An index of the steps, and of the outputs of each.
    pub(crate) fn of(alloc: Global, entries: &'p [(Text, Step)]) -> Result<Steps<'p>, AllocError>
        ensures { IfOk result (λ steps. steps ≡ entries.now) }
    {
        let outputs = outputs_of_each(alloc, entries)?;
        Ok(Steps { entries, outputs })
    }

    /// The step of an id.
    pub(crate) fn find(&self, id: &Text) -> Option<&StepOutputs<'p>>
        ensures { option_copied result ≡ value_at id.now self.now }
    {
        self.outputs.get(id.as_str())
    }

    /// The steps in their order.
    pub(crate) fn as_slice(&self) -> &'p [(Text, Step)]
        ensures { result.now ≡ self.now }
    {
        self.entries
    }
}

fn outputs_of_each<'p>(
    alloc: Global,
    entries: &'p [(Text, Step)],
) -> Result<BTreeMap<&'p str, StepOutputs<'p>>, AllocError>
    ensures { IfOk result (λ outputs. IsMapOf outputs entries.now) }
{
    let mut outputs = BTreeMap::new(alloc);
    for entry in entries {
        let given = StepOutputs::of(alloc, &entry.1)?;
        put_new(&mut outputs, &entry.0, given)?;
    }
    Ok(outputs)
}
