//! What follows of values that have no fault.
ghost use Rattle.std.specs.Prelude.{◌≡◌, ℕ, List, Some, None, true, false, is_some, bytes_eq, codes};
ghost use Rattle.std.specs.List.{AllByRecursion};
ghost use Rattle.serde_json.specs.Data.{Data, Members, array, object};
ghost use Rattle.serde_json.specs.Find.{as_object, get};
ghost use Rattle.serde_json.specs.Written.{has_float};
ghost use Rattle.std.specs.List.{IsDistinct};
ghost use Rattle.std.specs.Map.{keys_of};
ghost use Rattle.serde_json.specs.Data.{Items};
ghost use Rattle.document_table.specs.Entries.{HasForm, IsOf, IsProcess, IsThere, MayHaveForm, entries};
ghost use Rattle.document_table.specs.Kept.{kept};
ghost use Rattle.document_table.specs.Laws.{DescriptionsDecideNothing, DocumentsSayTheirClass, DocumentsSayTheirVersion, EachFieldIsKnown, MapsStandForLists, RootsAreItems};
ghost use Rattle.document_table.specs.Documents.{table_fault};
ghost use Rattle.document_table.specs.Packed.{root_of};
ghost use Rattle.document_table.specs.Layouts.{layout_of, subject_of};
ghost use Rattle.document_table.specs.Table.{form_of, rows_of};
ghost use Rattle.document_table.specs.declared.form.Form.{Form};
ghost use Rattle.document_table.specs.declared.form.Form.TheVariants as form;
ghost use Rattle.document_table.specs.declared.form.Kind.{Kind};
ghost use Rattle.document_table.specs.declared.form.Kind.TheVariants as kind;
ghost use Rattle.document_table.specs.declared.layout.Layout.TheVariants.{Fields, KeyedFields};

/// The value of each field of an object has the form of its row.
pub fn fields_have_their_forms()
    ensures { (k : Kind) (name : List ℕ) (f : Form) (d : Data) → IsOf k d
        → form_of k name ≡ Some f → MayHaveForm f (get name d) }
{}

/// An object has each field that has to be there; under a key of a map, all but the one that the key
/// stands for.
#[tactic(auto, using(crate::proofs::Faultless::required_there, crate::proofs::Faultless::required_there_keyed))]
pub fn required_fields_are_there()
    ensures whole { (f : Form) (k : Kind) (ms : Members) → HasForm f (object ms)
        → layout_of f (object ms) ≡ Fields k
        → AllByRecursion (λ row. row.required ≡ true → IsThere row.name (object ms)) (rows_of k) }
    ensures keyed { (f : Form) (k : Kind) (ms : Members) → HasForm f (object ms)
        → layout_of f (object ms) ≡ KeyedFields k
        → AllByRecursion (λ row. row.required ≡ true → bytes_eq row.name (subject_of k) ≡ false
        → IsThere row.name (object ms)) (rows_of k) }
{}

/// What is in a list or a map of objects is such an object, or what may stand for one.
#[tactic(auto, using(crate::proofs::Faultless::entries_of))]
pub fn entries_have_their_form()
    ensures { (k : Kind) (d : Data) → HasForm (form.Objects k) d
        → AllByRecursion (λ e. IsOf k e.1) (entries k d) }
{}

/// No two objects of a list or a map have one subject, as it is understood.
#[tactic(auto, using(crate::proofs::Ids::list_ids_differ, crate::proofs::Ids::map_ids_differ))]
pub fn subjects_differ()
    ensures list { (k : Kind) (ds : Items) → HasForm (form.Objects k) (array ds)
        → IsDistinct bytes_eq (keys_of (entries k (array ds))) }
    ensures map { (k : Kind) (ms : Members) → HasForm (form.Objects k) (object ms)
        → IsDistinct bytes_eq (keys_of (entries k (object ms))) }
{}

/// A document stands for a tool or a workflow, as its class says; so is an item without a fault, and an object that a step runs.
#[tactic(auto, using(crate::proofs::Roots::root_is_process, crate::proofs::Faultless::process_has, crate::proofs::Faultless::run_of))]
pub fn processes_are_tools_or_workflows()
    ensures document { (d : Data) → table_fault d ≡ None → IsProcess (root_of d).process }
    ensures item { (d : Data) → HasForm form.Process d → IsProcess d }
    ensures run { (d : Data) → HasForm form.Run d → is_some (as_object d) ≡ true → IsProcess d }
{}

/// What a tool says has no fraction.
#[tactic(auto, using(crate::proofs::Whole::tool_whole))]
pub fn tools_say_no_fraction()
    ensures { (d : Data) → IsOf kind.Tool d → has_float (kept (form.Object kind.Tool) d) ≡ false }
{}

/// A document says the version v1.2, and the class of what it stands for is `CommandLineTool` or `Workflow`.
#[tactic(auto, using(crate::proofs::Roots::says_version, crate::proofs::Roots::says_class))]
pub fn documents_say_version_and_class()
    ensures version { DocumentsSayTheirVersion }
    ensures class { DocumentsSayTheirClass }
{}

/// A packed document stands for one of its items: the only one, or the one with the id `#main`, or else `main`.
#[tactic(auto, using(crate::proofs::Roots::roots_are_items))]
pub fn roots_are_items()
    ensures { RootsAreItems }
{}

/// An object has no field but those that the table has for its kind, those that describe, as `doc`, and extensions.
#[tactic(auto, using(crate::proofs::Known::each_field_is_known))]
pub fn each_field_is_known()
    ensures { EachFieldIsKnown }
{}

/// What describes an object, as `label`, and what an extension says of it decide nothing: with any value of such a name the object has
/// the same first fault, or none.
pub fn descriptions_decide_nothing()
    ensures { DescriptionsDecideNothing }
{}

/// A map of objects stands for a list of them, each with its key as its subject, and with a value that is no object in its one field:
/// where the map is taken, the list is.
pub fn maps_stand_for_lists()
    ensures { MapsStandForLists }
{}
