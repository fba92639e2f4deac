//! What follows from the definitions.
ghost use Rattle.std.specs.Prelude.{◌≡◌, ◌≤◌, ℕ, List, true, false, codes, None};
ghost use Rattle.serde_json.specs.Data.{Data, boolean, depth, number, unsigned};
ghost use Rattle.document_table.specs.Entries.{entries};
ghost use Rattle.document_table.specs.declared.form.Kind.{Kind};
ghost use Rattle.document_table.specs.declared.form.Kind.TheVariants as kind;
ghost use Rattle.cwl_process.specs.Acting.{variable_in};
ghost use Rattle.cwl_process.specs.Bindings.{binding_in, secondary_in};
ghost use Rattle.cwl_process.specs.FilelessDefaults.{have_fileless_defaults};
ghost use Rattle.cwl_process.specs.FirstFaults.{first_in};
ghost use Rattle.cwl_process.specs.Laws.{HintsCountLast, IgnoresDescriptions, InheritedRequirementCounts, IsDefault, OwnRequirementCounts, ReadsMapsAsLists, WrittenTellsToolsApart};
ghost use Rattle.cwl_process.specs.Parameters.{output_binding_in, tool_input_in, tool_output_in, workflow_input_in, workflow_output_in};
ghost use Rattle.cwl_process.specs.Processes.{process_in, step_in};
ghost use Rattle.cwl_process.specs.Together.{default_fault};
ghost use Rattle.cwl_process.specs.Workflows.{step_input_in};
ghost use Rattle.cwl_process.specs.declared.process.Process.{Process};
ghost use Rattle.cwl_process.specs.declared.tool.Asked.{Asked};

/// JSON represents one process, whatever the count of levels, where it nests no deeper.
pub fn levels_never_decide()
    ensures { (n m : ℕ) (around : Asked) (d : Data) → depth d ≤ n → depth d ≤ m
        → process_in n around d ≡ process_in m around d }
{}

/// Equal `written` comes only from equal tools, but for what is asked of them and around them.
pub fn written_tells_tools_apart()
    ensures { WrittenTellsToolsApart }
{}

/// What describes a process, a parameter, a step or a binding, as `doc`, and what an extension says of it changes nothing of what is
/// read.
pub fn descriptions_are_not_read()
    ensures processes { (levels : ℕ) (around : Asked)
        → IgnoresDescriptions (process_in levels around) }
    ensures steps { (inner : Asked → Data → Process) (id : List ℕ) (around : Asked)
        → IgnoresDescriptions (step_in inner id around) }
    ensures tool_inputs { IgnoresDescriptions tool_input_in }
    ensures tool_outputs { IgnoresDescriptions tool_output_in }
    ensures workflow_inputs { IgnoresDescriptions workflow_input_in }
    ensures workflow_outputs { (id : List ℕ) → IgnoresDescriptions (workflow_output_in id) }
    ensures step_inputs { (id : List ℕ) → IgnoresDescriptions (step_input_in id) }
    ensures bindings { IgnoresDescriptions binding_in }
{}

/// A map of parameters, steps or variables is read as the list that it stands for: the same ones, under their names, in their order.
pub fn maps_are_read_as_lists()
    ensures tool_inputs { ReadsMapsAsLists kind.ToolInput tool_input_in }
    ensures tool_outputs { ReadsMapsAsLists kind.ToolOutput tool_output_in }
    ensures workflow_inputs { ReadsMapsAsLists kind.WorkflowInput workflow_input_in }
    ensures workflow_outputs { (id : List ℕ)
        → ReadsMapsAsLists kind.WorkflowOutput (workflow_output_in id) }
    ensures steps { (inner : Asked → Data → Process) (id : List ℕ) (around : Asked)
        → ReadsMapsAsLists kind.Step (step_in inner id around) }
    ensures step_inputs { (id : List ℕ) → ReadsMapsAsLists kind.StepInput (step_input_in id) }
    ensures variables { ReadsMapsAsLists kind.Variable variable_in }
{}

/// A field that is left out is read as its default: a position is 0, a prefix stands apart, contents are not loaded, and a secondary
/// file has to be there for an input and need not for an output.
pub fn fields_left_out_have_their_defaults()
    ensures position { IsDefault binding_in (codes "position") (number (unsigned 0)) }
    ensures separate { IsDefault binding_in (codes "separate") (boolean true) }
    ensures contents { IsDefault tool_input_in (codes "loadContents") (boolean false) }
    ensures output_contents { IsDefault output_binding_in (codes "loadContents") (boolean false) }
    ensures required { IsDefault (secondary_in true) (codes "required") (boolean true) }
    ensures not_required { IsDefault (secondary_in false) (codes "required") (boolean false) }
{}

/// Of what sets the environment the requirement of the process itself counts, then the one that it inherits, and hints count where
/// nothing is required.
pub fn the_nearest_requirement_counts()
    ensures own { OwnRequirementCounts }
    ensures inherited { InheritedRequirementCounts }
    ensures hints { HintsCountLast }
{}

/// Nothing is wrong with defaults that are seen to be without Files and Directories, so none of them has to be read to say so.
pub fn nothing_is_wrong_with_fileless_defaults()
    ensures { (kind : Kind) (d : Data) → have_fileless_defaults d ≡ true
        → first_in default_fault (entries kind d) ≡ None }
{}
