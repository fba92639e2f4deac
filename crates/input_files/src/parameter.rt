//! What the inputs of tools and of workflows have in common.
use crate::given::fits_input;
use cwl_process::{SecondaryFile, ToolInput, WorkflowInput};
use cwl_value::Value;
use type_check::fits;

/// An input of a process.
pub trait Parameter {
    ghost use Rattle.std.specs.Prelude.{◌≡◌};
    ghost use Rattle.std.specs.Option.{option_copied};
    ghost use Rattle.input_files.specs.Parameters.{Parameter as Declared};

    /// The input as the definitions see it.
    ghost of: { Self → Declared };

    /// The value in place of null.
    fn default(&self) -> Option<&Value>
        ensures { option_copied result ≡ (of self.now).default };

    /// Whether a value is of its type.
    fn takes(&self, value: &Value) -> bool
        ensures { result ≡ (of self.now).takes value.now };

    /// The files that its Files have beside them.
    fn secondary_files(&self) -> &[SecondaryFile]
        ensures { result.now ≡ (of self.now).secondary_files };

    /// Whether its Files have to be there.
    fn uses_files(&self) -> bool
        ensures { result ≡ (of self.now).uses_files };
}

impl Parameter for ToolInput {
    ghost use Rattle.input_files.specs.Parameters.{tool_parameter};

    ghost of = { tool_parameter };

    fn default(&self) -> Option<&Value> {
        self.default.as_ref()
    }

    fn takes(&self, value: &Value) -> bool {
        fits_input(&self.kind, value)
    }

    fn secondary_files(&self) -> &[SecondaryFile] {
        self.secondary_files.as_slice()
    }

    fn uses_files(&self) -> bool {
        true
    }
}

impl Parameter for WorkflowInput {
    ghost use Rattle.input_files.specs.Parameters.{workflow_parameter};

    ghost of = { workflow_parameter };

    fn default(&self) -> Option<&Value> {
        self.default.as_ref()
    }

    fn takes(&self, value: &Value) -> bool {
        fits(value, &self.kind)
    }

    fn secondary_files(&self) -> &[SecondaryFile] {
        self.secondary_files.as_slice()
    }

    fn uses_files(&self) -> bool {
        false
    }
}
