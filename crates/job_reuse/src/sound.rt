//! Whether a row that was found is one of its tool.
ghost use Rattle.std.specs.Prelude.{◌≡◌, ◌↔◌, IsTrue, IfOk, is_some};
ghost use Rattle.std.specs.List.{list_all};
ghost use Rattle.plain_data.specs.ByName.{IsByName, value_at};
ghost use Rattle.cwl_value.specs.declared.value.Value.{out-Value};
ghost use Rattle.collected_outputs.specs.Checked.{is_file_level, is_typed};
ghost use Rattle.collected_outputs.specs.Laws.{AreDeclared};
ghost use Rattle.job_reuse.specs.Sound.{IsSound};
ghost use Rattle.job_reuse.specs.inner.Declared.{is_declared, is_output};

use crate::index::index_of;
use crate::stands::fields_stand;
use cwl_process::{OutputType, Tool, ToolOutput};
use cwl_value::Value;
use job_rows::Row;
use plain_data::{Keyed, Text};
use std::alloc::{AllocError, Global};
use type_check::fits;

/// Checks that a row that was found is one of the tool: its outputs are those that the tool declares, each of its type, and each
/// File and Directory in them, at any depth, has a basename and is one of the row's files (the output folder itself is `.`), of
/// that kind, and a File of that size and sum. A row that is not is refused as R1.
pub fn row_is_sound(alloc: Global, tool: &Tool, row: &Row) -> Result<bool, AllocError>
    ensures { IfOk result (λ sound. IsTrue sound ↔ IsSound tool.now row.now) }
{
    if !are_declared(tool.outputs.as_slice(), &row.outputs) {
        return Ok(false);
    }
    let index = index_of(alloc, row.files.as_slice())?;
    let stand = fields_stand(&index, &row.outputs);
    drop(index);
    Ok(stand)
}

fn are_declared(outputs: &[(Text, ToolOutput)], values: &Keyed<Value>) -> bool
    ensures { IsTrue result ↔ AreDeclared outputs.now values.now }
{
    all_declared(outputs, values) && all_have_values(outputs, values)
}

fn all_declared(outputs: &[(Text, ToolOutput)], values: &Keyed<Value>) -> bool
    ensures tests { result ≡ list_all (is_declared outputs.now) values.now }
    ensures order { IsByName values.now }
{
    values
        .as_slice()
        .iter()
        .all(|value| is_declared(outputs, value))
}

fn all_have_values(outputs: &[(Text, ToolOutput)], values: &Keyed<Value>) -> bool
    ensures { result ≡ list_all (λ output. is_some (value_at output.0 values.now)) outputs.now }
{
    outputs
        .iter()
        .all(|output| values.contains(output.0.as_str()))
}

// Whether one of the outputs has this name, and the value is of its type.
fn is_declared(outputs: &[(Text, ToolOutput)], value: &(Text, Value)) -> bool
    ensures { result ≡ is_declared outputs.now value.now }
{
    outputs.iter().any(|output| is_output(output, value))
}

fn is_output(output: &(Text, ToolOutput), value: &(Text, Value)) -> bool
    ensures { result ≡ is_output value.now output.now }
{
    output.0.equals(&value.0) && is_typed(&value.1, &output.1.kind)
}

fn is_typed(value: &Value, kind: &OutputType) -> bool
    ensures { result ≡ is_typed kind.now value.now }
{
    match kind {
        OutputType::Members(members) => fits(value, members),
        _ => is_file(value),
    }
}

fn is_file(value: &Value) -> bool
    ensures { result ≡ is_file_level (out-Value value.now) }
{
    matches!(value, Value::FileVal(_))
}
