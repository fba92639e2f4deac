use cwl_value::Value;
use plain_data::Keyed;

/// What references may speak of.
#[derive(Clone, Copy)]
pub struct Context<'a> {
    /// By the names of the inputs.
    pub inputs: &'a Keyed<Value>,
    /// Absent where there is no `runtime` to speak of.
    pub runtime: Option<&'a Value>,
    /// What `self` stands for.
    pub own: &'a Value,
}
