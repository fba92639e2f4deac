use crate::cause::Cause;
use cwl_value::Value;

/// What an equation gives, where some outputs are not known yet.
#[derive(Drop)]
pub(crate) enum Partly {
    /// It waits for a value that is not known.
    Waits,
    Gives(Value),
    Fails(Cause),
}
