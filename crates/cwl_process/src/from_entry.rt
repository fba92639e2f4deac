//! Reads lists and maps of objects.
ghost use Rattle.std.specs.Prelude.{◌≡◌, ℕ, List, IfOk, map};
ghost use Rattle.serde_json.specs.Data.{Data};
ghost use Rattle.serde_json.specs.Find.{get};
ghost use Rattle.serde_json.specs.View.{view};
ghost use Rattle.document_table.specs.Entries.{HasForm, MayHaveForm, entries};
ghost use Rattle.document_table.specs.declared.form.Form.TheVariants.{Objects};
ghost use Rattle.cwl_process.specs.Tools.{entries_at};

use crate::entries::Entries;
use document_table::{Kind, entries};
use plain_data::Text;
use serde_json::Value;
use std::alloc::{AllocError, Global};

/// What the objects in a list or a map represent.
pub(crate) trait FromEntry: Sized {
    ghost meaning: { List ℕ → Data → Self };

    /// What the object represents, in the workflow of that id.
    fn from_entry(alloc: Global, id: &str, value: &Value) -> Result<Self, AllocError>
        ensures { IfOk result (λ made. made ≡ meaning id.now (view value.now)) };
}

/// What is in a field's list or map of objects, in the workflow of that id.
pub(crate) fn entries_at<T: FromEntry + Drop>(
    alloc: Global,
    id: &str,
    kind: Kind,
    name: &str,
    value: &Value,
) -> Result<Entries<T>, AllocError>
    requires { MayHaveForm (Objects kind) (get name.now (view value.now)) }
    ensures { IfOk result
        (λ made. made ≡ entries_at kind (T.meaning id.now) name.now (view value.now)) }
{
    match value.get(name) {
        None => Ok(Entries::from_distinct(Vec::new(alloc))),
        Some(found) => read_entries(alloc, id, kind, found),
    }
}

fn read_entries<T: FromEntry + Drop>(
    alloc: Global,
    id: &str,
    kind: Kind,
    value: &Value,
) -> Result<Entries<T>, AllocError>
    requires { HasForm (Objects kind) (view value.now) }
    ensures { IfOk result
        (λ made. made ≡ map (λ e. (e.0, T.meaning id.now e.1)) (entries kind (view value.now))) }
{
    let found = entries(alloc, kind, value)?;
    let mut made = Vec::new(alloc);
    for entry in found.as_slice() {
        let name = Text::from_text(alloc, entry.0)?;
        made.push((name, T::from_entry(alloc, id, entry.1)?))?;
    }
    Ok(Entries::from_distinct(made))
}
