//! Samples on values: texts and lists, values of CWL, files, scatters, references.
ghost use Rattle.std.specs.Prelude.{◌≡◌, ◌≢◌, ◌<◌, [], length};
ghost use Rattle.scatter_shape.specs.Tuples.{tuples_of, IsTaken};

use cwl_value::{Value, ValueRefusal, canonical_text, erased, read_value};
use file_values::{
    FileError, Watched, location_to_path, path_to_location, resolve, secondary_name, sum_of,
};
use param_refs::{Context, RefError, Template};
use plain_data::{Keyed, Text};
use scatter_shape::{Gathering, ScatterError, Shape, jobs_of, lengths_of};
use staging::{GlobError, Pattern, deliver_plan, stage_plan};
use std::alloc::{AllocError, Global};
use std::io::Read;
use trusted_times::{Stamp, Times};
use url::Url;
use value_depth::{is_object_within_limit, is_within_limit};

/// The sample of `plain_data`.
pub fn by_name(alloc: Global) -> Result<(), AllocError> {
    let mut fields = Keyed::new(alloc);
    drop(fields.insert(Text::from_text(alloc, "b")?, 7u8)?);
    drop(fields.insert(Text::from_text(alloc, "a")?, 8u8)?);
    let seven = fields.get("b"); // Some(&7)
    let first = fields.as_slice().first(); // "a" with 8: entries are in the order of their names
    Ok(())
}

/// The sample of `cwl_value`.
pub fn values_and_texts(alloc: Global) -> Result<(), ValueRefusal> {
    let value = read_value(alloc, b"{\"class\":\"File\",\"location\":\"l\",\"size\":3}")?;
    let text = canonical_text(alloc, &value)?; // {"class":"File","location":"l","size":3}
    let bare = erased(alloc, &value)?;
    let text = canonical_text(alloc, &bare)?; // {"class":"File","size":3}
    Ok(())
}

/// A sample of `file_values`.
pub fn summed<R: Read + Drop>(alloc: Global, file: R) -> Result<(), FileError> {
    let mut reader = Watched::new(file);
    let sum = sum_of(alloc, &mut reader)?; // sum.sum, sum.size
    Ok(())
}

/// A sample of `file_values`.
pub fn located(alloc: Global, value: Value, base: &Url) -> Result<(), FileError> {
    let path = location_to_path(alloc, "a%20b.txt", base)?; // below file:///d/in.json: /d/a b.txt
    let location = path_to_location(alloc, "/d/a b.txt")?; // file:///d/a%20b.txt
    let name = secondary_name(alloc, "^.bai", "r.bam")?; // r.bai
    let value = resolve(alloc, value, base)?; // every File has a path and a name
    Ok(())
}

/// The sample of `trusted_times`.
pub fn trusted(alloc: Global, stamp: Stamp, sum: Text, now: u64) -> Result<(), AllocError> {
    let mut times = Times::new(alloc);
    times.note(alloc, "/d/a.txt", stamp, sum, now)?; // noted, if the file had been left alone for more than two seconds
    let sum = times.sum_at("/d/a.txt", &stamp); // Some(sum): the stamp is the same
    let text = times.text(alloc)?; // a heading, a line for each file, how many these are
    let again = Times::read(alloc, text.as_str())?; // Some(times); None of what isn't whole
    Ok(())
}

/// A sample of `scatter_shape`.
pub fn measured(alloc: Global, values: &[Value]) -> Result<(), ScatterError> {
    let lengths = lengths_of(alloc, values)?; // [2, 2]: two scattered lists of two items
    Ok(())
}

/// A sample of `scatter_shape`.
pub fn tuples_of_step(alloc: Global, shape: &Shape) -> Result<(), ScatterError>
    requires { shape.now.lengths ≢ [] }
{
    let tuples = jobs_of(alloc, shape.method, shape.lengths.as_slice())?; // a flat crossproduct of [2, 2]: [0,0] [0,1] [1,0] [1,1]
    let gathering = Gathering::new(alloc, tuples.len())?; // a slot for the value of each job
    Ok(())
}

/// A sample of `scatter_shape`.
pub fn gathered(alloc: Global, shape: &Shape, mut gathering: Gathering) -> Result<(), AllocError>
    requires some { shape.now.lengths ≢ [] }
    requires taken { IsTaken shape.now.method shape.now.lengths }
    requires one_each { length gathering ≡ length (tuples_of shape.now.method shape.now.lengths) }
    requires fourth { 3 < length gathering }
{
    drop(gathering.put(3, Value::Whole(3))); // jobs may end in any order
    if gathering.is_full() {
        let value = gathering.gather(alloc, shape)?;
    }
    Ok(())
}

/// The sample of `value_depth`.
pub fn within_limits(value: &Value, outputs: &Keyed<Value>) {
    let is_flat = is_within_limit(value); // to_json(value) nests at most 100 deep
    let are_flat = is_object_within_limit(outputs); // an object of these values by name does
}

/// A sample of `staging`.
pub fn pattern_of_outputs(alloc: Global) -> Result<(), GlobError> {
    let pattern = Pattern::read(alloc, "./logs/*.txt")?;
    let yes = pattern.matches("logs/a.txt"); // true
    let no = pattern.matches("logs/.hidden.txt"); // false: a `*` takes no period at the front of a component
    let fault = Pattern::read(alloc, "../*"); // refused: G7, a component of the pattern is `..`
    Ok(())
}

/// A sample of `staging`.
pub fn copies(
    alloc: Global,
    inputs: &Keyed<Value>,
    outputs: &Keyed<Value>,
) -> Result<(), AllocError> {
    let plan = stage_plan(alloc, inputs, "/w/j1/in")?; // plan.moves: sources and targets; plan.value: the inputs at their targets
    let plan = deliver_plan(alloc, outputs, "/out")?; // to /out, /out/_1, /out/_2, ..
    Ok(())
}

/// The sample of `param_refs`.
pub fn reference<'a>(
    alloc: Global,
    inputs: &'a Keyed<Value>,
    own: &'a Value,
) -> Result<(), RefError> {
    let context = Context {
        inputs,
        runtime: None,
        own,
    };
    let template = Template::read(alloc, "x$(inputs.n)y")?;
    let value = template.value(&context)?; // of an n of -7: the text x-7y
    let other = Template::read(alloc, "$(inputs.n.a)")?;
    let fault = other.value(&context); // refused: P5, a key of a number
    Ok(())
}
