//! What the jobs of a scattered step give, put together.

ghost use Rattle.std.specs.Prelude.{◌≡◌, ◌≢◌, [], length, IfOk, IsOk};
ghost use Rattle.scatter_shape.specs.declared.shape.Method.TheVariants.{NestedCrossproduct};
ghost use Rattle.scatter_shape.specs.Gathered.{gathered, IsNested, HasAllBelow};
ghost use Rattle.scatter_shape.specs.Tuples.{tuples_of, IsTaken};
ghost use Rattle.std.specs.Vec.Iter.{into_iter_items};

use crate::shape::{Method, Shape};
use cwl_value::Value;
use plain_data::Items;
use std::alloc::{AllocError, Global};
use std::vec::IntoIter;

/// The values of the jobs, given in the order of `jobs_of`'s tuples, put together: for a nested crossproduct lists in
/// lists, one level for each length, and else one list. There is one value for each tuple. A nested crossproduct with
/// a length of 0 has no job, and still gathers a list of as many empty lists as the lengths before it say.
pub fn gather(alloc: Global, shape: &Shape, values: Vec<Value>) -> Result<Value, AllocError>
    requires some { shape.now.lengths ≢ [] }
    requires taken { IsTaken shape.now.method shape.now.lengths }
    requires one_each { length values.items
        ≡ length (tuples_of shape.now.method shape.now.lengths) }
    ensures in_place { IfOk result (λ value. value
        ≡ gathered shape.now.method shape.now.lengths values.items) }

    // One list takes no memory.
    ensures one_list { shape.now.method ≢ NestedCrossproduct → IsOk result }
{
    match shape.method {
        Method::Dotproduct | Method::FlatCrossproduct => {
            Ok(Value::of_items(Items::from_vec(values)))
        }
        Method::NestedCrossproduct => {
            nested(alloc, shape.lengths.as_slice(), &mut values.into_iter())
        }
    }
}

/// The value of these lengths, made of the next values in their order.
fn nested(
    alloc: Global,
    lengths: &[usize],
    values: &mut IntoIter<Value, Global>,
) -> Result<Value, AllocError>
    requires { HasAllBelow lengths.now (into_iter_items values.old) }
    ensures { IfOk result (IsNested lengths.now (into_iter_items values.old)
        (into_iter_items values.new)) }
{
    match lengths {
        [] => match values.next() {
            Some(value) => Ok(value),
            None => unreachable!(),
        },
        [length, rest @ ..] => {
            let mut items = Items::new(alloc);
            for _ in 0..*length {
                items.push(nested(alloc, rest, values)?)?;
            }
            Ok(Value::of_items(items))
        }
    }
}
