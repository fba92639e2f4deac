//! Values as the jobs of a scattered step end.

ghost use Rattle.std.specs.Prelude.{◌≡◌, ◌≢◌, ◌<◌, [], length, IfOk, Some, None, IsTrue, IsSome, ◌↔◌, All, replicate, slice_get, slice_set};
ghost use Rattle.scatter_shape.specs.Gathered.{gathered, values_in};
ghost use Rattle.scatter_shape.specs.Tuples.{tuples_of, IsTaken};

use crate::nesting::gather;
use crate::shape::Shape;
use cwl_value::Value;
use std::alloc::{AllocError, Global};
use std::marker::Model;
use std::mem;

/// For each tuple of a scattered step, in the order of `jobs_of`, its job's value once it is there. Jobs may end in
/// any order: what is gathered depends on the numbers of their tuples alone.
#[derive(Drop)]
pub struct Gathering {
    slots: Vec<Option<Value>>,
}

impl Model for Gathering {
    ghost use Rattle.std.specs.Prelude.{List, Option};
    ghost use Rattle.cwl_value.specs.declared.value.Value.{Value as CwlValue};
    ghost use Rattle.cwl_value.specs.contracts.value.Value as value;
    ghost use Rattle.std.specs.Coded.{codes};

    ghost Value = { List (Option CwlValue) };

    ghost coded = { Prim.hlevel (codes, value.the_row.coded) };

    ghost view = { λ fields. fields.slots.items };
}

impl Gathering {
    /// No value yet for any of this many tuples.
    pub fn new(alloc: Global, tuples: usize) -> Result<Gathering, AllocError>
        ensures { IfOk result (λ gathering. gathering ≡ replicate tuples None) }
    {
        let mut slots = Vec::with_capacity(alloc, tuples)?;
        for _ in 0..tuples {
            slots.push(None)?;
        }
        Ok(Gathering { slots })
    }

    /// Puts the value of the tuple of this number in its place, and gives back the one that was there.
    pub fn put(&mut self, tuple: usize, value: Value) -> Option<Value>
        requires { tuple < length self.old }
        ensures after { self.new ≡ slice_set self.old tuple (Some value) }
        ensures before { slice_get self.old tuple ≡ Some result }
    {
        mem::replace(&mut self.slots[tuple], Some(value))
    }

    /// Whether each tuple has its value.
    pub fn is_full(&self) -> bool
        ensures { IsTrue result ↔ All IsSome self.now }
    {
        self.slots.iter().all(|slot| slot.is_some())
    }

    /// The values, put together as `gather` does.
    pub fn gather(self, alloc: Global, shape: &Shape) -> Result<Value, AllocError>
        requires full { All IsSome self }
        requires some { shape.now.lengths ≢ [] }
        requires taken { IsTaken shape.now.method shape.now.lengths }
        requires one_each { length self ≡ length (tuples_of shape.now.method shape.now.lengths) }
        ensures { IfOk result (λ value. value
            ≡ gathered shape.now.method shape.now.lengths (values_in self)) }
    {
        let Gathering { slots } = self;
        gather(alloc, shape, values_of(alloc, slots)?)
    }
}

/// The values in slots that all have one.
fn values_of(alloc: Global, slots: Vec<Option<Value>>) -> Result<Vec<Value>, AllocError>
    requires { All IsSome slots.items }
    ensures values { IfOk result (λ values. values.items ≡ values_in slots.items) }
    ensures one_each { IfOk result (λ values. length values.items ≡ length slots.items) }
{
    let mut values = Vec::with_capacity(alloc, slots.len())?;
    for slot in slots {
        match slot {
            Some(value) => values.push(value)?,
            None => unreachable!(),
        }
    }
    Ok(values)
}
