//! Charges of an earlier graph, mended so that they are fair in a later one of the same run.
//!
//! Rising, each vertex learns how much it can still carry: what it pays and what its parents still take from it, at most
//! its load cost. Falling, what really comes in at a vertex is poured out again. No contract rests on what comes of it:
//! it is checked before a flow begins with it.

use crate::network::{amount_at, pass_at};
use plain_data::Items;
use plan_checker::{Charges, Vertex};
use std::alloc::{AllocError, Global};

/// How much each vertex can still carry, and what each of its parents takes of that.
#[derive(Debug, Drop)]
struct Carried {
    left: Vec<u64>,
    shares: Vec<Items<u64>>,
}

/// Mends charges: where the graph has changed, less flows.
pub fn mended(alloc: Global, vertices: &[Vertex], last: &Charges) -> Result<Charges, AllocError> {
    let carried = rising(alloc, vertices, last)?;
    falling(alloc, vertices, last, &carried)
}

/// Adds to the amount in this place.
fn give(amounts: &mut [u64], place: usize, more: u64) {
    if let Some(amount) = amounts.get_mut(place) {
        *amount = amount.saturating_add(more);
    }
}

/// Takes up to so much from the amount in this place.
fn take(amounts: &mut [u64], place: usize, most: u64) -> u64 {
    match amounts.get_mut(place) {
        Some(amount) => {
            let taken = most.min(*amount);
            *amount -= taken;
            taken
        }
        None => 0,
    }
}

/// What each vertex can carry, from the lowest on.
fn rising(alloc: Global, vertices: &[Vertex], last: &Charges) -> Result<Carried, AllocError> {
    let mut left = Vec::with_capacity(alloc, vertices.len())?;
    let mut shares = Vec::with_capacity(alloc, vertices.len())?;
    for (job, vertex) in vertices.iter().enumerate() {
        let row = shares_of(alloc, vertex, last, job, left.as_mut_slice())?;
        let most = shared(row.as_slice()).saturating_add(vertex.compute);
        left.push(vertex.load.unwrap_or(most).min(most))?;
        shares.push(row)?;
    }
    Ok(Carried { left, shares })
}

/// What the parents of a vertex take from it: what it passed to them, as far as they can carry it.
fn shares_of(
    alloc: Global,
    vertex: &Vertex,
    last: &Charges,
    job: usize,
    left: &mut [u64],
) -> Result<Items<u64>, AllocError> {
    let mut row = Vec::with_capacity(alloc, vertex.parents.len())?;
    for (slot, parent) in vertex.parents.as_slice().iter().enumerate() {
        row.push(take(left, *parent, pass_at(last, job, slot)))?;
    }
    Ok(Items::from_vec(row))
}

/// The sum of shares.
fn shared(amounts: &[u64]) -> u64 {
    let mut sum = 0_u64;
    for amount in amounts {
        sum = sum.saturating_add(*amount);
    }
    sum
}

/// Pours out what comes in at each vertex, from the highest on.
fn falling(
    alloc: Global,
    vertices: &[Vertex],
    last: &Charges,
    carried: &Carried,
) -> Result<Charges, AllocError> {
    let mut poured = Poured::new(alloc, vertices.len())?;
    for (job, vertex) in vertices.iter().enumerate().rev() {
        if vertex.needed {
            poured.enter(job, last, carried);
        }
        poured.pour(alloc, job, vertex, carried)?;
    }
    Ok(poured.charges())
}

/// Charges of which the highest vertices are done; their passes come in reverse.
#[derive(Debug, Drop)]
struct Poured {
    enter: Vec<u64>,
    through: Vec<u64>,
    pay: Vec<u64>,
    pass: Vec<Items<u64>>,
}

impl Poured {
    /// Nothing, for so many vertices.
    fn new(alloc: Global, jobs: usize) -> Result<Poured, AllocError> {
        Ok(Poured {
            enter: vec![in alloc; 0; jobs]?,
            through: vec![in alloc; 0; jobs]?,
            pay: vec![in alloc; 0; jobs]?,
            pass: Vec::with_capacity(alloc, jobs)?,
        })
    }

    /// Lets enter what entered, as far as it can still be carried.
    fn enter(&mut self, job: usize, last: &Charges, carried: &Carried) {
        let entered = amount_at(last.enter.as_slice(), job);
        let amount = entered.min(amount_at(carried.left.as_slice(), job));
        give(self.enter.as_mut_slice(), job, amount);
        give(self.through.as_mut_slice(), job, amount);
    }

    /// Pours out what comes in at a vertex: it pays what it can, and passes the rest to its parents.
    fn pour(
        &mut self,
        alloc: Global,
        job: usize,
        vertex: &Vertex,
        carried: &Carried,
    ) -> Result<(), AllocError> {
        let comes = amount_at(self.through.as_slice(), job);
        let paid = comes.min(vertex.compute);
        give(self.pay.as_mut_slice(), job, paid);
        let through = self.through.as_mut_slice();
        let row = passed(
            alloc,
            vertex,
            carried.shares.get(job),
            comes - paid,
            through,
        )?;
        self.pass.push(row)?;
        Ok(())
    }

    /// The charges, once all vertices are done.
    fn charges(self) -> Charges {
        let Poured {
            enter,
            through,
            pay,
            mut pass,
        } = self;
        pass.reverse();
        Charges {
            enter: Items::from_vec(enter),
            through: Items::from_vec(through),
            pay: Items::from_vec(pay),
            pass: Items::from_vec(pass),
        }
    }
}

/// Passes so much to the parents of a vertex, to each at most its share.
fn passed(
    alloc: Global,
    vertex: &Vertex,
    shares: Option<&Items<u64>>,
    amount: u64,
    through: &mut [u64],
) -> Result<Items<u64>, AllocError> {
    let mut row = Vec::with_capacity(alloc, vertex.parents.len())?;
    let mut rest = amount;
    for (slot, parent) in vertex.parents.as_slice().iter().enumerate() {
        let share = shares.map_or(0, |row| amount_at(row.as_slice(), slot));
        let passed = rest.min(share);
        rest -= passed;
        give(through, *parent, passed);
        row.push(passed)?;
    }
    Ok(Items::from_vec(row))
}
