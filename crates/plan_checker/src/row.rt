//! One line of a certificate, read.

ghost use Rattle.std.specs.Prelude.{◌≡◌, ◌≢◌, ◌∷◌, [], length, MatchOption, IfOk, IfSome, Bool};
ghost use Rattle.plan_checker.specs.declared.plan.Mark.{Mark};
ghost use Rattle.plan_checker.specs.Format.{flag, letter};
ghost use Rattle.plan_checker.specs.inner.Reading.{first_numbers, BeginsWithLoad, BeginsWithNumbers, BeginsWithPairs, BeginsWithRow, BeginsWithStart, EndsNumber, NoCosts, NoLoadField, NoPair, NoPairs, NoRow, NoStart};

use crate::number::{after, read_number};
use crate::plan::Mark;
use crate::vertex::Vertex;
use plain_data::Items;
use std::alloc::{AllocError, Global};

/// What a line says of a vertex: the vertex, its mark and its charges.
#[derive(Drop)]
pub struct Row {
    pub job: Vertex,
    pub mark: Mark,
    pub enter: u64,
    pub through: u64,
    pub pay: u64,
    pub amounts: Items<u64>,
}

/// The first three fields of a line.
#[derive(Drop, Clone, Copy)]
pub struct Start {
    pub mark: Mark,
    pub needed: bool,
    pub load: Option<u64>,
}

/// The five numbers behind them.
#[derive(Drop, Clone, Copy)]
pub struct Costs {
    pub compute: u64,
    pub enter: u64,
    pub through: u64,
    pub pay: u64,
    pub parents: u64,
}

impl Row {
    /// Reads a line with its line feed, `MARK NEEDED LOAD COMPUTE ENTER THROUGH PAY K` and K times `PARENT PASS`, and
    /// gives what follows it. No line of a vertex with more parents than `most` is read, so that memory goes with what a
    /// vertex can have and not with how long a line is.
    pub fn read(alloc: Global, text: &[u8], most: usize) -> Result<Option<(Row, &[u8])>, AllocError>
        ensures { IfOk result (λ read. MatchOption read (NoRow text.now most)
            (λ read. BeginsWithRow text.now read.0 read.1.now)) }
    {
        let Some((start, rest)) = read_start(text) else {
            return Ok(None);
        };
        let Some((costs, rest)) = read_costs(rest) else {
            return Ok(None);
        };
        if costs.parents > most as u64 {
            return Ok(None);
        }
        let Some((parents, amounts, rest)) = read_pairs(alloc, rest, costs.parents as usize)? else {
            return Ok(None);
        };
        let job = Vertex {
            load: start.load,
            compute: costs.compute,
            parents,
            needed: start.needed,
        };
        let row = Row {
            job,
            mark: start.mark,
            enter: costs.enter,
            through: costs.through,
            pay: costs.pay,
            amounts,
        };
        Ok(Some((row, rest)))
    }
}

/// Reads the mark, whether the vertex is needed, and its load cost.
fn read_start(text: &[u8]) -> Option<(Start, &[u8])>
    ensures { MatchOption result (NoStart text.now)
        (λ read. BeginsWithStart text.now read.0 read.1.now) }
{
    let [mark, b' ', needed, rest @ ..] = text else {
        return None;
    };
    let mark = mark_of(*mark)?;
    let needed = flag_of(*needed)?;
    let (load, rest) = read_load(rest)?;
    Some((Start { mark, needed, load }, rest))
}

fn mark_of(byte: u8) -> Option<Mark>
    ensures { MatchOption result ((mark : Mark) → byte ≢ letter mark) (λ mark. byte ≡ letter mark) }
{
    match byte {
        b'L' => Some(Mark::Load),
        b'C' => Some(Mark::Compute),
        b'P' => Some(Mark::Prune),
        _ => None,
    }
}

fn flag_of(byte: u8) -> Option<bool>
    ensures { MatchOption result ((needed : Bool) → byte ≢ flag needed) (λ needed. byte
        ≡ flag needed) }
{
    match byte {
        b'1' => Some(true),
        b'0' => Some(false),
        _ => None,
    }
}

/// Reads a load cost behind a space, or a dash where there is none.
fn read_load(text: &[u8]) -> Option<(Option<u64>, &[u8])>
    ensures { MatchOption result (NoLoadField text.now)
        (λ read. BeginsWithLoad text.now read.0 read.1.now) }
{
    if let [b' ', b'-', rest @ ..] = text {
        return Some((None, rest));
    }
    let (load, rest) = read_number(text)?;
    Some((Some(load), rest))
}

/// Reads the compute cost, three charges and how many parents there are.
fn read_costs(text: &[u8]) -> Option<(Costs, &[u8])>
    ensures { MatchOption result (NoCosts text.now)
        (λ read. BeginsWithNumbers text.now (first_numbers read.0) read.1.now) }
{
    let (compute, rest) = read_number(text)?;
    let (enter, rest) = read_number(rest)?;
    let (through, rest) = read_number(rest)?;
    let (pay, rest) = read_number(rest)?;
    let (parents, rest) = read_number(rest)?;
    let costs = Costs {
        compute,
        enter,
        through,
        pay,
        parents,
    };
    Some((costs, rest))
}

/// Reads so many pairs of a parent and what is passed to it, and the line feed behind them.
fn read_pairs(
    alloc: Global,
    text: &[u8],
    count: usize,
) -> Result<Option<(Items<usize>, Items<u64>, &[u8])>, AllocError>
    requires { EndsNumber text.now }
    ensures { IfOk result (λ read. MatchOption read (NoPairs text.now count)
        (λ read. BeginsWithPairs text.now count read.0 read.1 read.2.now)) }
{
    let mut parents = Items::new(alloc);
    let mut amounts = Items::new(alloc);
    let mut rest = text;
    for _ in 0..count {
        let Some((parent, amount, others)) = read_pair(rest) else {
            return Ok(None);
        };
        parents.push(parent as usize)?;
        amounts.push(amount)?;
        rest = others;
    }
    let Some(rest) = after(rest, b"\n".as_slice()) else {
        return Ok(None);
    };
    Ok(Some((parents, amounts, rest)))
}

/// Reads a parent and what is passed to it.
fn read_pair(text: &[u8]) -> Option<(u64, u64, &[u8])>
    ensures { MatchOption result (NoPair text.now)
        (λ read. BeginsWithNumbers text.now (read.0 ∷ read.1 ∷ []) read.2.now) }
{
    let (parent, rest) = read_number(text)?;
    let (amount, rest) = read_number(rest)?;
    Some((parent, amount, rest))
}
