//! What it costs to load the files of rows.
use job_graph::load_cost;
use plan_checker::MOST_COST;
use std::alloc::Global;
use test_rows::{AnswerText, Row, RowFault};

/// The cost of the row's `bytes`, by its `base` and its `rate`.
pub(crate) fn answer(alloc: Global, row: &Row) -> Result<String, RowFault> {
    let base = row.natural("base")?;
    let rate = row.natural("rate")?;
    if base > MOST_COST || rate < 1 || rate > MOST_COST {
        return Err(RowFault::BadArgument);
    }
    let mut out = AnswerText::new(alloc);
    out.put_natural(load_cost(base, rate, row.natural("bytes")?));
    out.finish()
}
