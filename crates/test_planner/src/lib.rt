//! Tests of the planner: generated graphs, beside a plain search over all plans and beside plans that are made otherwise.
#![tactic(auto)]

#[cfg(test)]
mod tests;
