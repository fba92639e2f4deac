//! The program behind a command line: `deparohi run DOCUMENT [INPUTS]`, `deparohi plan DOCUMENT [INPUTS]`, `deparohi check CERTIFICATE`,
//! `deparohi record FILE` and `deparohi demo`.
//!
//! `main_run` is the whole program over two writers, and `program` hands it the words, `PATH`, the standard output and
//! the standard error. Its contract, `Tells`, says which words lead to which end, and which line and status say it:
//! `ok COST` for the text of a certificate of that cost alone, `broken NAME` by the first broken rule, `refused: X1`
//! for every other text, and a run's end by its report. With `--explain` a line in words follows that of a failure; a run says what
//! becomes of its jobs while it goes on, if the words want it.
#![tactic(auto)]

mod certificate;
mod demo;
mod entry;
mod standard_output;
mod usual_words;

pub use entry::{main_run, program};
