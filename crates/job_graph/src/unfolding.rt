//! What is known of a process, once the outputs of some of its jobs are.
ghost use Rattle.std.specs.Prelude.{◌≡◌, [], All, IfErr, IfOk, None, OnErr, OnOk, length, map, option_map, take};
ghost use Rattle.job_graph.specs.Equations.{walker};
ghost use Rattle.job_graph.specs.KnownJobs.{jobs_in, known_of, number_at};
ghost use Rattle.job_graph.specs.PresentJobGraph.{AreWithin, needed_among, present_job_graph};
ghost use Rattle.job_graph.specs.Unfold.{known_from, unfolded};
ghost use Rattle.job_graph.specs.Unfolding.{AnswersAlike, Blames, Knows, Learns};

use crate::costs::Costs;
use crate::fault::UnfoldError;
use crate::growth::KnownJob;
use crate::made::Resolved;
use crate::progress::Progress;
use cwl_value::{JobPlace, Value};
use document_links::Process;
use plain_data::{Keyed, Text};
use plan_checker::Graph;
use staging::Measure;
use std::alloc::Global;
use std::marker::Model;
use std::mem;

/// What is known of a process on its inputs, which contracts see as what was learned and what is known by it.
#[derive(Drop)]
pub struct Unfolding<'a> {
    progress: Progress<'a>,
    /// Whether each known job is needed, where that was asked for since the last `learn`.
    needed: Option<Vec<bool>>,
}

impl<'a> Model for Unfolding<'a> {
    ghost use Rattle.job_graph.specs.UnfoldedSoFar.{UnfoldedSoFar};
    ghost use Rattle.cwl_value.specs.contracts.value.Value as value;
    ghost use Rattle.cwl_process.specs.contracts.tool.Tool as tool;
    ghost use Rattle.document_links.specs.contracts.process.Process as process;
    ghost use Rattle.std.specs.Coded.{codes};

    ghost Value = { UnfoldedSoFar };

    ghost coded = { Prim.hlevel (codes, process.the_row.coded, tool.the_row.coded, value.the_row.coded) };

    ghost use Rattle.job_graph.specs.inner.Inside.{seen};
    ghost use Rattle.job_graph.specs.inner.Needed.{IsUpheld};

    ghost view = { λ fields. seen fields.progress };

    ghost invariant = { λ fields. IsUpheld fields.progress fields.needed };
}

impl<'a> Unfolding<'a> {
    /// What is known before any job has run, where the input files were measured, or why the process has no result.
    pub fn new(
        alloc: Global,
        process: &'a Process,
        inputs: &Keyed<Value>,
        measures: Keyed<Measure>,
    ) -> Result<Unfolding<'a>, UnfoldError>
        ensures ok { IfOk result (Knows (walker process.now inputs.now measures) []) }
        ensures err { IfErr result
            (Blames (unfolded (walker process.now inputs.now measures) []).fault) }
    {
        match Progress::new(alloc, process, inputs, measures) {
            Ok(progress) => Ok(Unfolding {
                progress,
                needed: None,
            }),
            Err(error) => Err(error),
        }
    }

    /// Takes the outputs of the job at a place, whose files are named relative to its output folder. After a refusal it
    /// answers the same from then on, and what is known stays as it was. Out of memory, it is as before the call.
    pub fn learn(&mut self, place: JobPlace, outputs: Keyed<Value>) -> Result<(), UnfoldError>
        ensures learns { Learns self.old (record { place = place; outputs = outputs }) self.new
            result }
        ensures ok { OnOk result (take (length self.old.known) self.new.known ≡ self.old.known) }
        ensures err { OnErr result (AnswersAlike self.old self.new) }
    {
        mem::drop(mem::replace(&mut self.needed, None));
        self.progress.learn(Resolved::new(place, outputs))
    }

    /// The jobs whose inputs are known, in the order in which they came to be known.
    pub fn known(&self) -> &[KnownJob<'a>]
        ensures jobs { jobs_in result.now ≡ self.now.known }
        ensures parents { map known_of result.now ≡ known_from [] self.now.known }
    {
        self.progress.known.as_slice()
    }

    /// The number of the known job at a place.
    pub fn number_of(&self, place: &JobPlace) -> Option<usize>
        ensures { result ≡ number_at place.now self.now.known }
    {
        self.progress.known.number_of(place)
    }

    /// The outputs of the process, once those of all jobs are known.
    pub fn result(&self) -> Option<&[(Text, Value)]>
        ensures { option_map (λ outputs. outputs.now) result ≡ self.now.result }
    {
        self.progress.outputs()
    }

    /// Whether each known job is needed, as the present job graph has it: it has not ended, or made a File or Directory in a known
    /// output of the process. The flags are kept until the next `learn`. After a refused one it answers that refusal.
    pub fn needed(&mut self) -> Result<Vec<bool>, UnfoldError>
        ensures same { self.new ≡ self.old }
        ensures ok { IfOk result (λ needed. needed.items
            ≡ needed_among self.old.learned self.old.outs self.old.known) }
        ensures goes_on { OnOk result (self.old.refused ≡ None) }
        ensures err { IfErr result (Blames self.old.refused) }
    {
        let alloc = self.progress.alloc;
        if let Some(kept) = &self.needed {
            let copy = Vec::from_slice(alloc, kept.as_slice())?;
            return Ok(copy);
        }
        let needed = self.progress.needed()?;
        let copy = Vec::from_slice(alloc, needed.as_slice())?;
        mem::drop(mem::replace(&mut self.needed, Some(copy)));
        Ok(needed)
    }

    /// Returns the present job graph: the known jobs with these costs, as a planner takes them. After a refused `learn` it
    /// answers that refusal.
    pub fn graph(&self, costs: &[Costs]) -> Result<Graph, UnfoldError>
        requires each { length costs.now ≡ length self.now.known }
        requires within { All AreWithin costs.now }
        ensures ok { IfOk result (λ graph. graph
            ≡ present_job_graph self.now.learned self.now.known self.now.outs costs.now) }
        ensures goes_on { OnOk result (self.now.refused ≡ None) }
        ensures err { IfErr result (Blames self.now.refused) }
    {
        if let Some(kept) = &self.needed {
            return self.progress.graph(kept.as_slice(), costs);
        }
        let needed = self.progress.needed()?;
        let graph = self.progress.graph(needed.as_slice(), costs);
        mem::drop(needed);
        graph
    }
}
