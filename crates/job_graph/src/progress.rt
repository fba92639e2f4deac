//! How far a process is unfolded.
ghost use Rattle.std.specs.Prelude.{◌≡◌, [], All, List, IfErr, IfOk, None, OnOk, length, option_map, take, true};
ghost use Rattle.job_graph.specs.Apart.{ids_differ};
ghost use Rattle.job_graph.specs.Equations.{walker};
ghost use Rattle.job_graph.specs.Jobs.{Walker};
ghost use Rattle.job_graph.specs.PresentJobGraph.{AreWithin, needed_among, present_job_graph};
ghost use Rattle.job_graph.specs.Unfold.{Resolved as LearnedJob, unfolded};
ghost use Rattle.job_graph.specs.Unfolding.{Blames};
ghost use Rattle.job_graph.specs.inner.Going.{facts_before};
ghost use Rattle.job_graph.specs.inner.Growth.{IsOfOneProcess, Keeps, LearnsIn, Resolves, Unfolds};
ghost use Rattle.job_graph.specs.inner.Inside.{Follows, Stands, seen};
ghost use Rattle.job_graph.specs.inner.Kept.{KeepsRoot};
ghost use Rattle.job_graph.specs.inner.Outputs.{result_of};
ghost use Rattle.job_graph.specs.inner.Views.{resolved_of};

use crate::costs::Costs;
use crate::ended::{end_last, grow_flagged, look_up};
use crate::fault::{UnfoldError, UnfoldFault};
use crate::ids::see_ids;
use crate::inputs::root_fields;
use crate::kept::{Kept, Rooted, walk_from_root};
use crate::known::Known;
use crate::learned::Learned;
use crate::made::{Facts, Resolved};
use crate::open::sees_open;
use crate::outcome::{Outputs, are_there, are_whole, those_named};
use crate::present::{graph_of, needed_of, vertices_of};
use crate::walk::Walk;
use cwl_value::Value;
use document_links::Process;
use plain_data::{Keyed, Text};
use plan_checker::Graph;
use staging::Measure;
use std::alloc::Global;
use std::mem;

/// What is known of a process on its inputs. Each `learn` by which more may be known goes on with the walk that was made last.
#[derive(Drop)]
pub(crate) struct Progress<'a> {
    pub alloc: Global,
    process: &'a Process,
    /// What is handed to the process.
    fields: Keyed<Value>,
    facts: Facts,
    pub known: Known<'a>,
    /// For each known job, whether it has ended: whether its outputs were learned.
    ended: Vec<bool>,
    /// How many parents the known jobs have in all.
    entries: usize,
    fault: Option<UnfoldFault>,
    outputs: Outputs,
    /// What is kept of the walk that was made last; nothing after an error.
    kept: Option<Kept>,
}

impl<'a> Progress<'a> {
    /// What is known before any job has run, where the input files were measured, or why the process has no result.
    pub(crate) fn new(
        alloc: Global,
        process: &'a Process,
        inputs: &Keyed<Value>,
        measures: Keyed<Measure>,
    ) -> Result<Progress<'a>, UnfoldError>
        ensures ok { IfOk result (Follows (walker process.now inputs.now measures) []) }
        ensures fresh { IfOk result (λ held. held.fault ≡ None) }
        ensures err { IfErr result
            (Blames (unfolded (walker process.now inputs.now measures) []).fault) }
    {
        see_ids(process);
        let fields = root_fields(alloc, process, inputs, &measures)?;
        let mut progress = Progress {
            alloc,
            process,
            fields,
            facts: Facts {
                measures,
                learned: Learned::new(alloc),
            },
            known: Known::new(alloc),
            ended: Vec::new(alloc),
            entries: 0,
            fault: None,
            outputs: Outputs::new(alloc),
            kept: None,
        };
        match progress.unfold() {
            Ok(()) => Ok(progress),
            Err(error) => Err(error),
        }
    }

    /// Takes the outputs of a job. A fault that is met is kept, and answered from then on.
    pub(crate) fn learn(&mut self, resolved: Resolved) -> Result<(), UnfoldError>
        requires { Stands self.old }
        ensures learns { (walks : Walker) (learned : List LearnedJob)
            → Follows walks learned self.old →
            LearnsIn walks learned (resolved_of resolved) self.old self.new result }
        ensures same { IsOfOneProcess self.old self.new }
        ensures ok { OnOk result (take (length self.old.known) self.new.known
            ≡ self.old.known) }
    {
        if let Some(fault) = &self.fault {
            return Err(UnfoldError::Refused(fault.clone_in(self.alloc)?));
        }
        match self.resolve(resolved) {
            Ok(()) => Ok(()),
            Err(error) => Err(self.keep(error)),
        }
    }

    /// The outputs of the process, once those of all jobs are known.
    pub(crate) fn outputs(&self) -> Option<&[(Text, Value)]>
        ensures { option_map (λ outputs. outputs.now) result ≡ result_of self.now.outputs }
    {
        if self.outputs.is_whole {
            Some(self.outputs.named.as_slice())
        } else {
            None
        }
    }

    /// The known jobs with these costs, as a planner takes them, by flags that say which are needed.
    pub(crate) fn graph(&self, needed: &[bool], costs: &[Costs]) -> Result<Graph, UnfoldError>
        requires stands { Stands self.now }
        requires needed { needed.now
            ≡ needed_among (seen self.now).learned (seen self.now).outs (seen self.now).known }
        requires each { length costs.now ≡ length self.now.known }
        requires within { All AreWithin costs.now }
        ensures ok { IfOk result (λ graph. graph
            ≡ present_job_graph (seen self.now).learned (seen self.now).known (seen self.now).outs
            costs.now) }
        ensures err { IfErr result (Blames (seen self.now).refused) }
    {
        let known = self.known.as_slice();
        let vertices = vertices_of(self.alloc, needed, known, costs)?;
        graph_of(self.alloc, vertices)
    }

    /// Whether each known job is needed, or the fault that was met.
    pub(crate) fn needed(&self) -> Result<Vec<bool>, UnfoldError>
        requires { Stands self.now }
        ensures ok { IfOk result (λ needed. needed.items
            ≡ needed_among (seen self.now).learned (seen self.now).outs (seen self.now).known) }
        ensures goes_on { OnOk result (self.now.fault ≡ None) }
        ensures err { IfErr result (Blames (seen self.now).refused) }
    {
        if let Some(fault) = &self.fault {
            return Err(UnfoldError::Refused(fault.clone_in(self.alloc)?));
        }
        let outs = self.outputs.named.as_slice();
        let ended = self.ended.as_slice();
        let known = self.known.as_slice();
        let needed = needed_of(self.alloc, outs, ended, known)?;
        Ok(needed)
    }

    /// Adds what was learned, and what is known then. No walk is made while another job of the same scattered step is seen to be open, since
    /// nothing more is known then (`open_jobs_hold_back`). After an error nothing has changed.
    fn resolve(&mut self, resolved: Resolved) -> Result<(), UnfoldError>
        requires { Stands self.old }
        ensures resolves { (walks : Walker) (learned : List LearnedJob)
            → Follows walks learned self.old →
            Resolves walks learned (resolved_of resolved) self.new result }
        ensures same { IsOfOneProcess self.old self.new }
        ensures kept { self.new.fault ≡ self.old.fault }
        ensures ok { OnOk result (take (length self.old.known) self.new.known
            ≡ self.old.known) }
    {
        let place = &resolved.at.place;
        let is_open = sees_open(self.ended.as_slice(), place, self.known.as_slice());
        self.facts.learned.push(resolved)?;
        end_last(&mut self.ended, &self.facts.learned, &self.known);
        if is_open {
            return Ok(());
        }
        match self.unfold() {
            Ok(()) => Ok(()),
            Err(error) => {
                mem::drop(self.facts.learned.pop());
                look_up(&mut self.ended, &self.facts.learned, self.known.as_slice());
                Err(error)
            }
        }
    }

    /// Keeps a fault, which each later `learn` answers.
    fn keep(&mut self, error: UnfoldError) -> UnfoldError
        ensures { Keeps self.old error self.new result }
    {
        match error {
            UnfoldError::OutOfMemory => UnfoldError::OutOfMemory,
            UnfoldError::Refused(fault) => match fault.clone_in(self.alloc) {
                Err(_refused) => UnfoldError::OutOfMemory,
                Ok(copy) => {
                    mem::drop(mem::replace(&mut self.fault, Some(copy)));
                    UnfoldError::Refused(fault)
                }
            },
        }
    }

    /// Makes what is known anew, from all that was learned, by what is kept of the walk before. After an error it is as before.
    fn unfold(&mut self) -> Result<(), UnfoldError>
        requires kept { KeepsRoot (facts_before self.old.facts) self.old.fields
            self.old.process.now self.old.kept }
        requires apart { ids_differ self.old.process.now ≡ true }
        ensures { Unfolds self.old self.new result }
    {
        let kept = mem::replace(&mut self.kept, None);
        let found = walk_from_root(self.alloc, &self.facts, self.process, &self.fields, kept)?;
        let Rooted { walk, kept } = found;
        let Walk { met, outs } = walk;
        let are_all = are_there(outs.as_slice());
        let named = those_named(self.alloc, outs)?;
        let before = self.known.len();
        let flags = self.ended.len();
        match grow_flagged(
            self.alloc,
            &self.facts.learned,
            &mut self.known,
            &mut self.ended,
            self.entries,
            met,
        ) {
            Ok(entries) => {
                self.entries = entries;
                let is_whole = are_whole(are_all, &self.facts.learned, self.known.as_slice());
                let outputs = Outputs { named, is_whole };
                mem::drop(mem::replace(&mut self.outputs, outputs));
                mem::drop(mem::replace(&mut self.kept, kept));
                Ok(())
            }
            Err(error) => {
                self.known.truncate(before);
                self.ended.truncate(flags);
                Err(error)
            }
        }
    }
}
