//! A run with one slot, simulated: which of its jobs are known, what is done with them, and what a planner sees of them.
//!
//! The jobs are those of a graph; where one has a load cost, it has a row in the record and an archive. A job is known
//! once its parents are resolved, and is resolved itself by its row or by its end. The jobs that are known are numbered in the order in
//! which they came to be known.

use plain_data::Items;
use plan_checker::{Mark, Plan, Vertex};
use std::alloc::{AllocError, Global};

/// How far a job is.
#[derive(Clone, Copy)]
struct Progress {
    /// Its number, once it is known.
    number: Option<usize>,
    resolved: bool,
    /// In flight, or at hand.
    held: bool,
}

/// How far the jobs of a run are.
#[derive(Drop)]
pub struct Run {
    jobs: Vec<Progress>,
    /// The jobs that are known, by their numbers.
    known: Vec<usize>,
    in_flight: Option<usize>,
}

impl Run {
    /// A run in which nothing was done yet.
    pub fn new(alloc: Global, graph: &[Vertex]) -> Result<Run, AllocError> {
        let mut jobs = Vec::with_capacity(alloc, graph.len())?;
        for _ in graph {
            jobs.push(Progress {
                number: None,
                resolved: false,
                held: false,
            })?;
        }
        Ok(Run {
            jobs,
            known: Vec::new(alloc),
            in_flight: None,
        })
    }

    /// Numbers the jobs that have come to be known.
    pub fn learn(&mut self, graph: &[Vertex]) -> Result<(), AllocError> {
        for (job, vertex) in graph.iter().enumerate() {
            if !self.is_known(job) && self.are_resolved(vertex.parents.as_slice()) {
                let number = self.known.len();
                self.known.push(job)?;
                self.give_number(job, number, vertex.load.is_some());
            }
        }
        Ok(())
    }

    /// The jobs that are known, as a planner sees them.
    pub fn vertices(&self, alloc: Global, graph: &[Vertex]) -> Result<Vec<Vertex>, AllocError> {
        let is_over = self.jobs.iter().all(|progress| progress.resolved);
        let mut vertices = Vec::with_capacity(alloc, self.known.len())?;
        for job in &self.known {
            if let (Some(progress), Some(vertex)) = (self.jobs.get(*job), graph.get(*job)) {
                vertices.push(Vertex {
                    load: if progress.held { Some(0) } else { vertex.load },
                    compute: vertex.compute,
                    parents: self.numbers_of(alloc, vertex.parents.as_slice())?,
                    needed: !progress.resolved || is_over && vertex.needed,
                })?;
            }
        }
        Ok(vertices)
    }

    /// Fetches the next job that the plan loads, else starts the next one that it computes, else waits for the job in
    /// flight: whether there was one.
    pub fn step(&mut self, graph: &[Vertex], plan: &Plan) -> bool {
        if let Some(job) = self.next(plan, Mark::Load, graph) {
            self.hold(job);
            return true;
        }
        match self.in_flight {
            Some(job) => {
                self.end(job);
                true
            }
            None => self.start(graph, plan),
        }
    }

    fn start(&mut self, graph: &[Vertex], plan: &Plan) -> bool {
        self.in_flight = self.next(plan, Mark::Compute, graph);
        match self.in_flight {
            Some(job) => {
                self.hold(job);
                true
            }
            None => false,
        }
    }

    /// The lowest job with this mark that is not held; to be computed, its parents have to be at hand.
    fn next(&self, plan: &Plan, wanted: Mark, graph: &[Vertex]) -> Option<usize> {
        for (job, mark) in self.known.iter().zip(plan.marks.as_slice()) {
            if *mark == wanted
                && !self.is_held(*job)
                && (wanted == Mark::Load || self.has_parents(graph, *job))
            {
                return Some(*job);
            }
        }
        None
    }

    fn has_parents(&self, graph: &[Vertex], job: usize) -> bool {
        match graph.get(job) {
            Some(vertex) => vertex
                .parents
                .as_slice()
                .iter()
                .all(|parent| self.is_held(*parent)),
            None => false,
        }
    }

    fn is_known(&self, job: usize) -> bool {
        self.number_of(job).is_some()
    }

    fn is_held(&self, job: usize) -> bool {
        self.jobs.get(job).is_some_and(|progress| progress.held)
    }

    fn number_of(&self, job: usize) -> Option<usize> {
        self.jobs.get(job)?.number
    }

    fn are_resolved(&self, jobs: &[usize]) -> bool {
        jobs.iter().all(|job| self
            .jobs
            .get(*job)
            .is_some_and(|progress| progress.resolved))
    }

    /// The numbers of these jobs, rising.
    fn numbers_of(&self, alloc: Global, jobs: &[usize]) -> Result<Items<usize>, AllocError> {
        let mut numbers = Vec::with_capacity(alloc, jobs.len())?;
        for job in jobs {
            if let Some(number) = self.number_of(*job) {
                numbers.push(number)?;
            }
        }
        numbers.sort()?;
        Ok(Items::from_vec(numbers))
    }

    fn give_number(&mut self, job: usize, number: usize, has_row: bool) {
        if let Some(progress) = self.jobs.get_mut(job) {
            progress.number = Some(number);
            progress.resolved = has_row;
        }
    }

    fn hold(&mut self, job: usize) {
        if let Some(progress) = self.jobs.get_mut(job) {
            progress.held = true;
        }
    }

    fn end(&mut self, job: usize) {
        self.in_flight = None;
        if let Some(progress) = self.jobs.get_mut(job) {
            progress.resolved = true;
        }
    }
}
