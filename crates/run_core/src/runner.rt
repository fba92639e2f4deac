ghost use Rattle.std.specs.Prelude.{◌≡◌, ◌≢◌, ◌↔◌, ◌+◌, ◌<◌, ◌≤◌, [], None, Err, IfOk, IfErr, OnOk, length, option_map, vec_len, vec_capacity};
ghost use Rattle.proc_host.specs.declared.call.HostRequest.{HostRequest};
ghost use Rattle.run_rules.specs.declared.outcome.RunFault.{RunFault};
ghost use Rattle.run_rules.specs.declared.request.Request.{Request};
ghost use Rattle.run_rules.specs.Answers.{MayAnswer};
ghost use Rattle.run_rules.specs.Blame.{BlamesRightly, Rise, given_tickets};
ghost use Rattle.run_rules.specs.Reports.{entries_of, reported, Concludes};
ghost use Rattle.job_graph.specs.Words.{JobPlace};
ghost use Rattle.run_core.specs.declared.state.Phase.{Phase};
ghost use Rattle.run_core.specs.Core.{HasCounted, HasNotRunOut, HasPlans, Halts, IsAtRest, IsLost, MayAsk, MayTake, Begins, StaysLost, Took, GaveUp};
ghost use Rattle.run_rules.specs.Limits.{IsWithinLimits};
ghost use Rattle.run_core.specs.Machine.{plan_of};
ghost use Rattle.run_core.specs.inner.Answered.{most_answers};
ghost use Rattle.run_core.specs.inner.Course.{past_of};
ghost use Rattle.run_core.specs.inner.Follows.{AsksIn, AsksOf, HasPairs, IsReadyFor, MakesRoom, Moves, told_of};
ghost use Rattle.run_core.specs.inner.Measures.{Begins as BeginsAt};
ghost use Rattle.run_core.specs.inner.Standing.{HasRoom};
ghost use Rattle.run_core.specs.inner.Turn.{IsEnded};
ghost use Rattle.workflow_check.specs.Checked.{fault_in};

use crate::anyway::can_go_on;
use crate::counts::PlanCounts;
use crate::course::{at_first, reserve_one};
use crate::halted::{Halted, Noted, noted_in, what_is_left};
use crate::measuring::begun;
use crate::state::{Course, Given, Phase, Turn};
use crate::steps::answered;
use crate::transcript::Transcript;
use crate::turn::{ended, given_up, lost};
use crate::{Answer, Options, Outcome, Report, Request, RunFault};
use cwl_value::Value;
use document_links::Process;
use job_graph::see_ids;
use plain_data::{Items, Keyed};
use plan_checker::{Charges, Graph, Plan};
use run_plan::Rates;
use run_rules::an_honest_run_is_reported_rightly;
use std::alloc::{AllocError, Global};
use std::marker::Model;
use std::mem;

/// A run of a process as a machine: it asks one request, is told one answer, and so on until it asks nothing more.
///
/// It touches nothing but memory. For every sequence of answers, what it asked and was answered is a run of the process.
#[derive(Drop)]
pub struct RunCore<'a> {
    alloc: Global,
    given: Given<'a>,
    pairs: Transcript,
    course: Course<'a>,
    turn: Turn,
}

impl<'a> Model for RunCore<'a> {
    ghost use Rattle.run_core.specs.Machine.{Machine};
    ghost use Rattle.cwl_value.specs.contracts.value.Value as value;
    ghost use Rattle.document_links.specs.contracts.process.Process as process;
    ghost use Rattle.std.specs.Coded.{codes};

    ghost Value = { Machine };

    ghost coded = { Prim.hlevel (codes, process.the_row.coded, value.the_row.coded) };

    ghost use Rattle.run_core.specs.inner.Inside.{seen, Stands};

    ghost view = { seen };

    ghost invariant = { Stands };
}

impl<'a> RunCore<'a> {
    /// A run of a process on an input object.
    pub fn new(
        alloc: Global,
        process: &'a Process,
        inputs: &'a Keyed<Value>,
        options: Options,
    ) -> Result<RunCore<'a>, RunFault>
        requires accepted { fault_in process.now ≡ None }
        requires limits { IsWithinLimits options }
        ensures ok { IfOk result (λ core. Begins process.now inputs.now options core) }
        ensures err { IfErr result (λ fault. fault ≡ RunFault.OutOfMemory) }
    {
        see_ids(process);
        let rates = Rates::new(options.base, options.rate);
        let given = Given {
            process,
            inputs,
            options,
            rates,
            answers: 0,
        };
        let pairs = Transcript::new();
        let mut course = at_first(alloc);
        let mut turn = ended(Err(RunFault::OutOfMemory));
        match start(alloc, &given, &mut course, &mut turn) {
            Ok(()) => Ok(RunCore {
                alloc,
                given,
                pairs,
                course,
                turn,
            }),
            Err(AllocError) => {
                mem::drop(given);
                mem::drop(pairs);
                mem::drop(course);
                mem::drop(turn);
                Err(RunFault::OutOfMemory)
            }
        }
    }

    /// What it asks now, which may be asked after the run so far; `Finished` where it has ended.
    pub fn next(&self) -> &Request
        ensures asked { result.now ≡ self.now.asks }
        ensures flying { (place : JobPlace) → self.now.asks ≡ Request.Host place HostRequest.Collect
            → self.now.flying ≢ [] }
        ensures allowed { self.now.asks ≢ Request.Finished → MayAsk self.now }
    {
        &self.turn.asks
    }

    /// The tickets of the children in flight, while it asks something. They rise where each new ticket is above those given
    /// before it, as a host's are.
    pub fn in_flight(&self) -> &[u64]
        ensures flying { result.now ≡ self.now.flying }
        ensures rising { self.now.asks ≢ Request.Finished
            → Rise (given_tickets (entries_of self.now.transcript)) → Rise result.now }
    {
        self.course.tickets.as_slice()
    }

    /// The present job graph of the last planning point, the plan in force, and charges that certify it; none before the first
    /// such point.
    pub fn plan_now(&self) -> Option<(&Graph, &Plan, &Charges)>
        ensures plan { option_map (λ lent. plan_of lent.0.now lent.1.now lent.2.now) result
            ≡ self.now.plan }
        ensures planned { HasNotRunOut self.now → HasPlans self.now }
    {
        match &self.course.planned {
            None => None,
            Some(kept) => {
                let made = kept.made();
                Some((&made.graph, &made.plan, &made.charges))
            }
        }
    }

    /// Returns how many plans were brought up to date so far, and how many were made anew: one at each planning point. `plan_on` and
    /// `plan_touched` of `run_plan` say when a plan is brought up to date.
    pub fn plan_counts(&self) -> PlanCounts
        ensures { HasNotRunOut self.now → HasCounted self.now result }
    {
        self.course.counts
    }

    /// Returns how many jobs are known so far, those that have ended among them.
    pub fn known(&self) -> usize {
        match &self.course.known {
            None => 0,
            Some(unfolding) => unfolding.known().len(),
        }
    }

    /// Takes the answer to what it asks. Where memory runs out for what comes next, the pair is kept, the children in
    /// flight are waited for, and nothing else is asked; once none is in flight it answers so, and `finish` says so too.
    /// From then on any answer is refused so, and changes nothing.
    pub fn take(&mut self, answer: Answer) -> Result<(), RunFault>
        requires { MayTake self.old answer }
        ensures took { MayAnswer self.old.flying self.old.asks answer
            → Took self.old answer result self.new }
        ensures lost { IsLost self.old → StaysLost self.old result self.new }
    {
        match told_of(&self.turn.phase) {
            Ok(()) => self.take_next(answer),
            Err(fault) => {
                mem::drop(answer);
                Err(fault)
            }
        }
    }

    /// Takes the answer to what it asks.
    fn take_next(&mut self, answer: Answer) -> Result<(), RunFault>
        requires { MayAnswer self.old.flying self.old.asks answer }
        ensures { Took self.old answer result self.new }
    {
        can_go_on(&self.course, &self.turn.phase, &answer);
        self.given.answers = self.pairs.count + 1;
        let request = step(
            self.alloc,
            &self.given,
            &mut self.course,
            &mut self.turn,
            &answer,
        );
        self.pairs.note(request, answer);
        make_room(self.alloc, &self.pairs, &mut self.course, &mut self.turn);
        told_of(&self.turn.phase)
    }

    /// Leaves what it asks unanswered, since memory ran out outside of it. From then on the children in flight are waited
    /// for, and nothing else is asked. It answers out of memory where none is in flight, or where their ends alone were
    /// waited for already.
    pub fn give_up(&mut self) -> Result<(), RunFault>
        requires { self.old.asks ≢ Request.Finished }
        ensures { GaveUp self.old result self.new }
    {
        let next = given_up(self.alloc, &self.course, &self.turn.phase);
        mem::drop(mem::replace(&mut self.turn, next));
        told_of(&self.turn.phase)
    }

    /// What came of the run, where it has ended.
    pub fn finish(self) -> Result<Report, RunFault>
        requires { self.asks ≡ Request.Finished }
        ensures concluded { Concludes self.entry.setting self.entry.transcript result }
        ensures faults { IfErr result (BlamesRightly (entries_of self.entry.transcript)) }
        ensures lost { (result ≡ Err RunFault.OutOfMemory) ↔ IsLost self.entry }
    {
        an_honest_run_is_reported_rightly();
        let RunCore {
            alloc: _,
            given,
            pairs,
            course,
            turn,
        } = self;
        mem::drop(given);
        mem::drop(pairs);
        reported(phase_outcome(turn), course)
    }

    /// Stops it as it is, and hands out what is known by then, what was planned last, and what came of the process, if the
    /// run has ended.
    pub fn halt(self) -> Halted<'a>
        ensures { IsAtRest self.entry → Halts self.entry result }
    {
        let RunCore {
            alloc: _,
            given,
            pairs,
            course,
            turn,
        } = self;
        mem::drop(given);
        mem::drop(pairs);
        what_is_left(course, turn)
    }
}

/// Comes to the first turn, with room for one child.
fn start<'a>(
    alloc: Global,
    given: &Given<'a>,
    course: &mut Course<'a>,
    turn: &mut Turn,
) -> Result<(), AllocError>
    requires { course.old.folders ≡ 0 }
    ensures begins { OnOk result (BeginsAt given.now course.old turn.new course.new) }
    ensures one_more { OnOk result (HasRoom course.new turn.new.phase) }
{
    let first = begun(alloc, given, course)?;
    mem::drop(mem::replace(turn, first));
    reserve_one(course)
}

/// Moves to the state that follows from the answer, and gives back what was asked.
fn step<'a>(
    alloc: Global,
    given: &Given<'a>,
    course: &mut Course<'a>,
    turn: &mut Turn,
    answer: &Answer,
) -> Request
    requires answers { MayAnswer course.old.tickets.items turn.old.asks answer.now }
    requires asks { AsksIn course.old turn.old }
    requires room { HasRoom course.old turn.old.phase }
    requires ready { IsReadyFor course.old turn.old.phase }
    ensures asked { result ≡ turn.old.asks }
    ensures moved { Moves given.now course.old turn.old answer.now turn.new course.new }
{
    let Turn { asks, phase } = mem::replace(turn, ended(Err(RunFault::OutOfMemory)));
    let next = next_turn(alloc, given, course, &asks, phase, answer);
    mem::drop(mem::replace(turn, next));
    asks
}

/// The turn that follows from the answer, or the one that waits for the children in flight alone where memory runs out.
fn next_turn<'a>(
    alloc: Global,
    given: &Given<'a>,
    course: &mut Course<'a>,
    asks: &Request,
    phase: Phase,
    answer: &Answer,
) -> Turn
    requires answers { MayAnswer course.old.tickets.items asks.now answer.now }
    requires asks { AsksOf course.old asks.now phase }
    requires room { HasRoom course.old phase }
    requires ready { IsReadyFor course.old phase }
    ensures moved { Moves given.now course.old (record { asks = asks.now; phase = phase })
        answer.now result course.new }
{
    match answered(alloc, given, course, asks, phase, answer) {
        Ok(next) => next,
        Err(AllocError) => lost(alloc, course),
    }
}

/// Makes room for what comes next. Where there is none, nothing but the ends of the children in flight is asked for, and
/// they have room.
fn make_room(alloc: Global, pairs: &Transcript, course: &mut Course<'_>, turn: &mut Turn)
    requires { HasPairs pairs.now.count most_answers (past_of course.old) turn.old }
    ensures past { past_of course.new ≡ past_of course.old }
    ensures known { course.new.known ≡ course.old.known }
    ensures room { MakesRoom pairs.now.count most_answers (past_of course.old) turn.old turn.new }
    ensures one_more { HasRoom course.new turn.new.phase }
{
    match turn.phase {
        Phase::Draining | Phase::Ended(_) => return,
        _ => {}
    }
    match reserve(pairs, course) {
        Ok(()) => {}
        Err(AllocError) => mem::drop(mem::replace(turn, lost(alloc, course))),
    }
}

/// Makes room for one more child, where the answers that come next can be counted: that to what is asked, and the
/// end of each child in flight.
fn reserve(pairs: &Transcript, course: &mut Course<'_>) -> Result<(), AllocError>
    ensures past { past_of course.new ≡ past_of course.old }
    ensures known { course.new.known ≡ course.old.known }
    ensures pairs { OnOk result (pairs.now.count + (length course.old.tickets.items + 2)
        ≤ most_answers) }
    ensures tickets { OnOk result (vec_len course.new.tickets < vec_capacity course.new.tickets) }
    ensures flights { OnOk result (vec_len course.new.flights < vec_capacity course.new.flights) }
{
    // One more, since a start is answered by one more child in flight.
    pairs.room_for(course.tickets.len().saturating_add(2))?;
    reserve_one(course)
}

/// What `take` answers: whether memory ran out and no child is in flight.
fn told_of(phase: &Phase) -> Result<(), RunFault>
    ensures { result ≡ told_of phase.now }
{
    match phase {
        Phase::Ended(Err(RunFault::OutOfMemory)) => Err(RunFault::OutOfMemory),
        _ => Ok(()),
    }
}

/// The report of what came of the process.
fn reported(outcome: Result<Outcome, RunFault>, course: Course<'_>) -> Result<Report, RunFault>
    ensures { result ≡ reported (past_of course.entry).plans (past_of course.entry).notes outcome }
{
    let Noted {
        plans,
        notes,
        planned,
        known,
    } = noted_in(course);
    mem::drop(planned);
    mem::drop(known);
    match outcome {
        Ok(outcome) => Ok(Report {
            outcome,
            plans: Items::from_vec(plans),
            notes: Items::from_vec(notes),
        }),
        Err(fault) => {
            mem::drop(plans);
            mem::drop(notes);
            Err(fault)
        }
    }
}

/// What came of the process by the last turn.
fn phase_outcome(turn: Turn) -> Result<Outcome, RunFault>
    requires { IsEnded turn.phase }
    ensures { turn.phase ≡ Phase.Ended result }
{
    let Turn { asks, phase } = turn;
    mem::drop(asks);
    outcome_of(phase)
}

/// What came of it by the last phase.
fn outcome_of(phase: Phase) -> Result<Outcome, RunFault>
    requires { IsEnded phase }
    ensures { phase ≡ Phase.Ended result }
{
    match phase {
        Phase::Ended(outcome) => outcome,
        _ => unreachable!(),
    }
}
