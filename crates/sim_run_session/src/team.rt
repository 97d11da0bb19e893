//! A run by a team of threads, from its present state to its end: in each phase every thread
//! executes a share of the processes that are due, by value.

ghost use Rattle.std.specs.Prelude.{◌≡◌, ◌≢◌, None, IfSome};
ghost use Rattle.sim_store.specs.Handing as hands;
ghost use Rattle.sim_store_simulation.specs.Simulation as simulations;
ghost use Rattle.sim_store.specs.Run as runs;
ghost use Rattle.sim_store.specs.WaveStore as store;
ghost use Rattle.sim_store.specs.WaveStore.{IsSameRun};
ghost use Rattle.sim_run_session.specs.Streaming.{HasGoneOn};

use sim_exec::Frame;
use sim_run_team::{Hints, Posts, Team, Work};
use sim_store::{Answer, DesignType, Order, Run};
use std::alloc::{AllocError, Global};
use std::marker::{Brand, PhantomData};
use std::sync::Wait;
use std::thread;
use std::thread::{Builder, Scope, Threads};

/// The stack of a worker, in bytes. A worker recurses only into the statements and expressions of
/// a body, which are nested less than a hundred deep. The C library keeps the stacks of ended
/// threads, so that a run which begins again on one thread has the less room the larger they are.
const STACK_SIZE: usize = 512 * 1024;

/// How a team carries on a run.
#[derive(Clone, Copy)]
pub struct Plan {
    /// The most threads.
    workers: usize,
    /// When work is handed out to other threads. No answer depends on it.
    hints: Hints,
    /// How many entries the run's log has when the team stops, if the run has not ended before.
    entries: usize,
    /// Whether another thread may write lines while these go on.
    pub is_shared: bool,
}

/// The work of the phases of this design's run, in shares.
struct PhaseWork<D: DesignType> {
    of: PhantomData<D>,
}

impl<D: DesignType> Work for PhaseWork<D> {
    type Order = Order<D>;

    type Answer = Answer<D>;

    /// The frame on which bodies are executed.
    type Kept = Option<Frame>;

    ghost number_of_order = { λ o. o.from };

    ghost number_of_answer = { λ a. a.from };

    fn at_first() -> Option<Frame> {
        None
    }

    /// That of its first process.
    fn order_number(order: &Order<D>) -> usize {
        order.from()
    }

    fn answer_number(answer: &Answer<D>) -> usize {
        answer.from()
    }

    fn is_large(order: &Order<D>, least: usize) -> bool {
        order.is_worthwhile(least)
    }

    fn carry_out(alloc: Global, order: Order<D>, kept: &mut Option<Frame>) -> Option<Answer<D>> {
        order.execute(alloc, kept).ok()
    }
}

/// Executes all processes that are due on this thread; `None` if memory runs out.
fn execute_alone(alloc: Global, run: Run) -> Option<Run>
    ensures same { IfSome result (λ r. r ≡ runs.with_executed run r.store.simulation.deposited) }
    ensures complete { IfSome result (λ r. simulations.IsComplete r.store.simulation) }
{
    run.execute_due(alloc).ok()
}

/// Executes all processes that are due. Large shares go to workers. `None` if the team fails.
fn execute_in_shares<D: DesignType, R: Wait>(
    rt: &R,
    alloc: Global,
    run: Run,
    team: &mut Team<'_, PhaseWork<D>>,
) -> Option<Run>
    requires design { run.store.simulation.design ≡ D.design }
    requires untouched { hands.IsUntouched run.store }
    ensures same { IfSome result (λ r. r ≡ runs.with_executed run r.store.simulation.deposited) }
    ensures complete { IfSome result (λ r. simulations.IsComplete r.store.simulation) }
{
    let (handed_out, shares) = run.hand_out::<D>(alloc).ok()?;
    let answers = team.carry_out(rt, alloc, shares)?;
    match handed_out.take_back(alloc, answers) {
        Ok(run) => Some(run),
        Err(_lost) => None,
    }
}

/// Executes all processes that are due, by the team if at least `least` of them have something to
/// do. `None` if the team fails or memory runs out.
fn execute<D: DesignType, R: Wait>(
    rt: &R,
    alloc: Global,
    run: Run,
    team: &mut Team<'_, PhaseWork<D>>,
    least: usize,
) -> Option<Run>
    requires { run.store.simulation.design ≡ D.design }
    ensures same { IfSome result (λ r. r ≡ runs.with_executed run r.store.simulation.deposited) }
    ensures complete { IfSome result (λ r. simulations.IsComplete r.store.simulation) }
{
    if !run.is_untouched() || !run.has_busy(least) {
        return execute_alone(alloc, run);
    }
    execute_in_shares(rt, alloc, run, team)
}

/// Carries out one phase of a cycle, and goes on; `None` if the team fails or memory runs out.
fn go_on<D: DesignType, R: Wait>(
    rt: &R,
    alloc: Global,
    run: Run,
    team: &mut Team<'_, PhaseWork<D>>,
    least: usize,
) -> Option<Run>
    requires design { run.store.simulation.design ≡ D.design }
    requires open { store.IsOpen run.store }
    ensures { IfSome result (HasGoneOn run) }
{
    let mut run = execute(rt, alloc, run, team, least)?;
    run.is_within_bounds();
    // All that are due were executed and the run has not ended, so an error means lack of memory.
    run.advance(alloc).ok()?;
    Some(run)
}

/// Carries out one phase of a cycle on this thread, and goes on; `None` if memory runs out.
#[inline(always)]
fn go_on_alone(alloc: Global, run: Run) -> Option<Run>
    requires { store.IsOpen run.store }
    ensures { IfSome result (HasGoneOn run) }
{
    let mut run = execute_alone(alloc, run)?;
    run.is_within_bounds();
    // All that are due were executed and the run has not ended, so an error means lack of memory.
    run.advance(alloc).ok()?;
    Some(run)
}

/// Carries on a run on this thread until it has ended or its log has so many entries; `None` if
/// memory runs out.
fn carry_on_alone<R: Wait>(rt: &R, alloc: Global, run: Run, entries: usize) -> Option<Run>
    ensures { IfSome result (HasGoneOn run) }
{
    let mut run = run;
    for _turn in rt.forever() {
        if run.ended().is_some() || run.log().has_entries(entries) {
            return Some(run);
        }
        run = go_on_alone(alloc, run)?;
    }
    None
}

/// Carries on a run until it has ended or its log has so many entries; `None` if the team fails or
/// memory runs out.
fn lead<D: DesignType, R: Wait>(
    rt: &R,
    alloc: Global,
    run: Run,
    team: &mut Team<'_, PhaseWork<D>>,
    entries: usize,
) -> Option<Run>
    requires { run.store.simulation.design ≡ D.design }
    ensures { IfSome result (HasGoneOn run) }
{
    let least = team.least_processes(run.mean_length());
    let mut run = run;
    for _turn in rt.forever() {
        if run.ended().is_some() || run.log().has_entries(entries) {
            return Some(run);
        }
        run = go_on(rt, alloc, run, team, least)?;
    }
    None
}

/// The same, with the workers at the first `hired` posts.
fn lead_hired<D: DesignType, R: Wait>(
    rt: &R,
    alloc: Global,
    run: Run,
    posts: &Posts<PhaseWork<D>>,
    hired: usize,
    plan: Plan,
) -> Option<Run>
    requires { run.store.simulation.design ≡ D.design }
    ensures { IfSome result (HasGoneOn run) }
{
    let mut team = Team::new(posts, hired, plan.hints);
    lead(rt, alloc, run, &mut team, plan.entries)
}

/// Starts a thread for each post, as long as threads can be started. Returns how many posts have
/// one: the first ones.
fn hire<'s, D: DesignType + Send + Sync + 's, R: Threads + Wait + Sync, E>(
    scope: &Scope<'s, E>,
    rt: &'s R,
    alloc: Global,
    posts: &'s Posts<PhaseWork<D>>,
) -> usize {
    for post in 0..posts.len() {
        let thread = Builder::new().stack_size(STACK_SIZE);
        if thread
            .spawn_scoped(scope, move || posts.work(rt, alloc, post))
            .is_err()
        {
            return post;
        }
    }
    posts.len()
}

/// Carries on a run of the design that `D` names until it has ended or its log has so many entries
/// as the plan says. It starts a thread for each post, as many as can be. `None` if the team fails
/// or memory runs out.
fn run_at<D: DesignType + Send + Sync, R: Threads + Wait + Sync>(
    rt: &R,
    alloc: Global,
    run: Run,
    posts: &Posts<PhaseWork<D>>,
    plan: Plan,
) -> Option<Run>
    requires { run.store.simulation.design ≡ D.design }
    ensures { IfSome result (HasGoneOn run) }
{
    thread::scope(
        thread::scope_env(),
        rt,
        |scope| -> Option<Run>
            requires { run.store.simulation.design ≡ D.design }
            ensures { IfSome result (HasGoneOn run) }
        {
            let hired = hire(scope, rt, alloc, posts);
            lead_hired(rt, alloc, run, posts, hired, plan)
        },
    )
}

/// The same, with posts for as many threads as the plan says, of which this is one.
fn run_by<D: DesignType + Send + Sync, R: Threads + Wait + Sync>(
    rt: &R,
    alloc: Global,
    run: Run,
    plan: Plan,
) -> Option<Run>
    requires { run.store.simulation.design ≡ D.design }
    ensures { IfSome result (HasGoneOn run) }
{
    let others = plan.workers.saturating_sub(1);
    let posts = Posts::new(
        alloc,
        others,
        plan.hints.orders_of_a_thread,
        plan.hints.looks_before_sleep,
    )?;
    run_at::<D, R>(rt, alloc, run, &posts, plan)
}

/// The number of threads that are useful for a run, at most `workers`: one if bodies are short, and
/// otherwise as many as have enough to do where all processes are due, and one for each processor at
/// most.
fn useful<R: Threads>(rt: &R, run: &Run, workers: usize, hints: Hints) -> usize {
    let length = run.mean_length();
    if length < hints.least_steps_of_a_process {
        return 1;
    }
    let all = run.design().processes().len().saturating_mul(length);
    workers
        .min(hints.busy_threads(all))
        .min(hints.most_threads(rt))
        .max(1)
}

/// The plan by which a team of at most `workers` threads carries on a run, and the run with its
/// processes in as many shares as the plan needs. Each thread adds `entries` to those that a log has
/// before the team stops.
pub fn planned<R: Threads>(
    rt: &R,
    alloc: Global,
    run: Run,
    workers: usize,
    hints: Hints,
    entries: usize,
) -> Option<(Plan, Run)>
    ensures { IfSome result (λ r. r.1 ≡ run) }
{
    let is_shared = workers > 1;
    let workers = useful(rt, &run, workers, hints);
    let run = run.divide(alloc, hints.orders(workers)).ok()?;
    let plan = Plan {
        workers,
        hints,
        entries: entries.saturating_mul(workers),
        is_shared,
    };
    Some((plan, run))
}

/// Carries on a run from its present state until it has ended or its log has so many entries as the
/// plan says, by at most so many threads. In each phase with enough work, by the hints, each thread
/// gets shares of the processes that are due, by value, and then executes those that no other has
/// begun. A caller cannot tell which thread executes which process. `None` if the team fails: one of
/// its threads had no memory. The run is then lost, and may begin again on the calling thread.
pub fn carry_on<R: Threads + Wait + Sync>(
    rt: &R,
    alloc: Global,
    run: Run,
    plan: Plan,
) -> Option<Run>
    ensures { IfSome result (HasGoneOn run) }
{
    if plan.workers == 1 {
        return carry_on_alone(rt, alloc, run, plan.entries);
    }
    run_by::<Brand, R>(rt, alloc, run, plan)
}

/// Carries on a run until it has ended, by at most `workers` threads; `None` if the team fails.
pub fn carry_to_end<R: Threads + Wait + Sync>(
    rt: &R,
    alloc: Global,
    run: Run,
    workers: usize,
    hints: Hints,
) -> Option<Run>
    ensures same { IfSome result (λ r. IsSameRun run.store r.store × (r.given ≡ run.given)) }
    ensures ended { IfSome result (λ r. r.store.ended ≢ None) }
{
    let (plan, run) = planned(rt, alloc, run, workers, hints, usize::MAX)?;
    let mut run = run;
    for _turn in rt.forever() {
        if run.ended().is_some() {
            return Some(run);
        }
        run = carry_on(rt, alloc, run, plan)?;
    }
    None
}
