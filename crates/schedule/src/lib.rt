// The planner, the cover and the checker (document 01; document 02 §4, §6 and §7).
#![tactic(auto)]

mod chains;
mod checker;
mod delivery;
mod instance;
mod least;
mod messages;
mod planner;
mod small;
mod timetable;
mod walk;

ghost use Rattle.std.specs.Prelude.{◌≡◌, ℕ, length};
ghost use Rattle.job.specs.Read.{reading_as};
ghost use Rattle.priority.specs.Orders.{instance_by};
ghost use Rattle.schedule.specs.InArrays.{reordered, instance_in, Plannable};
ghost use Rattle.schedule.specs.Handed.{in_arrays, read_in_arrays};
ghost use Rattle.schedule.specs.Answers.Laid.{as_laid};
ghost use Rattle.schedule.specs.Answers.Planned.{as_planned};
ghost use Rattle.schedule.specs.Answers.Covered.{as_covered};
ghost use Rattle.schedule.specs.Answers.Checked.{as_checked, as_judgement, found_judgement};
ghost use Rattle.schedule.specs.Call.{called};
ghost use Rattle.schedule.specs.Plan.{plan_call_by, plan_call, weight_call};
ghost use Rattle.schedule.specs.Small.{small_call};
ghost use Rattle.schedule.specs.Cover.{figures, cover_call_by, cover_call, weight_cover_call};
ghost use Rattle.schedule.specs.Check.{check_call, judge_call};
ghost use Rattle.schedule.specs.Pass.{short_of, tied_by, lay_call, said};
ghost use Rattle.schedule.specs.SmallPass.{lay_small};
ghost use Rattle.schedule.specs.CoverPass.{HoldsIn};

use instance::{Instance, Schedule};
use job::{Arrays, Found, Reading, Refusal, Verdict};
use priority::Ties;
use timetable::Timetable;
use walk::Ticks;

// What planning a job gives: the number of its tasks and the plan's end.
#[derive(Clone, Copy, Debug, PartialEq, Eq)]
pub struct Outcome {
    pub tasks: usize,
    pub end: u32,
}

// What the cover call gives: the cover, the least cover and the dearest chain of the planner's plan.
#[derive(Clone, Copy, Debug, PartialEq, Eq)]
pub struct Figures {
    pub cover: u32,
    pub least: u32,
    pub dearest: u32,
}

// What the reader finds in a job file, and what the checker says of a plan for it.
#[derive(Drop)]
pub struct Judged {
    pub reading: Reading,
    pub checked: Result<(), Refusal>,
}

// The same beside the arrays that the reader fills.
#[derive(Drop)]
pub struct JudgedFound {
    pub found: Found,
    pub checked: Result<(), Refusal>,
}

// Whether a slice is too short: fewer starts or processors than tasks, or fewer places of scratch than asked.
fn too_short(
    tasks: usize,
    places: usize,
    starts: &[u32],
    processors: &[u8],
    scratch: &[u32],
) -> bool
    ensures { result ≡ short_of places tasks (length starts.now) (length processors.now) (length scratch.now) }
{
    starts.len() < tasks || processors.len() < tasks || scratch.len() < places
}

// The instance of a job that was read, by its square of costs.
fn instance_of<'a>(
    found: &Found,
    tasks: usize,
    edges: usize,
    arrays: &'a Arrays,
    costs: &'a [[u32; 16]; 16],
) -> Instance<'a>
    requires { Plannable (read_in_arrays (reading_as found.now arrays.now) tasks edges costs.now) }
    ensures { in_arrays result ≡ read_in_arrays (reading_as found.now arrays.now) tasks edges costs.now }
{
    Instance {
        processors: usize::from(found.platform.processors),
        tasks,
        edges,
        durations: &arrays.durations,
        from: &arrays.from,
        to: &arrays.to,
        counts: &arrays.counts,
        costs,
    }
}

// Lays the plan of an instance out in the slices, and gives its last finish, if there is room; ties in start go by `ties`.
fn lay_out(
    instance: &Instance,
    ties: Ties,
    starts: &mut [u32],
    processors: &mut [u8],
    scratch: &mut [u32],
) -> Option<u32>
    ensures { called (as_laid result) starts.new processors.new scratch.new ≡
        lay_call (instance_in (tied_by ties (in_arrays instance.now))) starts.old processors.old scratch.old }
{
    if too_short(instance.tasks, 4096, starts, processors, scratch) {
        return None;
    }
    base::clear(scratch, 4096);
    let order = priority::order(
        ties,
        instance.tasks,
        instance.edges,
        instance.durations,
        instance.from,
        instance.to,
    );
    Some(planner::run(instance, &order, starts, processors, scratch))
}

// Plans the job of a file; ties in start go by `ties`. The two entries below are this one.
pub fn plan_by(
    ties: Ties,
    file: &[u8],
    starts: &mut [u32],
    processors: &mut [u8],
    scratch: &mut [u32],
) -> Result<Outcome, Refusal>
    ensures { called (as_planned result) starts.new processors.new scratch.new ≡ plan_call_by (instance_by ties)
        file.now starts.old processors.old scratch.old }
{
    let mut arrays = Arrays::zeros();
    let found = job::read_into(file, &mut arrays);
    let Verdict::Counts { tasks, edges } = found.verdict else {
        return Err(found.verdict.refusal());
    };
    let mut costs = [[0u32; 16]; 16];
    costs::fill_square(found.platform, &arrays.wires, &mut costs);
    let instance = instance_of(&found, tasks, edges, &arrays, &costs);
    let Some(last) = lay_out(&instance, ties, starts, processors, scratch) else {
        return Err(Refusal::ShortSlice);
    };
    let plan = Schedule { starts, processors };
    let end = delivery::end(&instance, &arrays.results, &plan, last);
    Ok(Outcome { tasks, end })
}

// Plans the job of a file (01: the planner).
pub fn plan(
    file: &[u8],
    starts: &mut [u32],
    processors: &mut [u8],
    scratch: &mut [u32],
) -> Result<Outcome, Refusal>
    ensures { called (as_planned result) starts.new processors.new scratch.new ≡
        plan_call file.now starts.old processors.old scratch.old }
{
    plan_by(Ties::Number, file, starts, processors, scratch)
}

// The same with ties in start to the task with the greatest weight, the longest work left (02 §6).
pub fn plan_by_weight(
    file: &[u8],
    starts: &mut [u32],
    processors: &mut [u8],
    scratch: &mut [u32],
) -> Result<Outcome, Refusal>
    ensures { called (as_planned result) starts.new processors.new scratch.new ≡
        weight_call file.now starts.old processors.old scratch.old }
{
    plan_by(Ties::Weight, file, starts, processors, scratch)
}

// Lays the plan of an instance out in the slices, ties by number, with 512 places of scratch, which are 0 afterwards; its last finish, if
// there is room.
fn lay_small(
    instance: &Instance,
    starts: &mut [u32],
    processors: &mut [u8],
    scratch: &mut [u32],
) -> Option<u32>
    ensures { called (as_laid result) starts.new processors.new scratch.new ≡
        lay_small (instance_in (in_arrays instance.now)) starts.old processors.old scratch.old }
{
    if too_short(instance.tasks, 512, starts, processors, scratch) {
        return None;
    }
    base::clear(scratch, 512);
    let last = small::run(instance, starts, processors, scratch);
    base::clear(scratch, 512); // 02 §4: it "leaves those 512 at zero"
    Some(last)
}

// Plans the job of a file with 512 places of scratch (02 §4). The job is read into arrays of its own, which are on the stack once.
pub fn plan_small(
    file: &[u8],
    starts: &mut [u32],
    processors: &mut [u8],
    scratch: &mut [u32],
) -> Result<Outcome, Refusal>
    ensures { called (as_planned result) starts.new processors.new scratch.new ≡
        small_call file.now starts.old processors.old scratch.old }
{
    let mut arrays = Arrays::zeros();
    let found = job::read_into(file, &mut arrays);
    let Verdict::Counts { tasks, edges } = found.verdict else {
        return Err(found.verdict.refusal());
    };
    let mut costs = [[0u32; 16]; 16];
    costs::fill_square(found.platform, &arrays.wires, &mut costs);
    let instance = instance_of(&found, tasks, edges, &arrays, &costs);
    let Some(last) = lay_small(&instance, starts, processors, scratch) else {
        return Err(Refusal::ShortSlice);
    };
    let plan = Schedule { starts, processors };
    let reported = delivery::end(&instance, &arrays.results, &plan, last);
    Ok(Outcome {
        tasks,
        end: reported,
    })
}

// Measures the planner's plan of an instance, in whichever order its tasks went.
fn measure(instance: &Instance, plan: &Schedule) -> Figures
    requires { (order : ℕ → ℕ) × HoldsIn (in_arrays instance.now) plan.now.starts.now plan.now.processors.now order }
    ensures { (order : ℕ → ℕ) → HoldsIn (in_arrays instance.now) plan.now.starts.now plan.now.processors.now order
        → result ≡ figures (instance_in (reordered order (in_arrays instance.now))) }
{
    let table = Timetable {
        instance: *instance,
        plan: *plan,
    };
    let mut ticks = Ticks {
        latest: [0; 256],
        idle: [0; 256],
    };
    walk::short_ticks(&table, &mut ticks);
    let cover = walk::cover(&table, &ticks);
    let most = chains::greatest_cost(instance);
    let least = least::least(&table, most, &ticks);
    let dearest = chains::dearest(instance, most);
    Figures {
        cover,
        least,
        dearest,
    }
}

// Plans the job of a file, ties in start going by `ties`, and measures the plan.
fn cover_by(
    ties: Ties,
    file: &[u8],
    starts: &mut [u32],
    processors: &mut [u8],
    scratch: &mut [u32],
) -> Result<Figures, Refusal>
    ensures { called (as_covered result) starts.new processors.new scratch.new ≡ cover_call_by (instance_by ties)
        file.now starts.old processors.old scratch.old }
{
    let mut arrays = Arrays::zeros();
    let found = job::read_into(file, &mut arrays);
    let Verdict::Counts { tasks, edges } = found.verdict else {
        return Err(found.verdict.refusal());
    };
    let mut costs = [[0u32; 16]; 16];
    costs::fill_square(found.platform, &arrays.wires, &mut costs);
    let instance = instance_of(&found, tasks, edges, &arrays, &costs);
    let Some(_) = lay_out(&instance, ties, starts, processors, scratch) else {
        return Err(Refusal::ShortSlice);
    };
    Ok(measure(&instance, &Schedule { starts, processors }))
}

// Plans the job of a file, and measures the plan (01: the cover call).
pub fn cover(
    file: &[u8],
    starts: &mut [u32],
    processors: &mut [u8],
    scratch: &mut [u32],
) -> Result<Figures, Refusal>
    ensures { called (as_covered result) starts.new processors.new scratch.new ≡
        cover_call file.now starts.old processors.old scratch.old }
{
    cover_by(Ties::Number, file, starts, processors, scratch)
}

// The same of the plan with ties in start to the task with the greatest weight (02 §6).
pub fn cover_by_weight(
    file: &[u8],
    starts: &mut [u32],
    processors: &mut [u8],
    scratch: &mut [u32],
) -> Result<Figures, Refusal>
    ensures { called (as_covered result) starts.new processors.new scratch.new ≡
        weight_cover_call file.now starts.old processors.old scratch.old }
{
    cover_by(Ties::Weight, file, starts, processors, scratch)
}

// What the checker says of a plan of an instance: 9 for a slice too short for its tasks, the rule that it breaks, or a yes.
fn say(instance: &Instance, plan: &Schedule) -> Result<(), Refusal>
    ensures { as_checked result ≡
        said (instance_in (in_arrays instance.now)) instance.now.tasks plan.now.starts.now plan.now.processors.now }
{
    if plan.starts.len() < instance.tasks || plan.processors.len() < instance.tasks {
        return Err(Refusal::ShortSlice);
    }
    checker::keeps_rules(instance, plan)
}

// Judges a plan for the job of a file (01: the checker). Built into a caller it would leave its 7 KB on the caller's stack throughout.
#[inline(never)]
pub fn check(file: &[u8], starts: &[u32], processors: &[u8]) -> Result<(), Refusal>
    ensures { as_checked result ≡ check_call file.now starts.now processors.now }
{
    let mut arrays = Arrays::zeros();
    let found = job::read_into(file, &mut arrays);
    let Verdict::Counts { tasks, edges } = found.verdict else {
        return Err(found.verdict.refusal());
    };
    let mut costs = [[0u32; 16]; 16];
    costs::fill_square(found.platform, &arrays.wires, &mut costs);
    let instance = instance_of(&found, tasks, edges, &arrays, &costs);
    say(&instance, &Schedule { starts, processors })
}

// The reading of what was found, with the arrays that were filled.
fn put_together(found: Found, arrays: Arrays) -> Reading
    ensures { result ≡ reading_as found arrays }
{
    Reading {
        arrays,
        verdict: found.verdict,
        platform: found.platform,
    }
}

// Judges a plan for the job of a file, and hands on what was read: for a call that goes on with the job when the plan is accepted.
pub fn judge(file: &[u8], starts: &[u32], processors: &[u8]) -> Judged
    ensures { as_judgement result ≡ judge_call file.now starts.now processors.now }
{
    let mut arrays = Arrays::zeros();
    let judged = judge_into(file, starts, processors, &mut arrays);
    Judged {
        reading: put_together(judged.found, arrays),
        checked: judged.checked,
    }
}

// The same with the job in arrays that the caller has, where it is on the stack once. What they held does not count.
pub fn judge_into(
    file: &[u8],
    starts: &[u32],
    processors: &[u8],
    arrays: &mut Arrays,
) -> JudgedFound
    ensures { found_judgement result arrays.new ≡ judge_call file.now starts.now processors.now }
{
    let found = job::read_into(file, arrays);
    let Verdict::Counts { tasks, edges } = found.verdict else {
        let checked = Err(found.verdict.refusal());
        return JudgedFound { found, checked };
    };
    let mut costs = [[0u32; 16]; 16];
    costs::fill_square(found.platform, &arrays.wires, &mut costs);
    let instance = instance_of(&found, tasks, edges, arrays, &costs);
    let checked = say(&instance, &Schedule { starts, processors });
    JudgedFound { found, checked }
}
