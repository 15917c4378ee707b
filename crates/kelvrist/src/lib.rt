// The planners and the checker on job bytes and plan bytes (document 01; document 02 §4 and §6), and the page of a plan (§3), as C calls
// them: crate kelvrist_c exports each.
#![tactic(auto)]

mod encoding;

ghost use Rattle.std.specs.Prelude.{◌≡◌, [], ◌≤◌, length};
ghost use Rattle.job.specs.Limits.{most_tasks};
ghost use Rattle.job.specs.Read.{read_job};
ghost use Rattle.priority.specs.Orders.{instance_by};
ghost use Rattle.schedule.specs.declared.Outcome.{Outcome};
ghost use Rattle.schedule.specs.Answers.Number.{answer_number};
ghost use Rattle.schedule.specs.Answers.Planned.{as_planned};
ghost use Rattle.schedule.specs.Call.{called};
ghost use Rattle.kelvrist.specs.PlanBytes.{returned, plan_bytes_call_by, plan_bytes_call, weight_bytes_call, check_bytes_call};
ghost use Rattle.kelvrist.specs.PageBytes.{drew, page_bytes_call};
ghost use Rattle.kelvrist.specs.Numbers.{in_bytes};
ghost use Rattle.kelvrist.specs.Pass.{HasTasks, Taken};

use job::{Arrays, Refusal, Verdict};
use priority::Ties;
use schedule::Outcome;

// 0 for an acceptance, or the refusal's number (01: "Each returns 0 or the refusal's number").
pub fn answer_number<T: Copy>(answer: Result<T, Refusal>) -> u32
    ensures { result ≡ answer_number answer }
{
    match answer {
        Ok(_) => 0,
        Err(refusal) => u32::from(refusal.number()),
    }
}

// How many tasks the job of these bytes has. The job itself, some 6 KB, is gone from the stack when the plan is judged: built into a
// caller it would stay there.
#[inline(never)]
fn tasks_of(job: &[u8]) -> Result<usize, Refusal>
    ensures { HasTasks (read_job job.now) result }
{
    let mut arrays = Arrays::zeros();
    let found = job::read_into(job, &mut arrays);
    let Verdict::Counts { tasks, edges: _ } = found.verdict else {
        return Err(found.verdict.refusal());
    };
    Ok(tasks)
}

// Takes a plan's tasks off its bytes, as many as the job of `job` has. No byte past 5m is read.
fn take_plan(
    job: &[u8],
    plan: &[u8],
    starts: &mut [u32],
    processors: &mut [u8],
) -> Result<(), Refusal>
    requires { (most_tasks ≤ length starts.old) × (most_tasks ≤ length processors.old) }
    ensures { Taken job.now plan.now (answer_number result) starts.new processors.new }
{
    let tasks = tasks_of(job)?;
    let bytes = 5 * tasks;
    if plan.len() < bytes {
        return Err(Refusal::ShortSlice);
    }
    encoding::get(tasks, plan, starts, processors);
    Ok(())
}

// Puts what a planner answers and leaves in its arrays into 5 bytes a task of `plan`.
fn put_plan(
    planned: Result<Outcome, Refusal>,
    starts: &[u32],
    processors: &[u8],
    plan: &mut [u8],
) -> Result<(), Refusal>
    requires { (o : Outcome) → planned ≡ Ok o →
        (o.tasks ≤ most_tasks) × (o.tasks ≤ length starts.now) × (o.tasks ≤ length processors.now) }
    ensures { returned (answer_number result) plan.new ≡
        in_bytes (called (as_planned planned) starts.now processors.now []) plan.old }
{
    let outcome = planned?;
    let tasks = outcome.tasks;
    if plan.len() < 5 * tasks {
        return Err(Refusal::ShortSlice);
    }
    encoding::put(tasks, starts, processors, plan);
    Ok(())
}

// Plans the job of `job` into 5 bytes a task of `plan`, ties in start going by `ties`: 0, or the refusal's number. The arrays stand here,
// once for both calls that plan so.
fn plan_by(ties: Ties, job: &[u8], plan: &mut [u8]) -> u32
    ensures { returned result plan.new ≡ plan_bytes_call_by (instance_by ties) job.now plan.old }
{
    let mut starts = [0u32; 256];
    let mut processors = [0u8; 256];
    let mut scratch = [0u32; 4096];
    let planned = schedule::plan_by(ties, job, &mut starts, &mut processors, &mut scratch);
    answer_number(put_plan(planned, &starts, &processors, plan))
}

// Plans the job of `job` into 5 bytes a task of `plan`: 0, or the refusal's number.
pub fn kelvrist_plan(job: &[u8], plan: &mut [u8]) -> u32
    ensures { returned result plan.new ≡ plan_bytes_call job.now plan.old }
{
    plan_by(Ties::Number, job, plan)
}

// The same as `kelvrist_plan` with ties in start to the task with the longest work left (02 §6).
pub fn kelvrist_plan_by_weight(job: &[u8], plan: &mut [u8]) -> u32
    ensures { returned result plan.new ≡ weight_bytes_call job.now plan.old }
{
    plan_by(Ties::Weight, job, plan)
}

// The number and bytes of `kelvrist_plan` with less memory (02 §4): arrivals are worked out when they are wanted.
pub fn kelvrist_plan_small(job: &[u8], plan: &mut [u8]) -> u32
    ensures { returned result plan.new ≡ plan_bytes_call job.now plan.old }
{
    let mut starts = [0u32; 256];
    let mut processors = [0u8; 256];
    let mut scratch = [0u32; 512];
    let planned = schedule::plan_small(job, &mut starts, &mut processors, &mut scratch);
    answer_number(put_plan(planned, &starts, &processors, plan))
}

// What the checker says of 5 bytes a task of `plan` for the job of `job`.
fn check_plan(job: &[u8], plan: &[u8]) -> Result<(), Refusal>
    ensures { answer_number result ≡ check_bytes_call job.now plan.now }
{
    let mut starts = [0u32; 256];
    let mut processors = [0u8; 256];
    take_plan(job, plan, &mut starts, &mut processors)?;
    schedule::check(job, &starts, &processors)
}

// Judges 5 bytes a task of `plan` for the job of `job`: 0 for a yes, or the refusal's number. No byte past 5m is read.
pub fn kelvrist_check(job: &[u8], plan: &[u8]) -> u32
    ensures { result ≡ check_bytes_call job.now plan.now }
{
    let checked = check_plan(job, plan);
    answer_number(checked)
}

// What drawing 5 bytes a task of `plan` for the job of `job` at the front of `page` gives: the page's length (02 §3).
fn draw_plan(job: &[u8], plan: &[u8], page: &mut [u8]) -> Result<usize, Refusal>
    ensures { drew (answer_number result) page.new ≡ page_bytes_call job.now plan.now page.old }
{
    let mut starts = [0u32; 256];
    let mut processors = [0u8; 256];
    let taken = take_plan(job, plan, &mut starts, &mut processors);
    taken?;
    gantt::draw(job, &starts, &processors, page)
}

// Draws the page of 5 bytes a task of `plan` for the job of `job` at the front of `page` (02 §3): 0, or the refusal's number. No byte
// past 5m of the plan is read.
pub fn kelvrist_page(job: &[u8], plan: &[u8], page: &mut [u8]) -> u32
    ensures { drew result page.new ≡ page_bytes_call job.now plan.now page.old }
{
    let drawn = draw_plan(job, plan, page);
    answer_number(drawn)
}
