// The job reader and writer, the square of costs, the planners on slices, the cover calls and the page as functions that the benchmark
// (bench/) and the differential (tests/differential) call from C.
#![tactic(auto)]

ghost use Rattle.std.specs.Prelude.{◌≡◌, ◌≤◌, length};
ghost use Rattle.job.specs.Read.{read_job, reading_of};
ghost use Rattle.schedule.specs.Call.{called};
ghost use Rattle.schedule.specs.Cover.{cover_call, weight_cover_call};
ghost use Rattle.schedule.specs.Plan.{weight_call};
ghost use Rattle.schedule.specs.Small.{small_call};
ghost use Rattle.schedule.specs.Answers.Covered.{as_covered};
ghost use Rattle.timing.specs.Timing.{number_at, Copied, refusal_in, numbers_in, or_nine, cover_returned, cover_timed};
ghost use Rattle.timing.specs.Timing.{square_timed, draw_returned, draw_timed, plan_timed};

use job::{HeldJob, Platform, Refusal, Verdict};
use kelvrist::answer_number;
use schedule::Figures;

// Reads a file, and returns one number of what was read: which one is not known before, so that every store is due.
#[tactic(auto, unfolding(crate::specs::Timing::number_at))]
#[unsafe(no_mangle)]
pub extern "C" fn timing_read(file: &[u8], place: usize) -> u32
    ensures { result ≡ number_at (reading_of (read_job file.now)) place }
{
    let r = job::read(file);
    if place < 256 {
        return r.arrays.durations[place];
    }
    if place < 1280 {
        return u32::from(r.arrays.from[place - 256]);
    }
    if place < 2304 {
        return u32::from(r.arrays.to[place - 1280]);
    }
    if place < 3328 {
        return u32::from(r.arrays.counts[place - 2304]);
    }
    if place < 3584 {
        return u32::from(r.arrays.wires[place - 3328]);
    }
    if place < 3840 {
        return u32::from(r.arrays.results[place - 3584]);
    }
    u32::from(job::number(r.verdict))
}

// Reads a file and writes its job to `out`: 0, or the refusal's number.
#[tactic(auto, unfolding(crate::specs::Timing::copy_answer, crate::specs::Timing::copy_out, crate::specs::Timing::job_held_in))]
#[unsafe(no_mangle)]
pub extern "C" fn timing_copy(file: &[u8], out: &mut [u8]) -> u32
    ensures { Copied result out.new (reading_of (read_job file.now)) out.old }
{
    let r = job::read(file);
    let Verdict::Counts { tasks, edges } = r.verdict else {
        return u32::from(job::number(r.verdict));
    };
    let job = HeldJob {
        platform: r.platform,
        tasks,
        edges,
        arrays: &r.arrays,
    };
    answer_number(job::write(&job, out))
}

// Makes the square of costs, and returns the entry at row p and column q, 0 where there is none: which one is not known before, so that
// every store is due.
#[unsafe(no_mangle)]
pub extern "C" fn timing_square(
    processors: u8,
    topology: u8,
    unit: u8,
    wires: &[u8; 256],
    p: usize,
    q: usize,
) -> u32
    ensures { result ≡ square_timed processors topology unit wires.now p q }
{
    let platform = Platform {
        processors,
        topology,
        unit,
    };
    let costs = costs::square(platform, wires);
    if 16 <= p {
        return 0;
    }
    if 16 <= q {
        return 0;
    }
    costs[p][q]
}

// The number of a refused file, or 9 for what is lent beside an accepted one.
#[tactic(auto, using(job::specs::Accepted::refused_is), unfolding(crate::specs::Timing::or_nine))]
fn or_nine(file: &[u8]) -> u32
    ensures { result ≡ or_nine (read_job file.now) }
{
    match job::read(file).verdict {
        Verdict::Counts { .. } => 9,
        Verdict::Refused(number) => u32::from(number),
    }
}

// Puts the cover, the least cover and the dearest chain into the first three places of `out`: 0, or the number of a refused cover call.
fn put_figures(covered: Result<Figures, Refusal>, out: &mut [u32]) -> u32
    requires { 3 ≤ length out.old }
    ensures { (result ≡ refusal_in (as_covered covered)) × (out.new ≡ numbers_in (as_covered covered) out.old) }
{
    let Ok(figures) = covered else {
        return answer_number(covered);
    };
    out[0] = figures.cover;
    out[1] = figures.least;
    out[2] = figures.dearest;
    0
}

// The cover call: 0 with the cover, the least cover and the dearest chain in the first three places of `out`, or the refusal's number;
// `out` is one of the slices that can be too short (9).
#[tactic(auto, unfolding(crate::specs::Timing::cover_timed))]
#[unsafe(no_mangle)]
pub extern "C" fn timing_cover(
    file: &[u8],
    starts: &mut [u32],
    processors: &mut [u8],
    scratch: &mut [u32],
    out: &mut [u32],
) -> u32
    ensures { cover_returned result starts.new processors.new scratch.new out.new ≡ cover_timed
        cover_call file.now starts.old processors.old scratch.old out.old }
{
    if out.len() < 3 {
        return or_nine(file);
    }
    put_figures(schedule::cover(file, starts, processors, scratch), out)
}

// The same of the plan with ties in start to the task with the greatest weight.
#[tactic(auto, unfolding(crate::specs::Timing::cover_timed))]
#[unsafe(no_mangle)]
pub extern "C" fn timing_cover_by_weight(
    file: &[u8],
    starts: &mut [u32],
    processors: &mut [u8],
    scratch: &mut [u32],
    out: &mut [u32],
) -> u32
    ensures { cover_returned result starts.new processors.new scratch.new out.new ≡ cover_timed
        weight_cover_call file.now starts.old processors.old scratch.old out.old }
{
    if out.len() < 3 {
        return or_nine(file);
    }
    put_figures(
        schedule::cover_by_weight(file, starts, processors, scratch),
        out,
    )
}

// Draws the page of a plan for the job of a file at the front of `out`: 0, or the refusal's number.
#[tactic(auto, unfolding(crate::specs::Timing::draw_timed))]
#[unsafe(no_mangle)]
pub extern "C" fn timing_draw(file: &[u8], starts: &[u32], processors: &[u8], out: &mut [u8]) -> u32
    ensures { draw_returned result out.new ≡
        draw_timed file.now starts.now processors.now out.old }
{
    answer_number(gantt::draw(file, starts, processors, out))
}

// Plans the job of a file with 512 places of scratch: 0, or the refusal's number.
#[tactic(auto, unfolding(crate::specs::Timing::plan_timed))]
#[unsafe(no_mangle)]
pub extern "C" fn timing_small(
    file: &[u8],
    starts: &mut [u32],
    processors: &mut [u8],
    scratch: &mut [u32],
) -> u32
    ensures { called result starts.new processors.new scratch.new ≡
        plan_timed small_call file.now starts.old processors.old scratch.old }
{
    answer_number(schedule::plan_small(file, starts, processors, scratch))
}

// Plans the job of a file with ties in start to the task with the greatest weight: 0, or the refusal's number.
#[tactic(auto, unfolding(crate::specs::Timing::plan_timed))]
#[unsafe(no_mangle)]
pub extern "C" fn timing_plan_by_weight(
    file: &[u8],
    starts: &mut [u32],
    processors: &mut [u8],
    scratch: &mut [u32],
) -> u32
    ensures { called result starts.new processors.new scratch.new ≡
        plan_timed weight_call file.now starts.old processors.old scratch.old }
{
    answer_number(schedule::plan_by_weight(file, starts, processors, scratch))
}
