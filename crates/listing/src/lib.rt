// The text that program `plan` prints for a job file (document 01, "Ticks worked out").
#![tactic(auto)]

mod put;

ghost use Rattle.std.specs.Prelude.{◌≡◌, ℕ, ◌+◌, ◌*◌, ◌≤◌, ◌<◌, length, get_or};
ghost use Rattle.base.specs.Slices.{Put};
ghost use Rattle.listing.specs.Listing.{header as header_of, task_line, task_lines, figures as figures_of, refusal_line};
ghost use Rattle.listing.specs.Listing.{listed, put_first, listing_call};

use job::Verdict;
use schedule::Figures;

// The first line.
fn header(out: &mut [u8], processors: u8, tasks: usize, edges: usize) -> usize
    requires { (tasks ≤ 256) × (edges ≤ 1024) × (38 ≤ length out.old) }
    ensures put { Put out.old out.new 0 result (header_of processors tasks edges) }
    ensures upper_bound { result ≤ 38 }
{
    let first = put::word(out, 0, b"plan ");
    let second = put::field(out, first, u32::from(processors), b' ');
    let third = put::field(out, second, tasks as u32, b' ');
    put::field(out, third, edges as u32, b'\n')
}

// The line of one task.
fn task(out: &mut [u8], at: usize, number: u32, processor: u32, start: u32, finish: u32) -> usize
    requires { at + 44 ≤ length out.old }
    ensures put { Put out.old out.new at result (task_line number processor start finish) }
    ensures upper_bound { result ≤ at + 44 }
{
    let second = put::field(out, at, number, b' ');
    let third = put::field(out, second, processor, b' ');
    let fourth = put::field(out, third, start, b' ');
    put::field(out, fourth, finish, b'\n')
}

// The lines of the tasks.
fn lines<'a>(
    out: &mut [u8],
    at: usize,
    tasks: usize,
    durations: &'a [u32],
    starts: &'a [u32],
    processors: &'a [u8],
) -> usize
    requires tasks_bound { (tasks ≤ 256) × (at + 44 * tasks ≤ length out.old) }
    requires tasks_in_bounds { (tasks ≤ length durations.now) × (tasks ≤ length starts.now) × (tasks ≤ length processors.now) }
    requires by_index { (T : ℕ) → T < tasks → get_or starts.now T 0 + get_or durations.now T 0 < 4294967296 }
    ensures put { Put out.old out.new at result
        (task_lines tasks (λ T. get_or processors.now T 0) (λ T. get_or starts.now T 0)
        (λ T. get_or durations.now T 0)) }
    ensures upper_bound { result ≤ at + 44 * tasks }
{
    let mut place = at;
    for t in 0..tasks {
        let finish = starts[t] + durations[t];
        place = task(
            out,
            place,
            t as u32,
            u32::from(processors[t]),
            starts[t],
            finish,
        );
    }
    place
}

// The last four lines.
fn figures(out: &mut [u8], at: usize, end: u32, reported: Figures) -> usize
    requires { at + 68 ≤ length out.old }
    ensures put { Put out.old out.new at result
        (figures_of end reported.cover reported.least reported.dearest) }
    ensures upper_bound { result ≤ at + 68 }
{
    let second = put::line(out, at, b"end ", end);
    let third = put::line(out, second, b"cover ", reported.cover);
    let fourth = put::line(out, third, b"least ", reported.least);
    put::line(out, fourth, b"dearest ", reported.dearest)
}

// Writes the line of a refusal to the front of `out`, and answers its length (01: "A refusal prints one line").
pub fn refusal(number: u8, out: &mut [u8; 12288]) -> usize
    ensures out_after { listed result out.new ≡ put_first (refusal_line number) out.old }
    ensures upper_bound { result ≤ 12288 }
{
    put::line(out, 0, b"refused ", u32::from(number))
}

// Writes the listing of a file's job to the front of `out`, and answers its length (01: what program `plan` prints).
pub fn write(file: &[u8], out: &mut [u8; 12288]) -> usize
    ensures out_after { listed result out.new ≡ listing_call file.now out.old }
    ensures upper_bound { result ≤ 12288 }
{
    let r = job::read(file);
    let Verdict::Counts { tasks, edges } = r.verdict else {
        return refusal(job::number(r.verdict), out);
    };
    let mut starts = [0u32; 256];
    let mut processors = [0u8; 256];
    let mut scratch = [0u32; 4096];
    let Ok(planned) = schedule::plan(file, &mut starts, &mut processors, &mut scratch) else {
        unreachable!()
    };
    let Ok(reported) = schedule::cover(file, &mut starts, &mut processors, &mut scratch) else {
        unreachable!()
    };
    let first = header(out, r.platform.processors, tasks, edges);
    let last = lines(out, first, tasks, &r.arrays.durations, &starts, &processors);
    figures(out, last, planned.end, reported)
}
