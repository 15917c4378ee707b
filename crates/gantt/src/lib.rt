// The page for the cabinet door (document 02 §3): a plan drawn in one row a processor.
#![tactic(auto)]

ghost use Rattle.std.specs.Prelude.{◌≡◌, ◌++◌, ℕ, ◌+◌, ◌*◌, ◌/◌, ◌^◌, ◌≤◌, ◌<◌, ltb, length, get_or, drop, replicate};
ghost use Rattle.std.proofs.lemmas.List.Edits.{sets};
ghost use Rattle.base.specs.Choice.{pick};
ghost use Rattle.base.specs.Rows.{most};
ghost use Rattle.base.specs.Text.{space};
ghost use Rattle.gantt.specs.Answer.{as_drawn};
ghost use Rattle.gantt.specs.Page.{dot, row, rows};
ghost use Rattle.gantt.specs.Draw.{drawn, draw_call};
ghost use Rattle.gantt.specs.Pass.{Drawable, cells_by};

use job::{Arrays, Refusal, Verdict};

// The last finish of a plan.
fn last_finish(tasks: usize, durations: &[u32], starts: &[u32]) -> u32
    requires tasks_in_bounds { (tasks ≤ length durations.now) × (tasks ≤ length starts.now) }
    requires by_index { (T : ℕ) → T < tasks → get_or starts.now T 0 + get_or durations.now T 0 < 2 ^ 32 }
    ensures { result ≡ most tasks (λ T. get_or starts.now T 0 + get_or durations.now T 0) }
{
    let mut last: u32 = 0;
    for t in 0..tasks {
        last = last.max(starts[t] + durations[t]);
    }
    last
}

// Puts a byte at each place. std's `fill` stores the last place apart, and the page would take some 4 parts in 100 longer.
fn fill(part: &mut [u8], byte: u8)
    ensures { part.new ≡ replicate (length part.old) byte }
{
    for place in part {
        *place = byte;
    }
}

// The first column of a processor's number: a digit, or a space.
fn tens(processor: usize) -> u8
    requires { processor < 100 }
    ensures { result ≡ pick (ltb processor 10) space (48 + processor / 10) }
{
    if processor < 10 {
        return b' ';
    }
    b'0' + (processor / 10) as u8
}

// Puts the row of a processor that runs nothing.
fn put_row(out: &mut [u8], at: usize, processor: usize)
    requires { (at + 70 ≤ length out.old) × (processor < 100) }
    ensures { out.new ≡ sets out.old at (row (λ j. dot) processor) }
{
    out[at] = tens(processor);
    out[at + 1] = b'0' + (processor % 10) as u8;
    out[at + 2] = b' ';
    out[at + 3] = b'|';
    fill(&mut out[at + 4..at + 68], b'.');
    out[at + 68] = b'|';
    out[at + 69] = b'\n';
}

// Puts the rows of processors that run nothing.
fn put_rows(n: usize, out: &mut [u8])
    requires { (n ≤ 16) × (70 * n ≤ length out.old) }
    ensures { out.new ≡ rows (λ P j. dot) n ++ drop (70 * n) out.old }
{
    for p in 0..n {
        put_row(out, 70 * p, p);
    }
}

// Marks in such rows the cells in which tasks run, each from the cell of its first tick to that of its last.
fn mark_tasks(
    n: usize,
    tasks: usize,
    width: u32,
    durations: &[u32],
    starts: &[u32],
    processors: &[u8],
    out: &mut [u8],
)
    requires drawable { Drawable n tasks width durations.now starts.now processors.now }
    requires n_in_bounds { (70 * n ≤ length out.old) × (out.old ≡ rows (λ P j. dot) n ++ drop (70 * n) out.old) }
    ensures { out.new ≡
        rows (cells_by width durations.now starts.now processors.now tasks) n
        ++ drop (70 * n) out.old }
{
    for t in 0..tasks {
        let start = starts[t];
        let first = start / width;
        let last = (start + durations[t] - 1) / width;
        let cells = 70 * usize::from(processors[t]) + 4;
        fill(
            &mut out[cells + first as usize..=cells + last as usize],
            b'#',
        );
    }
}

// Draws the page of a plan for the job of a file at the front of `out`, and gives the page's length (02 §3).
#[inline(never)]
pub fn draw(
    file: &[u8],
    starts: &[u32],
    processors: &[u8],
    out: &mut [u8],
) -> Result<usize, Refusal>
    ensures { drawn (as_drawn result) out.new ≡
        draw_call file.now starts.now processors.now out.old }
{
    let mut arrays = Arrays::zeros();
    let judged = schedule::judge_into(file, starts, processors, &mut arrays);
    let found = judged.found;
    let checked = judged.checked;
    let Verdict::Counts { tasks, edges: _ } = found.verdict else {
        return Err(found.verdict.refusal());
    };
    let n = usize::from(found.platform.processors);
    let length = 70 * n;
    if out.len() < length {
        return Err(Refusal::ShortSlice);
    }
    checked?;
    let last = last_finish(tasks, &arrays.durations, starts);
    let width = (last + 63) / 64;
    put_rows(n, out);
    mark_tasks(n, tasks, width, &arrays.durations, starts, processors, out);
    Ok(length)
}
