// The writer's parts: the judgement of a job held as numbers, and the bytes of its records.
ghost use Rattle.std.specs.Prelude.{◌≡◌, ◌+◌, ◌≤◌, ◌<◌, T as Holds, length, IfOk};
ghost use mathlib.Core.List.{flat_map};
ghost use Rattle.base.specs.Slices.{Put};
ghost use Rattle.job.specs.Record.{platform_in_range, wire_pairs};
ghost use Rattle.job.specs.Table.{trouble};
ghost use Rattle.job.specs.Write.{results_held, job_held, wire_bytes, step_bytes, link_bytes, result_bytes, file_of};
ghost use Rattle.job.specs.Pass.{edge, result_of, wires_trouble, StepsJudged, LinksJudged, ResultsJudged, Met};

use crate::kind::{
    END_LENGTH, LINK_LENGTH, RACK_LENGTH, RESULT_LENGTH, RecordKind, STEP_LENGTH, WIRE_LENGTH,
};
use crate::record::Pair;
use crate::{Arrays, HeldJob, Platform, Refusal, Topology, record};

// A job that was judged: its rack is in range, its counts are not above what a job can hold, and so many of its tasks have a result.
#[derive(Clone, Copy)]
pub struct Judged<'a> {
    pub job: HeldJob<'a>,
    pub results: usize,
    ghost rack: { Holds (platform_in_range job.platform) },
    ghost few_tasks: { job.tasks ≤ 256 },
    ghost few_edges: { job.edges ≤ 1024 },
    ghost few_results: { results ≤ 256 },
    ghost counted: { results ≡ length (results_held job.arrays.now.results job.tasks) },
}

// Judges the wires of a job whose rack is in range.
fn judge_wires(job: &HeldJob) -> Result<(), Refusal>
    requires { Holds (platform_in_range job.now.platform) }
    ensures { trouble result ≡ wires_trouble (job_held job.now).wires }
{
    if job.platform.topology != Topology::Wired as u8 {
        return Ok(());
    }
    let n = job.platform.processors;
    for from in 0..n {
        for to in 0..n {
            if from != to {
                record::judge_cost(job.arrays.wires[record::place(Pair { from, to })])?;
            }
        }
    }
    Ok(())
}

// Judges the steps, by their durations.
fn judge_steps(durations: &[u32]) -> Result<(), Refusal>
    ensures { StepsJudged durations.now (trouble result) }
{
    for duration in durations {
        record::judge_step(*duration)?;
    }
    Ok(())
}

// Judges the links among so many tasks, by their ends and message counts.
fn judge_links(tasks: usize, from: &[u8], to: &[u8], counts: &[u16]) -> Result<(), Refusal>
    requires { (length to.now ≡ length from.now) × (length counts.now ≡ length from.now) }
    ensures { LinksJudged from.now to.now counts.now tasks (trouble result) }
{
    let mut least: u32 = 0;
    for i in 0..from.len() {
        record::judge_link(from[i], to[i], counts[i], tasks, least)?;
        least = record::key(from[i], to[i]) + 1;
    }
    Ok(())
}

// How many tasks have a result, by the message count of each.
fn result_count(counts: &[u16]) -> usize
    ensures { result ≡ length (results_held counts.now (length counts.now)) }
{
    counts.iter().filter(|count| **count != 0).count()
}

// Judges the results, by the message count of each task, and answers how many there are. The first `edges` edges come from `from`.
fn judge_results(from: &[u8; 1024], edges: usize, counts: &[u16]) -> Result<usize, Refusal>
    requires { (edges ≤ 1024) × (length counts.now ≤ 256) }
    ensures judged { ResultsJudged from.now counts.now edges (trouble result) }
    ensures counted { IfOk result (λ n. n ≡ length (results_held counts.now (length counts.now))) }
{
    let results = result_count(counts);
    if results == 0 {
        return Ok(0);
    }
    let sent = record::senders(from, edges);
    for (t, count) in counts.iter().enumerate() {
        if *count != 0 {
            record::judge_delivery(sent[t], *count)?;
        }
    }
    Ok(results)
}

// Judges a job whose counts a job can hold, as the reader would meet its records.
pub fn judge<'a>(job: &HeldJob<'a>) -> Result<Judged<'a>, Refusal>
    requires { (job.now.tasks ≤ 256) × (job.now.edges ≤ 1024) }
    ensures met { Met (job_held job.now) (trouble result) }
    ensures same { IfOk result (λ judged. judged.job ≡ job.now) }
{
    let HeldJob {
        platform,
        tasks,
        edges,
        arrays,
    } = *job;
    record::judge_platform(platform)?;
    judge_wires(job)?;
    if tasks == 0 {
        return Err(Refusal::MisplacedKind);
    }
    judge_steps(&arrays.durations[..tasks])?;
    judge_links(
        tasks,
        &arrays.from[..edges],
        &arrays.to[..edges],
        &arrays.counts[..edges],
    )?;
    let results = judge_results(&arrays.from, edges, &arrays.results[..tasks])?;
    Ok(Judged { job: *job, results })
}

impl<'a> Judged<'a> {
    // How many wires the rack has: one for each pair under topology 3, none under another.
    fn wire_count(&self) -> usize
        ensures { (result ≡ length (wire_pairs self.now.job.platform)) × (result ≤ 240) }
    {
        if self.job.platform.topology != Topology::Wired as u8 {
            return 0;
        }
        let n = usize::from(self.job.platform.processors);
        n * (n - 1)
    }

    // The length of its file.
    pub fn file_length(&self) -> usize
        ensures { result ≡ length (file_of (job_held self.now.job)) }
    {
        RACK_LENGTH
            + WIRE_LENGTH * self.wire_count()
            + STEP_LENGTH * self.job.tasks
            + LINK_LENGTH * self.job.edges
            + RESULT_LENGTH * self.results
            + END_LENGTH
    }

    // Puts the wires: one for each pair under topology 3, none under another.
    fn put_wires(&self, out: &mut [u8], start: usize) -> usize
        requires { start + length (flat_map wire_bytes (job_held self.now.job).wires) ≤ length out.old }
        ensures { Put out.old out.new start result (flat_map wire_bytes (job_held self.now.job).wires) }
    {
        if self.job.platform.topology != Topology::Wired as u8 {
            return start;
        }
        let n = self.job.platform.processors;
        let mut at = start;
        for from in 0..n {
            for to in 0..n {
                if from != to {
                    let cost = self.job.arrays.wires[record::place(Pair { from, to })];
                    at = put(out, at, &[RecordKind::Wire as u8, from, to, cost]);
                }
            }
        }
        at
    }

    // Puts the steps.
    fn put_steps(&self, out: &mut [u8], start: usize) -> usize
        requires { start + length (flat_map step_bytes (job_held self.now.job).tasks) ≤ length out.old }
        ensures { Put out.old out.new start result (flat_map step_bytes (job_held self.now.job).tasks) }
    {
        let mut at = start;
        for duration in &self.job.arrays.durations[..self.job.tasks] {
            at = put_step(*duration, out, at);
        }
        at
    }

    // Puts the links.
    fn put_links(&self, out: &mut [u8], start: usize) -> usize
        requires { start + length (flat_map link_bytes (job_held self.now.job).edges) ≤ length out.old }
        ensures { Put out.old out.new start result (flat_map link_bytes (job_held self.now.job).edges) }
    {
        let Arrays {
            from,
            to,
            counts,
            ..
        } = self.job.arrays;
        let mut at = start;
        for i in 0..self.job.edges {
            at = put_link(from[i], to[i], counts[i], out, at);
        }
        at
    }

    // Puts the results.
    fn put_results(&self, out: &mut [u8], start: usize) -> usize
        requires { start + length (flat_map result_bytes (job_held self.now.job).results) ≤ length out.old }
        ensures { Put out.old out.new start result (flat_map result_bytes (job_held self.now.job).results) }
    {
        if self.results == 0 {
            return start;
        }
        let mut at = start;
        let counts = &self.job.arrays.results[..self.job.tasks];
        for (t, count) in counts.iter().enumerate() {
            if *count != 0 {
                at = put_result(t, *count, out, at);
            }
        }
        at
    }

    // Puts its file at the front, and answers the length.
    pub fn put(&self, out: &mut [u8]) -> usize
        requires { length (file_of (job_held self.now.job)) ≤ length out.old }
        ensures { Put out.old out.new 0 result (file_of (job_held self.now.job)) }
    {
        let platform = self.job.platform;
        let rack = [
            RecordKind::Rack as u8,
            platform.processors,
            platform.topology,
            platform.unit,
        ];
        let wires = put(out, 0, &rack);
        let steps = self.put_wires(out, wires);
        let links = self.put_steps(out, steps);
        let results = self.put_links(out, links);
        let end = self.put_results(out, results);
        put(out, end, &[RecordKind::End as u8])
    }
}

// Puts bytes.
fn put(out: &mut [u8], at: usize, bytes: &[u8]) -> usize
    requires { at + length bytes.now ≤ length out.old }
    ensures { Put out.old out.new at result bytes.now }
{
    let end = at + bytes.len();
    out[at..end].copy_from_slice(bytes);
    end
}

// Puts a step.
#[tactic(auto, unfolding(crate::specs::Write::step_bytes, base::specs::Number::bytes))]
fn put_step(duration: u32, out: &mut [u8], at: usize) -> usize
    requires { at + 5 ≤ length out.old }
    ensures { Put out.old out.new at result (step_bytes duration) }
{
    let [first, second, third, fourth] = duration.to_le_bytes();
    let step = [RecordKind::Step as u8, first, second, third, fourth];
    put(out, at, &step)
}

// Puts a link.
#[tactic(auto, unfolding(crate::specs::Write::link_bytes, base::specs::Number::bytes))]
fn put_link(from: u8, to: u8, count: u16, out: &mut [u8], at: usize) -> usize
    requires { at + 5 ≤ length out.old }
    ensures { Put out.old out.new at result (link_bytes (edge from to count)) }
{
    let [first, second] = count.to_le_bytes();
    let link = [RecordKind::Link as u8, from, to, first, second];
    put(out, at, &link)
}

// Puts a result.
#[tactic(auto, unfolding(crate::specs::Write::result_bytes, base::specs::Number::bytes))]
fn put_result(task: usize, count: u16, out: &mut [u8], at: usize) -> usize
    requires { (task < 256) × (at + 4 ≤ length out.old) }
    ensures { Put out.old out.new at result (result_bytes (result_of task count)) }
{
    let [first, second] = count.to_le_bytes();
    let result = [RecordKind::Result as u8, task as u8, first, second];
    put(out, at, &result)
}
