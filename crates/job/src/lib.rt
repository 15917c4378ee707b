// The job file: its reader and its writer (document 01, "The job file").
#![tactic(auto)]

mod emit;
mod kind;
mod parse;
mod record;
mod table;

ghost use Rattle.std.specs.Prelude.{◌≡◌};
ghost use Rattle.job.specs.Job.{blank};
ghost use Rattle.job.specs.Topology.{Links};
ghost use Rattle.job.specs.declared.Verdict.TheVariants.{Refused};
ghost use Rattle.job.specs.Table.{number_of, refusal};
ghost use Rattle.job.specs.Read.{read_job, verdict_number, arrays_of, reading_of, reading_as};
ghost use Rattle.job.specs.Write.{written, job_held, WrittenAs};
ghost use Rattle.job.specs.Pass.{Filling};

use kind::{LINK_LENGTH, RACK_LENGTH, RecordKind};
pub use table::Refusal;

// How processors are linked, by the number of the file (01: the rack's wiring; 02 §1).
#[derive(Clone, Copy, Debug, PartialEq, Eq)]
pub enum Topology {
    Complete = 0,
    Hypercube = 1,
    Ring = 2,
    Wired = 3,
}

impl TryFrom<u8> for Topology {
    type Error = Refusal;

    ghost try_from_gives = { Links };

    fn try_from(number: u8) -> Result<Self, Refusal> {
        match number {
            0 => Ok(Topology::Complete),
            1 => Ok(Topology::Hypercube),
            2 => Ok(Topology::Ring),
            3 => Ok(Topology::Wired),
            _ => Err(Refusal::OutOfRange),
        }
    }
}

// Processors n, the number of the topology and unit cost c (01: the rack). The writer is handed any numbers, and judges them.
#[derive(Clone, Copy)]
pub struct Platform {
    pub processors: u8,
    pub topology: u8,
    pub unit: u8,
}

// What reading a file finds: the counts of tasks and edges, or the refusal's number.
#[derive(Clone, Copy)]
pub enum Verdict {
    Counts { tasks: usize, edges: usize },
    Refused(u8),
}

// A job's numbers: the duration of each task, the ends and the message count of each edge, under topology 3 the cost of the wire from
// p to q at 16 p + q, and the message count of each task's result, 0 where it has none. Places past the last, and those of no wire, are
// spare.
#[derive(Drop)]
pub struct Arrays {
    pub durations: [u32; 256],
    pub from: [u8; 1024],
    pub to: [u8; 1024],
    pub counts: [u16; 1024],
    pub wires: [u8; 256],
    pub results: [u16; 256],
}

// The verdict beside the job: spare places are 0, all are 0 on a refusal. The arrays stand first, so that they are copied aligned.
#[derive(Drop)]
pub struct Reading {
    pub arrays: Arrays,
    pub verdict: Verdict,
    pub platform: Platform,
}

// A job held as numbers: its platform, how many tasks and edges it has, and the arrays with the rest.
#[derive(Clone, Copy)]
pub struct HeldJob<'a> {
    pub platform: Platform,
    pub tasks: usize,
    pub edges: usize,
    pub arrays: &'a Arrays,
}

// The number of a refused file; 0 for an accepted one.
pub fn number(verdict: Verdict) -> u8
    ensures { result ≡ verdict_number verdict }
{
    match verdict {
        Verdict::Counts { tasks: _, edges: _ } => 0,
        Verdict::Refused(number) => number,
    }
}

impl Verdict {
    // Why a file is refused: the row of the table that has the number. (For a number that the table has not it is the last row.)
    pub fn refusal(self) -> Refusal
        ensures { result ≡ refusal (verdict_number self) }
    {
        table::by_number(number(self))
    }
}

impl Arrays {
    // All places 0.
    pub fn zeros() -> Arrays
        ensures { result ≡ arrays_of blank }
    {
        Arrays {
            durations: [0u32; 256],
            from: [0u8; 1024],
            to: [0u8; 1024],
            counts: [0u16; 1024],
            wires: [0u8; 256],
            results: [0u16; 256],
        }
    }
}

// What reading finds beside the arrays.
#[derive(Drop)]
pub struct Found {
    pub verdict: Verdict,
    pub platform: Platform,
}

// Reads a job file into arrays that are all 0; on a refusal it does not count what they hold then.
fn fill(file: &[u8], arrays: &mut Arrays) -> Result<Found, Refusal>
    requires { arrays.old ≡ arrays_of blank }
    ensures { Filling file.now arrays.new result }
{
    let platform = parse::rack(file)?;
    let start = parse::wires(file, RACK_LENGTH, platform, &mut arrays.wires)?;
    let steps = parse::steps(file, start, &mut arrays.durations)?;
    let tasks = steps.count;
    let mut edges: usize = 0;
    let mut least: u32 = 0;
    let mut at = steps.next;
    while parse::stands(file, at, RecordKind::Link) {
        let link = parse::link(file, at, tasks, edges, least)?;
        arrays.from[edges] = link.from;
        arrays.to[edges] = link.to;
        arrays.counts[edges] = link.count;
        edges += 1;
        least = record::key(link.from, link.to) + 1;
        at += LINK_LENGTH;
    }
    if parse::stands(file, at, RecordKind::Result) {
        let sent = record::senders(&arrays.from, edges);
        at = parse::results(file, at, tasks, &sent, &mut arrays.results)?;
    }
    parse::end(file, at)?;
    let verdict = Verdict::Counts { tasks, edges };
    Ok(Found { verdict, platform })
}

// What is found in a refused file.
#[tactic(auto, unfolding(crate::specs::Job::blank))]
fn nothing(refusal: Refusal) -> Found
    ensures { result ≡ record { verdict = Refused (number_of refusal); platform = blank.platform } }
{
    Found {
        verdict: Verdict::Refused(refusal.number()),
        platform: Platform {
            processors: 0,
            topology: 0,
            unit: 0,
        },
    }
}

// Reads a job file (01: the reader). Built into its callers it would hold the arrays twice in each of them.
#[inline(never)]
pub fn read(file: &[u8]) -> Reading
    ensures { result ≡ reading_of (read_job file.now) }
{
    let mut arrays = Arrays::zeros();
    let found = match fill(file, &mut arrays) {
        Ok(found) => found,
        Err(refusal) => {
            let found = nothing(refusal);
            return Reading {
                arrays: Arrays::zeros(),
                verdict: found.verdict,
                platform: found.platform,
            };
        }
    };
    Reading {
        arrays,
        verdict: found.verdict,
        platform: found.platform,
    }
}

// Reads a job file into arrays that the caller has: what `read` answers. What they held does not count; on a refusal all are 0.
pub fn read_into(file: &[u8], arrays: &mut Arrays) -> Found
    ensures { reading_as result arrays.new ≡ reading_of (read_job file.now) }
{
    *arrays = Arrays::zeros();
    match fill(file, arrays) {
        Ok(found) => found,
        Err(refusal) => {
            *arrays = Arrays::zeros();
            nothing(refusal)
        }
    }
}

// Writes a job held as numbers, and answers the length written: its platform and wires, the durations and results of its first `tasks`
// tasks and its first `edges` edges (01: the writer). Nothing is written before the whole job is judged.
pub fn write(job: &HeldJob, out: &mut [u8]) -> Result<usize, Refusal>
    ensures { WrittenAs (written result) out.new job.now.tasks job.now.edges (job_held job.now) out.old }
{
    if 256 < job.tasks || 1024 < job.edges {
        return Err(Refusal::TooMany);
    }
    let judged = emit::judge(job)?;
    if out.len() < judged.file_length() {
        return Err(Refusal::ShortSlice);
    }
    Ok(judged.put(out))
}
