// The reader's parts: one record, or a pass over one kind of record, from a place of the file on.
ghost use Rattle.std.specs.Prelude.{◌≡◌, ◌+◌, ◌≤◌, ◌<◌, [], T as Holds, ℕ, length, get_or, replicate, IfSome};
ghost use Rattle.std.proofs.Math.Option.{some};
ghost use Rattle.job.specs.Record.{step as is_step, link as is_link, wire as is_wire, result as is_result, kind_of, platform_in_range};
ghost use Rattle.job.specs.Read.{wire_array, result_array};
ghost use Rattle.job.specs.Pass.{KindFound, StandsThere, kind_named, RackPassed, OnPair, WirePassed, EarlyPassed, WiresPassed};
ghost use Rattle.job.specs.Pass.{StepPassed, StepsPassed, LinkPassed, ResultPassed, ResultsPassed, EndPassed};

use crate::kind::{LINK_LENGTH, RACK_LENGTH, RESULT_LENGTH, RecordKind, STEP_LENGTH, WIRE_LENGTH};
use crate::record::Pair;
use crate::{Platform, Refusal, Topology, record};

// What a wire, a link and a result of the file say.
#[derive(Clone, Copy)]
pub struct FoundWire {
    pub pair: Pair,
    pub cost: u8,
}

#[derive(Clone, Copy)]
pub struct FoundLink {
    pub from: u8,
    pub to: u8,
    pub count: u16,
}

#[derive(Clone, Copy)]
pub struct FoundResult {
    pub task: u8,
    pub count: u16,
}

// How many records a pass took, and the place after them.
#[derive(Clone, Copy)]
pub struct Pass {
    pub count: usize,
    pub next: usize,
}

// The kind of the record at `at`.
#[tactic(auto, using(crate::specs::Laws::Kinds::nothing_there, crate::specs::Laws::Kinds::kind_there))]
fn kind_at(file: &[u8], at: usize) -> Result<RecordKind, Refusal>
    ensures { KindFound file.now at result }
{
    if file.len() <= at {
        return Err(Refusal::CutShort);
    }
    RecordKind::try_from(file[at])
}

// A record of this kind stands at `at`.
pub fn stands(file: &[u8], at: usize, kind: RecordKind) -> bool
    ensures { StandsThere file.now at (kind_named kind) result }
{
    kind_at(file, at) == Ok(kind)
}

// The rack at the file's first byte.
pub fn rack(file: &[u8]) -> Result<Platform, Refusal>
    ensures { RackPassed file.now result }
{
    let RecordKind::Rack = kind_at(file, 0)? else {
        return Err(Refusal::MisplacedKind);
    };
    if file.len() < RACK_LENGTH {
        return Err(Refusal::CutShort);
    }
    let platform = Platform {
        processors: file[1],
        topology: file[2],
        unit: file[3],
    };
    record::judge_platform(platform)?;
    Ok(platform)
}

// The duration of the step at `at`, after `tasks` steps.
fn step(file: &[u8], at: usize, tasks: usize) -> Result<u32, Refusal>
    requires { (at < length file.now) × (kind_of (get_or file.now at 0) ≡ some is_step) × (tasks ≤ 256) }
    ensures { StepPassed file.now at tasks result }
{
    if tasks == 256 {
        return Err(Refusal::TooMany);
    }
    if file.len() - at < STEP_LENGTH {
        return Err(Refusal::CutShort);
    }
    let duration = record::number4(file, at + 1);
    record::judge_step(duration)?;
    Ok(duration)
}

// The wire at `at`, where `due` is the next pair due, if there is one.
fn wire(file: &[u8], at: usize, due: Option<Pair>) -> Result<FoundWire, Refusal>
    requires { (at < length file.now) × (kind_of (get_or file.now at 0) ≡ some is_wire) }
    ensures { (n : ℕ) → IfSome due (OnPair n) → WirePassed file.now at n due result }
{
    if file.len() - at < WIRE_LENGTH {
        return Err(Refusal::CutShort);
    }
    let pair = Pair {
        from: file[at + 1],
        to: file[at + 2],
    };
    let cost = file[at + 3];
    record::judge_wire(pair, cost, due)?;
    Ok(FoundWire { pair, cost })
}

// Why what stands at `at`, no wire, is refused while pairs are due.
fn early(file: &[u8], at: usize) -> Refusal
    requires { at < length file.now → kind_of (get_or file.now at 0) ≡ some is_wire → ⊥ }
    ensures { EarlyPassed file.now at result }
{
    let kind = match kind_at(file, at) {
        Ok(kind) => kind,
        Err(refusal) => return refusal,
    };
    let RecordKind::Step = kind else {
        return Refusal::MisplacedKind;
    };
    match step(file, at, 0) {
        Ok(_) => Refusal::NotDue,
        Err(refusal) => refusal,
    }
}

// The wires from `start` on, to the place after them: one for each pair under topology 3, none under another.
pub fn wires(
    file: &[u8],
    start: usize,
    platform: Platform,
    costs: &mut [u8; 256],
) -> Result<usize, Refusal>
    requires { (start ≤ length file.now) × Holds (platform_in_range platform) × (costs.old ≡ wire_array []) }
    ensures { WiresPassed file.now start platform costs.new result }
{
    if platform.topology != Topology::Wired as u8 {
        return Ok(start);
    }
    let n = platform.processors;
    let mut due = record::pair_after(n, Pair { from: 0, to: 0 });
    let mut at = start;
    while stands(file, at, RecordKind::Wire) {
        let wire = wire(file, at, due)?;
        costs[record::place(wire.pair)] = wire.cost;
        due = record::pair_after(n, wire.pair);
        at += WIRE_LENGTH;
    }
    if due.is_some() {
        return Err(early(file, at));
    }
    Ok(at)
}

// The steps from `start` on, of which there must be one.
pub fn steps(file: &[u8], start: usize, durations: &mut [u32; 256]) -> Result<Pass, Refusal>
    requires { (start ≤ length file.now) × (durations.old ≡ replicate 256 0) }
    ensures { StepsPassed file.now start durations.new result }
{
    let mut count: usize = 0;
    let mut at = start;
    while stands(file, at, RecordKind::Step) {
        durations[count] = step(file, at, count)?;
        count += 1;
        at += STEP_LENGTH;
    }
    kind_at(file, at)?;
    if count == 0 {
        return Err(Refusal::MisplacedKind);
    }
    Ok(Pass { count, next: at })
}

// The link at `at`, after `tasks` steps and `edges` links; `least` is the least key above the last of these.
pub fn link(
    file: &[u8],
    at: usize,
    tasks: usize,
    edges: usize,
    least: u32,
) -> Result<FoundLink, Refusal>
    requires { (at < length file.now) × (kind_of (get_or file.now at 0) ≡ some is_link) × (edges ≤ 1024) }
    ensures { LinkPassed file.now at tasks edges least result }
{
    if edges == 1024 {
        return Err(Refusal::TooMany);
    }
    if file.len() - at < LINK_LENGTH {
        return Err(Refusal::CutShort);
    }
    let from = file[at + 1];
    let to = file[at + 2];
    let count = record::number2(file, at + 3);
    record::judge_link(from, to, count, tasks, least)?;
    Ok(FoundLink { from, to, count })
}

// The result at `at`, after `tasks` steps, of which `sent` says which have a successor; `least` is the least task above that of the last
// result.
fn result(
    file: &[u8],
    at: usize,
    tasks: usize,
    least: usize,
    sent: &[bool; 256],
) -> Result<FoundResult, Refusal>
    requires { (at < length file.now) × (kind_of (get_or file.now at 0) ≡ some is_result) }
    ensures { ResultPassed file.now at tasks least sent.now result }
{
    if file.len() - at < RESULT_LENGTH {
        return Err(Refusal::CutShort);
    }
    let task = file[at + 1];
    let count = record::number2(file, at + 2);
    record::judge_result(task, count, tasks, least, sent[usize::from(task)])?;
    Ok(FoundResult { task, count })
}

// The results from `start` on, to the place after them, after `tasks` steps, of which `sent` says which have a successor.
pub fn results(
    file: &[u8],
    start: usize,
    tasks: usize,
    sent: &[bool; 256],
    counts: &mut [u16; 256],
) -> Result<usize, Refusal>
    requires { (start ≤ length file.now) × (tasks ≤ 256) × (counts.old ≡ result_array []) }
    ensures { ResultsPassed file.now start tasks sent.now counts.new result }
{
    let mut least: usize = 0;
    let mut at = start;
    while stands(file, at, RecordKind::Result) {
        let result = result(file, at, tasks, least, sent)?;
        let task = usize::from(result.task);
        counts[task] = result.count;
        least = task + 1;
        at += RESULT_LENGTH;
    }
    Ok(at)
}

// The end record at `at`.
pub fn end(file: &[u8], at: usize) -> Result<(), Refusal>
    ensures { EndPassed file.now at result }
{
    let RecordKind::End = kind_at(file, at)? else {
        return Err(Refusal::MisplacedKind);
    };
    if at + 1 < file.len() {
        return Err(Refusal::BytesAfter);
    }
    Ok(())
}
