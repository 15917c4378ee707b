// The planning rule with arrivals worked out when they are wanted (document 02 §4).
//
// Of the scratch, place T has the latest finish among the placed predecessors of task T, and place 256 + T the finish of T once it is
// placed. `first` and `next` list the edges into each task.
ghost use Rattle.std.specs.Prelude.{true, ◌≡◌, [], ℕ, ◌+◌, ◌*◌, ◌≤◌, ◌<◌, length, get_or};
ghost use Rattle.etf.specs.Bounds.{most_message_time, most_finish};
ghost use Rattle.schedule.specs.InArrays.{instance_in};
ghost use Rattle.schedule.specs.Handed.{in_arrays};
ghost use Rattle.schedule.specs.SmallPass.{sources_of, KnownBy, worked_out, WalkableBy, ToTell, Told, sheet, ToEnter, Entered};
ghost use Rattle.schedule.specs.SmallPass.{SmallRoom, SmallRun};

use crate::instance::Instance;
use crate::planner;
use crate::planner::{Arrivals, Done, Order, Pair, Progress};

// What arrivals are worked out from: the instance, the edges into each task as lists, and what is written down of each placed task.
#[derive(Clone, Copy)]
struct Senders<'a> {
    instance: &'a Instance<'a>,
    first: &'a [u16; 256],
    next: &'a [u16; 1024],
    processors: &'a [u8],
    scratch: &'a [u32],
}

// The messages of an edge: when their sender finishes, how many they are, and the costs from its processor.
#[derive(Clone, Copy)]
struct Bundle {
    finish: u32,
    messages: u32,
    row: [u32; 16],
}

// Whether messages are at no free processor before `start`.
fn is_late(start: u32, bundle: &Bundle, free: &[usize]) -> bool
    requires free_in_bounds { (i : ℕ) → i < length free.now → get_or free.now i 0 < 16 }
    requires finish_le_most_finish { (bundle.now.finish ≤ most_finish)
        × ((P : ℕ) → bundle.now.messages * get_or bundle.now.row P 0 ≤ most_message_time) }
    ensures { result ≡ true → (i : ℕ) → i < length free.now →
        start ≤ bundle.now.finish + bundle.now.messages * get_or bundle.now.row (get_or free.now i 0) 0 }
{
    let finish = bundle.finish;
    let messages = bundle.messages;
    for p in free {
        if finish + messages * bundle.row[*p] < start {
            return false;
        }
    }
    true
}

impl<'a> Senders<'a> {
    // The messages of edge k, whose sender is placed.
    fn sent(&self, k: usize) -> Bundle
        requires { KnownBy self.now k }
        ensures finish_value { result.finish ≡ get_or self.now.scratch.now (256 + get_or self.now.instance.now.from.now k 0) 0 }
        ensures messages_value { result.messages ≡ get_or self.now.instance.now.counts.now k 0 }
        ensures row_value { result.row ≡ get_or self.now.instance.now.costs.now
            (get_or self.now.processors.now (get_or self.now.instance.now.from.now k 0) 0) [] }
    {
        let instance = self.instance;
        let s = usize::from(instance.from[k]);
        let p = usize::from(self.processors[s]);
        Bundle {
            finish: self.scratch[256 + s],
            messages: u32::from(instance.counts[k]),
            row: instance.costs[p],
        }
    }

    // Works out the arrivals of a task at the processors.
    fn work_out(&self, task: usize) -> [u32; 16]
        requires { (task < 256) × WalkableBy self.now task }
        ensures { (length result ≡ 16) × ((P : ℕ) → P < self.now.instance.now.processors →
            get_or result P 0 ≡ worked_out (sources_of self.now) task P) }
    {
        let edges = self.instance.edges;
        let processors = self.instance.processors;
        let next = self.next;
        let mut row = [0u32; 16];
        let mut edge = usize::from(self.first[task]);
        while edge < edges {
            let bundle = self.sent(edge);
            planner::raise(
                &mut row,
                0,
                processors,
                bundle.finish,
                bundle.messages,
                &bundle.row,
            );
            edge = usize::from(next[edge]);
        }
        row
    }

    // Whether the messages of one edge into a task tell that it starts on no free processor before `start`.
    fn is_beaten(&self, start: u32, task: usize, free: &[usize]) -> bool
        requires walkable { (task < 256) × WalkableBy self.now task }
        requires free_in_bounds { (i : ℕ) → i < length free.now → get_or free.now i 0 < 16 }
        ensures { result ≡ true → (i : ℕ) → i < length free.now →
            start ≤ worked_out (sources_of self.now) task (get_or free.now i 0) }
    {
        let edges = self.instance.edges;
        let next = self.next;
        let mut k = usize::from(self.first[task]);
        while k < edges {
            let bundle = self.sent(k);
            if is_late(start, &bundle, free) {
                return true;
            }
            k = usize::from(next[k]);
        }
        false
    }
}

impl<'a> Arrivals for Senders<'a> {
    ghost arrival = { λ x. worked_out (sources_of x) };

    ghost MayTry = { λ x T. (T < 256) × WalkableBy x T };

    ghost processors = { λ x. x.instance.now.processors };

    // Works a task's arrivals out if the messages of no one edge tell that it cannot take the lead.
    fn try_task(&self, task: usize, clock: u32, free: &[usize], leader: Pair) -> Pair {
        if self.is_beaten(leader.start, task, free) {
            return leader;
        }
        let row = self.work_out(task);
        planner::try_row(task, clock, &row, free, leader)
    }
}

// The tasks by number, with no order in memory.
#[derive(Clone, Copy)]
struct ByNumber;

impl Order for ByNumber {
    ghost at = { λ x i. i };

    ghost Has = { λ x i. i < 256 };

    fn task_at(&self, place: usize) -> usize {
        place
    }
}

// Tells the successors of a task that is done, along its edges.
fn tell(done: Done, to: &[u8; 1024], waiting: &mut [u16; 256], scratch: &mut [u32])
    requires { ToTell done.first done.last to.now waiting.old scratch.old }
    ensures { Told done.first done.last done.finish to.now waiting.old scratch.old
        waiting.new scratch.new }
{
    for k in done.first..done.last {
        let t = usize::from(to[k]);
        scratch[t] = scratch[t].max(done.finish);
        waiting[t] -= 1;
    }
}

// Places a task that is done as `done` says, and tells its successors.
fn place(
    instance: &Instance,
    done: Done,
    starts: &mut [u32],
    processors: &mut [u8],
    scratch: &mut [u32],
    progress: &mut Progress,
)
    requires { ToEnter done.pair done.first done.last progress.old.low instance.now.tasks instance.now.to.now
        (sheet starts.old processors.old progress.old.busy progress.old.waiting scratch.old) }
    ensures clock_after { progress.new.clock ≡ progress.old.clock }
    ensures waiting_size { length progress.new.waiting ≡ 256 }
    ensures entered { Entered done.pair done.finish done.first done.last progress.old.low instance.now.tasks (λ i. i) instance.now.to.now
        (sheet starts.old processors.old progress.old.busy progress.old.waiting scratch.old)
        (sheet starts.new processors.new progress.new.busy progress.new.waiting scratch.new) progress.new.low }
{
    planner::put(done, starts, processors, progress);
    scratch[256 + done.pair.task] = done.finish;
    tell(done, instance.to, &mut progress.waiting, scratch);
    progress.low = planner::skip(&ByNumber, &progress.waiting, progress.low, instance.tasks);
}

// Plans an instance, and returns the last finish. The scratch begins with 512 zeros.
pub fn run(
    instance: &Instance,
    starts: &mut [u32],
    processors: &mut [u8],
    scratch: &mut [u32],
) -> u32
    requires { SmallRoom instance.now.tasks starts.old processors.old scratch.old }
    ensures { SmallRun (instance_in (in_arrays instance.now))
        starts.old processors.old scratch.old result
        starts.new processors.new scratch.new }
{
    let from = instance.from;
    let to = instance.to;
    let runs = graph::runs(from, instance.edges);
    let mut first = [0u16; 256];
    let mut next = [0u16; 1024];
    graph::lists(to, instance.edges, &mut first, &mut next);
    let mut progress = Progress {
        clock: 0,
        low: 0,
        busy: [0; 16],
        waiting: [0; 256],
    };
    graph::fill_counts(to, instance.edges, &mut progress.waiting);
    let mut free = [0usize; 16];
    let mut end: u32 = 0;
    while progress.low < instance.tasks {
        let senders = Senders {
            instance: &*instance,
            first: &first,
            next: &next,
            processors,
            scratch,
        };
        let choice = planner::look(instance, &ByNumber, &progress, scratch, &senders, &mut free);
        let pair = choice.pair;
        let moment = choice.next;
        if pair.start <= moment {
            let done = planner::finish(pair, instance.durations, &runs);
            place(instance, done, starts, processors, scratch, &mut progress);
            end = end.max(done.finish);
        } else {
            progress.clock = moment;
        }
    }
    end
}
