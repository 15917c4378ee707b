// The planning rule (document 01, "The planning rule").
ghost use Rattle.std.specs.Prelude.{◌≡◌, ℕ, ◌+◌, ◌*◌, ◌-◌, ◌≤◌, ◌<◌, [], T as Holds, length, get_or, set};
ghost use Rattle.etf.specs.Bounds.{most_message_time, most_finish};
ghost use Rattle.schedule.specs.InArrays.{reordered, instance_in, Ordering};
ghost use Rattle.schedule.specs.Handed.{in_arrays};
ghost use Rattle.schedule.specs.Call.{called};
ghost use Rattle.schedule.specs.Pass.{Surveyed, Raised, ToSend, Sent, OrderIn, Skipped, Looked, ToPlace, Placed, placed_mark, Room};
ghost use Rattle.schedule.specs.Pass.{inbox, tables, first_best, row_by, table_arrival, no_pair, can_start, searched, run_call};

use crate::instance::Instance;

// A task, a processor and the start that the task would have there; `u32::MAX` where there is none. No start is so late, so
// a search compares starts alone.
#[derive(Clone, Copy)]
pub struct Pair {
    pub start: u32,
    pub task: usize,
    pub processor: usize,
}

// The next moment (01: NM), `u32::MAX` where it is endless, and the number of free processors.
#[derive(Clone, Copy)]
pub struct Moment {
    pub next: u32,
    pub free: usize,
}

// The next moment, and the first pair of smallest start; it is placed if it starts by the next moment.
#[derive(Clone, Copy)]
pub struct Choice {
    pub next: u32,
    pub pair: Pair,
}

// A pair whose task is done: when, and the task's edges, `first` to before `last`.
#[derive(Clone, Copy)]
pub struct Done {
    pub pair: Pair,
    pub finish: u32,
    pub first: usize,
    pub last: usize,
}

// How far a plan has come: the clock, the first place of the order whose task is not placed, until when each processor is busy, and for
// how many predecessors each task waits; `u16::MAX` in place of a count marks a placed task.
#[derive(Drop)]
pub struct Progress {
    pub clock: u32,
    pub low: usize,
    pub busy: [u32; 16],
    pub waiting: [u16; 256],
}

// Which task is at each place of the priority order.
pub trait Order {
    // the task at a place
    ghost at: { Self → ℕ → ℕ };

    // a place has a task
    ghost Has: { Self → ℕ → Type 0 };

    fn task_at(&self, place: usize) -> usize
        requires { Has self.now place }
        ensures value { result ≡ at self.now place }
        ensures below { result < 256 };
}

// The tasks in the order of an array.
#[derive(Clone, Copy)]
pub struct ByArray<'a> {
    pub tasks: &'a [usize],
}

impl<'a> Order for ByArray<'a> {
    ghost at = { λ x i. get_or x.tasks.now i 0 };

    ghost Has = { λ x i. (i < length x.tasks.now) × (get_or x.tasks.now i 0 < 256) };

    fn task_at(&self, place: usize) -> usize {
        self.tasks[place]
    }
}

// When what a task waits for is at each processor.
pub trait Arrivals {
    // the arrival of a task at a processor
    ghost arrival: { Self → ℕ → ℕ → ℕ };

    // a task can be tried
    ghost MayTry: { Self → ℕ → Type 0 };

    // on the processors below this one
    ghost processors: { Self → ℕ };

    // Tries a task on each free processor, with the best pair so far.
    fn try_task(&self, task: usize, clock: u32, free: &[usize], leader: Pair) -> Pair
        requires may_try { (MayTry self.now task) × (clock < leader.start) }
        requires free_in_bounds { (i : ℕ) → i < length free.now → get_or free.now i 0 < processors self.now }
        ensures { result ≡ first_best leader (row_by clock (arrival self.now task) free.now (length free.now) task) };
}

// Looks over the processors at the clock: the free ones go to `free`.
pub fn survey(busy: &[u32; 16], n: usize, clock: u32, free: &mut [usize; 16]) -> Moment
    requires { n ≤ 16 }
    ensures { Surveyed busy.now n clock free.new result }
{
    let mut next: u32 = u32::MAX;
    let mut count: usize = 0;
    for p in 0..n {
        let finish = busy[p];
        if finish <= clock {
            free[count] = p;
            count += 1;
        } else {
            next = next.min(finish);
        }
    }
    Moment { next, free: count }
}

// Tries a task on each free processor, by the row of its arrivals. Nothing beats a pair that can start at the clock.
pub fn try_row(task: usize, clock: u32, row: &[u32], free: &[usize], leader: Pair) -> Pair
    requires in_bounds { 16 ≤ length row.now }
    requires by_index { ((i : ℕ) → i < length free.now → get_or free.now i 0 < 16) × (clock < leader.start) }
    ensures { result ≡ first_best leader (row_by clock (λ P. get_or row.now P 0) free.now (length free.now) task) }
{
    let mut best = leader;
    for p in free {
        let arrival = row[*p];
        if arrival <= clock {
            return Pair {
                start: clock,
                task,
                processor: *p,
            };
        }
        if arrival < best.start {
            best = Pair {
                start: arrival,
                task,
                processor: *p,
            };
        }
    }
    best
}

// A table of arrivals: those of task T stand from place 16T on.
#[derive(Clone, Copy)]
pub struct Table<'a> {
    pub arrivals: &'a [u32],
}

impl<'a> Arrivals for Table<'a> {
    ghost arrival = { λ x. table_arrival x.arrivals.now };

    ghost MayTry = { λ x T. (T < 256) × (4096 ≤ length x.arrivals.now) };

    ghost processors = { λ _. 16 };

    fn try_task(&self, task: usize, clock: u32, free: &[usize], leader: Pair) -> Pair {
        let arrivals = self.arrivals;
        let first = 16 * task;
        try_row(task, clock, &arrivals[first..], free, leader)
    }
}

// The first pair of smallest start among the ready tasks from place `low` of the order on and the free processors.
fn choose<O: Order, A: Arrivals>(
    tasks: usize,
    order: &O,
    progress: &Progress,
    latest: &[u32],
    arrivals: &A,
    free: &[usize],
) -> Pair
    requires clock_bound { (progress.now.clock < 4294967295) × (progress.now.low ≤ tasks) × (256 ≤ length latest.now) }
    requires in_order { (i : ℕ) → i < tasks → O.Has order.now i }
    requires may_try { (i : ℕ) → i < tasks → Holds (can_start progress.now.clock progress.now.waiting latest.now (O.at order.now i)) →
        A.MayTry arrivals.now (O.at order.now i) }
    requires free_in_bounds { (i : ℕ) → i < length free.now → get_or free.now i 0 < A.processors arrivals.now }
    ensures { result ≡ searched progress.now.clock progress.now.waiting latest.now (O.at order.now)
        (λ T. row_by progress.now.clock (A.arrival arrivals.now T) free.now (length free.now) T)
        progress.now.low (tasks - progress.now.low) no_pair }
{
    let clock = progress.clock;
    let mut best = Pair {
        start: u32::MAX,
        task: 0,
        processor: 0,
    };
    if free.is_empty() {
        return best;
    }
    for i in progress.low..tasks {
        let t = order.task_at(i);
        if progress.waiting[t] == 0 && latest[t] <= clock {
            best = arrivals.try_task(t, clock, free, best);
            if best.start <= clock {
                return best;
            }
        }
    }
    best
}

// Looks over processors and tasks at the clock. The free processors go to `free`, which is lent, so that no round clears an array of its
// own.
pub fn look<O: Order, A: Arrivals>(
    instance: &Instance,
    order: &O,
    progress: &Progress,
    latest: &[u32],
    arrivals: &A,
    free: &mut [usize; 16],
) -> Choice
    requires clock_bound { (progress.now.clock < 4294967295) × (progress.now.low ≤ instance.now.tasks) × (256 ≤ length latest.now) }
    requires in_order { (i : ℕ) → i < instance.now.tasks → O.Has order.now i }
    requires may_try { (i : ℕ) → i < instance.now.tasks
        → Holds (can_start progress.now.clock progress.now.waiting latest.now (O.at order.now i))
        → A.MayTry arrivals.now (O.at order.now i) }
    requires processors_in_bounds { instance.now.processors ≤ A.processors arrivals.now }
    ensures { Looked progress.now.clock progress.now.low instance.now.tasks instance.now.processors
        (O.at order.now) (A.arrival arrivals.now) progress.now.waiting latest.now progress.now.busy result }
{
    let moment = survey(&progress.busy, instance.processors, progress.clock, free);
    let pair = choose(
        instance.tasks,
        order,
        progress,
        latest,
        arrivals,
        &free[..moment.free],
    );
    Choice {
        next: moment.next,
        pair,
    }
}

// Raises the arrivals of a task by what one predecessor sends to it. Each is stored, raised or not: with no store that hangs on a test the
// processors go four at a time, wherever the arrivals stand.
pub fn raise(arrivals: &mut [u32], task: usize, n: usize, finish: u32, count: u32, row: &[u32; 16])
    requires task_bound { (task < 256) × (n ≤ 16) × (16 * task + n ≤ length arrivals.old) }
    requires finish_le_most_finish { (finish ≤ most_finish) × ((P : ℕ) → count * get_or row.now P 0 ≤ most_message_time) }
    ensures { Raised n task finish count row.now arrivals.old arrivals.new }
{
    for p in 0..n {
        let arrival = finish + count * row[p];
        let at = 16 * task + p;
        arrivals[at] = arrivals[at].max(arrival);
    }
}

// A task that is done sends along its edges; `row` has the costs from its processor.
fn send(
    instance: &Instance,
    done: Done,
    row: &[u32; 16],
    arrivals: &mut [u32],
    waiting: &mut [u16; 256],
    latest: &mut [u32; 256],
)
    requires { ToSend done.first done.last done.finish instance.now.processors row.now instance.now.to.now instance.now.counts.now
        (inbox arrivals.old waiting.old latest.old) }
    ensures { Sent done.first done.last done.finish instance.now.processors row.now instance.now.to.now instance.now.counts.now
        (inbox arrivals.old waiting.old latest.old)
        (inbox arrivals.new waiting.new latest.new) }
{
    for k in done.first..done.last {
        let t = usize::from(instance.to[k]);
        let count = u32::from(instance.counts[k]);
        raise(arrivals, t, instance.processors, done.finish, count, row);
        latest[t] = latest[t].max(done.finish);
        waiting[t] -= 1;
    }
}

// The first place of the order from `low` on whose task is not placed.
pub fn skip<O: Order>(order: &O, waiting: &[u16; 256], low: usize, tasks: usize) -> usize
    requires low_bound { low ≤ tasks }
    requires in_order { (i : ℕ) → i < tasks → O.Has order.now i }
    ensures { Skipped waiting.now (O.at order.now) low tasks result }
{
    for i in low..tasks {
        let t = order.task_at(i);
        if waiting[t] != u16::MAX {
            return i;
        }
    }
    tasks
}

// Writes down a placement.
pub fn put(done: Done, starts: &mut [u32], processors: &mut [u8], progress: &mut Progress)
    requires task_in_bounds { (done.pair.task < length starts.old) × (done.pair.task < length processors.old) × (done.pair.task < 256) }
    requires processor_in_bounds { done.pair.processor < 16 }
    ensures starts_after { starts.new ≡ set starts.old done.pair.task done.pair.start }
    ensures processors_after { processors.new ≡ set processors.old done.pair.task done.pair.processor }
    ensures progress_after { progress.new ≡ record progress.old {
      busy = set progress.old.busy done.pair.processor done.finish;
      waiting = set progress.old.waiting done.pair.task placed_mark;
    } }
{
    let pair = done.pair;
    starts[pair.task] = pair.start;
    processors[pair.task] = pair.processor as u8;
    progress.busy[pair.processor] = done.finish;
    progress.waiting[pair.task] = u16::MAX;
}

// When the task of a pair is done, and its edges; `runs` has where those of each task begin.
pub fn finish(pair: Pair, durations: &[u32; 256], runs: &[u16; 257]) -> Done
    requires task_in_bounds { pair.task < 256 }
    requires in_time { pair.start + get_or durations.now pair.task 0 ≤ most_finish }
    ensures pair_value { result.pair ≡ pair }
    ensures finish_value { result.finish ≡ pair.start + get_or durations.now pair.task 0 }
    ensures first_value { result.first ≡ get_or runs.now pair.task 0 }
    ensures last_value { result.last ≡ get_or runs.now (pair.task + 1) 0 }
{
    let t = pair.task;
    Done {
        pair,
        finish: pair.start + durations[t],
        first: usize::from(runs[t]),
        last: usize::from(runs[t + 1]),
    }
}

// Places a task that is done as `done` says, and sends along its edges.
fn place(
    instance: &Instance,
    order: &ByArray,
    done: Done,
    starts: &mut [u32],
    processors: &mut [u8],
    arrivals: &mut [u32],
    latest: &mut [u32; 256],
    progress: &mut Progress,
)
    requires to_place { ToPlace done.pair done.finish done.first done.last progress.old.low instance.now.tasks instance.now.processors
        (get_or instance.now.costs.now done.pair.processor []) instance.now.to.now instance.now.counts.now
        (tables starts.old processors.old progress.old.busy (inbox arrivals.old progress.old.waiting latest.old)) }
    requires order_in { OrderIn instance.now.tasks order.now.tasks.now }
    ensures clock_after { progress.new.clock ≡ progress.old.clock }
    ensures waiting_size { length progress.new.waiting ≡ 256 }
    ensures placed { Placed done.pair done.finish done.first done.last progress.old.low instance.now.tasks instance.now.processors
        (λ i. get_or order.now.tasks.now i 0)
        (get_or instance.now.costs.now done.pair.processor []) instance.now.to.now instance.now.counts.now
        (tables starts.old processors.old progress.old.busy
        (inbox arrivals.old progress.old.waiting latest.old))
        (tables starts.new processors.new progress.new.busy
        (inbox arrivals.new progress.new.waiting latest.new)) progress.new.low }
{
    put(done, starts, processors, progress);
    let row = instance.costs[done.pair.processor];
    send(
        instance,
        done,
        &row,
        arrivals,
        &mut progress.waiting,
        latest,
    );
    progress.low = skip(order, &progress.waiting, progress.low, instance.tasks);
}

// Plans an instance, its tasks in the order that is handed in, and returns the last finish. The arrivals begin with 4,096 zeros.
pub fn run(
    instance: &Instance,
    order: &[usize],
    starts: &mut [u32],
    processors: &mut [u8],
    arrivals: &mut [u32],
) -> u32
    requires ordered { Ordering instance.now.tasks (λ i. get_or order.now i 0) }
    requires tasks_in_bounds { (instance.now.tasks ≤ length order.now)
        × Room instance.now.tasks starts.old processors.old arrivals.old }
    ensures { called result starts.new processors.new arrivals.new ≡ run_call (instance_in (reordered
        (λ i. get_or order.now i 0) (in_arrays instance.now)))
        starts.old processors.old arrivals.old }
{
    let from = instance.from;
    let to = instance.to;
    let runs = graph::runs(from, instance.edges);
    let mut progress = Progress {
        clock: 0,
        low: 0,
        busy: [0; 16],
        waiting: [0; 256],
    };
    graph::fill_counts(to, instance.edges, &mut progress.waiting);
    let by = ByArray { tasks: order };
    let mut latest = [0u32; 256];
    let mut free = [0usize; 16];
    let mut end: u32 = 0;
    while progress.low < instance.tasks {
        let choice = look(
            instance,
            &by,
            &progress,
            &latest,
            &Table { arrivals },
            &mut free,
        );
        let pair = choice.pair;
        let next = choice.next;
        if pair.start <= next {
            let done = finish(pair, instance.durations, &runs);
            place(
                instance,
                &by,
                done,
                starts,
                processors,
                arrivals,
                &mut latest,
                &mut progress,
            );
            end = end.max(done.finish);
        } else {
            progress.clock = next;
        }
    }
    end
}
