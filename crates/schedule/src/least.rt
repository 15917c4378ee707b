// The least cover (document 02 §7), in one pass over the edges.
//
// Edges rise by from and go from lower to higher tasks, so what the walks from a task take is known before an edge leaves it. An edge
// looks at the processors that are idle before the task that it goes to, at most 16, and at no more of them once none can take less than
// what was found: at none where the walks from its source take no less already, or where its messages would be anywhere before the tick.
// Ticks are never counted.
ghost use Rattle.std.specs.Prelude.{◌≡◌, ℕ, ◌+◌, ◌*◌, ◌^◌, ◌≤◌, ◌<◌, get_or};
ghost use Rattle.graph.specs.Graph.{edges_to};
ghost use Rattle.etf.specs.Least.{least as least_of};
ghost use Rattle.job.specs.Limits.{most_duration};
ghost use Rattle.etf.specs.Checker.{latest_start};
ghost use Rattle.etf.specs.Bounds.{most_message_time, most_chain};
ghost use Rattle.schedule.specs.InArrays.{reordered, instance_in};
ghost use Rattle.schedule.specs.Handed.{in_arrays};
ghost use Rattle.schedule.specs.Pass.{finish_in, time_to, there_at};
ghost use Rattle.schedule.specs.CoverPass.{SmallestOf, Served, NoMore, Nearest, Unwalked, LeastOfLast, greatest_in};
ghost use Rattle.schedule.specs.CoverPass.{TicksBy, PricesOf, LeastBy, PlannedIn};

use crate::instance::Instance;
use crate::messages;
use crate::messages::Sent;
use crate::timetable::Timetable;
use crate::walk::{Short, Ticks};

// What a message costs at most between two processors, and at least from each to another, or to itself where that is not free.
#[derive(Clone, Copy)]
pub struct Prices {
    pub most: u32,
    pub nearest: [u32; 16],
}

// The least of the first n numbers of a row, but for the one at p where that is 0; `most` where none is below it.
fn nearest_in(row: &[u32; 16], n: usize, p: usize, most: u32) -> u32
    requires { n ≤ 16 }
    ensures { NoMore row.now n p most result }
{
    let mut least = most;
    for q in 0..n {
        let cost = row[q];
        if q != p || cost != 0 {
            least = least.min(cost);
        }
    }
    least
}

// What a message costs at least from each processor to another, or to itself where that is not free; `most` where it is more.
fn nearest(instance: &Instance, most: u32) -> [u32; 16]
    ensures { Nearest instance.now.costs.now instance.now.processors most instance.now.processors result }
{
    let mut least = [0u32; 16];
    for p in 0..instance.processors {
        least[p] = nearest_in(&instance.costs[p], instance.processors, p, most);
    }
    least
}

// The smallest of `low` and of what the walks take that go through a processor idle in the short tick where messages are at its end or
// after: those that are `sent`, each at the cost that `row` has; from their sender the walks take `before`. None takes less than `bound`:
// where that is reached, no processor more is looked at.
fn through(row: &[u32; 16], sent: Sent, tick: Short, before: u32, bound: u32, low: u32) -> u32
    requires small { (tick.idle < 2 ^ 16) × (sent.finish ≤ latest_start + most_duration) × (before ≤ most_chain) }
    requires near { (P : ℕ) → sent.count * get_or row.now P 0 ≤ most_message_time }
    requires bounded { (P : ℕ) → Served tick.idle tick.latest (λ P. sent.finish + sent.count * get_or row.now P 0) P
        → bound ≤ sent.count * get_or row.now P 0 + before }
    ensures { SmallestOf (Served tick.idle tick.latest (λ P. sent.finish + sent.count * get_or row.now P 0))
        (λ P. sent.count * get_or row.now P 0 + before) low result }
{
    let mut least = low;
    let mut rest = tick.idle;
    while rest != 0 {
        if least <= bound {
            return least;
        }
        let q = rest.trailing_zeros() as usize;
        let time = sent.count * row[q];
        if tick.latest <= sent.finish + time {
            least = least.min(time + before);
        }
        rest &= rest - 1;
    }
    least
}

// The smallest of `low` and of what the walks take that go back along edge k through a processor idle in the short tick where its messages
// are at the tick's end or after; from the edge's source they take `before`. Where the messages are there before that at the greatest
// price, no processor is looked at. Nor is one where they serve on the sender's own and that is free: there they take no time. To any other
// each costs at least what the nearest does.
fn along_edge(
    table: &Timetable,
    k: usize,
    prices: &Prices,
    tick: Short,
    before: u32,
    low: u32,
) -> u32
    requires small { (k < table.now.instance.edges) × (tick.idle < 2 ^ 16) × (before ≤ most_chain) × (before ≤ low) }
    requires between { PricesOf table.now prices.now tick.idle k }
    ensures { SmallestOf (Served tick.idle tick.latest (λ P. there_at table.now P k))
        (λ P. time_to table.now P k + before) low result }
{
    let sent = messages::sent_along(table, k);
    let p = sent.processor;
    if sent.finish + sent.count * prices.most < tick.latest {
        return low;
    }
    if tick.latest <= sent.finish {
        if (tick.idle >> p) % 2 == 1 {
            if table.instance.costs[p][p] == 0 {
                return before;
            }
        }
    }
    let soonest = sent.finish + sent.count * prices.nearest[p];
    let first = soonest.max(tick.latest);
    let bound = before + (first - sent.finish);
    through(&table.instance.costs[p], sent, tick, before, bound, low)
}

// What the walks from a task take before an edge was looked at: nothing where no tick is short before its start, else what none passes.
fn unwalked(idle: &[u32; 256], sums: &mut [u32; 256])
    ensures { Unwalked idle.now sums.new }
{
    for t in 0..256 {
        sums[t] = if idle[t] == 0 { 0 } else { 204_000_000 };
    }
}

// The least that a walk from each task takes.
fn along_edges(table: &Timetable, prices: &Prices, ticks: &Ticks, sums: &mut [u32; 256])
    requires few_bits { (T : ℕ) → T < 256 → get_or ticks.now.idle T 0 < 2 ^ 16 }
    requires between { (k : ℕ) → k < table.now.instance.edges
        → PricesOf table.now prices.now (get_or ticks.now.idle (get_or table.now.instance.to.now k 0) 0) k }
    requires unwalked { Unwalked ticks.now.idle sums.old }
    ensures { LeastBy table.now ticks.now table.now.instance.edges sums.new }
{
    for k in 0..table.instance.edges {
        let s = usize::from(table.instance.from[k]);
        let t = usize::from(table.instance.to[k]);
        if sums[s] < sums[t] {
            let tick = Short {
                latest: ticks.latest[t],
                idle: ticks.idle[t],
            };
            sums[t] = along_edge(table, k, prices, tick, sums[s], sums[t]);
        }
    }
}

// The least of the tasks that finish last.
fn of_last(table: &Timetable, sums: &[u32; 256]) -> u32
    ensures { LeastOfLast table.now.instance.tasks (finish_in table.now) (λ T. get_or sums.now T 0) result }
{
    let mut end: u32 = 0;
    let mut least: u32 = 0;
    for t in 0..table.instance.tasks {
        let finish = table.finish(t);
        if end < finish {
            end = finish;
            least = sums[t];
        } else if finish == end {
            least = least.min(sums[t]);
        }
    }
    least
}

// The least cover of the planner's schedule, in whichever order its tasks went; `most` is the greatest cost between two processors.
pub fn least(table: &Timetable, most: u32, ticks: &Ticks) -> u32
    requires planned { (order : ℕ → ℕ) × PlannedIn table.now order }
    requires short_ticks { TicksBy table.now (edges_to table.now.instance.to.now table.now.instance.edges) ticks.now }
    requires most_value { most ≡ greatest_in table.now.instance.costs.now table.now.instance.processors }
    ensures { (order : ℕ → ℕ) → PlannedIn table.now order
        → result ≡ least_of (instance_in (reordered order (in_arrays table.now.instance))) }
{
    let prices = Prices {
        most,
        nearest: nearest(&table.instance, most),
    };
    let mut sums = [0u32; 256];
    unwalked(&ticks.idle, &mut sums);
    along_edges(table, &prices, ticks, &mut sums);
    of_last(table, &sums)
}
