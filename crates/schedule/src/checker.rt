// The checker (document 01, "The checker"): a plan's first trouble, if it has one.
ghost use Rattle.std.specs.Prelude.{◌≡◌, ◌≤◌, ◌<◌, length, get_or};
ghost use Rattle.schedule.specs.Answers.Checked.{as_checked};
ghost use Rattle.schedule.specs.Answers.Number.{answer_number};
ghost use Rattle.schedule.specs.Check.{check_of, checked_as};
ghost use Rattle.schedule.specs.InArrays.{instance_in};
ghost use Rattle.schedule.specs.Handed.{in_arrays};
ghost use Rattle.schedule.specs.Pass.{some_in_places, place_troubles, overlaps_in, early_in};

use crate::instance::{Instance, Schedule};
use crate::messages;
use crate::timetable::Timetable;
use job::Refusal;

// Task by task: 10 for its processor, then 11 for its start.
fn misplaced(instance: &Instance, plan: &Schedule) -> Result<(), Refusal>
    requires { (instance.now.tasks ≤ length plan.now.starts.now) × (instance.now.tasks ≤ length plan.now.processors.now) }
    ensures { answer_number result ≡
        place_troubles instance.now.processors plan.now.starts.now plan.now.processors.now 0 instance.now.tasks }
{
    for t in 0..instance.tasks {
        if instance.processors <= usize::from(plan.processors[t]) {
            return Err(Refusal::AbsentProcessor);
        }
        if 600000000 < plan.starts[t] {
            return Err(Refusal::LateStart);
        }
    }
    Ok(())
}

// Whether task t overlaps a later one on its processor. All are counted, so that the loop has no way out and is compiled to vector code.
fn overlaps_later(table: &Timetable, t: usize) -> bool
    requires { t < table.now.instance.tasks }
    ensures { result ≡ overlaps_in table.now t }
{
    let processor = table.plan.processors[t];
    let start = table.plan.starts[t];
    let finish = table.finish(t);
    let mut found: u32 = 0;
    for u in t + 1..table.instance.tasks {
        let other = table.plan.starts[u];
        let end = table.finish(u);
        if table.plan.processors[u] == processor {
            if other < finish {
                if start < end {
                    found += 1;
                }
            }
        }
    }
    found != 0
}

// Whether any two tasks overlap on a processor.
fn any_overlap(table: &Timetable) -> bool
    ensures { result ≡ some_in_places (overlaps_in table.now) 0 table.now.instance.tasks }
{
    (0..table.instance.tasks).any(|t| overlaps_later(table, t))
}

// Whether the task that edge k goes to starts before the messages are there.
fn is_early(table: &Timetable, k: usize) -> bool
    requires { k < table.now.instance.edges }
    ensures { result ≡ early_in table.now k }
{
    let t = usize::from(table.instance.to[k]);
    let sent = messages::of_edge(table, k, table.processor(t));
    table.plan.starts[t] < sent.arrival
}

// Whether a task starts before the messages of one of its edges are there.
fn any_early(table: &Timetable) -> bool
    ensures { result ≡ some_in_places (early_in table.now) 0 table.now.instance.edges }
{
    (0..table.instance.edges).any(|k| is_early(table, k))
}

// Whether a plan that has a place for each task keeps the rules, or the first that it breaks.
pub fn keeps_rules(instance: &Instance, plan: &Schedule) -> Result<(), Refusal>
    requires { (instance.now.tasks ≤ length plan.now.starts.now) × (instance.now.tasks ≤ length plan.now.processors.now) }
    ensures { as_checked result ≡ checked_as (check_of (instance_in (in_arrays instance.now))
        (λ T. get_or plan.now.processors.now T 0) (λ T. get_or plan.now.starts.now T 0)) }
{
    misplaced(instance, plan)?;
    // Both rules between tasks are looked at; 12 is judged before 13.
    let table = Timetable {
        instance: *instance,
        plan: *plan,
    };
    let overlap = any_overlap(&table);
    let early = any_early(&table);
    if overlap {
        return Err(Refusal::Overlap);
    }
    if early {
        return Err(Refusal::EarlyStart);
    }
    Ok(())
}
