// The end of a plan with results (document 02 §2).
ghost use Rattle.std.specs.Prelude.{◌≡◌, max};
ghost use Rattle.base.specs.Rows.{most};
ghost use Rattle.schedule.specs.Pass.{delivered_at, ToDeliver};

use crate::instance::{Instance, Schedule};

// The last finish, or when the last result is at processor 0 if that is later.
pub fn end(instance: &Instance, results: &[u16; 256], plan: &Schedule, last: u32) -> u32
    requires { ToDeliver instance.now.tasks last instance.now.durations.now results.now instance.now.costs.now
        plan.now.starts.now plan.now.processors.now }
    ensures { result ≡ max last (most instance.now.tasks (delivered_at instance.now.durations.now results.now instance.now.costs.now
        plan.now.starts.now plan.now.processors.now)) }
{
    let mut end = last;
    for t in 0..instance.tasks {
        let count = u32::from(results[t]);
        if count != 0 {
            let p = usize::from(plan.processors[t]);
            let finish = plan.starts[t] + instance.durations[t];
            end = end.max(finish + count * instance.costs[p][0]);
        }
    }
    end
}
