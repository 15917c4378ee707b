// A schedule of an instance that has a place for each task.
ghost use Rattle.std.specs.Prelude.{◌≡◌, ◌+◌, ◌<◌, get_or};
ghost use Rattle.schedule.specs.InPlace.{EachInPlace};

use crate::instance::{Instance, Schedule};

// An instance and a schedule of it: each task has a start and a processor of the instance, and 32 bits hold its finish and the arrival of
// any message that it sends. Both are copies of references.
#[derive(Clone, Copy)]
pub struct Timetable<'a> {
    pub instance: Instance<'a>,
    pub plan: Schedule<'a>,
    ghost in_place: { EachInPlace instance.tasks instance.processors instance.durations.now plan.starts.now plan.processors.now },
}

impl Timetable<'_> {
    // When task t finishes.
    pub fn finish(&self, t: usize) -> u32
        requires { t < self.now.instance.tasks }
        ensures { result ≡ get_or self.now.plan.starts.now t 0 + get_or self.now.instance.durations.now t 0 }
    {
        self.plan.starts[t] + self.instance.durations[t]
    }

    // The processor that it runs on.
    pub fn processor(&self, t: usize) -> usize
        requires { t < self.now.instance.tasks }
        ensures there { result < 16 }
        ensures value { result ≡ get_or self.now.plan.processors.now t 0 }
    {
        usize::from(self.plan.processors[t])
    }
}
