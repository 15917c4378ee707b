// The messages of an edge, in the schedule of an instance.
ghost use Rattle.std.specs.Prelude.{◌≡◌, ◌<◌, get_or};
ghost use Rattle.schedule.specs.Pass.{finish_in, time_to, there_at};

use crate::timetable::Timetable;

// The task that they come from, its processor, how many they are, and when they are sent.
#[derive(Clone, Copy)]
pub struct Sent {
    pub sender: usize,
    pub processor: usize,
    pub count: u32,
    pub finish: u32,
}

// The messages of edge k, as they are sent.
pub fn sent_along(table: &Timetable, k: usize) -> Sent
    requires { k < table.now.instance.edges }
    ensures sender_value { result.sender ≡ get_or table.now.instance.from.now k 0 }
    ensures processor_value { result.processor ≡ get_or table.now.plan.processors.now result.sender 0 }
    ensures processor_there { result.processor < 16 }
    ensures count_value { result.count ≡ get_or table.now.instance.counts.now k 0 }
    ensures finish_value { result.finish ≡ finish_in table.now result.sender }
{
    let sender = usize::from(table.instance.from[k]);
    Sent {
        sender,
        processor: table.processor(sender),
        count: u32::from(table.instance.counts[k]),
        finish: table.finish(sender),
    }
}

// The task that they come from, what they take to a processor, and when they are there.
#[derive(Clone, Copy)]
pub struct Messages {
    pub sender: usize,
    pub time: u32,
    pub arrival: u32,
}

// The messages of edge k to processor q.
pub fn of_edge(table: &Timetable, k: usize, q: usize) -> Messages
    requires { (k < table.now.instance.edges) × (q < 16) }
    ensures sender_value { result.sender ≡ get_or table.now.instance.from.now k 0 }
    ensures time_value { result.time ≡ time_to table.now q k }
    ensures arrival_value { result.arrival ≡ there_at table.now q k }
{
    let sent = sent_along(table, k);
    let time = sent.count * table.instance.costs[sent.processor][q];
    Messages {
        sender: sent.sender,
        time,
        arrival: sent.finish + time,
    }
}
