// What planner, walk, chains and checker are handed: an instance in arrays, and a schedule in two slices.
ghost use Rattle.schedule.specs.InArrays.{in_number_order, Ready};

// An instance in arrays: how many processors, tasks and edges there are, the duration of each task, the ends and the message count of
// each edge, and the square of costs. Spare places are not read. The arrays can be planned wherever one of these stands.
#[derive(Clone, Copy)]
pub struct Instance<'a> {
    pub processors: usize,
    pub tasks: usize,
    pub edges: usize,
    pub durations: &'a [u32; 256],
    pub from: &'a [u8; 1024],
    pub to: &'a [u8; 1024],
    pub counts: &'a [u16; 1024],
    pub costs: &'a [[u32; 16]; 16],
    ghost ready: { Ready (in_number_order processors tasks edges durations.now from.now to.now counts.now costs.now) },
}

// A schedule in two slices: the start of each task, and its processor.
#[derive(Clone, Copy)]
pub struct Schedule<'a> {
    pub starts: &'a [u32],
    pub processors: &'a [u8],
}
