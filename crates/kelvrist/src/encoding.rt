// A plan as bytes: 5 a task, its processor and then its start, little-endian.
ghost use Rattle.std.specs.Prelude.{◌≡◌, ◌++◌, ℕ, ◌+◌, ◌*◌, ◌≤◌, ◌<◌, length, get_or, drop};
ghost use Rattle.std.proofs.lemmas.List.Edits.{sets};
ghost use Rattle.kelvrist.specs.PlanBytes.{task_bytes, plan_bytes, processor_in, start_in};

// Writes the five bytes of one task, the processor's apart: a copy of five is put together on the stack and read back there while its
// stores are under way, which took a fifth of the planning of many tasks without edges.
fn put_task(plan: &mut [u8], at: usize, processor: u8, start: u32)
    requires { at + 5 ≤ length plan.old }
    ensures { plan.new ≡ sets plan.old at (task_bytes processor start) }
{
    plan[at] = processor;
    plan[at + 1..at + 5].copy_from_slice(&start.to_le_bytes());
}

// Writes the first `tasks` tasks.
pub fn put(tasks: usize, starts: &[u32], processors: &[u8], plan: &mut [u8])
    requires { (tasks ≤ length starts.now) × (tasks ≤ length processors.now) × (5 * tasks ≤ length plan.old) }
    ensures { plan.new ≡
        plan_bytes tasks (λ T. get_or processors.now T 0) (λ T. get_or starts.now T 0)
        ++ drop (5 * tasks) plan.old }
{
    for t in 0..tasks {
        put_task(plan, 5 * t, processors[t], starts[t]);
    }
}

// Reads the first `tasks` tasks.
pub fn get(tasks: usize, plan: &[u8], starts: &mut [u32], processors: &mut [u8])
    requires { (tasks ≤ length starts.old) × (tasks ≤ length processors.old) × (5 * tasks ≤ length plan.now) }
    ensures { (T : ℕ) → T < tasks →
        (get_or starts.new T 0 ≡ start_in plan.now T)
        × (get_or processors.new T 0 ≡ processor_in plan.now T) }
{
    for t in 0..tasks {
        let at = 5 * t;
        processors[t] = plan[at];
        starts[t] = u32::from_le_bytes([plan[at + 1], plan[at + 2], plan[at + 3], plan[at + 4]]);
    }
}
