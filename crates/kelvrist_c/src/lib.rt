// The planners, the checker and the page for C: each export is the function of crate kelvrist that has its name, with its promise.
#![tactic(auto)]

ghost use Rattle.std.specs.Prelude.{◌≡◌};
ghost use Rattle.kelvrist.specs.PlanBytes.{returned, plan_bytes_call, weight_bytes_call, check_bytes_call};
ghost use Rattle.kelvrist.specs.PageBytes.{drew, page_bytes_call};

// Plans the job of `job` into 5 bytes a task of `plan`: 0, or the refusal's number.
#[unsafe(no_mangle)]
pub extern "C" fn kelvrist_plan(job: &[u8], plan: &mut [u8]) -> u32
    ensures { returned result plan.new ≡ plan_bytes_call job.now plan.old }
{
    kelvrist::kelvrist_plan(job, plan)
}

// The same as `kelvrist_plan` with ties in start to the task with the longest work left (02 §6).
#[unsafe(no_mangle)]
pub extern "C" fn kelvrist_plan_by_weight(job: &[u8], plan: &mut [u8]) -> u32
    ensures { returned result plan.new ≡ weight_bytes_call job.now plan.old }
{
    kelvrist::kelvrist_plan_by_weight(job, plan)
}

// The number and bytes of `kelvrist_plan` with less memory (02 §4).
#[unsafe(no_mangle)]
pub extern "C" fn kelvrist_plan_small(job: &[u8], plan: &mut [u8]) -> u32
    ensures { returned result plan.new ≡ plan_bytes_call job.now plan.old }
{
    kelvrist::kelvrist_plan_small(job, plan)
}

// Judges 5 bytes a task of `plan` for the job of `job`: 0 for a yes, or the refusal's number. No byte past 5m is read.
#[unsafe(no_mangle)]
pub extern "C" fn kelvrist_check(job: &[u8], plan: &[u8]) -> u32
    ensures { result ≡ check_bytes_call job.now plan.now }
{
    kelvrist::kelvrist_check(job, plan)
}

// Draws the page of 5 bytes a task of `plan` for the job of `job` at the front of `page` (02 §3): 0, or the refusal's number.
#[unsafe(no_mangle)]
pub extern "C" fn kelvrist_page(job: &[u8], plan: &[u8], page: &mut [u8]) -> u32
    ensures { drew result page.new ≡ page_bytes_call job.now plan.now page.old }
{
    kelvrist::kelvrist_page(job, plan, page)
}
