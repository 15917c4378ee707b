// The numbers of a record, and the judgement of one: its trouble is OutOfRange, BadEnds, NotAbove, NotDue or NotDeliverable.
ghost use Rattle.std.specs.Prelude.{◌≡◌, ◌+◌, ◌*◌, ◌≤◌, ◌<◌, ℕ, length, take, drop, IfOk, IfSome};
ghost use Rattle.base.specs.Lists.{values};
ghost use Rattle.base.specs.Number.{number};
ghost use Rattle.job.specs.Table.{trouble};
ghost use Rattle.job.specs.Pass.{edge, key, wire_of, result_of, OnPair, PairAfter, pairs_from, sends};
ghost use Rattle.job.specs.Pass.{platform_trouble, cost_trouble, wire_trouble, step_trouble, count_trouble, link_trouble};
ghost use Rattle.job.specs.Pass.{delivery_trouble, result_trouble};

use crate::{Platform, Refusal};

// A pair of different processors.
#[derive(Clone, Copy, PartialEq, Eq)]
pub struct Pair {
    pub from: u8,
    pub to: u8,
}

// The number in the 2 bytes at `at`.
pub fn number2(file: &[u8], at: usize) -> u16
    requires { at + 2 ≤ length file.now }
    ensures { result ≡ number (take 2 (drop at file.now)) }
{
    base::number2(file[at], file[at + 1])
}

// The number in the 4 bytes at `at`.
pub fn number4(file: &[u8], at: usize) -> u32
    requires { at + 4 ≤ length file.now }
    ensures { result ≡ number (take 4 (drop at file.now)) }
{
    base::number4(file[at], file[at + 1], file[at + 2], file[at + 3])
}

#[tactic(auto, unfolding(crate::specs::Pass::platform_trouble, crate::specs::Record::platform_in_range))]
pub fn judge_platform(p: Platform) -> Result<(), Refusal>
    ensures { trouble result ≡ platform_trouble p }
{
    if p.processors < 1 || 16 < p.processors || 3 < p.topology || 100 < p.unit {
        return Err(Refusal::OutOfRange);
    }
    Ok(())
}

// The next pair, by from, then by to, if there is one.
pub fn pair_after(n: u8, x: Pair) -> Option<Pair>
    requires { (n ≤ 16) × (x.from < n) × (x.to < n) }
    ensures { PairAfter n x result }
{
    let mut to = x.to + 1;
    if to == x.from {
        to += 1;
    }
    if to < n {
        return Some(Pair { from: x.from, to });
    }
    let from = x.from + 1;
    if from < n {
        return Some(Pair { from, to: 0 });
    }
    None
}

// The place of a pair's cost in an array of sixteen rows of sixteen.
pub fn place(x: Pair) -> usize
    requires { (x.from < 16) × (x.to < 16) }
    ensures { (result ≡ 16 * x.from + x.to) × (result < 256) }
{
    16 * usize::from(x.from) + usize::from(x.to)
}

#[tactic(auto, unfolding(crate::specs::Pass::cost_trouble, crate::specs::Record::cost_in_range))]
pub fn judge_cost(cost: u8) -> Result<(), Refusal>
    ensures { trouble result ≡ cost_trouble cost }
{
    if 250 < cost {
        return Err(Refusal::OutOfRange);
    }
    Ok(())
}

// `due` is the next pair due, if there is one.
#[tactic(auto, using(crate::specs::Laws::Wires::bad_cost, crate::specs::Laws::Wires::is_next, crate::specs::Laws::Wires::is_not_next))]
pub fn judge_wire(pair: Pair, cost: u8, due: Option<Pair>) -> Result<(), Refusal>
    ensures judged { (n : ℕ) → IfSome due (OnPair n) → trouble result ≡ wire_trouble (pairs_from n due) (wire_of pair.from pair.to cost) }
    ensures fits { IfOk result (λ z. due ≡ Some pair) }
{
    judge_cost(cost)?;
    if due != Some(pair) {
        return Err(Refusal::NotDue);
    }
    Ok(())
}

#[tactic(auto, unfolding(crate::specs::Pass::step_trouble, crate::specs::Record::duration_in_range))]
pub fn judge_step(duration: u32) -> Result<(), Refusal>
    ensures { trouble result ≡ step_trouble duration }
{
    if duration < 1 || 1000000 < duration {
        return Err(Refusal::OutOfRange);
    }
    Ok(())
}

// Edges rise by from, then by to, as their keys rise.
pub fn key(from: u8, to: u8) -> u32
    ensures { (result ≡ 256 * from + to) × (result < 65536) }
{
    256 * u32::from(from) + u32::from(to)
}

// Of a link or a result.
#[tactic(auto, unfolding(crate::specs::Pass::count_trouble, crate::specs::Record::count_in_range))]
fn judge_count(count: u16) -> Result<(), Refusal>
    ensures { trouble result ≡ count_trouble count }
{
    if count < 1 || 1000 < count {
        return Err(Refusal::OutOfRange);
    }
    Ok(())
}

// `least` is the least key above the link before.
pub fn judge_link(from: u8, to: u8, count: u16, tasks: usize, least: u32) -> Result<(), Refusal>
    ensures { trouble result ≡ link_trouble tasks least (edge from to count) }
{
    judge_count(count)?;
    if to <= from || tasks <= usize::from(to) {
        return Err(Refusal::BadEnds);
    }
    if key(from, to) < least {
        return Err(Refusal::NotAbove);
    }
    Ok(())
}

// Which tasks have a successor: those that one of the first `edges` edges comes from.
#[tactic(auto, using(crate::specs::Laws::Results::senders_none, crate::specs::Laws::Results::senders_more))]
pub fn senders(from: &[u8; 1024], edges: usize) -> [bool; 256]
    requires { edges ≤ 1024 }
    ensures { result ≡ values (sends from.now edges) 0 256 }
{
    let mut senders = [false; 256];
    for k in 0..edges {
        senders[usize::from(from[k])] = true;
    }
    senders
}

// `sent`: the task has a successor.
pub fn judge_delivery(sent: bool, count: u16) -> Result<(), Refusal>
    ensures { trouble result ≡ delivery_trouble sent count }
{
    judge_count(count)?;
    if sent {
        return Err(Refusal::NotDeliverable);
    }
    Ok(())
}

// `least` is the least task above that of the result before.
pub fn judge_result(
    task: u8,
    count: u16,
    tasks: usize,
    least: usize,
    sent: bool,
) -> Result<(), Refusal>
    ensures { trouble result ≡ result_trouble tasks least sent (result_of task count) }
{
    judge_delivery(sent, count)?;
    let task = usize::from(task);
    if tasks <= task || task < least {
        return Err(Refusal::NotDeliverable);
    }
    Ok(())
}
