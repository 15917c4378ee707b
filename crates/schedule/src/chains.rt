// The dearest chain (document 01, "The cover C").
ghost use Rattle.std.specs.Prelude.{◌≡◌, ◌≤◌, get_or};
ghost use Rattle.base.specs.Rows.{most as most_of};
ghost use Rattle.etf.specs.Dearest.{dearest as dearest_of};
ghost use Rattle.schedule.specs.InArrays.{instance_in};
ghost use Rattle.schedule.specs.Handed.{in_arrays};
ghost use Rattle.schedule.specs.CoverPass.{greatest_in};

use crate::instance::Instance;

// The greatest of the first n numbers of a row.
fn greatest_in(row: &[u32; 16], n: usize) -> u32
    requires { n ≤ 16 }
    ensures { result ≡ most_of n (λ q. get_or row.now q 0) }
{
    row[..n].iter().copied().max().unwrap_or(0)
}

// The greatest cost between two processors.
pub fn greatest_cost(instance: &Instance) -> u32
    ensures { result ≡ greatest_in instance.now.costs.now instance.now.processors }
{
    let n = instance.processors;
    let costs = instance.costs;
    costs[..n]
        .iter()
        .map(|row| greatest_in(row, n))
        .max()
        .unwrap_or(0)
}

// The dearest chain of an instance; `cost` is the greatest cost between two processors. Edges rise by from, so the sum at a task is whole
// before an edge leaves it.
pub fn dearest(instance: &Instance, cost: u32) -> u32
    requires { cost ≡ greatest_in instance.now.costs.now instance.now.processors }
    ensures { result ≡ dearest_of (instance_in (in_arrays instance.now)) }
{
    let mut sums = [0u32; 256];
    let mut most: u32 = 0;
    for k in 0..instance.edges {
        let s = usize::from(instance.from[k]);
        let t = usize::from(instance.to[k]);
        let sum = sums[s] + u32::from(instance.counts[k]) * cost;
        sums[t] = sums[t].max(sum);
        most = most.max(sum);
    }
    most
}
