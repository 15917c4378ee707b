// Link costs (document 01, "Link costs"; document 02, §1 and §5): what one message takes from each processor to each other, as a square.
// The call asks nothing of its caller: of more processors than sixteen the first sixteen have a place in the square.
#![tactic(auto)]

ghost use Rattle.std.specs.Prelude.{◌≡◌, ◌≤◌, ◌<◌, replicate};
ghost use Rattle.etf.specs.Topology.{hypercube_hops, ring_hops, hops as hops_of, cost as cost_of, square as square_of};
ghost use Rattle.costs.specs.Wires.{loaded};

use job::{Platform, Topology};

// 01: "the number of binary places in which p and q differ"; 02 §5: "boards are as far apart as their numbers have differing bits".
fn hypercube_hops(p: usize, q: usize) -> u32
    requires { (p < 16) × (q < 16) }
    ensures { result ≡ hypercube_hops p q }
{
    (p ^ q).count_ones()
}

// 01: "the smaller of the difference d of p and q, and n - d".
fn ring_hops(n: usize, p: usize, q: usize) -> u32
    requires { (n ≤ 255) × (p < n) × (q < n) }
    ensures { result ≡ ring_hops n p q }
{
    let d = p.abs_diff(q);
    d.min(n - d) as u32
}

// The hops between two different processors, by topology; 0 where wires tell what a message takes, and where there is no topology.
fn hops(platform: Platform, p: usize, q: usize) -> u32
    requires { (p < platform.processors) × (q < platform.processors) × (p < 16) × (q < 16) }
    ensures { result ≡ hops_of platform p q }
{
    match Topology::try_from(platform.topology) {
        Ok(Topology::Complete) => 1,
        Ok(Topology::Hypercube) => hypercube_hops(p, q),
        Ok(Topology::Ring) => ring_hops(usize::from(platform.processors), p, q),
        Ok(Topology::Wired) => 0,
        Err(_) => 0,
    }
}

// What one message takes from processor p to processor q: under topology 3 what the wire from p to q has.
fn cost(platform: Platform, wires: &[u8; 256], p: usize, q: usize) -> u32
    requires { (p < platform.processors) × (q < platform.processors) × (p < 16) × (q < 16) }
    ensures { result ≡ cost_of platform (loaded wires.now) p q }
{
    if p == q {
        return 0;
    }
    if platform.topology == Topology::Wired as u8 {
        return u32::from(wires[16 * p + q]);
    }
    u32::from(platform.unit) * hops(platform, p, q)
}

// Lays the costs into a square that is all 0.
fn lay(platform: Platform, wires: &[u8; 256], costs: &mut [[u32; 16]; 16])
    requires { costs.old ≡ replicate 16 (replicate 16 0) }
    ensures { costs.new ≡ square_of platform.processors (cost_of platform (loaded wires.now)) }
{
    let n = usize::from(platform.processors).min(16);
    for p in 0..n {
        for q in 0..n {
            costs[p][q] = cost(platform, wires, p, q);
        }
    }
}

// The costs as a square of sixteen rows of sixteen, 0 where a processor is absent.
pub fn square(platform: Platform, wires: &[u8; 256]) -> [[u32; 16]; 16]
    ensures { result ≡ square_of platform.processors (cost_of platform (loaded wires.now)) }
{
    let mut costs = [[0u32; 16]; 16];
    lay(platform, wires, &mut costs);
    costs
}

// The same in a square that is lent, and so stands on the stack once. What it held does not count.
pub fn fill_square(platform: Platform, wires: &[u8; 256], costs: &mut [[u32; 16]; 16])
    ensures { costs.new ≡ square_of platform.processors (cost_of platform (loaded wires.now)) }
{
    *costs = [[0u32; 16]; 16];
    lay(platform, wires, costs);
}
