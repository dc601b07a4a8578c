// The closed question with lent memory (document 02, Four): there the sides that start at a vertex stand in a chain. So a side is compared with those that
// start at its two ends, and not with every other.
#![tactic(auto)]

ghost use Rattle.std.specs.Prelude.{◌≡◌, ◌+◌, ◌≤◌, ◌<◌, ◌%◌, length};
ghost use Rattle.laws.specs.Below.{over};
ghost use Rattle.laws.specs.Leading.{leading};
ghost use Rattle.closed.specs.Closed.{walks, side_sound};
ghost use Rattle.closed.specs.Chains.{top_number, chains, ClosedWith};
ghost use Rattle.closed_with.specs.Steps.{Chained, Followed};

use block::Checked;
use closed::Closure;

// Whether a list of quads is closed, with lent memory: a word for each vertex number and one for each side.
pub fn closed_with(quads: &[u32], work: &mut [u64]) -> Closure
    ensures { ClosedWith quads.now work.old result work.new }
{
    let whole = lists::check_length(quads);
    if let Checked::Refuses(r) = whole {
        return Closure::Refused(r);
    }
    let top = top_number(quads);
    let room = block::check_room(top + quads.len(), work.len());
    if let Checked::Refuses(r) = room {
        return Closure::Refused(r);
    }
    let n = fault_by_chains(quads, top, work);
    if n < quads.len() {
        return Closure::Open {
            quad: n / 4,
            side: n % 4,
        };
    }
    Closure::Closed
}

// The first side that is not in order, or how many sides there are, by the chains that are made.
fn fault_by_chains(quads: &[u32], top: usize, work: &mut [u64]) -> usize
    requires { (top ≡ top_number quads.now) × (length quads.now % 4 ≡ 0) × (top + length quads.now ≤ length work.old) }
    ensures value { result ≡ leading (side_sound quads.now) (length quads.now) }
    ensures work_after { work.new ≡ over (chains quads.now) work.old }
{
    clear_heads(quads, top, work);
    chain_sides(quads, top, work);
    first_fault(quads, top, work)
}

// One more than the highest vertex number, or 0.
fn top_number(quads: &[u32]) -> usize
    ensures value { result ≡ top_number quads.now }
    ensures upper_bound { result ≤ 4294967296 }
{
    match quads.iter().copied().max() {
        Some(highest) => highest as usize + 1,
        None => 0,
    }
}

// No side is chained yet: the word of each vertex says that there is none.
fn clear_heads(quads: &[u32], top: usize, work: &mut [u64])
    requires { top + length quads.now ≤ length work.old }
    ensures { Chained quads.now top (length quads.now) work.old work.new }
{
    let none = quads.len() as u64;
    work[..top].fill(none);
}

// From the last side to the first: each side is put before those that start at its vertex.
#[tactic(auto, using(closed::proofs::Chains::top_above))]
fn chain_sides(quads: &[u32], top: usize, work: &mut [u64])
    requires { (top ≡ top_number quads.now) × (top + length quads.now ≤ length work.old) × Chained quads.now top (length quads.now) work.old work.old }
    ensures { Chained quads.now top 0 work.old work.new }
{
    for m in (0..quads.len()).rev() {
        let v = quads[m] as usize;
        work[top + m] = work[v];
        work[v] = m as u64;
    }
}

// How often a side is walked from a to b: the chain of a is followed.
fn walks_from(quads: &[u32], top: usize, work: &[u64], a: u32, b: u32) -> usize
    requires { (a < top) × (length quads.now % 4 ≡ 0) × Followed quads.now top work.now }
    ensures { result ≡ walks quads.now a b }
{
    // (A while: the next side is what the word of the last tells, not one more.)
    let mut found = 0;
    let mut m = work[a as usize] as usize;
    while m < quads.len() {
        let e = closed::next(m);
        found += (quads[e] == b) as usize;
        m = work[top + m] as usize;
    }
    found
}

// The first side that is not in order, or how many sides there are.
#[tactic(auto, using(closed::proofs::Chains::top_above))]
fn first_fault(quads: &[u32], top: usize, work: &[u64]) -> usize
    requires { (top ≡ top_number quads.now) × (length quads.now % 4 ≡ 0) × Followed quads.now top work.now }
    ensures { result ≡ leading (side_sound quads.now) (length quads.now) }
{
    for n in 0..quads.len() {
        let a = quads[n];
        let e = closed::next(n);
        let b = quads[e];
        let there = walks_from(quads, top, work, a, b);
        let back = walks_from(quads, top, work, b, a);
        if !closed::sound(a, b, there, back) {
            return n;
        }
    }
    quads.len()
}
