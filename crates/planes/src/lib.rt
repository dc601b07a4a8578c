// What the words of two planes say of the cubes and edges between them, 64 at a time: the signs of the cubes' corners, the sign pattern of one cube,
// which cubes and edges have ends of both signs, and the places of a word that count.
#![tactic(auto)]

ghost use Rattle.std.specs.Prelude.{◌≡◌, ◌+◌, ◌*◌, ◌/◌, ◌%◌, ◌^◌, ◌<◌, ◌≤◌, length};
ghost use Rattle.planes.specs.Planes.{further_of, further_at, eight_of, active_of, along_x, along_y, along_z, limit_of, inner_of, pattern_at};
ghost use Rattle.std.specs.Int.Count.{ones};

// The signs of the eight corners of 64 cubes, from the word q of the plane a below and of the plane b above.
#[tactic(auto, unfolding(crate::specs::Planes::eight_of))]
pub fn eight(a: &[u64], b: &[u64], q: usize) -> [u64; 8]
    requires { (q + 6 < length a.now) × (q + 6 < length b.now) }
    ensures { result ≡ eight_of a.now b.now q }
{
    let a1 = further_at(a, q);
    let a3 = further_at(a, q + 5);
    let b1 = further_at(b, q);
    let b3 = further_at(b, q + 5);
    [a[q], a1, a[q + 5], a3, b[q], b1, b[q + 5], b3]
}

// Bit i is set if the eight signs of cube i are not all alike.
#[tactic(auto, unfolding(crate::specs::Planes::active_of))]
pub fn active(e: [u64; 8]) -> u64
    ensures { result ≡ active_of e }
{
    let v = e[0];
    (v ^ e[1])
        | ((v ^ e[2]) | ((v ^ e[3]) | ((v ^ e[4]) | ((v ^ e[5]) | ((v ^ e[6]) | (v ^ e[7]))))))
}

// The sign pattern of cube i: bit c is bit i of word c.
#[tactic(auto, unfolding(crate::specs::Planes::pattern_at, laws::specs::Pack::pack))]
pub fn pattern_at(e: [u64; 8], i: usize) -> u32
    requires { i < 64 }
    ensures value { result ≡ pattern_at e i }
    ensures upper_bound { result < 256 }
{
    let low = two_bits(e[0], e[1], i) + 4 * two_bits(e[2], e[3], i);
    let high = two_bits(e[4], e[5], i) + 4 * two_bits(e[6], e[7], i);
    (low + 16 * high) as u32
}

// Bit i of two words, that of the second above that of the first.
fn two_bits(a: u64, b: u64, i: usize) -> u64
    requires { i < 64 }
    ensures { result ≡ a / 2 ^ i % 2 + 2 * (b / 2 ^ i % 2) }
{
    (a >> i) % 2 + 2 * ((b >> i) % 2)
}

// The places i of word w with 64 w + i below n. (A full word has a case of its own: by `min` and one shift, rows without an active cube take longer.)
pub fn limit(n: usize, w: usize) -> u64
    requires { w < 4 }
    ensures { result ≡ limit_of n w }
{
    let a = 64 * w;
    if n <= a {
        return 0;
    }
    if n - a < 64 {
        return u64::MAX >> (64 - (n - a));
    }
    u64::MAX
}

// The places i of word w with 64 w + i neither first nor last of nx.
#[tactic(auto, using(crate::proofs::Masks::inner_first, crate::proofs::Masks::inner_other))]
pub fn inner(nx: usize, w: usize) -> u64
    requires { (0 < nx) × (w < 4) }
    ensures { result ≡ inner_of nx w }
{
    let v = limit(nx - 1, w);
    if w == 0 {
        return v & (u64::MAX - 1);
    }
    v
}

// Bit i is set if the signs of the edge along x from sample i of the word differ.
pub fn along_x(a: &[u64], q: usize) -> u64
    requires { q + 1 < length a.now }
    ensures { result ≡ along_x a.now q }
{
    a[q] ^ further_at(a, q)
}

// The same along y.
pub fn along_y(a: &[u64], q: usize) -> u64
    requires { q + 5 < length a.now }
    ensures { result ≡ along_y a.now q }
{
    a[q] ^ a[q + 5]
}

// The same along z, from the plane a to the plane b above it.
pub fn along_z(a: &[u64], b: &[u64], q: usize) -> u64
    requires { (q < length a.now) × (q < length b.now) }
    ensures { result ≡ along_z a.now b.now q }
{
    a[q] ^ b[q]
}

// The ones of a word.
pub fn ones_of(w: u64) -> usize
    ensures value { result ≡ ones w }
    ensures upper_bound { result ≤ 64 }
{
    u64::count_ones(w) as usize
}

// A row's word one sample further on: the next word's lowest bit comes in on top.
#[tactic(auto, unfolding(crate::specs::Planes::further_of))]
fn further(lo: u64, hi: u64) -> u64
    ensures { result ≡ further_of lo hi }
{
    (lo >> 1) | ((hi % 2) << 63)
}

// The word q of a plane, one sample further on.
fn further_at(a: &[u64], q: usize) -> u64
    requires { q + 1 < length a.now }
    ensures { result ≡ further_at a.now q }
{
    further(a[q], a[q + 1])
}
