// Vertices that hang in trees (document 02, Six): a quad joins its four vertices. One buffer has what each vertex hangs under, itself for a top, and a second
// one how many vertices hang under each top.
#![tactic(auto)]

ghost use Rattle.std.specs.Prelude.{◌≡◌, ◌+◌, ◌<◌, not, ◌&&◌, ◌||◌, eqb, ltb, length, set};
ghost use Rattle.trees.specs.Forest.{at, top_of, links_of, goes_under, join_quad};
ghost use Rattle.trees.specs.Steps.{stored, Ends, Standing, Tops, Unites, Reached, Joins};

// Where a search ends, and how many links it has followed.
#[derive(Clone, Copy)]
pub struct Way {
    pub top: u32,
    pub links: u32,
}

// From a vertex to its top. The links followed are counted.
#[tactic(auto, using(crate::proofs::Searches::nearer_to, crate::proofs::Searches::at_top, crate::proofs::Searches::links_le))]
pub fn search(up: &[u32], v: u32) -> Way
    requires { (v < length up.now) × Ends (length up.now) up.now }
    ensures top_value { result.top ≡ top_of (at up.now) (length up.now) v }
    ensures links_value { result.links ≡ links_of (at up.now) (length up.now) v }
    ensures top_in_bounds { result.top < length up.now }
{
    // (A while: the next index is what stands at this one, not one more.)
    let mut top = v;
    let mut above = up[v as usize];
    let mut links: u32 = 0;
    while above != top {
        top = above;
        above = up[top as usize];
        links += 1;
    }
    Way { top, links }
}

// The top a is hung under the top b, which takes its size.
fn hang(up: &mut [u32], size: &mut [u32], a: u32, b: u32)
    requires { (a < length up.old) × (a < length size.old) × (b < length size.old) × (at size.old a + at size.old b < 4294967296) }
    ensures up_after { up.new ≡ set up.old a b }
    ensures size_after { size.new ≡ set (set size.old b (at size.old a + at size.old b)) a 0 }
{
    up[a as usize] = b;
    size[b as usize] += size[a as usize];
    size[a as usize] = 0;
}

// Whether the top a, which has s vertices, goes under the top b, which has t: it has fewer, or as many and is the higher.
fn goes_under(s: u32, t: u32, a: u32, b: u32) -> bool
    ensures { result ≡ (ltb s t || eqb s t && ltb b a) }
{
    s < t || s == t && b < a
}

// Two tops become one: one of them is hung under the other. The answer is whether it is the first.
#[tactic(auto, using(crate::proofs::Unites::hangable))]
fn unite(up: &mut [u32], size: &mut [u32], a: u32, b: u32) -> bool
    requires { Standing (length up.old) up.old size.old × Tops (length up.old) up.old a b }
    ensures unites { Unites a b up.old size.old up.new size.new }
    ensures value { result ≡ (not (eqb a b) && goes_under size.old a b) }
{
    if a == b {
        return false;
    }
    if goes_under(size[a as usize], size[b as usize], a, b) {
        hang(up, size, a, b);
        return true;
    }
    hang(up, size, b, a);
    false
}

// A vertex whose way is known is joined with another. Its way goes on by a link if its top is hung, and else it stays: so it is not searched again. The longest
// search so far goes through.
fn join(up: &mut [u32], size: &mut [u32], first: Way, w: u32, longest: u32) -> (Way, u32)
    requires { (w < length up.old) × Standing (length up.old) up.old size.old × Reached (length up.old) up.old first.top first.links }
    ensures { Joins w up.old size.old first.top first.links longest up.new size.new result.0.top result.0.links result.1 }
{
    let second = search(up, w);
    let under = unite(up, size, first.top, second.top);
    let longest = longest.max(first.links.max(second.links));
    let way = if under {
        Way {
            top: second.top,
            links: first.links + 1,
        }
    } else {
        first
    };
    (way, longest)
}

// The first vertex of a quad is joined with the second, the third and the fourth.
pub fn join_quad(
    up: &mut [u32],
    size: &mut [u32],
    v0: u32,
    v1: u32,
    v2: u32,
    v3: u32,
    longest: u32,
) -> u32
    requires { (v0 < length up.old) × (v1 < length up.old) × (v2 < length up.old) × (v3 < length up.old) × Standing (length up.old) up.old size.old }
    ensures { stored up.new size.new result ≡ join_quad (length up.old) v0 v1 v2 v3 (stored up.old size.old longest) }
{
    let way = search(up, v0);
    let (way, longest) = join(up, size, way, v1, longest);
    let (way, longest) = join(up, size, way, v2, longest);
    let (_, longest) = join(up, size, way, v3, longest);
    longest
}
