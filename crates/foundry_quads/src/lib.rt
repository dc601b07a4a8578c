// The quads of a mesh from the foundry: the first that is at fault (document 02, Twelve). Each is held against 01's table by the cubes and the words of its vertices.
// Repeated ones are looked for by keys.
#![tactic(auto)]

ghost use Rattle.std.specs.Prelude.{◌≡◌, ◌+◌, ◌-◌, ◌*◌, ◌^◌, ◌<◌, ◌≤◌, ◌==◌};
ghost use Rattle.laws.specs.Bits.{holds};
ghost use Rattle.laws.specs.Leading.{leading};
ghost use Rattle.block.specs.Numbering.{cube_count};
ghost use Rattle.block.specs.Size.{Limits};
ghost use Rattle.block.specs.Steps.{Sampled};
ghost use Rattle.mesh_rule.specs.Layers.{layer_size};
ghost use Rattle.foundry_rule.specs.Distinct.{QuadsBelow};
ghost use Rattle.foundry_rule.specs.Judged.{vertex_total, quad_total, named_quad, as_sent};
ghost use Rattle.foundry_rule.specs.Spots.{highest_of, cube_at, word_at, led, along_by, round_by, fits, axis_by};
ghost use Rattle.repeats.specs.Fresh.{PlaceIn};
ghost use Rattle.foundry_quads.specs.Steps.{as_quad, FourBelow, QuadsInside, QuadsReady, apart_by, all_hold, quad_fits, key_at, quad_spot_sound};

use block::{Cut, Size};
use cube_spots::Spot;
use repeats::Keyed;

// The four vertices of a quad.
#[derive(Clone, Copy)]
struct Four {
    a: u32,
    b: u32,
    c: u32,
    d: u32,
}

// The place of the highest of four numbers; of equal ones, the first.
fn highest(a: u32, b: u32, c: u32, d: u32) -> usize
    ensures value { result ≡ highest_of a b c d }
    ensures upper_bound { result < 4 }
{
    // (Both places first, so that the choice between them is no branch.)
    let low = usize::from(a < b);
    let high = 2 + usize::from(c < d);
    if a.max(b) < c.max(d) { high } else { low }
}

// The cube of a vertex.
fn cube_at(words: &[u32], v: u32) -> u32
    requires { v < vertex_total words.now }
    ensures { result ≡ cube_at words.now v }
{
    words[2 * (v as usize)]
}

// Quad q, begun so that its third vertex is in the highest cube.
fn begun_at(words: &[u32], quads: &[u32], q: usize) -> Four
    requires q_bound { q < quad_total quads.now }
    requires quads_below { QuadsBelow (vertex_total words.now) quads.now }
    ensures result_value { as_quad result ≡ led words.now (named_quad as_sent quads.now q) }
    ensures four_below { FourBelow (vertex_total words.now) result }
{
    let n = 4 * q;
    let h = highest(
        cube_at(words, quads[n]),
        cube_at(words, quads[n + 1]),
        cube_at(words, quads[n + 2]),
        cube_at(words, quads[n + 3]),
    );
    Four {
        a: quads[n + (h + 2) % 4],
        b: quads[n + (h + 3) % 4],
        c: quads[n + h],
        d: quads[n + (h + 1) % 4],
    }
}

// Whether the cube of v lies so far before that of w.
fn lies_before(words: &[u32], v: u32, w: u32, by: u64) -> bool
    requires { (v < vertex_total words.now) × (w < vertex_total words.now) × (by ≤ 8589934590) }
    ensures { result ≡ (cube_at words.now v + by == cube_at words.now w) }
{
    u64::from(cube_at(words, v)) + by == u64::from(cube_at(words, w))
}

// Whether second and fourth cube lie r and p before the third, and the first lies both before it.
fn lie_apart(words: &[u32], r: u32, p: u32, four: Four) -> bool
    requires { FourBelow (vertex_total words.now) four }
    ensures { result ≡ apart_by words.now r p (as_quad four) }
{
    lies_before(words, four.b, four.c, u64::from(r))
        && lies_before(words, four.d, four.c, u64::from(p))
        && lies_before(words, four.a, four.c, u64::from(r) + u64::from(p))
}

// Whether the word of a vertex holds an edge.
fn holds_edge(words: &[u32], v: u32, e: u32) -> bool
    requires { (v < vertex_total words.now) × (e < 12) }
    ensures { result ≡ holds (word_at words.now v) e }
{
    (words[2 * (v as usize) + 1] >> e) % 2 == 1
}

// Whether the words hold the edges.
fn hold_edges(words: &[u32], e0: u32, e1: u32, e2: u32, e3: u32, four: Four) -> bool
    requires four_below { FourBelow (vertex_total words.now) four }
    requires e0_bound { (e0 < 12) × (e1 < 12) × (e2 < 12) × (e3 < 12) }
    ensures { result ≡ all_hold words.now e0 e1 e2 e3 (as_quad four) }
{
    holds_edge(words, four.a, e0)
        && holds_edge(words, four.b, e1)
        && holds_edge(words, four.c, e2)
        && holds_edge(words, four.d, e3)
}

// Whether a quad lies round an edge along one axis. u and v are how far the edge's lower sample is from two faces of the box, across that axis.
fn lies_along(
    words: &[u32],
    u: u32,
    v: u32,
    r: u32,
    p: u32,
    e0: u32,
    e1: u32,
    e2: u32,
    e3: u32,
    four: Four,
) -> bool
    requires four_below { FourBelow (vertex_total words.now) four }
    requires e0_bound { (e0 < 12) × (e1 < 12) × (e2 < 12) × (e3 < 12) }
    ensures { result ≡ along_by words.now u v r p e0 e1 e2 e3 (as_quad four) }
{
    // (No `&&` between these two: a look at a quad then took a twentieth longer.)
    if u == 0 {
        return false;
    }
    if v == 0 {
        return false;
    }
    lie_apart(words, r, p, four) && hold_edges(words, e0, e1, e2, e3, four)
}

// Whether a quad lies round an edge along x, y or z as 01's table says. Its third vertex is in the cube at the spot, and second and fourth stand in the table's
// order. `wide` is how many cubes a row has, `layer` how many a layer.
fn lies_round(words: &[u32], wide: u32, layer: u32, spot: Spot, four: Four) -> bool
    requires { FourBelow (vertex_total words.now) four }
    ensures { result ≡ round_by words.now wide layer spot.x spot.y spot.z (as_quad four) }
{
    lies_along(words, spot.y, spot.z, layer, wide, 3, 2, 0, 1, four)
        || lies_along(words, spot.x, spot.z, 1, layer, 7, 5, 4, 6, four)
        || lies_along(words, spot.x, spot.y, wide, 1, 11, 10, 8, 9, four)
}

// How many cubes a row has.
fn row_of(size: Size) -> u32
    requires { Limits size }
    ensures { result ≡ size.nx - 1 }
{
    (size.nx() - 1) as u32
}

// How many cubes a layer has.
fn layer_of(size: Size) -> u32
    requires { Limits size }
    ensures { result ≡ layer_size size }
{
    let x = size.nx() - 1;
    let y = size.ny() - 1;
    (x * y) as u32
}

// Whether a quad, begun at the right vertex, is that of a crossed inner edge.
#[tactic(auto, using(cube_spots::proofs::Inside::last_inside), unfolding(foundry_rule::specs::Spots::fits))]
fn fits_edge(
    size: Size,
    samples: &[u16],
    cut: Cut,
    words: &[u32],
    wide: u32,
    layer: u32,
    four: Four,
) -> bool
    requires sampled { Sampled size samples.now }
    requires four_below { FourBelow (vertex_total words.now) four }
    requires c_bound { cube_at words.now four.c < cube_count size }
    requires wide_value { (wide ≡ size.nx - 1) × (layer ≡ layer_size size) }
    ensures { result ≡ fits words.now size samples.now cut (as_quad four) }
{
    let spot = cube_spots::spot_of(size, cube_at(words, four.c));
    if cut.t <= samples[spot.first] {
        return lies_round(words, wide, layer, spot, four);
    }
    let turned = Four {
        a: four.a,
        b: four.d,
        c: four.c,
        d: four.b,
    };
    lies_round(words, wide, layer, spot, turned)
}

// The axis of a quad's edge, by how far apart its first and its third cube lie: 0, 1 or 2.
fn axis_of(words: &[u32], wide: u32, layer: u32, four: Four) -> u64
    requires { FourBelow (vertex_total words.now) four }
    ensures value { result ≡ axis_by words.now wide layer (as_quad four) }
    ensures upper_bound { result ≤ 2 }
{
    if lies_before(words, four.a, four.c, u64::from(layer) + u64::from(wide)) {
        0
    } else if lies_before(words, four.a, four.c, 1 + u64::from(layer)) {
        1
    } else {
        2
    }
}

// The number that tells a quad from every other of ours: its axis and its third vertex.
fn key_of(words: &[u32], wide: u32, layer: u32, four: Four) -> u64
    requires four_below { FourBelow (vertex_total words.now) four }
    requires words_bound { vertex_total words.now ≤ 66325500 }
    ensures value { result ≡ axis_by words.now wide layer (as_quad four) * vertex_total words.now + four.c }
    ensures upper_bound { result < 3 * vertex_total words.now }
{
    axis_of(words, wide, layer, four) * (words.len() / 2) as u64 + u64::from(four.c)
}

// How far a key is behind the base of a range; none where it is not in the range. Where the key is before the base the difference wraps, and it is then past any
// range. So one test is enough.
fn from_base(base: u64, key: u64) -> Option<usize>
    requires { base < 2 ^ 50 }
    ensures { PlaceIn base key result }
{
    let k = key.wrapping_sub(base);
    if k >= 262144 {
        return None;
    }
    Some(k as usize)
}

// The quads as they were sent, beside the block. A row has so many cubes, and a layer.
#[derive(Clone, Copy)]
struct Quads<'a> {
    size: Size,
    samples: &'a [u16],
    cut: Cut,
    words: &'a [u32],
    quads: &'a [u32],
    wide: u32,
    layer: u32,
}

impl<'a> Keyed for Quads<'a> {
    ghost ready = { λ s. QuadsReady s.size s.samples.now s.words.now s.quads.now s.wide s.layer };

    ghost count = { λ s. quad_total s.quads.now };

    ghost sound = { λ s. quad_fits s.size s.samples.now s.cut s.words.now s.quads.now };

    ghost key = { λ s. key_at s.size s.words.now s.quads.now };

    // One for each axis and vertex.
    ghost keys = { λ s. 3 * vertex_total s.words.now };

    fn count(&self) -> usize {
        self.quads.len() / 4
    }

    fn ranges(&self) -> u32 {
        (3 * (self.words.len() / 2)).div_ceil(262144) as u32
    }

    fn key(&self, q: usize) -> Option<u64> {
        let four = begun_at(self.words, self.quads, q);
        if !fits_edge(
            self.size,
            self.samples,
            self.cut,
            self.words,
            self.wide,
            self.layer,
            four,
        ) {
            return None;
        }
        Some(key_of(self.words, self.wide, self.layer, four))
    }

    fn place(&self, r: u32, q: usize) -> Option<usize> {
        let four = begun_at(self.words, self.quads, q);
        from_base(
            262144 * u64::from(r),
            key_of(self.words, self.wide, self.layer, four),
        )
    }

    // No look is quicker than that at a quad's key.
    fn is_far(&self, _r: u32, _v: usize, _end: usize) -> bool {
        false
    }
}

// The first quad at fault; how many there are, where none is.
pub fn first_fault(size: Size, samples: &[u16], cut: Cut, words: &[u32], quads: &[u32]) -> usize
    requires sampled { Sampled size samples.now }
    requires quads_inside { QuadsInside size words.now quads.now }
    ensures { result ≡ leading (quad_spot_sound size samples.now cut words.now quads.now) (quad_total quads.now) }
{
    repeats::first_fault(&Quads {
        size,
        samples,
        cut,
        words,
        quads,
        wide: row_of(size),
        layer: layer_of(size),
    })
}
