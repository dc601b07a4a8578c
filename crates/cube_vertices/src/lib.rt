// The vertices of one cube into lent buffers: their words and offsets, and their numbers noted by edge (document 01, "The mesh"). Only a cube that
// is not told to have a single loop is linked.
#![tactic(auto)]

ghost use Rattle.std.specs.Prelude.{◌≡◌, [], ◌∷◌, ◌+◌, ◌*◌, ◌<◌, ◌≤◌, length, take};
ghost use Rattle.std.proofs.lemmas.List.Edits.{sets};
ghost use Rattle.cube_rule.specs.Decider.{loops_of};
ghost use Rattle.mesh_rule.specs.Buffers.{triples};
ghost use Rattle.mesh_rule.specs.Layers.{pairs};
ghost use Rattle.cube_vertices.specs.Cubes.{CubeReady, CubeRoom, CubeWritten};

use block::Cut;
use cell::Found;
use place::Offset;

// Where the vertices of a cube go: its place in its row, its number, the place of its first vertex in the lent buffers, and the number of the vertex
// that stands first in them.
#[derive(Clone, Copy)]
pub struct Spot {
    pub x: usize,
    pub c: u32,
    pub v: usize,
    pub first: usize,
}

// Writes and notes the vertices of a cube with the crossed edges `crossed`, and answers the place behind them; `single` is said only of a cube with
// one loop.
pub fn write_cube(
    cut: Cut,
    corners: [u16; 8],
    crossed: u32,
    single: bool,
    spot: Spot,
    words: &mut [u32],
    offsets: &mut [f64],
    numbers: &mut [u32],
) -> usize
    requires { CubeReady loops_of cut corners crossed single × CubeRoom loops_of cut corners spot words.old offsets.old numbers.old }
    ensures { CubeWritten loops_of cut corners spot words.old words.new offsets.old offsets.new numbers.old numbers.new result }
{
    let v = spot.v;
    if single {
        let o = place::place(crossed, place::wide(corners), cut);
        let word = crossed + cell::mark(corners);
        put_vertex(words, offsets, v, spot.c, word, o);
        notes::note(numbers, spot.x, (spot.first + v) as u32, 0);
        return v + 1;
    }
    let answer = cell::cube_by(crossed, corners, cut);
    let found = answer.found;
    let Found::Loops(n) = found else {
        // Never reached: no row refuses the cube.
        return v;
    };
    let four = answer.words;
    let places = answer.offsets;
    put_four(words, offsets, v, spot.c, n as usize, four, places);
    notes::note(
        numbers,
        spot.x,
        (spot.first + v) as u32,
        notes::which_of(four),
    );
    v + n as usize
}

// Writes a vertex at the place v.
fn put_vertex(words: &mut [u32], offsets: &mut [f64], v: usize, c: u32, word: u32, o: Offset)
    requires { (2 * v + 2 ≤ length words.old) × (3 * v + 3 ≤ length offsets.old) }
    ensures words_after { words.new ≡ sets words.old (2 * v) (c ∷ word ∷ []) }
    ensures offsets_after { offsets.new ≡ sets offsets.old (3 * v) (o.x ∷ o.y ∷ o.z ∷ []) }
{
    words[2 * v] = c;
    words[2 * v + 1] = word;
    offsets[3 * v] = o.x;
    offsets[3 * v + 1] = o.y;
    offsets[3 * v + 2] = o.z;
}

// Writes the first n of four vertices of the cube c, from the place v on.
fn put_four(
    words: &mut [u32],
    offsets: &mut [f64],
    v: usize,
    c: u32,
    n: usize,
    four: [u32; 4],
    places: [Offset; 4],
)
    requires { (n ≤ 4) × (2 * (v + n) ≤ length words.old) × (3 * (v + n) ≤ length offsets.old) }
    ensures words_after { words.new ≡ sets words.old (2 * v) (pairs c (take n four)) }
    ensures offsets_after { offsets.new ≡ sets offsets.old (3 * v) (triples (take n places)) }
{
    for i in 0..n {
        put_vertex(words, offsets, v + i, c, four[i], places[i]);
    }
}
