// One layer of cubes between a plane that is remembered in a lent buffer and a plane that is handed over: its vertices and quads, counted and written,
// and what must be remembered for the next plane (document 02, Nine).
#![tactic(auto)]

ghost use Rattle.std.specs.Prelude.{◌≡◌, ◌*◌, ◌≤◌, length};
ghost use Rattle.laws.specs.Below.{over};
ghost use Rattle.cube_rule.specs.Decider.{loops_of};
ghost use Rattle.plane_layers.specs.Layer.{LayerReady, SignsReady, LayerCounted, StepReady, RowTaken, LayerRoomy, LayerWritten, Grown};
ghost use Rattle.plane_layers.specs.Memory.{Windowed, SignedTo, sample_in, item_at, packed, pair_of};

use block::{Checked, Cut, Size};
use layers::Marks;
use mesh::Counted;

// A layer of a block: the block's size and threshold, the number of the layer's first vertex, and the layer's number.
#[derive(Clone, Copy)]
pub struct Layer {
    pub size: Size,
    pub cut: Cut,
    pub first: usize,
    pub k: usize,
}

// The samples of a part of words, at the front of a window: a loop that is compiled to a copy, since each word is read once.
#[tactic(auto, using(crate::proofs::Copies::window_more))]
fn unpack(part: &[u32], window: &mut [u16])
    requires { 2 * length part.now ≤ length window.old }
    ensures { Windowed part.now (2 * length part.now) window.new }
{
    for (i, &w) in part.iter().enumerate() {
        window[2 * i] = (w % 65536) as u16;
        window[2 * i + 1] = (w / 65536) as u16;
    }
}

// Copies words into a part of the same length.
// (A loop: `copy_from_slice` has the archive call memmove, and it is to need memcpy and memset alone.)
fn copy(source: &[u32], target: &mut [u32])
    requires { length source.now ≡ length target.old }
    ensures { target.new ≡ source.now }
{
    for (i, w) in source.iter().enumerate() {
        target[i] = *w;
    }
}

// Remembers a plane at the front of the buffer, two samples to a word.
#[tactic(auto, using(crate::proofs::Copies::packed_odd, laws::proofs::Over::over_none, laws::proofs::Over::over_put))]
pub fn keep_plane(plane: &[u16], work: &mut [u32])
    requires { length plane.now ≤ length work.old }
    ensures { work.new ≡ over (packed plane.now) work.old }
{
    let n = plane.len();
    let pairs = n / 2;
    for i in 0..pairs {
        work[i] = pair(plane[2 * i], plane[2 * i + 1]);
    }
    if n % 2 == 1 {
        work[pairs] = pair(plane[n - 1], 0);
    }
}

// Two samples as a word.
fn pair(a: u16, b: u16) -> u32
    ensures { result ≡ pair_of a b }
{
    a as u32 + 65536 * (b as u32)
}

// The signs of a plane that is remembered, five words to a row.
fn old_signs(nx: usize, ny: usize, cut: Cut, work: &[u32], signs: &mut [u64])
    requires { (nx ≤ 256) × (ny ≤ 256) × (nx * ny ≤ length work.now) × (length signs.old ≡ 1280) }
    ensures { SignedTo nx (sample_in work.now) cut ny signs.new }
{
    let mut row = [0u16; 514];
    for j in 0..ny {
        let p = nx * j;
        unpack(&work[p / 2..(p + nx + 1) / 2], &mut row);
        let h = p % 2;
        signs::row_signs(&row[h..h + nx], cut, signs, j);
    }
}

// The signs of a plane that is lent, five words to a row.
// (Not one function with `old_signs`: a closure cannot lend the window that it fills.)
fn new_signs(nx: usize, ny: usize, cut: Cut, plane: &[u16], signs: &mut [u64])
    requires { (nx ≤ 256) × (ny ≤ 256) × (nx * ny ≤ length plane.now) × (length signs.old ≡ 1280) }
    ensures { SignedTo nx (item_at plane.now) cut ny signs.new }
{
    for j in 0..ny {
        let p = nx * j;
        signs::row_signs(&plane[p..p + nx], cut, signs, j);
    }
}

// How far the rows of a layer move the marks: a and b are the signs of its planes.
fn count_rows(layer: Layer, plane: &[u16], work: &[u32], a: &[u64], b: &[u64]) -> Marks
    requires { LayerReady layer work.now plane.now × SignsReady layer work.now plane.now a.now b.now }
    ensures { LayerCounted loops_of layer work.now plane.now result }
{
    let size = layer.size;
    let rows = size.ny() - 1;
    let mut m = Marks {
        v: 0,
        x: 0,
        y: 0,
        z: 0,
    };
    let mut lo = [0u16; 514];
    for j in 0..rows {
        let nx = size.nx();
        let p = nx * j;
        unpack(&work[p / 2..(p + 2 * nx + 1) / 2], &mut lo);
        let h = p % 2;
        let row = mesh::row_of(size, layer.cut, layer.first, j, layer.k);
        m = layers::row_counts(row, a, b, &lo[h..h + 2 * nx], &plane[p..p + 2 * nx], m);
    }
    m
}

// Writes the row j of a layer: its vertices, and the quads from row j of its lower plane. `lo` is room for the row's window.
fn step_row(
    layer: Layer,
    plane: &[u16],
    work: &[u32],
    a: &[u64],
    b: &[u64],
    j: usize,
    words: &mut [u32],
    offsets: &mut [f64],
    quads: &mut [u32],
    under: &[u32],
    tab: &mut [u32],
    lo: &mut [u16],
    m: Marks,
) -> Marks
    requires { (length lo.old ≡ 514) × LayerReady layer work.now plane.now × SignsReady layer work.now plane.now a.now b.now × StepReady loops_of layer work.now plane.now j m words.old offsets.old quads.old under.now tab.old }
    ensures { RowTaken loops_of layer work.now plane.now j m result words.old words.new offsets.old offsets.new quads.old quads.new under.now tab.old tab.new }
{
    let nx = layer.size.nx();
    let p = nx * j;
    unpack(&work[p / 2..(p + 2 * nx + 1) / 2], lo);
    let h = p % 2;
    let row = mesh::row_of(layer.size, layer.cut, layer.first, j, layer.k);
    layers::row_step(
        row,
        a,
        b,
        &lo[h..h + 2 * nx],
        &plane[p..p + 2 * nx],
        under,
        tab,
        words,
        offsets,
        quads,
        m,
    )
}

// Writes the rows of a layer that are counted. The numbers of each row of the layer below are fetched from the buffer before those of this layer take
// their place.
fn write_rows(
    layer: Layer,
    t: Marks,
    plane: &[u16],
    work: &mut [u32],
    a: &[u64],
    b: &[u64],
    words: &mut [u32],
    offsets: &mut [f64],
    quads: &mut [u32],
)
    requires { LayerReady layer work.old plane.now × SignsReady layer work.old plane.now a.now b.now × LayerCounted loops_of layer work.old plane.now t × LayerRoomy t words.old offsets.old quads.old }
    ensures { LayerWritten loops_of layer t plane.now work.old work.new words.old words.new offsets.old offsets.new quads.old quads.new }
{
    let nx = layer.size.nx();
    let ny = layer.size.ny();
    let rows = ny - 1;
    let mut under = [0u32; 1024];
    let mut tab = [0u32; 1024];
    let mut lo = [0u16; 514];
    let mut m = Marks {
        v: 0,
        x: 0,
        y: t.x,
        z: t.x + t.y,
    };
    for j in 0..rows {
        let at = nx * ny + 2 * (nx * j);
        let h = 512 * (j % 2);
        copy(&work[at..at + 2 * nx], &mut under[h..h + 2 * nx]);
        m = step_row(
            layer, plane, work, a, b, j, words, offsets, quads, &under, &mut tab, &mut lo, m,
        );
        copy(&tab[h..h + 2 * nx], &mut work[at..at + 2 * nx]);
    }
}

// Grows the mesh by a layer: writes its vertices and quads from the front of the buffers and remembers the plane that is lent and the layer's numbers.
// Nothing is touched where rows 5 and 6 refuse.
pub fn grow(
    layer: Layer,
    plane: &[u16],
    work: &mut [u32],
    words: &mut [u32],
    offsets: &mut [f64],
    quads: &mut [u32],
) -> Counted
    requires { LayerReady layer work.old plane.now }
    ensures { Grown loops_of layer plane.now work.old words.old offsets.old quads.old result work.new words.new offsets.new quads.new }
{
    let nx = layer.size.nx();
    let ny = layer.size.ny();
    let mut a = [0u64; 1280];
    let mut b = [0u64; 1280];
    old_signs(nx, ny, layer.cut, work, &mut a);
    new_signs(nx, ny, layer.cut, plane, &mut b);
    let t = count_rows(layer, plane, work, &a, &b);
    let counts = mesh::total(t);
    let fits = mesh::check_buffers(
        counts.vertices,
        counts.quads,
        words.len(),
        offsets.len(),
        quads.len(),
    );
    if let Checked::Refuses(r) = fits {
        return Counted::Refused(r);
    }
    write_rows(layer, t, plane, work, &a, &b, words, offsets, quads);
    keep_plane(plane, work);
    Counted::Counts(counts)
}
