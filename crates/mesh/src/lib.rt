// Counting a mesh, and the mesh in lent buffers (document 01, "The mesh" and "Numbers of refusal"). The passes take a block of samples or a block of readings
// (document 02, Ten): they differ in how the signs of a plane are made, and in how a row is counted or written.
#![tactic(auto)]

ghost use Rattle.std.specs.Prelude.{◌≡◌, ◌++◌, ◌+◌, ◌-◌, ◌<◌, ◌≤◌, length};
ghost use Rattle.cube_rule.specs.Decider.{loops_of};
ghost use Rattle.block.specs.Answer.{in_order, judged};
ghost use Rattle.block.specs.Block.{block_rows};
ghost use Rattle.block.specs.Size.{Limits};
ghost use Rattle.block.specs.Steps.{Sampled};
ghost use Rattle.vertices.specs.Layers.{Ready};
ghost use Rattle.readings.specs.Reading.{greys_of, Sound};
ghost use Rattle.laws.specs.Below.{over};
ghost use Rattle.block.specs.Numbering.{sample_count};
ghost use Rattle.signs.specs.Signs.{plane_words};
ghost use Rattle.mesh.specs.Source.{block_of, FaultFree};
ghost use Rattle.mesh.specs.Answer.{buffer_rows, counts_of, said_counts, CountsAnswered, MeshedBy, Meshed};
ghost use Rattle.mesh_rule.specs.Layers.{layer_first};
ghost use Rattle.mesh.specs.Steps.{Meshable, totals_of, Few, row_of, Counting, Tallied};
ghost use Rattle.mesh.specs.Writes.{Roomy, BelowReady, BelowNoted, TablesReady, Underway, RowMore, LayerMore, BlockWritten};

use block::{Checked, Cut, Refusal, Size, Sized};
use layers::Marks;
use rows::Row;

// How many vertices and quads a mesh has.
#[derive(Clone, Copy)]
pub struct Totals {
    pub vertices: u32,
    pub quads: u32,
}

// Where the samples of a block come from: they are lent as they are, or readings are lent that become samples. The passes are lent both lists and read one.
#[derive(Clone, Copy)]
pub enum Source {
    Samples,
    Readings,
}

// What counting or meshing a block answers.
#[derive(Clone, Copy)]
pub enum Counted {
    Counts(Totals),
    Refused(Refusal),
}

// Rows 5 and 6, in this order: the need, and the lengths of the three buffers.
pub fn check_buffers(
    vertices: u32,
    quads: u32,
    words: usize,
    offsets: usize,
    lent: usize,
) -> Checked
    requires { (vertices ≤ 66325500) × (quads ≤ 49354740) }
    ensures { result ≡ in_order (buffer_rows (record { vertices = vertices; quads = quads }) words offsets lent) }
{
    let v = vertices as usize;
    if words < 2 * v {
        return Checked::Refuses(Refusal {
            number: 5,
            value: vertices,
        });
    }
    if offsets < 3 * v {
        return Checked::Refuses(Refusal {
            number: 5,
            value: vertices,
        });
    }
    if lent < 4 * (quads as usize) {
        return Checked::Refuses(Refusal {
            number: 6,
            value: quads,
        });
    }
    Checked::Passes
}

// The counts of a block whose marks are moved to its end.
pub fn total(m: Marks) -> Totals
    requires { Few m }
    ensures { result ≡ totals_of m }
{
    Totals {
        vertices: m.v as u32,
        quads: ((m.x + m.y + m.z) / 4) as u32,
    }
}

// The row j of the layer k, where the vertex with the number `first` stands first in the lent buffers.
pub fn row_of(size: Size, cut: Cut, first: usize, j: usize, k: usize) -> Row
    requires { Limits size × (j + 1 < size.ny) × (k + 1 < size.nz) }
    ensures { result ≡ row_of size cut first j k }
{
    let nx = size.nx();
    let ny = size.ny();
    let c = (nx - 1) * (j + (ny - 1) * k);
    Row {
        cut,
        nx,
        j,
        c,
        lower: 0 < k,
        first,
    }
}

// The words of plane k of a block, five to a row, at the front of a buffer for the largest plane.
fn signs_of(
    size: Size,
    source: Source,
    samples: &[u16],
    readings: &[f32],
    cut: Cut,
    k: usize,
    plane: &mut [u64],
)
    requires { Sampled size (block_of source samples.now readings.now) × FaultFree source readings.now × (k < size.nz) × (length plane.old ≡ 1280) }
    ensures { plane.new ≡ over (plane_words size (block_of source samples.now readings.now) cut k) plane.old }
{
    match source {
        Source::Samples => signs::plane_signs(size, samples, cut, k, plane),
        Source::Readings => reading_rows::plane_signs(size, readings, cut, k, plane),
    }
}

// The marks moved by the row j of the layer k of samples, whose planes have the signs a and b.
fn count_samples(
    m: Marks,
    size: Size,
    samples: &[u16],
    cut: Cut,
    a: &[u64],
    b: &[u64],
    j: usize,
    k: usize,
) -> Marks
    requires { Ready size samples.now cut a.now b.now k × (j + 1 < size.ny) × Counting loops_of size samples.now cut j k m }
    ensures { Counting loops_of size samples.now cut (j + 1) k result }
{
    let nx = size.nx();
    let ny = size.ny();
    let p = nx * (j + ny * k);
    let q = p + nx * ny;
    let row = row_of(size, cut, 0, j, k);
    layers::row_counts(
        row,
        a,
        b,
        &samples[p..p + 2 * nx],
        &samples[q..q + 2 * nx],
        m,
    )
}

// The same of readings.
fn count_readings(
    m: Marks,
    size: Size,
    readings: &[f32],
    cut: Cut,
    a: &[u64],
    b: &[u64],
    j: usize,
    k: usize,
) -> Marks
    requires { Ready size (greys_of readings.now) cut a.now b.now k × (j + 1 < size.ny) × Counting loops_of size (greys_of readings.now) cut j k m × Sound readings.now }
    ensures { Counting loops_of size (greys_of readings.now) cut (j + 1) k result }
{
    let nx = size.nx();
    let ny = size.ny();
    let p = nx * (j + ny * k);
    let q = p + nx * ny;
    let row = row_of(size, cut, 0, j, k);
    reading_rows::row_counts(
        row,
        a,
        b,
        &readings[p..p + 2 * nx],
        &readings[q..q + 2 * nx],
        m,
    )
}

// The same of either.
fn count_row(
    m: Marks,
    size: Size,
    source: Source,
    samples: &[u16],
    readings: &[f32],
    cut: Cut,
    a: &[u64],
    b: &[u64],
    j: usize,
    k: usize,
) -> Marks
    requires { Ready size (block_of source samples.now readings.now) cut a.now b.now k × (j + 1 < size.ny) × Counting loops_of size (block_of source samples.now readings.now) cut j k m × FaultFree source readings.now }
    ensures { Counting loops_of size (block_of source samples.now readings.now) cut (j + 1) k result }
{
    match source {
        Source::Samples => count_samples(m, size, samples, cut, a, b, j, k),
        Source::Readings => count_readings(m, size, readings, cut, a, b, j, k),
    }
}

// The marks moved by the rows of the layer k, whose planes have the signs a and b. (The loop reads the size, so that its invariant can speak of
// the block.)
fn with_layer(
    m: Marks,
    size: Size,
    source: Source,
    samples: &[u16],
    readings: &[f32],
    cut: Cut,
    a: &[u64],
    b: &[u64],
    k: usize,
) -> Marks
    requires { Ready size (block_of source samples.now readings.now) cut a.now b.now k × Counting loops_of size (block_of source samples.now readings.now) cut 0 k m × FaultFree source readings.now }
    ensures { Counting loops_of size (block_of source samples.now readings.now) cut 0 (k + 1) result }
{
    let rows = size.ny() - 1;
    let mut w = m;
    let mut j: usize = 0;
    while j < rows {
        w = count_row(w, size, source, samples, readings, cut, a, b, j, k);
        j += 1;
    }
    w
}

// The marks moved by the layers from `from` up to `to`, which itself is not counted.
fn layers_from(
    m: Marks,
    size: Size,
    source: Source,
    samples: &[u16],
    readings: &[f32],
    cut: Cut,
    from: usize,
    to: usize,
) -> Marks
    requires { Sampled size (block_of source samples.now readings.now) × FaultFree source readings.now × (from ≤ to) × (to + 1 ≤ size.nz) × Counting loops_of size (block_of source samples.now readings.now) cut 0 from m }
    ensures { Counting loops_of size (block_of source samples.now readings.now) cut 0 to result }
{
    let mut a = [0u64; 1280];
    let mut b = [0u64; 1280];
    signs_of(size, source, samples, readings, cut, from, &mut a);
    let mut w = m;
    let mut k = from;
    while k < to {
        signs_of(size, source, samples, readings, cut, k + 1, &mut b);
        w = with_layer(w, size, source, samples, readings, cut, &a, &b, k);
        a = b;
        k += 1;
    }
    w
}

// The same of samples alone.
pub fn with_layers(m: Marks, size: Size, samples: &[u16], cut: Cut, from: usize, to: usize) -> Marks
    requires { Sampled size samples.now × (from ≤ to) × (to + 1 ≤ size.nz) × Counting loops_of size samples.now cut 0 from m }
    ensures { Counting loops_of size samples.now cut 0 to result }
{
    let none = [0.0f32; 1];
    layers_from(m, size, Source::Samples, samples, &none, cut, from, to)
}

// How many vertices the mesh of a block has, and how many words its quads along each axis take.
fn tally_block(size: Size, source: Source, samples: &[u16], readings: &[f32], cut: Cut) -> Marks
    requires { Sampled size (block_of source samples.now readings.now) × FaultFree source readings.now }
    ensures { Tallied loops_of size (block_of source samples.now readings.now) cut result }
{
    let none = Marks {
        v: 0,
        x: 0,
        y: 0,
        z: 0,
    };
    let last = size.nz() - 1;
    layers_from(none, size, source, samples, readings, cut, 0, last)
}

// The counts of a block that rows 1 and 2 pass, and 19 to 21 where it is one of readings.
pub fn counts_from(
    size: Size,
    source: Source,
    samples: &[u16],
    readings: &[f32],
    cut: Cut,
) -> Totals
    requires { Sampled size (block_of source samples.now readings.now) × FaultFree source readings.now }
    ensures { result ≡ counts_of size (block_of source samples.now readings.now) cut }
{
    total(tally_block(size, source, samples, readings, cut))
}

// The counts of a block of samples whose size is made.
fn counts_of(size: Size, samples: &[u16], cut: Cut) -> Counted
    requires { Limits size }
    ensures { said_counts result ≡ judged (in_order (block_rows size samples.now cut)) (counts_of size samples.now cut) }
{
    let checked = block::check_block(size, samples, cut);
    if let Checked::Refuses(r) = checked {
        return Counted::Refused(r);
    }
    let none = [0.0f32; 1];
    Counted::Counts(counts_from(size, Source::Samples, samples, &none, cut))
}

// How many vertices and quads the mesh of a block has. Any axis lengths, samples and threshold may be asked.
pub fn counts(nx: u32, ny: u32, nz: u32, samples: &[u16], cut: Cut) -> Counted
    ensures { CountsAnswered nx ny nz samples.now cut result }
{
    let made = Size::new(nx, ny, nz);
    match made {
        Sized::BadAxis(axis) => Counted::Refused(Refusal {
            number: 1,
            value: axis,
        }),
        Sized::Made(size) => counts_of(size, samples, cut),
    }
}

// Notes the row j of the layer below layer k, where there is one: its vertices are those of the words buffer from `below` to `first`, of which
// `passed` are in the rows before. Answers how many are passed then.
fn note_below(
    size: Size,
    source: Source,
    samples: &[u16],
    readings: &[f32],
    cut: Cut,
    j: usize,
    k: usize,
    below: usize,
    first: usize,
    passed: usize,
    words: &[u32],
    under: &mut [u32],
) -> usize
    requires { BelowReady loops_of size (block_of source samples.now readings.now) cut j k below first passed words.now under.old }
    ensures { BelowNoted loops_of size (block_of source samples.now readings.now) cut j k under.old under.new result }
{
    if k == 0 {
        return passed;
    }
    let nx = size.nx();
    let ny = size.ny();
    let h = 512 * (j % 2);
    let low = 2 * below;
    let high = 2 * first;
    notes::note_row(
        &words[low..high],
        passed,
        below,
        (nx - 1) * (j + (ny - 1) * (k - 1)),
        nx - 1,
        &mut under[h..h + 512],
    )
}

// Writes the row j of the layer k of samples: its vertices, and the quads from row j of plane k.
fn step_samples(
    m: Marks,
    size: Size,
    samples: &[u16],
    cut: Cut,
    a: &[u64],
    b: &[u64],
    j: usize,
    k: usize,
    words: &mut [u32],
    offsets: &mut [f64],
    quads: &mut [u32],
    under: &[u32],
    tab: &mut [u32],
) -> Marks
    requires { Ready size samples.now cut a.now b.now k × Meshable size samples.now cut × TablesReady loops_of size samples.now cut j k under.now tab.old × Underway loops_of size samples.now cut j k m words.old offsets.old quads.old }
    ensures { RowMore loops_of size samples.now cut j k m result words.old words.new offsets.old offsets.new quads.old quads.new tab.new }
{
    let nx = size.nx();
    let ny = size.ny();
    let p = nx * (j + ny * k);
    let q = p + nx * ny;
    let row = row_of(size, cut, 0, j, k);
    layers::row_step(
        row,
        a,
        b,
        &samples[p..p + 2 * nx],
        &samples[q..q + 2 * nx],
        under,
        tab,
        words,
        offsets,
        quads,
        m,
    )
}

// The same of readings.
fn step_readings(
    m: Marks,
    size: Size,
    readings: &[f32],
    cut: Cut,
    a: &[u64],
    b: &[u64],
    j: usize,
    k: usize,
    words: &mut [u32],
    offsets: &mut [f64],
    quads: &mut [u32],
    under: &[u32],
    tab: &mut [u32],
) -> Marks
    requires { Ready size (greys_of readings.now) cut a.now b.now k × Meshable size (greys_of readings.now) cut × TablesReady loops_of size (greys_of readings.now) cut j k under.now tab.old × Underway loops_of size (greys_of readings.now) cut j k m words.old offsets.old quads.old × Sound readings.now }
    ensures { RowMore loops_of size (greys_of readings.now) cut j k m result words.old words.new offsets.old offsets.new quads.old quads.new tab.new }
{
    let nx = size.nx();
    let ny = size.ny();
    let p = nx * (j + ny * k);
    let q = p + nx * ny;
    let row = row_of(size, cut, 0, j, k);
    reading_rows::row_step(
        row,
        a,
        b,
        &readings[p..p + 2 * nx],
        &readings[q..q + 2 * nx],
        under,
        tab,
        words,
        offsets,
        quads,
        m,
    )
}

// The same of either.
fn step_row(
    m: Marks,
    size: Size,
    source: Source,
    samples: &[u16],
    readings: &[f32],
    cut: Cut,
    a: &[u64],
    b: &[u64],
    j: usize,
    k: usize,
    words: &mut [u32],
    offsets: &mut [f64],
    quads: &mut [u32],
    under: &[u32],
    tab: &mut [u32],
) -> Marks
    requires { Ready size (block_of source samples.now readings.now) cut a.now b.now k × Meshable size (block_of source samples.now readings.now) cut × TablesReady loops_of size (block_of source samples.now readings.now) cut j k under.now tab.old × Underway loops_of size (block_of source samples.now readings.now) cut j k m words.old offsets.old quads.old × FaultFree source readings.now }
    ensures { RowMore loops_of size (block_of source samples.now readings.now) cut j k m result words.old words.new offsets.old offsets.new quads.old quads.new tab.new }
{
    match source {
        Source::Samples => step_samples(
            m, size, samples, cut, a, b, j, k, words, offsets, quads, under, tab,
        ),
        Source::Readings => step_readings(
            m, size, readings, cut, a, b, j, k, words, offsets, quads, under, tab,
        ),
    }
}

// The vertices of the layer k, and the quads from its lower plane; `below` is the number of the first vertex of the layer below.
fn write_layer(
    m: Marks,
    below: usize,
    size: Size,
    source: Source,
    samples: &[u16],
    readings: &[f32],
    cut: Cut,
    a: &[u64],
    b: &[u64],
    k: usize,
    words: &mut [u32],
    offsets: &mut [f64],
    quads: &mut [u32],
) -> Marks
    requires { Ready size (block_of source samples.now readings.now) cut a.now b.now k × Meshable size (block_of source samples.now readings.now) cut × (0 < k → below ≡ layer_first loops_of size (block_of source samples.now readings.now) cut (k - 1)) × Underway loops_of size (block_of source samples.now readings.now) cut 0 k m words.old offsets.old quads.old × FaultFree source readings.now }
    ensures { LayerMore loops_of size (block_of source samples.now readings.now) cut k m result words.old words.new offsets.old offsets.new quads.old quads.new }
{
    let first = m.v;
    let rows = size.ny() - 1;
    let mut under = [0u32; 1024];
    let mut tab = [0u32; 1024];
    let mut passed: usize = 0;
    let mut w = m;
    let mut j: usize = 0;
    while j < rows {
        passed = note_below(
            size, source, samples, readings, cut, j, k, below, first, passed, words, &mut under,
        );
        w = step_row(
            w, size, source, samples, readings, cut, a, b, j, k, words, offsets, quads, &under,
            &mut tab,
        );
        j += 1;
    }
    w
}

// The whole mesh of a block that is tallied, into buffers that have room for it. The quads along y start behind those along x, and those along
// z behind both.
fn write_block(
    t: Marks,
    size: Size,
    source: Source,
    samples: &[u16],
    readings: &[f32],
    cut: Cut,
    words: &mut [u32],
    offsets: &mut [f64],
    quads: &mut [u32],
)
    requires { Meshable size (block_of source samples.now readings.now) cut × Tallied loops_of size (block_of source samples.now readings.now) cut t × Roomy loops_of size (block_of source samples.now readings.now) cut words.old offsets.old quads.old × FaultFree source readings.now }
    ensures { BlockWritten loops_of size (block_of source samples.now readings.now) cut words.old words.new offsets.old offsets.new quads.old quads.new }
{
    let nz = size.nz();
    let mut a = [0u64; 1280];
    let mut b = [0u64; 1280];
    signs_of(size, source, samples, readings, cut, 0, &mut a);
    let mut m = Marks {
        v: 0,
        x: 0,
        y: t.x,
        z: t.x + t.y,
    };
    let mut below: usize = 0;
    let mut k: usize = 0;
    while k + 1 < nz {
        signs_of(size, source, samples, readings, cut, k + 1, &mut b);
        let first = m.v;
        m = write_layer(
            m, below, size, source, samples, readings, cut, &a, &b, k, words, offsets, quads,
        );
        below = first;
        a = b;
        k += 1;
    }
}

// The mesh of a block that rows 1 to 3 pass, and 19 to 21 where it is one of readings. The buffers are touched only when rows 5 and 6 pass.
pub fn mesh_from(
    size: Size,
    source: Source,
    samples: &[u16],
    readings: &[f32],
    cut: Cut,
    words: &mut [u32],
    offsets: &mut [f64],
    quads: &mut [u32],
) -> Counted
    requires { Meshable size (block_of source samples.now readings.now) cut × FaultFree source readings.now }
    ensures { MeshedBy (in_order (buffer_rows (counts_of size (block_of source samples.now readings.now) cut) (length words.old) (length offsets.old) (length quads.old))) size (block_of source samples.now readings.now) cut words.old offsets.old quads.old result words.new offsets.new quads.new }
{
    let t = tally_block(size, source, samples, readings, cut);
    let counts = total(t);
    let fits = check_buffers(
        counts.vertices,
        counts.quads,
        words.len(),
        offsets.len(),
        quads.len(),
    );
    if let Checked::Refuses(r) = fits {
        return Counted::Refused(r);
    }
    write_block(
        t, size, source, samples, readings, cut, words, offsets, quads,
    );
    Counted::Counts(counts)
}

// The mesh of a block of samples whose size is made. The buffers are touched only when rows 2, 3, 5 and 6 all pass.
fn mesh_of(
    size: Size,
    samples: &[u16],
    cut: Cut,
    words: &mut [u32],
    offsets: &mut [f64],
    quads: &mut [u32],
) -> Counted
    requires { Limits size }
    ensures { MeshedBy (in_order (block_rows size samples.now cut ++ buffer_rows (counts_of size samples.now cut) (length words.old) (length offsets.old) (length quads.old))) size samples.now cut words.old offsets.old quads.old result words.new offsets.new quads.new }
{
    let checked = block::check_block(size, samples, cut);
    if let Checked::Refuses(r) = checked {
        return Counted::Refused(r);
    }
    let none = [0.0f32; 1];
    mesh_from(
        size,
        Source::Samples,
        samples,
        &none,
        cut,
        words,
        offsets,
        quads,
    )
}

// The mesh of a block, in lent buffers: two words and three offsets a vertex, four words a quad. Any axis lengths, samples, threshold and
// buffers may be given; a refusal leaves every buffer as it was.
pub fn mesh(
    nx: u32,
    ny: u32,
    nz: u32,
    samples: &[u16],
    cut: Cut,
    words: &mut [u32],
    offsets: &mut [f64],
    quads: &mut [u32],
) -> Counted
    ensures { Meshed nx ny nz samples.now cut words.old offsets.old quads.old result words.new offsets.new quads.new }
{
    let made = Size::new(nx, ny, nz);
    match made {
        Sized::BadAxis(axis) => Counted::Refused(Refusal {
            number: 1,
            value: axis,
        }),
        Sized::Made(size) => mesh_of(size, samples, cut, words, offsets, quads),
    }
}
