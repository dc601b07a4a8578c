// The program (document 01, "The program"): an input is read, and its mesh or a refusal is written as lines of upper-case hexadecimal.
#![tactic(auto)]

ghost use Rattle.std.specs.Prelude.{◌≡◌, not, [], ◌∷◌, ◌+◌, ◌*◌, ◌%◌, ◌≤◌, ◌<◌, length, take, T};
ghost use Rattle.std.specs.Float.Ieee.{is_nan};
ghost use Rattle.laws.specs.Below.{below};
ghost use Rattle.reading.specs.Text.{hex_of, LF};
ghost use Rattle.reading.specs.Steps.{glyph as glyph_of};
ghost use Rattle.reading.specs.Input.{samples_read};
ghost use Rattle.closed.specs.Closed.{finding_of};
ghost use Rattle.block.specs.Grey.{SixteenBit};
ghost use Rattle.block.specs.Size.{size_of};
ghost use Rattle.lines.specs.Output.{refusal_line, head_line, vertex_line, quad_line, closed_field, mesh_text, block_text, Ran};
ghost use Rattle.laws.specs.Put.{Put};
ghost use Rattle.lines.specs.Steps.{Numbers, Readable, vertex_fields, quad_fields};

use block::{Checked, Cut, Refusal};
use closed::Closure;
use mesh::{Counted, Totals};

// The longest output: a head line, four vertices in each of 7·7·7 cubes, and a quad for each of 3·7·6·6 inner edges.
pub const ROOM: usize = 112917;

fn glyph(d: u8) -> u8
    requires { d < 16 }
    ensures { result ≡ glyph_of d }
{
    if d < 10 {
        return 48 + d;
    }
    55 + d
}

// A number in k digits at a place; answers the place behind them.
fn put_hex(out: &mut [u8], at: usize, k: u32, value: u64) -> usize
    requires { (k ≤ 16) × (at + k ≤ length out.old) }
    ensures put { Put out.old at (hex_of k value) out.new result }
    ensures value { result ≡ at + k }
{
    let mut next = at;
    let mut left = 4 * k;
    while left != 0 {
        left -= 4;
        out[next] = glyph(((value >> left) % 16) as u8);
        next += 1;
    }
    next
}

// The end of a line.
fn put_end(out: &mut [u8], at: usize) -> usize
    requires { at + 1 ≤ length out.old }
    ensures put { Put out.old at (LF ∷ []) out.new result }
    ensures value { result ≡ at + 1 }
{
    out[at] = 10;
    at + 1
}

// A refusal's line at the start.
fn put_refusal(out: &mut [u8], r: Refusal) -> usize
    requires { 13 ≤ length out.old }
    ensures { Put out.old 0 (refusal_line r) out.new result }
{
    let a = put_hex(out, 0, 2, 255);
    let b = put_hex(out, a, 2, r.number as u64);
    let c = put_hex(out, b, 8, r.value as u64);
    put_end(out, c)
}

// Whether a list of quads is closed, as the head line says it: 1 or 0.
fn closed_field(quads: &[u32]) -> u32
    requires { length quads.now % 4 ≡ 0 }
    ensures { result ≡ closed_field (finding_of quads.now) }
{
    match closed::closed(quads) {
        Closure::Closed => 1,
        Closure::Open { quad: _, side: _ } => 0,
        Closure::Refused(_) => 0,
    }
}

// The head line at the start.
fn put_head(out: &mut [u8], vertices: u32, quads: u32, closed: u32) -> usize
    requires { 21 ≤ length out.old }
    ensures put { Put out.old 0 (head_line vertices quads closed) out.new result }
    ensures value { result ≡ 21 }
{
    let a = put_hex(out, 0, 2, 0);
    let b = put_hex(out, a, 8, vertices as u64);
    let c = put_hex(out, b, 8, quads as u64);
    let d = put_hex(out, c, 2, closed as u64);
    put_end(out, d)
}

// The line of a vertex.
fn put_vertex(out: &mut [u8], at: usize, cube: u32, word: u32, x: f64, y: f64, z: f64) -> usize
    requires t { T (not (is_nan x)) × T (not (is_nan y)) × T (not (is_nan z)) }
    requires at_in_bounds { at + 63 ≤ length out.old }
    ensures put { Put out.old at (vertex_fields cube word x y z) out.new result }
    ensures value { result ≡ at + 63 }
{
    let a = put_hex(out, at, 2, 1);
    let b = put_hex(out, a, 8, cube as u64);
    let c = put_hex(out, b, 4, word as u64);
    let d = put_hex(out, c, 16, f64::to_bits(x));
    let e = put_hex(out, d, 16, f64::to_bits(y));
    let f = put_hex(out, e, 16, f64::to_bits(z));
    put_end(out, f)
}

// The line of a quad.
fn put_quad(out: &mut [u8], at: usize, v0: u32, v1: u32, v2: u32, v3: u32) -> usize
    requires { at + 35 ≤ length out.old }
    ensures put { Put out.old at (quad_fields v0 v1 v2 v3) out.new result }
    ensures value { result ≡ at + 35 }
{
    let a = put_hex(out, at, 2, 2);
    let b = put_hex(out, a, 8, v0 as u64);
    let c = put_hex(out, b, 8, v1 as u64);
    let d = put_hex(out, c, 8, v2 as u64);
    let e = put_hex(out, d, 8, v3 as u64);
    put_end(out, e)
}

// The lines of all vertices.
fn put_vertices(out: &mut [u8], at: usize, words: &[u32], offsets: &[f64], count: usize) -> usize
    requires count_in_bounds { (2 * count ≤ length words.now) × (3 * count ≤ length offsets.now) × (at + 63 * count ≤ length out.old) × (count ≤ 1372) }
    requires numbers { Numbers offsets.now }
    ensures put { Put out.old at (below (vertex_line words.now offsets.now) count) out.new result }
    ensures value { result ≡ at + 63 * count }
{
    let mut next = at;
    let mut v: usize = 0;
    while v < count {
        let w = 2 * v;
        let o = 3 * v;
        next = put_vertex(
            out,
            next,
            words[w],
            words[w + 1],
            offsets[o],
            offsets[o + 1],
            offsets[o + 2],
        );
        v += 1;
    }
    next
}

// The lines of all quads.
fn put_quads(out: &mut [u8], at: usize, quads: &[u32], count: usize) -> usize
    requires { (4 * count ≤ length quads.now) × (at + 35 * count ≤ length out.old) × (count ≤ 756) }
    ensures put { Put out.old at (below (quad_line quads.now) count) out.new result }
    ensures value { result ≡ at + 35 * count }
{
    let mut next = at;
    let mut q: usize = 0;
    while q < count {
        let n = 4 * q;
        next = put_quad(
            out,
            next,
            quads[n],
            quads[n + 1],
            quads[n + 2],
            quads[n + 3],
        );
        q += 1;
    }
    next
}

// A mesh as its buffers hold it.
fn put_mesh(out: &mut [u8], totals: Totals, words: &[u32], offsets: &[f64], quads: &[u32]) -> usize
    requires vertices_bound { (totals.vertices ≤ 1372) × (totals.quads ≤ 756) × (112917 ≤ length out.old) }
    requires words_len { (length words.now ≡ 2 * totals.vertices) × (length offsets.now ≡ 3 * totals.vertices) × (length quads.now ≡ 4 * totals.quads) }
    requires numbers { Numbers offsets.now }
    ensures { Put out.old 0 (mesh_text totals.vertices totals.quads words.now offsets.now quads.now) out.new result }
{
    let closed = closed_field(quads);
    let a = put_head(out, totals.vertices, totals.quads, closed);
    let b = put_vertices(out, a, words, offsets, totals.vertices as usize);
    put_quads(out, b, quads, totals.quads as usize)
}

// The mesh at the front of three buffers.
fn put_front(out: &mut [u8], totals: Totals, words: &[u32], offsets: &[f64], quads: &[u32]) -> usize
    requires vertices_bound { (totals.vertices ≤ 1372) × (totals.quads ≤ 756) × (112917 ≤ length out.old) }
    requires vertices_in_bounds { (2 * totals.vertices ≤ length words.now) × (3 * totals.vertices ≤ length offsets.now) × (4 * totals.quads ≤ length quads.now) }
    requires numbers { Numbers (take (3 * totals.vertices) offsets.now) }
    ensures { Put out.old 0 (mesh_text totals.vertices totals.quads (take (2 * totals.vertices) words.now) (take (3 * totals.vertices) offsets.now) (take (4 * totals.quads) quads.now)) out.new result }
{
    let v = totals.vertices as usize;
    let q = totals.quads as usize;
    put_mesh(
        out,
        totals,
        &words[..2 * v],
        &offsets[..3 * v],
        &quads[..4 * q],
    )
}

// The mesh of a block of at most 8 samples an axis.
fn put_block(out: &mut [u8], nx: u32, ny: u32, nz: u32, samples: &[u16], t: u16) -> usize
    requires readable { Readable nx ny nz t × (length samples.now ≡ nx * (ny * nz)) × SixteenBit samples.now }
    requires in_bounds { 112917 ≤ length out.old }
    ensures { Put out.old 0 (block_text (size_of nx ny nz) samples.now (record { t = t; noise = 0 })) out.new result }
{
    let mut words = [0u32; 2744];
    let mut offsets = [0.0f64; 4116];
    let mut quads = [0u32; 3024];
    let counted = mesh::mesh(
        nx,
        ny,
        nz,
        samples,
        Cut { t: t, noise: 0 },
        &mut words,
        &mut offsets,
        &mut quads,
    );
    let Counted::Counts(totals) = counted else {
        // Never reached: no row refuses the block.
        return 0;
    };
    put_front(out, totals, &words, &offsets, &quads)
}

// The answer to an input whose lines are in order and whose axes and threshold pass.
fn answer(input: &[u8], nx: u32, ny: u32, nz: u32, t: u16, out: &mut [u8]) -> usize
    requires readable { Readable nx ny nz t }
    requires in_bounds { 112917 ≤ length out.old }
    ensures { Put out.old 0 (block_text (size_of nx ny nz) (samples_read input.now (size_of nx ny nz)) (record { t = t; noise = 0 })) out.new result }
{
    let mut samples = [0u16; 512];
    let count = (nx * (ny * nz)) as usize;
    reading::fill(input, nx as usize, count, &mut samples);
    put_block(out, nx, ny, nz, &samples[..count], t)
}

// The program: the output for an input at the front of `out`; answers how many bytes it has.
pub fn run(input: &[u8], out: &mut [u8; ROOM]) -> usize
    ensures ran { Ran input.now out.old result out.new }
    ensures upper_bound { (result ≤ length out.new) × (result ≡ length (take result out.new)) }
{
    let nx = reading::number(input, 0) as u32;
    let ny = reading::number(input, 4) as u32;
    let nz = reading::number(input, 8) as u32;
    let t = reading::number(input, 12);
    match reading::check(input, nx, ny, nz, t) {
        Checked::Refuses(r) => put_refusal(out, r),
        Checked::Passes => answer(input, nx, ny, nz, t, out),
    }
}
