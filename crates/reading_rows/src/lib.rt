// Rows of readings (document 02, Ten) as the passes over rows take them: the signs of a plane, and one row of one layer, counted or written. The signs are
// compared as readings, and only a row that has to be looked at is made into windows of grey values.
#![tactic(auto)]

ghost use Rattle.std.specs.Prelude.{◌≡◌, ◌<◌, ◌≤◌, length};
ghost use Rattle.laws.specs.Below.{over};
ghost use Rattle.block.specs.Numbering.{sample_count};
ghost use Rattle.block.specs.Size.{Limits};
ghost use Rattle.cube_rule.specs.Decider.{loops_of};
ghost use Rattle.signs.specs.Signs.{plane_words};
ghost use Rattle.readings.specs.Reading.{greys_of, Sound};
ghost use Rattle.rows.specs.Rows.{RowReady};
ghost use Rattle.vertices.specs.Layers.{RowRoom};
ghost use Rattle.reading_rows.specs.Windows.{Window};
ghost use Rattle.layers.specs.Steps.{half, RowFits, QuadsReady, RowStepped, RowFew, RowCounted};

use block::{Cut, Size};
use layers::Marks;
use loop_counts::RowLoops;
use rows::Row;
use signs::Samples;

// Readings of which none is at fault, as a block of samples.
#[derive(Clone, Copy)]
struct Readings<'a> {
    all: &'a [f32],
    ghost sound: { Sound all.now },
}

impl<'a> Samples for Readings<'a> {
    ghost greys = { λ r. greys_of r.all.now };

    // The readings are compared as they are. (No grey value is made: so a loop over this is compiled to comparisons of several readings at once.)
    fn sign(self, i: usize, t: u16) -> u8 {
        if t as f32 <= self.all[i] { 1 } else { 0 }
    }
}

// The words of plane k of a block of readings, five to a row, at the front of a buffer for the largest plane.
pub fn plane_signs(size: Size, readings: &[f32], cut: Cut, k: usize, plane: &mut [u64])
    requires { Limits size × (length readings.now ≡ sample_count size) × (k < size.nz) × (length plane.old ≡ 1280) × Sound readings.now }
    ensures { plane.new ≡ over (plane_words size (greys_of readings.now) cut k) plane.old }
{
    signs::block_signs(size, Readings { all: readings }, cut, k, plane);
}

// The grey values of a window's readings.
fn window(part: &[f32]) -> [u16; 512]
    requires { Sound part.now × (length part.now ≤ 512) }
    ensures { Window part.now result }
{
    let mut w = [0u16; 512];
    readings::fill(part, &mut w);
    w
}

// How far a row moves the marks: `low` and `high` are the readings of its windows. Where its active cubes are all plain, its windows are not made.
pub fn row_counts(row: Row, a: &[u64], b: &[u64], low: &[f32], high: &[f32], m: Marks) -> Marks
    requires { Sound low.now × Sound high.now × RowReady (greys_of low.now) (greys_of high.now) row.cut a.now b.now row.nx row.j × RowFits row a.now b.now × RowFew m }
    ensures { RowCounted loops_of (greys_of low.now) (greys_of high.now) row a.now b.now m result }
{
    if rows::quiet(row, a, b) {
        return m;
    }
    let loops = loop_counts::plain_row(row, a, b);
    if let RowLoops::Plain(v) = loops {
        return layers::with_quads(row, a, b, v, m);
    }
    let n = low.len();
    let lo = window(low);
    let hi = window(high);
    layers::active_counts(row, a, b, &lo[0..n], &hi[0..n], m)
}

// Writes a row as `layers::row_step` does: `low` and `high` are the readings of its windows, which are made only if it has an active cube.
pub fn row_step(
    row: Row,
    a: &[u64],
    b: &[u64],
    low: &[f32],
    high: &[f32],
    below: &[u32],
    here: &mut [u32],
    words: &mut [u32],
    offsets: &mut [f64],
    quads: &mut [u32],
    m: Marks,
) -> Marks
    requires { Sound low.now × Sound high.now × RowReady (greys_of low.now) (greys_of high.now) row.cut a.now b.now row.nx row.j × RowRoom loops_of (greys_of low.now) (greys_of high.now) row.cut row.nx row.c row.first m.v words.old offsets.old (half row.j here.old) × QuadsReady row a.now b.now below.now m (length quads.old) × (length here.old ≡ 1024) }
    ensures { RowStepped loops_of (greys_of low.now) (greys_of high.now) row a.now b.now below.now m words.old words.new offsets.old offsets.new quads.old quads.new here.old here.new result }
{
    if rows::quiet(row, a, b) {
        return m;
    }
    let n = low.len();
    let lo = window(low);
    let hi = window(high);
    layers::active_step(
        row,
        a,
        b,
        &lo[0..n],
        &hi[0..n],
        below,
        here,
        words,
        offsets,
        quads,
        m,
    )
}
