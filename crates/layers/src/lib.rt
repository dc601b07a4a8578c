// One row of one layer of cubes: its vertices and the quads from its row of samples, counted or written into lent buffers, from the row's windows,
// the signs of both planes, and tables of vertex numbers. Whatever holds the samples calls it row by row.
#![tactic(auto)]

ghost use Rattle.std.specs.Prelude.{◌≡◌, [], ◌+◌, ◌*◌, ◌<◌, ◌≤◌, length};
ghost use Rattle.cube_rule.specs.Decider.{loops_of};
ghost use Rattle.laws.specs.Put.{Put};
ghost use Rattle.quads.specs.Writing.{Tables};
ghost use Rattle.rows.specs.Rows.{RowReady};
ghost use Rattle.vertices.specs.Layers.{RowRoom};
ghost use Rattle.layers.specs.Steps.{half, has_quads, step_by, RowFits, QuadsReady, RowQuads, RowStepped, RowFew, MarksBy, RowCounted};

use quads::{Along, Line};
use rows::Row;

// Where the next vertex goes, and where the next quad along each axis goes.
#[derive(Clone, Copy)]
pub struct Marks {
    pub v: usize,
    pub x: usize,
    pub y: usize,
    pub z: usize,
}

// The edges along an axis from a row, and where their quads go.
#[derive(Clone, Copy)]
struct Piece {
    along: Along,
    nx: usize,
    j: usize,
    lower: bool,
    from: usize,
}

// Whether inner edges along the axis start from row j of a plane.
fn has_quads(along: Along, j: usize, lower: bool) -> bool
    ensures { result ≡ has_quads along j lower }
{
    match along {
        Along::AxisX => {
            if j == 0 {
                return false;
            }
            lower
        }
        Along::AxisY => lower,
        Along::AxisZ => 0 < j,
    }
}

// Writes the quads of a piece, and answers the place behind them.
fn write_along(
    piece: Piece,
    a: &[u64],
    b: &[u64],
    n0: &[u32],
    n1: &[u32],
    n2: &[u32],
    n3: &[u32],
    quads: &mut [u32],
) -> usize
    requires { (2 ≤ piece.nx) × (piece.nx ≤ 256) × (piece.j < 255) × (length a.now ≡ 1280) × (length b.now ≡ 1280) × Tables piece.nx n0.now n1.now n2.now n3.now × (piece.from + length (step_by piece.along a.now b.now piece.nx piece.j piece.lower n0.now n1.now n2.now n3.now) ≤ length quads.old) }
    ensures { Put quads.old piece.from (step_by piece.along a.now b.now piece.nx piece.j piece.lower n0.now n1.now n2.now n3.now) quads.new result }
{
    let along = piece.along;
    if !has_quads(along, piece.j, piece.lower) {
        return piece.from;
    }
    let line = Line {
        along,
        nx: piece.nx,
        j: piece.j,
        from: piece.from,
    };
    quads::write_row(line, a, b, n0, n1, n2, n3, quads)
}

// The quads from a row along all three axes, each behind its mark.
fn row_quads(
    row: Row,
    a: &[u64],
    b: &[u64],
    below: &[u32],
    here: &[u32],
    quads: &mut [u32],
    m: Marks,
) -> Marks
    requires { QuadsReady row a.now b.now below.now m (length quads.old) × (length here.now ≡ 1024) }
    ensures { (result.v ≡ m.v) × RowQuads row a.now b.now below.now here.now m result quads.old quads.new }
{
    let nx = row.nx;
    let j = row.j;
    let lower = row.lower;
    let h = 512 * (j % 2);
    let g = 512 - h;
    let old = &below[g..g + 512];
    let under = &below[h..h + 512];
    let prev = &here[g..g + 512];
    let own = &here[h..h + 512];
    let px = Piece {
        along: Along::AxisX,
        nx,
        j,
        lower,
        from: m.x,
    };
    let py = Piece {
        along: Along::AxisY,
        nx,
        j,
        lower,
        from: m.y,
    };
    let pz = Piece {
        along: Along::AxisZ,
        nx,
        j,
        lower,
        from: m.z,
    };
    let x = write_along(px, a, a, old, under, own, prev, quads);
    let y = write_along(py, a, a, under, under, own, own, quads);
    let z = write_along(pz, a, b, prev, prev, own, own, quads);
    Marks { v: m.v, x, y, z }
}

// Writes the vertices of a row of cubes and the quads from its row of samples: `lo` and `hi` are the row's windows, a and b the signs of its plane
// and of the plane above. The halves of `below` and `here` are the tables of the rows of odd and even number of the layer below and of this
// layer; this row is noted in its half of `here`. A row without an active cube is passed over.
pub fn row_step(
    row: Row,
    a: &[u64],
    b: &[u64],
    lo: &[u16],
    hi: &[u16],
    below: &[u32],
    here: &mut [u32],
    words: &mut [u32],
    offsets: &mut [f64],
    quads: &mut [u32],
    m: Marks,
) -> Marks
    requires { RowReady lo.now hi.now row.cut a.now b.now row.nx row.j × RowRoom loops_of lo.now hi.now row.cut row.nx row.c row.first m.v words.old offsets.old (half row.j here.old) × QuadsReady row a.now b.now below.now m (length quads.old) × (length here.old ≡ 1024) }
    ensures { RowStepped loops_of lo.now hi.now row a.now b.now below.now m words.old words.new offsets.old offsets.new quads.old quads.new here.old here.new result }
{
    if rows::quiet(row, a, b) {
        return m;
    }
    active_step(row, a, b, lo, hi, below, here, words, offsets, quads, m)
}

// The same without the question whether there is an active cube, for whoever has asked it.
pub fn active_step(
    row: Row,
    a: &[u64],
    b: &[u64],
    lo: &[u16],
    hi: &[u16],
    below: &[u32],
    here: &mut [u32],
    words: &mut [u32],
    offsets: &mut [f64],
    quads: &mut [u32],
    m: Marks,
) -> Marks
    requires { RowReady lo.now hi.now row.cut a.now b.now row.nx row.j × RowRoom loops_of lo.now hi.now row.cut row.nx row.c row.first m.v words.old offsets.old (half row.j here.old) × QuadsReady row a.now b.now below.now m (length quads.old) × (length here.old ≡ 1024) }
    ensures { RowStepped loops_of lo.now hi.now row a.now b.now below.now m words.old words.new offsets.old offsets.new quads.old quads.new here.old here.new result }
{
    let h = 512 * (row.j % 2);
    let v = vertices::write_row(
        row,
        a,
        b,
        lo,
        hi,
        words,
        offsets,
        &mut here[h..h + 512],
        m.v,
    );
    let n = Marks {
        v,
        x: m.x,
        y: m.y,
        z: m.z,
    };
    row_quads(row, a, b, below, here, quads, n)
}

// How many words the quads of the edges along the axis from a row take.
fn count_along(along: Along, row: Row, a: &[u64], b: &[u64]) -> usize
    requires { RowFits row a.now b.now }
    ensures value { result ≡ length (step_by along a.now b.now row.nx row.j row.lower [] [] [] []) }
    ensures upper_bound { result ≤ 1024 }
{
    if !has_quads(along, row.j, row.lower) {
        return 0;
    }
    4 * quads::count_row(along, a, b, row.nx, row.j)
}

// The marks moved by v vertices and by the quads from a row.
pub fn with_quads(row: Row, a: &[u64], b: &[u64], v: usize, m: Marks) -> Marks
    requires { RowFits row a.now b.now × RowFew m × (v ≤ 1020) }
    ensures { MarksBy v row a.now b.now m result }
{
    let x = count_along(Along::AxisX, row, a, a);
    let y = count_along(Along::AxisY, row, a, a);
    let z = count_along(Along::AxisZ, row, a, b);
    Marks {
        v: m.v + v,
        x: m.x + x,
        y: m.y + y,
        z: m.z + z,
    }
}

// How far `row_step` with the same arguments moves the marks.
pub fn row_counts(row: Row, a: &[u64], b: &[u64], lo: &[u16], hi: &[u16], m: Marks) -> Marks
    requires { RowReady lo.now hi.now row.cut a.now b.now row.nx row.j × RowFits row a.now b.now × RowFew m }
    ensures { RowCounted loops_of lo.now hi.now row a.now b.now m result }
{
    if rows::quiet(row, a, b) {
        return m;
    }
    active_counts(row, a, b, lo, hi, m)
}

// The same without the question whether there is an active cube.
pub fn active_counts(row: Row, a: &[u64], b: &[u64], lo: &[u16], hi: &[u16], m: Marks) -> Marks
    requires { RowReady lo.now hi.now row.cut a.now b.now row.nx row.j × RowFits row a.now b.now × RowFew m }
    ensures { RowCounted loops_of lo.now hi.now row a.now b.now m result }
{
    let v = loop_counts::count_row(row, a, b, lo, hi);
    with_quads(row, a, b, v, m)
}
