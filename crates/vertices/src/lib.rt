// The vertices of a row of cubes by its windows: their words and offsets into lent buffers, with their numbers noted by cube and edge (document 01,
// "The mesh"). Cubes whose corners have one sign are passed over 64 at a time, and those with one loop are written without being linked.
#![tactic(auto)]

ghost use Rattle.std.specs.Prelude.{◌+◌, ◌*◌, ◌<◌};
ghost use Rattle.cube_rule.specs.Decider.{loops_of};
ghost use Rattle.rows.specs.Rows.{WordReady, RowReady};
ghost use Rattle.vertices.specs.Layers.{WordRoom, WordWritten, RowRoom, RowWritten};

use cube_vertices::Spot;
use rows::Row;

// Writes and notes the vertices of the same row from the place v on, and answers the place behind them.
pub fn write_row(
    row: Row,
    a: &[u64],
    b: &[u64],
    lo: &[u16],
    hi: &[u16],
    words: &mut [u32],
    offsets: &mut [f64],
    numbers: &mut [u32],
    v: usize,
) -> usize
    requires { RowReady lo.now hi.now row.cut a.now b.now row.nx row.j × RowRoom loops_of lo.now hi.now row.cut row.nx row.c row.first v words.old offsets.old numbers.old }
    ensures { RowWritten loops_of lo.now hi.now row.cut row.nx row.c row.first v words.old words.new offsets.old offsets.new numbers.old numbers.new result }
{
    let cubes = row.nx - 1;
    let mut m = v;
    for w in 0..cubes.div_ceil(64) {
        let e = planes::eight(a, b, 5 * row.j + w);
        let act = planes::active(e) & planes::limit(cubes, w);
        let spot = Spot {
            x: 64 * w,
            c: (row.c + 64 * w) as u32,
            v: m,
            first: row.first,
        };
        m = write_word(row, lo, hi, spot, e, act, words, offsets, numbers);
    }
    m
}

// Writes and notes the vertices of the same cubes, and answers the place behind them; the spot is that of the word's first cube.
fn write_word(
    row: Row,
    lo: &[u16],
    hi: &[u16],
    spot: Spot,
    e: [u64; 8],
    act: u64,
    words: &mut [u32],
    offsets: &mut [f64],
    numbers: &mut [u32],
) -> usize
    requires { WordReady lo.now hi.now row.cut row.nx spot.x e act × WordRoom loops_of lo.now hi.now row.cut row.nx spot.x act spot.c spot.first spot.v words.old offsets.old numbers.old }
    ensures { WordWritten loops_of lo.now hi.now row.cut row.nx spot.x act spot.c spot.first spot.v words.old words.new offsets.old offsets.new numbers.old numbers.new result }
{
    if act == 0 {
        return spot.v;
    }
    let one = joins::singles(lo, hi, row.nx, spot.x, row.cut, e, act);
    let mut w = act;
    let mut i: usize = 0;
    let mut m = spot.v;
    // (A while: the step is the next set bit, not one more.)
    while w != 0 {
        let k = w.trailing_zeros() as usize;
        let x = i + k;
        let cs = rows::corners(lo, hi, row.nx, spot.x + x);
        let crossed = cube::crossed_edges(planes::pattern_at(e, x));
        let here = Spot {
            x: spot.x + x,
            c: spot.c + x as u32,
            v: m,
            first: spot.first,
        };
        m = cube_vertices::write_cube(
            row.cut,
            cs,
            crossed,
            (one >> x) % 2 == 1,
            here,
            words,
            offsets,
            numbers,
        );
        w = (w >> k) >> 1;
        i = x + 1;
    }
    m
}
