// How many loops the cubes of a row have. Cubes whose corners have one sign are passed over 64 at a time, and so are the cubes with one loop and with
// two found; only the others are linked. Where all active cubes of a row are plain, the signs alone say how many loops it has.
#![tactic(auto)]

ghost use Rattle.std.specs.Prelude.{◌≡◌, ◌<◌, ◌≤◌, length};
ghost use Rattle.cube_rule.specs.Decider.{loops_of};
ghost use Rattle.rows.specs.Rows.{word_loops, WordReady, row_masks, RowReady};
ghost use Rattle.loop_counts.specs.PlainRow.{plain_word, plain_row};

use block::Cut;
use rows::Row;

// How many loops a row has, as far as the signs say it.
#[derive(Clone, Copy)]
pub enum RowLoops {
    Plain(usize),
    Doubtful,
}

// How many loops the cubes of a row have, whose windows are `lo` and `hi`; rows j and j + 1 of a and b hold their signs.
pub fn count_row(row: Row, a: &[u64], b: &[u64], lo: &[u16], hi: &[u16]) -> usize
    requires { RowReady lo.now hi.now row.cut a.now b.now row.nx row.j }
    ensures value { result ≡ length (row_masks loops_of lo.now hi.now row.cut row.nx) }
    ensures upper_bound { result ≤ 1020 }
{
    let cubes = row.nx - 1;
    let mut w: usize = 0;
    let mut m: usize = 0;
    while 64 * w < cubes {
        let e = planes::eight(a, b, 5 * row.j + w);
        let act = planes::active(e) & planes::limit(cubes, w);
        m += count_word(row, lo, hi, 64 * w, e, act);
        w += 1;
    }
    m
}

// How many loops the cubes of a word have whose bits are set in `act`; its first cube is the cube s of the row, and `e` has the signs of its
// cubes' corners. Cubes with one loop and with two are counted by their bits; only the others are visited.
fn count_word(row: Row, lo: &[u16], hi: &[u16], s: usize, e: [u64; 8], act: u64) -> usize
    requires { WordReady lo.now hi.now row.cut row.nx s e act }
    ensures value { result ≡ length (word_loops loops_of lo.now hi.now row.cut row.nx act s) }
    ensures upper_bound { result ≤ 256 }
{
    if act == 0 {
        return 0;
    }
    if act & faces::plain(e) == act {
        return planes::ones_of(act);
    }
    let sorts = joins::sorted(lo, hi, row.nx, s, row.cut, e, act);
    let one = sorts.one & act;
    let left = act ^ one;
    let two = sorts.two & left;
    let mut w = left ^ two;
    let mut i: usize = 0;
    let mut m = planes::ones_of(one) + 2 * planes::ones_of(two);
    while w != 0 {
        let k = u64::trailing_zeros(w) as usize;
        let x = i + k;
        let cs = rows::corners(lo, hi, row.nx, s + x);
        m += count_cube(row.cut, cs);
        w = (w >> k) >> 1;
        i = x + 1;
    }
    m
}

// How many loops a cube has. (The words have its sign pattern too. To keep eight words at hand for so few cubes costs more than it saves.)
fn count_cube(cut: Cut, corners: [u16; 8]) -> usize
    ensures value { result ≡ length (loops_of cut corners) }
    ensures upper_bound { result ≤ 4 }
{
    let loops = cube::loops_of(cube::crossed_in(corners, cut), corners, cut);
    loops.count as usize
}

// Whether the cubes of a word whose bits are set in `act` are all plain; `e` has the signs of their corners.
fn plain_word(e: [u64; 8], act: u64) -> bool
    ensures { result ≡ plain_word e act }
{
    if act == 0 {
        return true;
    }
    act & faces::plain(e) == act
}

// How many loops the cubes of a row have, if all its active cubes are plain; rows j and j + 1 of a and b hold their signs. No window is read, so whoever
// has to make the windows first can ask here before.
pub fn plain_row(row: Row, a: &[u64], b: &[u64]) -> RowLoops
    requires { (2 ≤ row.nx) × (row.nx ≤ 256) × (row.j < 255) × (length a.now ≡ 1280) × (length b.now ≡ 1280) }
    ensures { result ≡ plain_row a.now b.now row.nx row.j }
{
    let cubes = row.nx - 1;
    let mut w: usize = 0;
    let mut m: usize = 0;
    while 64 * w < cubes {
        let e = planes::eight(a, b, 5 * row.j + w);
        let act = planes::active(e) & planes::limit(cubes, w);
        if !plain_word(e, act) {
            return RowLoops::Doubtful;
        }
        m += planes::ones_of(act);
        w += 1;
    }
    RowLoops::Plain(m)
}
