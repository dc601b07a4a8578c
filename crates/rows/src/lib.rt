// A row of cubes: its windows, rows of samples that hold the corners of its cubes, and whether it has an active cube at all.
#![tactic(auto)]

ghost use Rattle.std.specs.Prelude.{◌≡◌, ◌+◌, ◌<◌, ◌≤◌, length};
ghost use Rattle.signs.specs.Windows.{window_corners};
ghost use Rattle.rows.specs.Quiet.{quiet_row};

use block::Cut;

// A row of samples and the row of cubes above it: the threshold, how many samples a row has, the row's place in its plane, the number of its first
// cube, whether there is a layer of cubes below (which only the quads ask), and the number of the vertex that stands first in the lent buffers
// (which only the vertices ask).
#[derive(Clone, Copy)]
pub struct Row {
    pub cut: Cut,
    pub nx: usize,
    pub j: usize,
    pub c: usize,
    pub lower: bool,
    pub first: usize,
}

// The samples at the corners of the cube x of a row, from the row's windows.
#[tactic(auto, unfolding(signs::specs::Windows::window_corners))]
pub fn corners(lo: &[u16], hi: &[u16], nx: usize, x: usize) -> [u16; 8]
    requires { (x + 1 + nx < length lo.now) × (x + 1 + nx < length hi.now) }
    ensures { result ≡ window_corners nx lo.now hi.now x }
{
    [
        lo[x],
        lo[x + 1],
        lo[x + nx],
        lo[x + 1 + nx],
        hi[x],
        hi[x + 1],
        hi[x + nx],
        hi[x + 1 + nx],
    ]
}

// Whether no cube of a row has corners of both signs; rows j and j + 1 of a and b hold the signs. Such a row has no vertex and starts no quad.
pub fn quiet(row: Row, a: &[u64], b: &[u64]) -> bool
    requires { (2 ≤ row.nx) × (row.nx ≤ 256) × (row.j < 255) × (length a.now ≡ 1280) × (length b.now ≡ 1280) }
    ensures { result ≡ quiet_row a.now b.now row.nx row.j }
{
    let cubes = row.nx - 1;
    // (No `div_ceil`, by which this took longer.)
    (0..(cubes + 63) / 64).all(|w| {
        let e = planes::eight(a, b, 5 * row.j + w);
        planes::active(e) & planes::limit(cubes, w) == 0
    })
}
