// A cube of a block by its number: where it lies, and the samples at its corners (document 01, "The block and its numbering").
#![tactic(auto)]

ghost use Rattle.std.specs.Prelude.{◌≡◌, ◌+◌, ◌≤◌, ◌<◌, length};
ghost use Rattle.block.specs.Numbering.{cube_count};
ghost use Rattle.block.specs.Size.{Limits};
ghost use Rattle.block.specs.Steps.{Sampled};
ghost use Rattle.mesh_rule.specs.Grid.{corners_of};
ghost use Rattle.cube_spots.specs.Spots.{spot_of, eight_from};

use block::Size;

// Where a cube lies: its coordinates, and the index of its first corner.
#[derive(Clone, Copy)]
pub struct Spot {
    pub x: u32,
    pub y: u32,
    pub z: u32,
    pub first: usize,
}

// Where the cube c lies.
pub fn spot_of(size: Size, c: u32) -> Spot
    requires limits { Limits size }
    requires c_bound { c < cube_count size }
    ensures { result ≡ spot_of size c }
{
    let nx = size.nx();
    let ny = size.ny();
    let wide = (nx - 1) as u32;
    let high = (ny - 1) as u32;
    let row = c / wide;
    let x = c % wide;
    let y = row % high;
    let z = row / high;
    Spot {
        x,
        y,
        z,
        first: x as usize + nx * (y as usize + ny * z as usize),
    }
}

// The samples at the corners of a cube, from the index of the first: a row and a plane are so many samples apart.
fn eight(samples: &[u16], p: usize, row: usize, plane: usize) -> [u16; 8]
    requires { (row ≤ 256) × (plane ≤ 65536) × (p + plane + row + 1 < length samples.now) }
    ensures { result ≡ eight_from samples.now p row plane }
{
    [
        samples[p],
        samples[p + 1],
        samples[p + row],
        samples[p + row + 1],
        samples[p + plane],
        samples[p + plane + 1],
        samples[p + plane + row],
        samples[p + plane + row + 1],
    ]
}

// The samples at the corners of the cube c.
#[tactic(auto, using(crate::proofs::Inside::last_inside), unfolding(mesh_rule::specs::Grid::corners_of))]
pub fn corners_of(size: Size, samples: &[u16], c: u32) -> [u16; 8]
    requires sampled { Sampled size samples.now }
    requires c_bound { c < cube_count size }
    ensures { result ≡ corners_of size samples.now c }
{
    let row = size.nx();
    let plane = row * size.ny();
    let spot = spot_of(size, c);
    eight(samples, spot.first, row, plane)
}
