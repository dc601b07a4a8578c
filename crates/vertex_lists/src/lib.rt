// The lists of a mesh's vertices, words and offsets: the checks of rows 22, 23 and 24 of the table of refusals (document 02, Three).
#![tactic(auto)]

ghost use Rattle.std.specs.Prelude.{◌≡◌, ◌&&◌, ◌/◌};
ghost use Rattle.block.specs.Answer.{in_order};
ghost use Rattle.block.specs.Numbering.{cube_count};
ghost use Rattle.block.specs.Size.{Limits};
ghost use Rattle.vertex_lists.specs.Rows.{shaped, shape_row, cube_row, from_zero_to_one, offset_row, vertex_rows};

use block::{Checked, Refusal, Size};

// Whether two lists have the lengths of one count of vertices.
fn in_shape(words: usize, offsets: usize) -> bool
    ensures { result ≡ shaped words offsets (words / 2) }
{
    let count = words / 2;
    if words != 2 * count {
        return false;
    }
    if offsets / 3 != count {
        return false;
    }
    if offsets % 3 != 0 {
        return false;
    }
    count <= 66325500
}

// Row 22, by the lengths of both lists.
pub fn check_shape(words: usize, offsets: usize) -> Checked
    ensures { result ≡ shape_row words offsets }
{
    if in_shape(words, offsets) {
        return Checked::Passes;
    }
    Checked::Refuses(Refusal {
        number: 22,
        value: block::short(words),
    })
}

// How many cubes a block of this size has.
pub fn cubes(size: Size) -> u32
    requires { Limits size }
    ensures { result ≡ cube_count size }
{
    let x = size.nx() - 1;
    let y = size.ny() - 1;
    let z = size.nz() - 1;
    (x * (y * z)) as u32
}

// Row 23: the cube of a vertex is past the last cube.
fn check_cubes(size: Size, words: &[u32]) -> Checked
    requires { Limits size }
    ensures { result ≡ cube_row size words.now }
{
    let end = cubes(size);
    let count = words.len() / 2;
    let mut v: usize = 0;
    while v < count {
        if words[2 * v] >= end {
            return Checked::Refuses(Refusal {
                number: 23,
                value: block::short(v),
            });
        }
        v += 1;
    }
    Checked::Passes
}

// Whether a number is from 0 to 1.
fn in_unit(x: f64) -> bool
    ensures { result ≡ from_zero_to_one x }
{
    if 0.0 <= x {
        return x <= 1.0;
    }
    false
}

// Whether three numbers are.
pub fn all_in_unit(x: f64, y: f64, z: f64) -> bool
    ensures { result ≡ (from_zero_to_one x && from_zero_to_one y && from_zero_to_one z) }
{
    if !in_unit(x) {
        return false;
    }
    if !in_unit(y) {
        return false;
    }
    in_unit(z)
}

// Row 24: an offset of a vertex is not from 0 to 1.
fn check_offsets(offsets: &[f64]) -> Checked
    ensures { result ≡ offset_row offsets.now }
{
    let count = offsets.len() / 3;
    let mut v: usize = 0;
    while v < count {
        let n = 3 * v;
        if !all_in_unit(offsets[n], offsets[n + 1], offsets[n + 2]) {
            return Checked::Refuses(Refusal {
                number: 24,
                value: block::short(v),
            });
        }
        v += 1;
    }
    Checked::Passes
}

// Rows 22, 23 and 24, in this order: every cube number is looked at before any offset.
pub fn check(size: Size, words: &[u32], offsets: &[f64]) -> Checked
    requires { Limits size }
    ensures { result ≡ in_order (vertex_rows size words.now offsets.now) }
{
    let shape = check_shape(words.len(), offsets.len());
    if let Checked::Refuses(r) = shape {
        return Checked::Refuses(r);
    }
    let inside = check_cubes(size, words);
    if let Checked::Refuses(r) = inside {
        return Checked::Refuses(r);
    }
    check_offsets(offsets)
}
