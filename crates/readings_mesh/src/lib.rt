// Counting and meshing a block of readings of the second bench (document 02, Ten): the answers and the mesh are those of the block of grey values that the readings
// become.
#![tactic(auto)]

ghost use Rattle.std.specs.Prelude.{◌≡◌, ◌++◌, length};
ghost use Rattle.block.specs.Answer.{in_order, judged};
ghost use Rattle.block.specs.Size.{Limits};
ghost use Rattle.readings.specs.Reading.{greys_of};
ghost use Rattle.mesh.specs.Answer.{buffer_rows, counts_of, said_counts, MeshedBy};
ghost use Rattle.readings_mesh.specs.Answer.{reading_rows, ReadingsCounted, ReadingsMeshed};

use block::{Checked, Cut, Refusal, Size, Sized};
use mesh::{Counted, Source};

// Rows 2 and 3, and then 19 to 21, in this order.
fn check(size: Size, readings: &[f32], cut: Cut) -> Checked
    requires { Limits size }
    ensures { result ≡ in_order (reading_rows size readings.now cut) }
{
    let count = block::check_count(size, readings.len());
    if let Checked::Refuses(r) = count {
        return Checked::Refuses(r);
    }
    let threshold = block::check_threshold(cut);
    if let Checked::Refuses(r) = threshold {
        return Checked::Refuses(r);
    }
    readings::check_readings(readings)
}

// The counts of a block of readings whose size is made.
fn counts_of(size: Size, readings: &[f32], cut: Cut) -> Counted
    requires { Limits size }
    ensures { said_counts result ≡ judged (in_order (reading_rows size readings.now cut)) (counts_of size (greys_of readings.now) cut) }
{
    let checked = check(size, readings, cut);
    if let Checked::Refuses(r) = checked {
        return Counted::Refused(r);
    }
    let none = [0u16; 1];
    Counted::Counts(mesh::counts_from(size, Source::Readings, &none, readings, cut))
}

// How many vertices and quads the mesh of a block of readings has. Any axis lengths, readings and threshold may be asked.
pub fn counts(nx: u32, ny: u32, nz: u32, readings: &[f32], cut: Cut) -> Counted
    ensures { ReadingsCounted nx ny nz readings.now cut result }
{
    let made = Size::new(nx, ny, nz);
    match made {
        Sized::BadAxis(axis) => Counted::Refused(Refusal {
            number: 1,
            value: axis,
        }),
        Sized::Made(size) => counts_of(size, readings, cut),
    }
}

// The mesh of a block of readings whose size is made. The buffers are touched only when all rows pass.
fn mesh_of(
    size: Size,
    readings: &[f32],
    cut: Cut,
    words: &mut [u32],
    offsets: &mut [f64],
    quads: &mut [u32],
) -> Counted
    requires { Limits size }
    ensures { MeshedBy (in_order (reading_rows size readings.now cut ++ buffer_rows (counts_of size (greys_of readings.now) cut) (length words.old) (length offsets.old) (length quads.old))) size (greys_of readings.now) cut words.old offsets.old quads.old result words.new offsets.new quads.new }
{
    let checked = check(size, readings, cut);
    if let Checked::Refuses(r) = checked {
        return Counted::Refused(r);
    }
    let none = [0u16; 1];
    mesh::mesh_from(
        size,
        Source::Readings,
        &none,
        readings,
        cut,
        words,
        offsets,
        quads,
    )
}

// The mesh of a block of readings, in lent buffers: two words and three offsets a vertex, four words a quad. Any axis lengths, readings, threshold and buffers may be
// given; a refusal leaves every buffer as it was.
pub fn mesh(
    nx: u32,
    ny: u32,
    nz: u32,
    readings: &[f32],
    cut: Cut,
    words: &mut [u32],
    offsets: &mut [f64],
    quads: &mut [u32],
) -> Counted
    ensures { ReadingsMeshed nx ny nz readings.now cut words.old offsets.old quads.old result words.new offsets.new quads.new }
{
    let made = Size::new(nx, ny, nz);
    match made {
        Sized::BadAxis(axis) => Counted::Refused(Refusal {
            number: 1,
            value: axis,
        }),
        Sized::Made(size) => mesh_of(size, readings, cut, words, offsets, quads),
    }
}
