// The functions of the library for C, over numbers and slices: each writes its answer to lent places. parsniprow_export exports them, under
// the same names and with the same contracts; include/parsniprow.h declares and explains them as C calls them.
#![tactic(auto)]

ghost use Rattle.std.specs.Prelude.{◌≡◌, [], ◌∷◌};
ghost use Rattle.by_planes.specs.Answer.{said_start, said_taken};
ghost use Rattle.parsniprow_c.specs.Told.{tell_over, CeilingsTold, ReadingTold, EdgeTold, CubeTold, CrossedTold, CountsTold, RowTold, MeshTold, ReadingsCountsTold, ReadingsMeshTold, StartTold, PlaneTold, EndTold, state_after, growth_after, ClosedTold, ClosedWithTold, JudgeTold, PiecesTold, PlyTold};

use block::Cut;
use by_planes::{Started, Taken};
use ply::Spacing;

// How many samples are at the detector's ceiling, and the lowest index of one.
pub fn parsniprow_ceilings(samples: &[u16], answer: &mut [u32])
    ensures { CeilingsTold samples.now answer.old answer.new }
{
    let seen = block::ceilings(samples);
    let told = told::tell_ceilings(seen);
    put(answer, &told);
}

// The grey value of a reading of the second bench.
pub fn parsniprow_reading(x: f32, answer: &mut [u32])
    ensures { ReadingTold x answer.old answer.new }
{
    let reading = readings::read(x);
    let told = told::tell_reading(reading);
    put(answer, &told);
}

// Where the surface crosses an edge.
pub fn parsniprow_edge(p: u16, q: u16, t: u16, fraction: &mut [f64], answer: &mut [u32])
    ensures { EdgeTold p q t fraction.old answer.old fraction.new answer.new }
{
    let crossing = place::edge(p, q, t);
    let found = told::tell_fraction(crossing);
    put_places(fraction, &found);
    let told = told::tell_edge(crossing);
    put(answer, &told);
}

// The loops of a cube, by its eight corners.
pub fn parsniprow_cube(
    c0: u16,
    c1: u16,
    c2: u16,
    c3: u16,
    c4: u16,
    c5: u16,
    c6: u16,
    c7: u16,
    t: u16,
    noise: u32,
    words: &mut [u32],
    offsets: &mut [f64],
    answer: &mut [u32],
)
    ensures { CubeTold (c0 ∷ c1 ∷ c2 ∷ c3 ∷ c4 ∷ c5 ∷ c6 ∷ c7 ∷ []) t noise words.old offsets.old answer.old words.new offsets.new answer.new }
{
    let given = cell::cube([c0, c1, c2, c3, c4, c5, c6, c7], Cut { t: t, noise: noise });
    let four = given.words;
    put(words, &four);
    let places = given.offsets;
    let twelve = told::tell_offsets(places);
    put_places(offsets, &twelve);
    let found = given.found;
    let told = told::tell_cube(found);
    put(answer, &told);
}

// How many edges of a block are crossed: how much room its mesh can take.
pub fn parsniprow_crossed(nx: u32, ny: u32, nz: u32, samples: &[u16], t: u16, answer: &mut [u32])
    ensures { CrossedTold nx ny nz samples.now t answer.old answer.new }
{
    let edged = room::crossed(nx, ny, nz, samples, Cut { t: t, noise: 0 });
    let told = told::tell_crossed(edged);
    put(answer, &told);
}

// How many vertices and quads the mesh of a block has.
pub fn parsniprow_counts(
    nx: u32,
    ny: u32,
    nz: u32,
    samples: &[u16],
    t: u16,
    noise: u32,
    answer: &mut [u32],
)
    ensures { CountsTold nx ny nz samples.now t noise answer.old answer.new }
{
    let counted = mesh::counts(nx, ny, nz, samples, Cut { t: t, noise: noise });
    let told = told::tell_counts(counted);
    put(answer, &told);
}

// The counts of a block by each threshold of a row, in a lent buffer.
pub fn parsniprow_thresholds(
    nx: u32,
    ny: u32,
    nz: u32,
    samples: &[u16],
    thresholds: &[u16],
    noise: u32,
    answers: &mut [u32],
    answer: &mut [u32],
)
    ensures { RowTold nx ny nz samples.now thresholds.now noise answers.old answer.old answers.new answer.new }
{
    let row = thresholds::counts_row(nx, ny, nz, samples, thresholds, noise, answers);
    let told = told::tell_row(row);
    put(answer, &told);
}

// The mesh of a block in three lent buffers.
pub fn parsniprow_mesh(
    nx: u32,
    ny: u32,
    nz: u32,
    samples: &[u16],
    t: u16,
    noise: u32,
    words: &mut [u32],
    offsets: &mut [f64],
    quads: &mut [u32],
    answer: &mut [u32],
)
    ensures { MeshTold nx ny nz samples.now t noise words.old offsets.old quads.old answer.old words.new offsets.new quads.new answer.new }
{
    let cut = Cut { t: t, noise: noise };
    let counted = mesh::mesh(nx, ny, nz, samples, cut, words, offsets, quads);
    let told = told::tell_counts(counted);
    put(answer, &told);
}

// How many vertices and quads the mesh of a block of readings has.
pub fn parsniprow_readings_counts(
    nx: u32,
    ny: u32,
    nz: u32,
    readings: &[f32],
    t: u16,
    noise: u32,
    answer: &mut [u32],
)
    ensures { ReadingsCountsTold nx ny nz readings.now t noise answer.old answer.new }
{
    let counted = readings_mesh::counts(nx, ny, nz, readings, Cut { t: t, noise: noise });
    let told = told::tell_counts(counted);
    put(answer, &told);
}

// The mesh of a block of readings in three lent buffers.
pub fn parsniprow_readings_mesh(
    nx: u32,
    ny: u32,
    nz: u32,
    readings: &[f32],
    t: u16,
    noise: u32,
    words: &mut [u32],
    offsets: &mut [f64],
    quads: &mut [u32],
    answer: &mut [u32],
)
    ensures { ReadingsMeshTold nx ny nz readings.now t noise words.old offsets.old quads.old answer.old words.new offsets.new quads.new answer.new }
{
    let cut = Cut { t: t, noise: noise };
    let counted = readings_mesh::mesh(nx, ny, nz, readings, cut, words, offsets, quads);
    let told = told::tell_counts(counted);
    put(answer, &told);
}

// Starts a run over the planes of a block: its state stands in a lent place.
pub fn parsniprow_start(
    nx: u32,
    ny: u32,
    nz: u32,
    t: u16,
    noise: u32,
    work: &[u32],
    state: &mut [u32],
    answer: &mut [u32],
)
    ensures { StartTold nx ny nz t noise work.now state.old answer.old state.new answer.new }
{
    let started = by_planes::start(nx, ny, nz, Cut { t: t, noise: noise }, work);
    put_started(started, state);
    let told = told::tell_start(started);
    put(answer, &told);
}

// Takes the next plane of a run, and writes what it finishes into three lent buffers.
pub fn parsniprow_plane(
    state: &mut [u32],
    plane: &[u16],
    work: &mut [u32],
    words: &mut [u32],
    offsets: &mut [f64],
    quads: &mut [u32],
    answer: &mut [u32],
)
    ensures { PlaneTold state.old plane.now work.old words.old offsets.old quads.old answer.old state.new work.new words.new offsets.new quads.new answer.new }
{
    let stream = told::read_state(state);
    let taken = by_planes::take(stream, plane, work, words, offsets, quads);
    put_taken(taken, state);
    let told = told::tell_taken(taken);
    put(answer, &told);
}

// Ends a run: how many vertices and quads its planes gave together.
pub fn parsniprow_end(state: &[u32], answer: &mut [u32])
    ensures { EndTold state.now answer.old answer.new }
{
    let stream = told::read_state(state);
    let counted = by_planes::finish(stream);
    let told = told::tell_counts(counted);
    put(answer, &told);
}

// The state of a run that begins; a refusal leaves the place as it was.
fn put_started(started: Started, state: &mut [u32])
    ensures { state.new ≡ state_after (said_start started) state.old }
{
    if let Started::Begun(stream) = started {
        let eight = told::tell_state(stream);
        put(state, &eight);
    }
}

// The state after a plane; a refusal leaves the place as it was.
fn put_taken(taken: Taken, state: &mut [u32])
    ensures { state.new ≡ growth_after (said_taken taken) state.old }
{
    if let Taken::Wrote(growth) = taken {
        let stream = growth.stream;
        let eight = told::tell_state(stream);
        put(state, &eight);
    }
}

// Whether a list of quads is closed.
pub fn parsniprow_closed(quads: &[u32], answer: &mut [u32])
    ensures { ClosedTold quads.now answer.old answer.new }
{
    let closure = closed::closed(quads);
    let told = told::tell_closed(closure);
    put(answer, &told);
}

// Whether a list of quads is closed, with lent memory.
pub fn parsniprow_closed_with(quads: &[u32], work: &mut [u64], answer: &mut [u32])
    ensures { ClosedWithTold quads.now work.old answer.old work.new answer.new }
{
    let closure = closed_with::closed_with(quads, work);
    let told = told::tell_closed(closure);
    put(answer, &told);
}

// Whether a mesh that another mesher made is that of a block.
pub fn parsniprow_judge(
    nx: u32,
    ny: u32,
    nz: u32,
    samples: &[u16],
    t: u16,
    noise: u32,
    words: &[u32],
    offsets: &[f64],
    quads: &[u32],
    answer: &mut [u32],
)
    ensures { JudgeTold nx ny nz samples.now t noise words.now offsets.now quads.now answer.old answer.new }
{
    let judgement = foundry::judge(
        nx,
        ny,
        nz,
        samples,
        Cut { t: t, noise: noise },
        words,
        offsets,
        quads,
    );
    let told = told::tell_judgement(judgement);
    put(answer, &told);
}

// The pieces of a list of quads in two lent buffers.
pub fn parsniprow_pieces(
    n: u32,
    quads: &[u32],
    piece: &mut [u32],
    size: &mut [u32],
    answer: &mut [u32],
)
    ensures { PiecesTold n quads.now piece.old size.old answer.old piece.new size.new answer.new }
{
    let pieced = pieces::pieces(n, quads, piece, size);
    let told = told::tell_pieces(pieced);
    put(answer, &told);
}

// A mesh as a PLY file in a lent buffer.
pub fn parsniprow_ply(
    nx: u32,
    ny: u32,
    nz: u32,
    words: &[u32],
    offsets: &[f64],
    quads: &[u32],
    x: f64,
    y: f64,
    z: f64,
    file: &mut [u8],
    length: &mut [u64],
    answer: &mut [u32],
)
    ensures { PlyTold nx ny nz words.now offsets.now quads.now (record { x = x; y = y; z = z }) file.old length.old answer.old file.new length.new answer.new }
{
    let filed = ply::write(
        nx,
        ny,
        nz,
        words,
        offsets,
        quads,
        Spacing { x: x, y: y, z: z },
        file,
    );
    let long = told::tell_length(filed);
    put_lengths(length, &long);
    let told = told::tell_file(filed);
    put(answer, &told);
}

// Numbers over the front of a lent place, as many as it has room for.
fn put(place: &mut [u32], values: &[u32])
    ensures { place.new ≡ tell_over values.now place.old }
{
    let mut i: usize = 0;
    while i < values.len() {
        if i == place.len() {
            return;
        }
        place[i] = values[i];
        i += 1;
    }
}

// The same of f64.
fn put_places(place: &mut [f64], values: &[f64])
    ensures { place.new ≡ tell_over values.now place.old }
{
    let mut i: usize = 0;
    while i < values.len() {
        if i == place.len() {
            return;
        }
        place[i] = values[i];
        i += 1;
    }
}

// The same of u64.
fn put_lengths(place: &mut [u64], values: &[u64])
    ensures { place.new ≡ tell_over values.now place.old }
{
    let mut i: usize = 0;
    while i < values.len() {
        if i == place.len() {
            return;
        }
        place[i] = values[i];
        i += 1;
    }
}
