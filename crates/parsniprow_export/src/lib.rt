// The library for C: exported functions over numbers and slices, each of which writes its answer to lent places. A slice is a pointer and
// then a length. include/parsniprow.h declares and explains them. Each calls the function of parsniprow_c that has its name, and has that
// function's contract, word for word.
#![tactic(auto)]

ghost use Rattle.std.specs.Prelude.{[], ◌∷◌};
ghost use Rattle.parsniprow_c.specs.Told.{CeilingsTold, ReadingTold, EdgeTold, CubeTold, CrossedTold, CountsTold, RowTold, MeshTold, ReadingsCountsTold, ReadingsMeshTold, StartTold, PlaneTold, EndTold, ClosedTold, ClosedWithTold, JudgeTold, PiecesTold, PlyTold};

// How many samples are at the detector's ceiling, and the lowest index of one.
#[unsafe(no_mangle)]
pub extern "C" fn parsniprow_ceilings(samples: &[u16], answer: &mut [u32])
    ensures { CeilingsTold samples.now answer.old answer.new }
{
    parsniprow_c::parsniprow_ceilings(samples, answer)
}

// The grey value of a reading of the second bench.
#[unsafe(no_mangle)]
pub extern "C" fn parsniprow_reading(x: f32, answer: &mut [u32])
    ensures { ReadingTold x answer.old answer.new }
{
    parsniprow_c::parsniprow_reading(x, answer)
}

// Where the surface crosses an edge.
#[unsafe(no_mangle)]
pub extern "C" fn parsniprow_edge(p: u16, q: u16, t: u16, fraction: &mut [f64], answer: &mut [u32])
    ensures { EdgeTold p q t fraction.old answer.old fraction.new answer.new }
{
    parsniprow_c::parsniprow_edge(p, q, t, fraction, answer)
}

// The loops of a cube, by its eight corners.
#[unsafe(no_mangle)]
pub extern "C" fn parsniprow_cube(
    c0: u16,
    c1: u16,
    c2: u16,
    c3: u16,
    c4: u16,
    c5: u16,
    c6: u16,
    c7: u16,
    t: u16,
    noise: u32,
    words: &mut [u32],
    offsets: &mut [f64],
    answer: &mut [u32],
)
    ensures { CubeTold (c0 ∷ c1 ∷ c2 ∷ c3 ∷ c4 ∷ c5 ∷ c6 ∷ c7 ∷ []) t noise words.old offsets.old answer.old words.new offsets.new answer.new }
{
    parsniprow_c::parsniprow_cube(
        c0, c1, c2, c3, c4, c5, c6, c7, t, noise, words, offsets, answer,
    )
}

// How many edges of a block are crossed: how much room its mesh can take.
#[unsafe(no_mangle)]
pub extern "C" fn parsniprow_crossed(
    nx: u32,
    ny: u32,
    nz: u32,
    samples: &[u16],
    t: u16,
    answer: &mut [u32],
)
    ensures { CrossedTold nx ny nz samples.now t answer.old answer.new }
{
    parsniprow_c::parsniprow_crossed(nx, ny, nz, samples, t, answer)
}

// How many vertices and quads the mesh of a block has.
#[unsafe(no_mangle)]
pub extern "C" fn parsniprow_counts(
    nx: u32,
    ny: u32,
    nz: u32,
    samples: &[u16],
    t: u16,
    noise: u32,
    answer: &mut [u32],
)
    ensures { CountsTold nx ny nz samples.now t noise answer.old answer.new }
{
    parsniprow_c::parsniprow_counts(nx, ny, nz, samples, t, noise, answer)
}

// The counts of a block by each threshold of a row, in a lent buffer.
#[unsafe(no_mangle)]
pub extern "C" fn parsniprow_thresholds(
    nx: u32,
    ny: u32,
    nz: u32,
    samples: &[u16],
    thresholds: &[u16],
    noise: u32,
    answers: &mut [u32],
    answer: &mut [u32],
)
    ensures { RowTold nx ny nz samples.now thresholds.now noise answers.old answer.old answers.new answer.new }
{
    parsniprow_c::parsniprow_thresholds(nx, ny, nz, samples, thresholds, noise, answers, answer)
}

// The mesh of a block in three lent buffers.
#[unsafe(no_mangle)]
pub extern "C" fn parsniprow_mesh(
    nx: u32,
    ny: u32,
    nz: u32,
    samples: &[u16],
    t: u16,
    noise: u32,
    words: &mut [u32],
    offsets: &mut [f64],
    quads: &mut [u32],
    answer: &mut [u32],
)
    ensures { MeshTold nx ny nz samples.now t noise words.old offsets.old quads.old answer.old words.new offsets.new quads.new answer.new }
{
    parsniprow_c::parsniprow_mesh(nx, ny, nz, samples, t, noise, words, offsets, quads, answer)
}

// How many vertices and quads the mesh of a block of readings has.
#[unsafe(no_mangle)]
pub extern "C" fn parsniprow_readings_counts(
    nx: u32,
    ny: u32,
    nz: u32,
    readings: &[f32],
    t: u16,
    noise: u32,
    answer: &mut [u32],
)
    ensures { ReadingsCountsTold nx ny nz readings.now t noise answer.old answer.new }
{
    parsniprow_c::parsniprow_readings_counts(nx, ny, nz, readings, t, noise, answer)
}

// The mesh of a block of readings in three lent buffers.
#[unsafe(no_mangle)]
pub extern "C" fn parsniprow_readings_mesh(
    nx: u32,
    ny: u32,
    nz: u32,
    readings: &[f32],
    t: u16,
    noise: u32,
    words: &mut [u32],
    offsets: &mut [f64],
    quads: &mut [u32],
    answer: &mut [u32],
)
    ensures { ReadingsMeshTold nx ny nz readings.now t noise words.old offsets.old quads.old answer.old words.new offsets.new quads.new answer.new }
{
    parsniprow_c::parsniprow_readings_mesh(
        nx, ny, nz, readings, t, noise, words, offsets, quads, answer,
    )
}

// Starts a run over the planes of a block: its state stands in a lent place.
#[unsafe(no_mangle)]
pub extern "C" fn parsniprow_start(
    nx: u32,
    ny: u32,
    nz: u32,
    t: u16,
    noise: u32,
    work: &[u32],
    state: &mut [u32],
    answer: &mut [u32],
)
    ensures { StartTold nx ny nz t noise work.now state.old answer.old state.new answer.new }
{
    parsniprow_c::parsniprow_start(nx, ny, nz, t, noise, work, state, answer)
}

// Takes the next plane of a run, and writes what it finishes into three lent buffers.
#[unsafe(no_mangle)]
pub extern "C" fn parsniprow_plane(
    state: &mut [u32],
    plane: &[u16],
    work: &mut [u32],
    words: &mut [u32],
    offsets: &mut [f64],
    quads: &mut [u32],
    answer: &mut [u32],
)
    ensures { PlaneTold state.old plane.now work.old words.old offsets.old quads.old answer.old state.new work.new words.new offsets.new quads.new answer.new }
{
    parsniprow_c::parsniprow_plane(state, plane, work, words, offsets, quads, answer)
}

// Ends a run: how many vertices and quads its planes gave together.
#[unsafe(no_mangle)]
pub extern "C" fn parsniprow_end(state: &[u32], answer: &mut [u32])
    ensures { EndTold state.now answer.old answer.new }
{
    parsniprow_c::parsniprow_end(state, answer)
}

// Whether a list of quads is closed.
#[unsafe(no_mangle)]
pub extern "C" fn parsniprow_closed(quads: &[u32], answer: &mut [u32])
    ensures { ClosedTold quads.now answer.old answer.new }
{
    parsniprow_c::parsniprow_closed(quads, answer)
}

// Whether a list of quads is closed, with lent memory.
#[unsafe(no_mangle)]
pub extern "C" fn parsniprow_closed_with(quads: &[u32], work: &mut [u64], answer: &mut [u32])
    ensures { ClosedWithTold quads.now work.old answer.old work.new answer.new }
{
    parsniprow_c::parsniprow_closed_with(quads, work, answer)
}

// Whether a mesh that another mesher made is that of a block.
#[unsafe(no_mangle)]
pub extern "C" fn parsniprow_judge(
    nx: u32,
    ny: u32,
    nz: u32,
    samples: &[u16],
    t: u16,
    noise: u32,
    words: &[u32],
    offsets: &[f64],
    quads: &[u32],
    answer: &mut [u32],
)
    ensures { JudgeTold nx ny nz samples.now t noise words.now offsets.now quads.now answer.old answer.new }
{
    parsniprow_c::parsniprow_judge(nx, ny, nz, samples, t, noise, words, offsets, quads, answer)
}

// The pieces of a list of quads in two lent buffers.
#[unsafe(no_mangle)]
pub extern "C" fn parsniprow_pieces(
    n: u32,
    quads: &[u32],
    piece: &mut [u32],
    size: &mut [u32],
    answer: &mut [u32],
)
    ensures { PiecesTold n quads.now piece.old size.old answer.old piece.new size.new answer.new }
{
    parsniprow_c::parsniprow_pieces(n, quads, piece, size, answer)
}

// A mesh as a PLY file in a lent buffer.
#[unsafe(no_mangle)]
pub extern "C" fn parsniprow_ply(
    nx: u32,
    ny: u32,
    nz: u32,
    words: &[u32],
    offsets: &[f64],
    quads: &[u32],
    x: f64,
    y: f64,
    z: f64,
    file: &mut [u8],
    length: &mut [u64],
    answer: &mut [u32],
)
    ensures { PlyTold nx ny nz words.now offsets.now quads.now (record { x = x; y = y; z = z }) file.old length.old answer.old file.new length.new answer.new }
{
    parsniprow_c::parsniprow_ply(
        nx, ny, nz, words, offsets, quads, x, y, z, file, length, answer,
    )
}
