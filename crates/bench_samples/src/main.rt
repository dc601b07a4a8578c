// Runs the samples of document 01, "Samples on the bench", and the cases around them, and writes what it got: a line for each question,
// in hexadecimal. What it must write stands in the file stdout.
#![tactic(auto)]

ghost use Rattle.std.specs.Prelude.{◌≤◌, ◌<◌};

use block::{Cut, Refusal, Size, Sized};
use cell::{CubeAnswer, Found};
use closed::Closure;
use mesh::Counted;
use place::{Crossing, Offset};
use std::io;

fn glyph(digit: u64) -> u8
    requires { digit < 16 }
{
    if digit < 10 {
        return 48 + (digit % 16) as u8;
    }
    55 + (digit % 16) as u8
}

// A number in hexadecimal, with a space after it.
fn number(rt: &impl Print, value: u64, digits: u32) -> io::Result<()>
    requires { digits ≤ 16 }
{
    let mut left = digits;
    while left != 0 {
        left -= 1;
        let digit = (value >> (4 * left)) % 16;
        let byte = [glyph(digit)];
        rt.write_all(&byte)?;
    }
    rt.write_all(b" ")
}

// The bits of a float that is a number; all ones for one that is not.
fn float(rt: &impl Print, x: f64) -> io::Result<()> {
    if x == x {
        number(rt, f64::to_bits(x), 16)?;
    } else {
        number(rt, 18446744073709551615, 16)?;
    }
    Ok(())
}

fn end_line(rt: &impl Print) -> io::Result<()> {
    rt.write_all(b"\n")
}

fn refusal(rt: &impl Print, r: Refusal) -> io::Result<()> {
    rt.write_all(b"refused ")?;
    number(rt, r.number as u64, 2)?;
    number(rt, r.value as u64, 8)
}

fn offset(rt: &impl Print, o: Offset) -> io::Result<()> {
    float(rt, o.x)?;
    float(rt, o.y)?;
    float(rt, o.z)
}

fn ask_size(rt: &impl Print, nx: u32, ny: u32, nz: u32) -> io::Result<()> {
    rt.write_all(b"size ")?;
    number(rt, nx as u64, 8)?;
    number(rt, ny as u64, 8)?;
    number(rt, nz as u64, 8)?;
    rt.write_all(b"- ")?;
    match Size::new(nx, ny, nz) {
        Sized::Made(size) => {
            number(rt, size.nx() as u64, 4)?;
            number(rt, size.ny() as u64, 4)?;
            number(rt, size.nz() as u64, 4)?;
        }
        Sized::BadAxis(axis) => {
            refusal(
                rt,
                Refusal {
                    number: 1,
                    value: axis,
                },
            )?;
        }
    }
    end_line(rt)
}

fn ask_edge(rt: &impl Print, p: u16, q: u16, t: u16) -> io::Result<()> {
    rt.write_all(b"edge ")?;
    number(rt, p as u64, 4)?;
    number(rt, q as u64, 4)?;
    number(rt, t as u64, 4)?;
    rt.write_all(b"- ")?;
    match place::edge(p, q, t) {
        Crossing::Nothing => {
            rt.write_all(b"none ")?;
        }
        Crossing::At(f) => {
            float(rt, f)?;
        }
        Crossing::Refused(r) => {
            refusal(rt, r)?;
        }
    }
    end_line(rt)
}

fn grey(rt: &impl Print, sample: u16) -> io::Result<()> {
    number(rt, sample as u64, 4)
}

fn corners_of(rt: &impl Print, corners: [u16; 8]) -> io::Result<()> {
    grey(rt, corners[0])?;
    grey(rt, corners[1])?;
    grey(rt, corners[2])?;
    grey(rt, corners[3])?;
    grey(rt, corners[4])?;
    grey(rt, corners[5])?;
    grey(rt, corners[6])?;
    grey(rt, corners[7])
}

fn ask_cube(rt: &impl Print, corners: [u16; 8], t: u16) -> io::Result<()> {
    rt.write_all(b"cube ")?;
    corners_of(rt, corners)?;
    number(rt, t as u64, 4)?;
    rt.write_all(b"- ")?;
    let answer = cell::cube(corners, Cut { t: t, noise: 0 });
    let found = answer.found;
    match found {
        Found::Loops(n) => {
            number(rt, n as u64, 1)?;
        }
        Found::Refused(r) => {
            refusal(rt, r)?;
        }
    }
    end_line(rt)?;
    loop_at(rt, answer, 0)?;
    loop_at(rt, answer, 1)?;
    loop_at(rt, answer, 2)?;
    loop_at(rt, answer, 3)
}

fn loop_at(rt: &impl Print, answer: CubeAnswer, i: usize) -> io::Result<()>
    requires { i < 4 }
{
    let words = answer.words;
    let offsets = answer.offsets;
    rt.write_all(b"  ")?;
    let word = words[i];
    number(rt, word as u64, 4)?;
    offset(rt, offsets[i])?;
    end_line(rt)
}

// "Run: edges (p,q)", at t = 100, then refusal 3, then ends at the ceiling, at good thresholds and at bad ones.
fn edges(rt: &impl Print) -> io::Result<()> {
    ask_edge(rt, 0, 400, 100)?;
    ask_edge(rt, 400, 0, 100)?;
    ask_edge(rt, 100, 0, 100)?;
    ask_edge(rt, 0, 100, 100)?;
    ask_edge(rt, 100, 400, 100)?;
    ask_edge(rt, 99, 0, 100)?;
    ask_edge(rt, 0, 400, 0)?;
    ask_edge(rt, 0, 400, 65535)?;
    ask_edge(rt, 0, 65535, 100)?;
    ask_edge(rt, 65535, 0, 100)?;
    ask_edge(rt, 65535, 65535, 100)?;
    ask_edge(rt, 65535, 0, 0)?;
    ask_edge(rt, 0, 65535, 65535)?;
    ask_edge(rt, 0, 65534, 1)?;
    ask_edge(rt, 0, 65534, 65534)
}

// Axes at and past the limits: the lowest bad axis is named.
fn sizes(rt: &impl Print) -> io::Result<()> {
    ask_size(rt, 2, 2, 2)?;
    ask_size(rt, 256, 256, 256)?;
    ask_size(rt, 1, 2, 2)?;
    ask_size(rt, 2, 2, 257)?;
    ask_size(rt, 0, 257, 2)?;
    ask_size(rt, 2, 257, 0)?;
    ask_size(rt, 2, 4294967295, 2)?;
    ask_size(rt, 4294967295, 1, 0)
}

// The nine cubes of the table, at t = 100.
fn table(rt: &impl Print) -> io::Result<()> {
    ask_cube(rt, [99, 99, 99, 99, 99, 99, 99, 99], 100)?;
    ask_cube(rt, [100, 100, 100, 100, 100, 100, 100, 100], 100)?;
    ask_cube(rt, [200, 0, 0, 0, 0, 0, 0, 0], 100)?;
    ask_cube(rt, [110, 0, 0, 110, 0, 0, 0, 0], 100)?;
    ask_cube(rt, [300, 50, 50, 300, 0, 0, 0, 0], 100)?;
    ask_cube(rt, [200, 0, 0, 200, 0, 0, 0, 0], 100)?;
    ask_cube(rt, [100, 99, 99, 65534, 0, 0, 0, 0], 100)?;
    ask_cube(rt, [110, 0, 0, 110, 0, 110, 110, 0], 100)?;
    ask_cube(rt, [300, 50, 50, 300, 50, 300, 300, 50], 100)
}

// The decider at A·C = B·D − 1, B·D and B·D + 1, with the positive pair on either diagonal, and at the extremes.
fn ties(rt: &impl Print) -> io::Result<()> {
    ask_cube(rt, [109, 90, 90, 111, 0, 0, 0, 0], 100)?;
    ask_cube(rt, [110, 90, 90, 110, 0, 0, 0, 0], 100)?;
    ask_cube(rt, [101, 90, 90, 201, 0, 0, 0, 0], 100)?;
    ask_cube(rt, [90, 109, 111, 90, 0, 0, 0, 0], 100)?;
    ask_cube(rt, [90, 110, 110, 90, 0, 0, 0, 0], 100)?;
    ask_cube(rt, [90, 101, 201, 90, 0, 0, 0, 0], 100)?;
    ask_cube(rt, [65534, 0, 0, 65534, 0, 0, 0, 0], 1)?;
    ask_cube(rt, [65534, 0, 0, 65534, 0, 0, 0, 0], 65534)?;
    ask_cube(rt, [0, 65534, 65534, 0, 0, 0, 0, 0], 1)?;
    ask_cube(rt, [0, 65534, 65534, 0, 0, 0, 0, 0], 65534)
}

// Refusal 3 of a cube, also with a ceiling: every place holds zero. A ceiling at one corner marks the word of each loop; eight have no loop, so
// every place holds zero.
fn ceilings(rt: &impl Print) -> io::Result<()> {
    ask_cube(rt, [200, 0, 0, 0, 0, 0, 0, 0], 65535)?;
    ask_cube(rt, [65535, 0, 0, 0, 0, 0, 0, 0], 0)?;
    ask_cube(rt, [65535, 0, 0, 0, 0, 0, 0, 0], 100)?;
    ask_cube(rt, [200, 0, 0, 0, 0, 0, 0, 65535], 100)?;
    ask_cube(
        rt,
        [65535, 65535, 65535, 65535, 65535, 65535, 65535, 65535],
        100,
    )
}

fn word_is(rt: &impl Print, word: u32) -> io::Result<()> {
    number(rt, word as u64, 8)
}

fn words_of(rt: &impl Print, words: &[u32]) -> io::Result<()> {
    rt.write_all(b"  ")?;
    let mut i: usize = 0;
    while i < words.len() {
        word_is(rt, words[i])?;
        i += 1;
    }
    end_line(rt)
}

fn floats_of(rt: &impl Print, floats: &[f64]) -> io::Result<()> {
    rt.write_all(b"  ")?;
    let mut i: usize = 0;
    while i < floats.len() {
        float(rt, floats[i])?;
        i += 1;
    }
    end_line(rt)
}

fn counted_is(rt: &impl Print, counted: Counted) -> io::Result<()> {
    match counted {
        Counted::Counts(c) => {
            number(rt, c.vertices as u64, 8)?;
            number(rt, c.quads as u64, 8)?;
        }
        Counted::Refused(r) => {
            refusal(rt, r)?;
        }
    }
    Ok(())
}

fn block_of(rt: &impl Print, nx: u32, ny: u32, nz: u32, samples: usize, t: u16) -> io::Result<()> {
    number(rt, nx as u64, 8)?;
    number(rt, ny as u64, 8)?;
    number(rt, nz as u64, 8)?;
    number(rt, samples as u64, 8)?;
    number(rt, t as u64, 4)?;
    rt.write_all(b"- ")
}

fn ask_counts(
    rt: &impl Print,
    nx: u32,
    ny: u32,
    nz: u32,
    samples: &[u16],
    t: u16,
) -> io::Result<()> {
    rt.write_all(b"counts ")?;
    block_of(rt, nx, ny, nz, samples.len(), t)?;
    let counted = mesh::counts(nx, ny, nz, samples, Cut { t: t, noise: 0 });
    counted_is(rt, counted)?;
    end_line(rt)
}

// The answer, and all of each buffer afterwards.
fn ask_mesh(
    rt: &impl Print,
    nx: u32,
    ny: u32,
    nz: u32,
    samples: &[u16],
    t: u16,
    words: &mut [u32],
    offsets: &mut [f64],
    quads: &mut [u32],
) -> io::Result<()> {
    rt.write_all(b"mesh ")?;
    block_of(rt, nx, ny, nz, samples.len(), t)?;
    let counted = mesh::mesh(
        nx,
        ny,
        nz,
        samples,
        Cut { t: t, noise: 0 },
        words,
        offsets,
        quads,
    );
    counted_is(rt, counted)?;
    end_line(rt)?;
    words_of(rt, words)?;
    floats_of(rt, offsets)?;
    words_of(rt, quads)
}

// Room for 8 vertices and 6 quads, and no more.
fn exact(rt: &impl Print, nx: u32, ny: u32, nz: u32, samples: &[u16], t: u16) -> io::Result<()> {
    let mut words = [2779096485u32; 16];
    let mut offsets = [0.125; 24];
    let mut quads = [1515870810u32; 24];
    ask_mesh(
        rt,
        nx,
        ny,
        nz,
        samples,
        t,
        &mut words,
        &mut offsets,
        &mut quads,
    )
}

// Room for one vertex and one quad more, and a place besides.
fn ample(rt: &impl Print, nx: u32, ny: u32, nz: u32, samples: &[u16], t: u16) -> io::Result<()> {
    let mut words = [2779096485u32; 19];
    let mut offsets = [0.125; 28];
    let mut quads = [1515870810u32; 29];
    ask_mesh(
        rt,
        nx,
        ny,
        nz,
        samples,
        t,
        &mut words,
        &mut offsets,
        &mut quads,
    )
}

// Room for 7 vertices.
fn few_vertices(
    rt: &impl Print,
    nx: u32,
    ny: u32,
    nz: u32,
    samples: &[u16],
    t: u16,
) -> io::Result<()> {
    let mut words = [2779096485u32; 14];
    let mut offsets = [0.125; 21];
    let mut quads = [1515870810u32; 24];
    ask_mesh(
        rt,
        nx,
        ny,
        nz,
        samples,
        t,
        &mut words,
        &mut offsets,
        &mut quads,
    )
}

// One offset short, with words to spare.
fn few_offsets(
    rt: &impl Print,
    nx: u32,
    ny: u32,
    nz: u32,
    samples: &[u16],
    t: u16,
) -> io::Result<()> {
    let mut words = [2779096485u32; 40];
    let mut offsets = [0.125; 23];
    let mut quads = [1515870810u32; 24];
    ask_mesh(
        rt,
        nx,
        ny,
        nz,
        samples,
        t,
        &mut words,
        &mut offsets,
        &mut quads,
    )
}

// Room for 5 quads.
fn few_quads(
    rt: &impl Print,
    nx: u32,
    ny: u32,
    nz: u32,
    samples: &[u16],
    t: u16,
) -> io::Result<()> {
    let mut words = [2779096485u32; 16];
    let mut offsets = [0.125; 24];
    let mut quads = [1515870810u32; 20];
    ask_mesh(
        rt,
        nx,
        ny,
        nz,
        samples,
        t,
        &mut words,
        &mut offsets,
        &mut quads,
    )
}

// Room for 7 vertices and 5 quads.
fn few_both(rt: &impl Print, nx: u32, ny: u32, nz: u32, samples: &[u16], t: u16) -> io::Result<()> {
    let mut words = [2779096485u32; 14];
    let mut offsets = [0.125; 21];
    let mut quads = [1515870810u32; 20];
    ask_mesh(
        rt,
        nx,
        ny,
        nz,
        samples,
        t,
        &mut words,
        &mut offsets,
        &mut quads,
    )
}

// Counting the block of the paper, and each refusal of a count. The last has a ceiling, which no count shows.
fn counting(
    rt: &impl Print,
    block: &[u16; 27],
    bright: &[u16; 27],
    less: &[u16; 26],
    more: &[u16; 28],
) -> io::Result<()> {
    ask_counts(rt, 3, 3, 3, block, 100)?;
    ask_counts(rt, 3, 3, 3, block, 1)?;
    ask_counts(rt, 3, 3, 3, block, 65534)?;
    ask_counts(rt, 1, 2, 2, block, 100)?;
    ask_counts(rt, 2, 2, 257, block, 100)?;
    ask_counts(rt, 3, 3, 3, less, 100)?;
    ask_counts(rt, 3, 3, 3, more, 100)?;
    ask_counts(rt, 3, 3, 3, block, 0)?;
    ask_counts(rt, 3, 3, 3, block, 65535)?;
    ask_counts(rt, 3, 3, 3, bright, 100)
}

// The mesh of that block, with each room, and each refusal. With a ceiling it has one vertex more, and the mark in two words.
fn meshing(
    rt: &impl Print,
    block: &[u16; 27],
    bright: &[u16; 27],
    less: &[u16; 26],
    more: &[u16; 28],
) -> io::Result<()> {
    exact(rt, 3, 3, 3, block, 100)?;
    ample(rt, 3, 3, 3, block, 100)?;
    exact(rt, 3, 3, 3, block, 1)?;
    exact(rt, 3, 3, 3, block, 65534)?;
    exact(rt, 1, 2, 2, block, 100)?;
    exact(rt, 2, 2, 257, block, 100)?;
    exact(rt, 3, 3, 3, less, 100)?;
    exact(rt, 3, 3, 3, more, 100)?;
    exact(rt, 3, 3, 3, block, 0)?;
    exact(rt, 3, 3, 3, block, 65535)?;
    ample(rt, 3, 3, 3, bright, 100)?;
    few_vertices(rt, 3, 3, 3, block, 100)?;
    few_offsets(rt, 3, 3, 3, block, 100)?;
    few_quads(rt, 3, 3, 3, block, 100)?;
    few_both(rt, 3, 3, 3, block, 100)
}

// Two refusals due: the lower number is given. 1 before 2, 3, 5 and 6, 2 before 3, 5 and 6, 3 before 5 and 6; 5 before 6 stands above. A ceiling is
// no reason to refuse: 1, 2 and 3 are given as without it, and 5 where there is no room for its vertex.
fn orders(
    rt: &impl Print,
    block: &[u16; 27],
    bright: &[u16; 27],
    less: &[u16; 26],
    dark: &[u16; 26],
) -> io::Result<()> {
    exact(rt, 3, 3, 257, less, 100)?;
    exact(rt, 3, 3, 257, block, 0)?;
    exact(rt, 3, 3, 257, bright, 100)?;
    few_vertices(rt, 3, 3, 257, block, 100)?;
    few_quads(rt, 3, 3, 257, block, 100)?;
    exact(rt, 3, 3, 3, less, 0)?;
    exact(rt, 3, 3, 3, dark, 100)?;
    few_vertices(rt, 3, 3, 3, less, 100)?;
    few_quads(rt, 3, 3, 3, less, 100)?;
    exact(rt, 3, 3, 3, bright, 65535)?;
    few_vertices(rt, 3, 3, 3, block, 0)?;
    few_quads(rt, 3, 3, 3, block, 0)?;
    few_vertices(rt, 3, 3, 3, bright, 100)?;
    few_quads(rt, 3, 3, 3, bright, 100)
}

// The block of the paper: 400 in the middle of 3 samples along each axis, and 0 elsewhere; with its last sample at the ceiling; and with one
// sample less, one more, and one less of which one is at the ceiling.
fn blocks(rt: &impl Print) -> io::Result<()> {
    let block = [
        0u16, 0, 0, 0, 0, 0, 0, 0, 0, 0, 0, 0, 0, 400, 0, 0, 0, 0, 0, 0, 0, 0, 0, 0, 0, 0, 0,
    ];
    let bright = [
        0u16, 0, 0, 0, 0, 0, 0, 0, 0, 0, 0, 0, 0, 400, 0, 0, 0, 0, 0, 0, 0, 0, 0, 0, 0, 0, 65535,
    ];
    let less = [
        0u16, 0, 0, 0, 0, 0, 0, 0, 0, 0, 0, 0, 0, 400, 0, 0, 0, 0, 0, 0, 0, 0, 0, 0, 0, 0,
    ];
    let more = [
        0u16, 0, 0, 0, 0, 0, 0, 0, 0, 0, 0, 0, 0, 400, 0, 0, 0, 0, 0, 0, 0, 0, 0, 0, 0, 0, 0, 0,
    ];
    let dark = [
        0u16, 0, 0, 0, 0, 0, 0, 0, 0, 0, 0, 0, 0, 65535, 0, 0, 0, 0, 0, 0, 0, 0, 0, 0, 0, 0,
    ];
    counting(rt, &block, &bright, &less, &more)?;
    meshing(rt, &block, &bright, &less, &more)?;
    orders(rt, &block, &bright, &less, &dark)
}

fn closure_is(rt: &impl Print, closure: Closure) -> io::Result<()> {
    match closure {
        Closure::Closed => {
            rt.write_all(b"closed ")?;
        }
        Closure::Open { quad, side } => {
            rt.write_all(b"open ")?;
            number(rt, quad as u64, 8)?;
            number(rt, side as u64, 1)?;
        }
        Closure::Refused(r) => {
            refusal(rt, r)?;
        }
    }
    Ok(())
}

fn ask_closed(rt: &impl Print, quads: &[u32]) -> io::Result<()> {
    rt.write_all(b"closed ")?;
    number(rt, quads.len() as u64, 8)?;
    rt.write_all(b"- ")?;
    let closure = closed::closed(quads);
    closure_is(rt, closure)?;
    end_line(rt)?;
    words_of(rt, quads)
}

// No quad; a quad alone; lengths that are no multiple of 4.
fn short_lists(rt: &impl Print) -> io::Result<()> {
    let none = [0u32; 0];
    ask_closed(rt, &none)?;
    ask_closed(rt, &[0, 1, 2, 3])?;
    ask_closed(rt, &[0])?;
    ask_closed(rt, &[0, 1])?;
    ask_closed(rt, &[0, 1, 2])?;
    ask_closed(rt, &[0, 1, 2, 3, 0])
}

// The six quads of the paper's block, and five of them.
fn six_quads(rt: &impl Print) -> io::Result<()> {
    ask_closed(
        rt,
        &[
            0, 4, 6, 2, 1, 3, 7, 5, 0, 1, 5, 4, 2, 6, 7, 3, 0, 2, 3, 1, 4, 5, 7, 6,
        ],
    )?;
    ask_closed(
        rt,
        &[0, 4, 6, 2, 1, 3, 7, 5, 0, 1, 5, 4, 2, 6, 7, 3, 0, 2, 3, 1],
    )
}

// Sides with two equal ends, while every side is walked as often one way as the other.
fn equal_ends(rt: &impl Print) -> io::Result<()> {
    ask_closed(rt, &[0, 0, 1, 2, 2, 1, 0, 0])?;
    ask_closed(rt, &[0, 1, 2, 2, 2, 2, 1, 0])?;
    ask_closed(rt, &[7, 7, 7, 7])
}

// A side walked twice one way; once each way, within one quad too; twice each way; oftener one way than the other; the first fault in a later quad or
// side.
fn walks(rt: &impl Print) -> io::Result<()> {
    ask_closed(rt, &[0, 1, 2, 3, 0, 1, 2, 3])?;
    ask_closed(rt, &[0, 1, 2, 3, 3, 2, 1, 0])?;
    ask_closed(rt, &[5, 6, 5, 7])?;
    ask_closed(rt, &[0, 1, 0, 1])?;
    ask_closed(rt, &[0, 1, 2, 3, 3, 2, 1, 0, 0, 1, 2, 3])?;
    ask_closed(rt, &[0, 1, 2, 3, 3, 2, 1, 0, 3, 2, 1, 0])?;
    ask_closed(rt, &[0, 1, 2, 3, 3, 2, 1, 0, 4, 5, 6, 7])?;
    ask_closed(rt, &[0, 1, 2, 3, 2, 1, 0, 4294967295])
}

// Two samples of metal, joined across a face whose four edges are all crossed: its mesh is closed, and one side is walked twice each way.
fn pore_of_two(rt: &impl Print) -> io::Result<()> {
    let mut samples = [0u16; 48];
    samples[21] = 300;
    samples[26] = 300;
    let mut words = [2779096485u32; 28];
    let mut offsets = [0.125; 42];
    let mut quads = [1515870810u32; 48];
    ask_mesh(
        rt,
        4,
        4,
        3,
        &samples,
        100,
        &mut words,
        &mut offsets,
        &mut quads,
    )?;
    ask_closed(rt, &quads)
}

fn work_of(rt: &impl Print, work: [u64; 14]) -> io::Result<()> {
    rt.write_all(b"  ")?;
    number(rt, work[0], 16)?;
    number(rt, work[1], 16)?;
    number(rt, work[2], 16)?;
    number(rt, work[3], 16)?;
    number(rt, work[4], 16)?;
    number(rt, work[5], 16)?;
    number(rt, work[6], 16)?;
    number(rt, work[7], 16)?;
    number(rt, work[8], 16)?;
    number(rt, work[9], 16)?;
    number(rt, work[10], 16)?;
    number(rt, work[11], 16)?;
    number(rt, work[12], 16)?;
    number(rt, work[13], 16)?;
    end_line(rt)
}

// The answer to a list with so much of the work lent; then the list, and all of the work afterwards.
fn told_with(
    rt: &impl Print,
    quads: &[u32],
    room: usize,
    closure: Closure,
    work: [u64; 14],
) -> io::Result<()> {
    rt.write_all(b"closed_with ")?;
    number(rt, quads.len() as u64, 8)?;
    number(rt, room as u64, 8)?;
    rt.write_all(b"- ")?;
    closure_is(rt, closure)?;
    end_line(rt)?;
    words_of(rt, quads)?;
    work_of(rt, work)
}

// None of the work lent, eleven words of it, twelve, and all fourteen.
fn with_none(rt: &impl Print, quads: &[u32]) -> io::Result<()> {
    let mut work = [11936128518282651045u64; 14];
    let closure = closed_with::closed_with(quads, &mut work[..0]);
    told_with(rt, quads, 0, closure, work)
}

fn with_eleven(rt: &impl Print, quads: &[u32]) -> io::Result<()> {
    let mut work = [11936128518282651045u64; 14];
    let closure = closed_with::closed_with(quads, &mut work[..11]);
    told_with(rt, quads, 11, closure, work)
}

fn with_twelve(rt: &impl Print, quads: &[u32]) -> io::Result<()> {
    let mut work = [11936128518282651045u64; 14];
    let closure = closed_with::closed_with(quads, &mut work[..12]);
    told_with(rt, quads, 12, closure, work)
}

fn with_all(rt: &impl Print, quads: &[u32]) -> io::Result<()> {
    let mut work = [11936128518282651045u64; 14];
    let closure = closed_with::closed_with(quads, &mut work);
    told_with(rt, quads, 14, closure, work)
}

// A quad and its reverse, which need 12 words: as many, more, one less and none. A quad that is folded, and one that is open.
fn works(rt: &impl Print) -> io::Result<()> {
    with_twelve(rt, &[0, 1, 2, 3, 3, 2, 1, 0])?;
    with_all(rt, &[0, 1, 2, 3, 3, 2, 1, 0])?;
    with_eleven(rt, &[0, 1, 2, 3, 3, 2, 1, 0])?;
    with_none(rt, &[0, 1, 2, 3, 3, 2, 1, 0])?;
    with_all(rt, &[4, 1, 2, 1])?;
    with_all(rt, &[0, 1, 2, 3, 2, 1, 0, 4])
}

// No quad, without room and with it; 7 alone, and before 15; as many words needed as an answer can say, and more.
fn short_works(rt: &impl Print) -> io::Result<()> {
    let none = [0u32; 0];
    with_none(rt, &none)?;
    with_all(rt, &none)?;
    with_all(rt, &[0, 1, 2])?;
    with_none(rt, &[0, 1, 2, 3, 0, 1])?;
    with_all(rt, &[0, 1, 2, 4294967290])?;
    with_all(rt, &[0, 1, 2, 4294967295])
}

fn main(rt: HostRuntime) -> io::Result<()> {
    sizes(&rt)?;
    edges(&rt)?;
    table(&rt)?;
    ties(&rt)?;
    ceilings(&rt)?;
    blocks(&rt)?;
    short_lists(&rt)?;
    six_quads(&rt)?;
    equal_ends(&rt)?;
    walks(&rt)?;
    pore_of_two(&rt)?;
    works(&rt)?;
    short_works(&rt)
}
