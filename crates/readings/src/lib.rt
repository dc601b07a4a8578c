// Readings of the second bench (document 02, Ten): what one reading is, whether one of a list is at fault, and a list of them as grey values.
#![tactic(auto)]

ghost use Rattle.std.specs.Prelude.{◌≡◌, false, ◌≤◌, ◌<◌, T, length};
ghost use Rattle.std.specs.Float.Ieee.{fits};
ghost use Rattle.std.specs.Float.{binary32};
ghost use Rattle.laws.specs.Below.{over};
ghost use Rattle.laws.specs.Bits.{bit};
ghost use Rattle.readings.specs.Reading.{reading_of, grey_of, greys_of, bad_at, bad_row, faulty, Sound};
ghost use Rattle.readings.specs.Steps.{SoundTo, InRange, WholeOf, Capped};

use block::Checked;

// What a reading is.
#[derive(Clone, Copy)]
pub enum Reading {
    Grey(u16),
    Ceiling,
    NoNumber,
    Infinite,
    BelowZero,
}

// What a reading is. (x - x is no number exactly if x is none, or infinite.)
pub fn read(x: f32) -> Reading
    ensures { result ≡ reading_of x }
{
    if x != x {
        return Reading::NoNumber;
    }
    let d = x - x;
    if d != d {
        return Reading::Infinite;
    }
    if x < 0.0 {
        return Reading::BelowZero;
    }
    if x >= 65535.0 {
        return Reading::Ceiling;
    }
    Reading::Grey(whole(x) as u16)
}

// The greatest whole number not above x, which is from 0 to 65,535: a sum with 2 to the power of 23 is rounded to a whole number, the nearest one.
fn whole(x: f32) -> f32
    requires { InRange x }
    ensures { WholeOf x result }
{
    let near = (x + 8388608.0) - 8388608.0;
    if x < near { near - 1.0 } else { near }
}

// A reading, or 65,535 if it is higher.
fn capped(x: f32) -> f32
    requires { faulty (reading_of x) ≡ false }
    ensures { Capped x result }
{
    if x < 65535.0 { x } else { 65535.0 }
}

// The grey value of a reading without a fault: no branch, so that a loop over it is compiled to instructions for several readings at once.
fn grey(x: f32) -> u16
    requires { faulty (reading_of x) ≡ false }
    ensures { result ≡ grey_of (reading_of x) }
{
    whole(capped(x)) as u16
}

// The grey values of a part of the readings, at the front of a window.
pub fn fill(part: &[f32], window: &mut [u16])
    requires { Sound part.now × (length part.now ≤ length window.old) }
    ensures { window.new ≡ over (greys_of part.now) window.old }
{
    let n = part.len();
    let mut i: usize = 0;
    while i < n {
        window[i] = grey(part[i]);
        i += 1;
    }
}

// 1 if a reading is at fault, else 0. (The largest finite f32 is the last that passes.)
fn fault(x: f32) -> u8
    requires { T (fits binary32 x) }
    ensures value { result ≡ bit (faulty (reading_of x)) }
    ensures upper_bound { result ≤ 1 }
{
    if 0.0 <= x {
        if x <= 3.4028234663852886e38 { 0 } else { 1 }
    } else {
        1
    }
}

// Whether a reading of a part is at fault: a loop that is compiled to comparisons of several readings at once.
fn some_fault(part: &[f32]) -> bool
    ensures { (result ≡ false) → Sound part.now }
{
    let n = part.len();
    let mut seen: u8 = 0;
    let mut i: usize = 0;
    while i < n {
        seen |= fault(part[i]);
        i += 1;
    }
    seen != 0
}

// Rows 19 to 21 of one reading, which has this index.
fn check_reading(i: usize, x: f32) -> Checked
    ensures { result ≡ bad_at i (reading_of x) }
{
    let what = read(x);
    match what {
        Reading::Grey(_) => Checked::Passes,
        Reading::Ceiling => Checked::Passes,
        Reading::NoNumber => block::refuse(19, block::short(i)),
        Reading::Infinite => block::refuse(20, block::short(i)),
        Reading::BelowZero => block::refuse(21, block::short(i)),
    }
}

// The first reading at fault decides, where none before the index is at fault: one reading at a time.
fn first_fault(readings: &[f32], from: usize) -> Checked
    requires { SoundTo readings.now from }
    ensures { result ≡ bad_row readings.now }
{
    let n = readings.len();
    let mut i: usize = from;
    while i < n {
        let found = check_reading(i, readings[i]);
        if let Checked::Refuses(r) = found {
            return Checked::Refuses(r);
        }
        i += 1;
    }
    Checked::Passes
}

// Where a run of at most 1,024 readings ends.
fn run_end(p: usize, n: usize) -> usize
    requires { p < n }
    ensures lower_bound { p < result }
    ensures upper_bound { result ≤ n }
{
    if n - p < 1024 {
        return n;
    }
    p + 1024
}

// Rows 19 to 21: the first reading at fault decides. The readings are gone through 1,024 at a time, and only a run with a fault is searched.
pub fn check_readings(readings: &[f32]) -> Checked
    ensures { result ≡ bad_row readings.now }
{
    let n = readings.len();
    let mut p: usize = 0;
    while p < n {
        let end = run_end(p, n);
        if some_fault(&readings[p..end]) {
            return first_fault(readings, p);
        }
        p = end;
    }
    Checked::Passes
}
