// Reading the program's input (document 01, "The program"): digits, lines and numbers of upper-case hexadecimal, the rows of the table that speak of
// them, and the samples.
#![tactic(auto)]

ghost use Rattle.std.specs.Prelude.{◌≡◌, [], ◌∷◌, ℕ, ◌+◌, ◌*◌, ◌%◌, ◌≤◌, ◌<◌, length};
ghost use Rattle.laws.specs.Below.{below, over};
ghost use Rattle.block.specs.Answer.{in_order};
ghost use Rattle.block.specs.Rows.{axis_row};
ghost use Rattle.reading.specs.Text.{read_at, digit_of, number_at, right_byte, right_bytes};
ghost use Rattle.reading.specs.Faults.{fault_by, fault_row, line_row};
ghost use Rattle.reading.specs.Input.{lines_row, large_row, input_rows};
ghost use Rattle.reading.specs.Steps.{sample_read};

use block::{Checked, Cut, Size, Sized};

// What ends a line, and what is read behind the last byte: no byte is 256.
const LF: u16 = 10;

const ENDED: u16 = 256;

// The byte at a place, or 256 for the end of the input.
fn read_at(input: &[u8], at: usize) -> u16
    ensures value { result ≡ read_at input.now at }
    ensures upper_bound { result ≤ 256 }
{
    if at < input.len() {
        return input[at] as u16;
    }
    ENDED
}

// A digit's value, 16 for what is no digit.
fn digit(b: u16) -> u16
    requires { b ≤ 256 }
    ensures value { result ≡ digit_of b }
    ensures upper_bound { result ≤ 16 }
{
    if b < 48 {
        return 16;
    }
    if b < 58 {
        return b - 48;
    }
    if b < 65 {
        return 16;
    }
    if b < 71 {
        return b - 55;
    }
    16
}

// What the byte at a place counts in a number.
fn digit_at(input: &[u8], at: usize) -> u16
    ensures value { result ≡ digit_of (read_at input.now at) % 16 }
    ensures upper_bound { result < 16 }
{
    digit(read_at(input, at)) % 16
}

// The number of four digits at a place.
pub fn number(input: &[u8], at: usize) -> u16
    requires { at < 65536 }
    ensures { result ≡ number_at input.now at 4 }
{
    let a = digit_at(input, at);
    let b = digit_at(input, at + 1);
    let c = digit_at(input, at + 2);
    let d = digit_at(input, at + 3);
    ((a * 16 + b) * 16 + c) * 16 + d
}

// Whether what stands in a column of a line of n digits is right.
fn right_byte(n: usize, column: usize, b: u16) -> bool
    requires { b ≤ 256 }
    ensures { result ≡ right_byte n column b }
{
    if column < n {
        return digit(b) < 16;
    }
    b == LF
}

// How many bytes of the line of n digits at a place are right before the first wrong one.
fn right_bytes(input: &[u8], at: usize, n: usize) -> usize
    requires { (at < 65536) × (n ≤ 32) }
    ensures value { result ≡ right_bytes input.now at n }
    ensures upper_bound { result ≤ n + 1 }
{
    let mut column: usize = 0;
    while column <= n {
        let b = read_at(input, at + column);
        if !right_byte(n, column, b) {
            return column;
        }
        column += 1;
    }
    column
}

// What the first wrong byte of a line of n digits says of it: rows 8, 10, 11 and 12.
fn fault(line: u32, n: usize, column: usize, b: u16) -> Checked
    requires { (line ≤ 65) × (column ≤ 32) }
    ensures { result ≡ fault_row line (fault_by n column b) }
{
    let value = 65536 * line + (column as u32 + 1);
    if b == ENDED {
        if column == 0 {
            return block::refuse(8, line);
        }
        return block::refuse(10, value);
    }
    if b == LF {
        return block::refuse(10, value);
    }
    if column == n {
        return block::refuse(11, value);
    }
    block::refuse(12, value)
}

// The rows 8, 10, 11 and 12 of the line of n digits at a place.
fn check_line(input: &[u8], line: u32, at: usize, n: usize) -> Checked
    requires { (line ≤ 65) × (at < 65536) × (n ≤ 32) }
    ensures { result ≡ line_row input.now line at n }
{
    let column = right_bytes(input, at, n);
    if column == n + 1 {
        return Checked::Passes;
    }
    fault(line, n, column, read_at(input, at + column))
}

// The rows of the block, line by line, and what stands behind them: the first wrong line decides.
fn check_lines(input: &[u8], nx: usize, rows: u32) -> Checked
    requires { (nx ≤ 8) × (rows ≤ 64) }
    ensures { result ≡ lines_row input.now nx rows }
{
    let mut at: usize = 17;
    let mut j: u32 = 0;
    while j < rows {
        let row = check_line(input, j + 2, at, 4 * nx);
        if let Checked::Refuses(r) = row {
            return Checked::Refuses(r);
        }
        at += 4 * nx + 1;
        j += 1;
    }
    if read_at(input, at) == ENDED {
        return Checked::Passes;
    }
    block::refuse(8, rows + 2)
}

// Rows 1 and 9.
fn check_axes(nx: u32, ny: u32, nz: u32) -> Checked
    ensures { result ≡ in_order (axis_row nx ny nz ∷ large_row nx ny nz ∷ []) }
{
    let size = Size::new(nx, ny, nz);
    if let Sized::BadAxis(axis) = size {
        return block::refuse(1, axis);
    }
    if nx > 8 {
        return block::refuse(9, 0);
    }
    if ny > 8 {
        return block::refuse(9, 1);
    }
    if nz > 8 {
        return block::refuse(9, 2);
    }
    Checked::Passes
}

// All rows that the program tries, in 01's order.
pub fn check(input: &[u8], nx: u32, ny: u32, nz: u32, t: u16) -> Checked
    ensures { result ≡ in_order (input_rows input.now (record { nx = nx; ny = ny; nz = nz }) (record { t = t; noise = 0 })) }
{
    let first = check_line(input, 1, 0, 16);
    if let Checked::Refuses(r) = first {
        return Checked::Refuses(r);
    }
    let axes = check_axes(nx, ny, nz);
    if let Checked::Refuses(r) = axes {
        return Checked::Refuses(r);
    }
    let threshold = block::check_threshold(Cut { t: t, noise: 0 });
    if let Checked::Refuses(r) = threshold {
        return Checked::Refuses(r);
    }
    check_lines(input, nx as usize, ny * nz)
}

// The samples over the front of a buffer.
pub fn fill(input: &[u8], nx: usize, count: usize, samples: &mut [u16])
    requires { (0 < nx) × (nx ≤ 8) × (count ≤ 512) × (count ≤ length samples.old) }
    ensures { samples.new ≡ over (below (λ (i : ℕ). sample_read input.now nx i ∷ []) count) samples.old }
{
    let mut i: usize = 0;
    while i < count {
        samples[i] = number(input, 17 + i / nx * (4 * nx + 1) + 4 * (i % nx));
        i += 1;
    }
}
