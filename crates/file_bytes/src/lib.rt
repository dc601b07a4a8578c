// Text and numbers put into a buffer, as they stand in a file (document 02, Three).
#![tactic(auto)]

ghost use Rattle.std.specs.Prelude.{◌≡◌, ◌+◌, ◌≤◌, length};
ghost use Rattle.laws.specs.Put.{Put};
ghost use Rattle.file_bytes.specs.Bytes.{decimal, little_endian};

// A text at a place; answers the place behind it.
pub fn put_text(out: &mut [u8], at: usize, text: &[u8]) -> usize
    requires { at + length text.now ≤ length out.old }
    ensures put { Put out.old at text.now out.new result }
    ensures value { result ≡ at + length text.now }
{
    let mut i: usize = 0;
    while i < text.len() {
        out[at + i] = text[i];
        i += 1;
    }
    at + i
}

// How many digits a number has in decimal.
pub fn digits(n: usize) -> usize
    ensures value { result ≡ length (decimal n) }
    ensures upper_bound { result ≤ 20 }
{
    let mut count: usize = 1;
    let mut left = n;
    while left >= 10 {
        left = left / 10;
        count += 1;
    }
    count
}

// A number in decimal, its last digit first; answers the place behind it.
pub fn put_decimal(out: &mut [u8], at: usize, n: usize) -> usize
    requires { at + length (decimal n) ≤ length out.old }
    ensures put { Put out.old at (decimal n) out.new result }
    ensures value { result ≡ at + length (decimal n) }
{
    let end = at + digits(n);
    let mut next = end;
    let mut left = n;
    while next != at {
        next -= 1;
        out[next] = 48 + (left % 10) as u8;
        left = left / 10;
    }
    end
}

// A number in one byte; answers the place behind it.
pub fn put_one(out: &mut [u8], at: usize, v: u8) -> usize
    requires { at + 1 ≤ length out.old }
    ensures put { Put out.old at (little_endian 1 v) out.new result }
    ensures value { result ≡ at + 1 }
{
    out[at] = v;
    at + 1
}

// The same in four bytes, the lowest first.
pub fn put_four(out: &mut [u8], at: usize, v: u32) -> usize
    requires { at + 4 ≤ length out.old }
    ensures put { Put out.old at (little_endian 4 v) out.new result }
    ensures value { result ≡ at + 4 }
{
    out[at] = (v % 256) as u8;
    out[at + 1] = ((v >> 8) % 256) as u8;
    out[at + 2] = ((v >> 16) % 256) as u8;
    out[at + 3] = (v >> 24) as u8;
    at + 4
}

// The same in eight bytes, the lowest first.
pub fn put_eight(out: &mut [u8], at: usize, v: u64) -> usize
    requires { at + 8 ≤ length out.old }
    ensures put { Put out.old at (little_endian 8 v) out.new result }
    ensures value { result ≡ at + 8 }
{
    let middle = put_four(out, at, (v % 4294967296) as u32);
    put_four(out, middle, (v >> 32) as u32)
}
