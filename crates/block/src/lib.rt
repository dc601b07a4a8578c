// The block: its size, the threshold, refusals by number, the checks of rows 1 to 3 and 15 (document 01, "The block and its numbering" and
// "Numbers of refusal"), and the samples at the detector's ceiling.
#![tactic(auto)]

ghost use Rattle.std.specs.Prelude.{◌≡◌, ℕ, ◌+◌, ◌≤◌, length, get_or};
ghost use Rattle.laws.specs.Bits.{bit};
ghost use Rattle.laws.specs.Counting.{count};
ghost use Rattle.block.specs.declared.Checked.TheVariants.{Refuses};
ghost use Rattle.block.specs.Answer.{given, in_order};
ghost use Rattle.block.specs.Block.{block_rows};
ghost use Rattle.block.specs.Ceilings.{ceilings_before, ceilings_in};
ghost use Rattle.block.specs.Grey.{is_ceiling};
ghost use Rattle.block.specs.Numbering.{sample_count};
ghost use Rattle.block.specs.Rows.{count_row, threshold_row, room_row, lowest};
ghost use Rattle.block.specs.Steps.{ClearBefore};
ghost use Rattle.block.specs.Size.{Limits, SizeMade};

// A refusal: 01's number, and the value that goes with it.
#[derive(Clone, Copy)]
pub struct Refusal {
    pub number: u32,
    pub value: u32,
}

// What one row of 01's table says of an input: it does not hold, or it is the reason to refuse.
#[derive(Clone, Copy)]
pub enum Checked {
    Passes,
    Refuses(Refusal),
}

// The threshold and the noise figure, as one value that travels whole. The noise figure is read where a doubtful face is decided, and nowhere else.
#[derive(Clone, Copy)]
pub struct Cut {
    pub t: u16,
    pub noise: u32,
}

// How many samples are at the detector's ceiling, and the lowest index of one.
#[derive(Clone, Copy)]
pub struct CeilingCount {
    pub count: u32,
    pub lowest: u32,
}

// A block's axis lengths, in samples. Only `Size::new` makes one.
#[derive(Clone, Copy)]
pub struct Size {
    nx: usize,
    ny: usize,
    nz: usize,
}

// What `Size::new` answers: a size, or the lowest axis that is out of the limits.
#[derive(Clone, Copy)]
pub enum Sized {
    Made(Size),
    BadAxis(u32),
}

impl Size {
    pub const SHORTEST: u32 = 2;

    pub const LONGEST: u32 = 256;

    // The one place where a size is made: any three axis lengths.
    pub fn new(nx: u32, ny: u32, nz: u32) -> Sized
        ensures { SizeMade nx ny nz result }
    {
        if nx < Self::SHORTEST {
            return Sized::BadAxis(0);
        }
        if nx > Self::LONGEST {
            return Sized::BadAxis(0);
        }
        if ny < Self::SHORTEST {
            return Sized::BadAxis(1);
        }
        if ny > Self::LONGEST {
            return Sized::BadAxis(1);
        }
        if nz < Self::SHORTEST {
            return Sized::BadAxis(2);
        }
        if nz > Self::LONGEST {
            return Sized::BadAxis(2);
        }
        Sized::Made(Size {
            nx: nx as usize,
            ny: ny as usize,
            nz: nz as usize,
        })
    }

    pub fn nx(self) -> usize
        ensures { result ≡ self.nx }
    {
        self.nx
    }

    pub fn ny(self) -> usize
        ensures { result ≡ self.ny }
    {
        self.ny
    }

    pub fn nz(self) -> usize
        ensures { result ≡ self.nz }
    {
        self.nz
    }

    // How many samples a block of this size has.
    fn samples(self) -> usize
        requires { Limits self }
        ensures value { result ≡ sample_count self }
        ensures upper_bound { result ≤ 16777216 }
    {
        self.nx * (self.ny * self.nz)
    }
}

// Rows 2 and 3, in this order.
pub fn check_block(size: Size, samples: &[u16], cut: Cut) -> Checked
    requires { Limits size }
    ensures { result ≡ in_order (block_rows size samples.now cut) }
{
    let count = check_count(size, samples.len());
    if let Checked::Refuses(r) = count {
        return Checked::Refuses(r);
    }
    check_threshold(cut)
}

// Row 2: the sample count is not nx·ny·nz.
pub fn check_count(size: Size, count: usize) -> Checked
    requires { Limits size }
    ensures { result ≡ count_row size count }
{
    let wanted = size.samples();
    if count == wanted {
        return Checked::Passes;
    }
    Checked::Refuses(Refusal {
        number: 2,
        value: wanted as u32,
    })
}

// Row 3: the threshold is 0 or 65,535.
pub fn check_threshold(cut: Cut) -> Checked
    ensures { result ≡ threshold_row cut }
{
    let t = cut.t;
    if t == 0 {
        return Checked::Refuses(Refusal {
            number: 3,
            value: 0,
        });
    }
    if t == 65535 {
        return Checked::Refuses(Refusal {
            number: 3,
            value: 65535,
        });
    }
    Checked::Passes
}

// A refusal with this number and value.
pub fn refuse(number: u32, value: u32) -> Checked
    ensures { result ≡ Refuses (record { number = number; value = value }) }
{
    Checked::Refuses(Refusal {
        number: number,
        value: value,
    })
}

// Row 15: there is too little room.
pub fn check_room(needed: usize, room: usize) -> Checked
    ensures { result ≡ room_row needed room }
{
    if needed <= room {
        return Checked::Passes;
    }
    refuse(15, short(needed))
}

// A number in an answer: above 4,294,967,295 it is given as that.
pub fn short(n: usize) -> u32
    ensures { result ≡ given n }
{
    if n > 4294967295 {
        return 4294967295;
    }
    n as u32
}

// How many samples are at the detector's ceiling, and the lowest index of one; where there is none, the number of samples.
pub fn ceilings(samples: &[u16]) -> CeilingCount
    ensures { result ≡ ceilings_in samples.now }
{
    let lowest = lowest_ceiling(samples);
    let count = count_ceilings(samples, lowest);
    CeilingCount {
        count: short(count),
        lowest: short(lowest),
    }
}

// The index of the first sample at the ceiling, or how many samples there are.
fn lowest_ceiling(samples: &[u16]) -> usize
    ensures { result ≡ lowest is_ceiling samples.now }
{
    let mut i = clear_before(samples);
    while i < samples.len() {
        if samples[i] == 65535 {
            return i;
        }
        i += 1;
    }
    i
}

// An index before which no sample is at the ceiling, 256 samples at a time.
fn clear_before(samples: &[u16]) -> usize
    ensures { ClearBefore samples.now result }
{
    let mut i: usize = 0;
    while samples.len() - i >= 256 {
        if ceilings_in_run(samples, i) != 0 {
            return i;
        }
        i += 256;
    }
    i
}

// How many samples are at the ceiling, where none before the index is: 256 samples at a time, then one by one.
fn count_ceilings(samples: &[u16], from: usize) -> usize
    requires { ClearBefore samples.now from }
    ensures { result ≡ ceilings_before samples.now (length samples.now) }
{
    let mut n: usize = 0;
    let mut i: usize = from;
    while samples.len() - i >= 256 {
        n += ceilings_in_run(samples, i) as usize;
        i += 256;
    }
    while i < samples.len() {
        n += at_ceiling(samples[i]) as usize;
        i += 1;
    }
    n
}

// How many of 256 samples are at the ceiling. The loop has no way out, so the compiler takes eight samples at a time.
fn ceilings_in_run(samples: &[u16], from: usize) -> u16
    requires { from + 256 ≤ length samples.now }
    ensures value { result ≡ count (λ (i : ℕ). is_ceiling (get_or samples.now (from + i) 0)) 256 }
    ensures upper_bound { result ≤ 256 }
{
    let mut n: u16 = 0;
    let mut i: usize = 0;
    while i < 256 {
        n += at_ceiling(samples[from + i]);
        i += 1;
    }
    n
}

// 1 for a sample at the ceiling, 0 for another.
fn at_ceiling(sample: u16) -> u16
    ensures value { result ≡ bit (is_ceiling sample) }
    ensures upper_bound { result ≤ 1 }
{
    if sample == 65535 {
        return 1;
    }
    0
}
