// Runs `lines::run` on stored inputs and writes, for each, its name and what it got: meshes of all kinds, each refusal that the program can
// give, and orders of two. What it must write stands in the file stdout; `tests/oracle.py samples` makes that file from the cases below,
// which stand in the order in which they are run. A number after a colon in a name is the number of the refusal, and the words behind it say what its
// value names; tests/samples holds them against the answer.
#![tactic(auto)]

ghost use Rattle.std.specs.Prelude.{◌≤◌, ◌≡◌, length, take};

use std::io;

// Where the first line of a text ends.
fn first_line_end(text: &[u8]) -> usize
    ensures { (result ≤ length text.now) × (result ≡ length (take result text.now)) }
{
    let mut i: usize = 0;
    while i < text.len() {
        if text[i] == 10 {
            return i + 1;
        }
        i += 1;
    }
    i
}

fn put_first_line(rt: &impl Print, text: &[u8]) -> io::Result<()> {
    let at = first_line_end(text);
    rt.write_all(&text[..at])
}

fn try_input(rt: &impl Print, input: &[u8]) -> io::Result<()> {
    let mut out = [0u8; 112917];
    let n = lines::run(input, &mut out);
    rt.write_all(&out[..n])
}

// A case is a text: the first line is its name, and what comes after that is the input.
fn try_case(rt: &impl Print, text: &[u8]) -> io::Result<()> {
    put_first_line(rt, text)?;
    let at = first_line_end(text);
    try_input(rt, &text[at..])
}

// One cube: the paper's samples that have loops, and the decider at a tie and beside it.
fn cubes(rt: &impl Print) -> io::Result<()> {
    try_case(
        rt,
        b"# one loop, no quad\n\
          0002000200020064\n00C80000\n00000000\n00000000\n00000000\n",
    )?;
    try_case(
        rt,
        b"# two loops\n\
          0002000200020064\n006E0000\n0000006E\n00000000\n00000000\n",
    )?;
    try_case(
        rt,
        b"# a tie counts as positive: one loop\n\
          0002000200020064\n00C80000\n000000C8\n00000000\n00000000\n",
    )?;
    try_case(
        rt,
        b"# just under a tie: two loops\n\
          0002000200020064\n00C70000\n000000C8\n00000000\n00000000\n",
    )?;
    try_case(
        rt,
        b"# a sample at the threshold beside the largest grey value: two loops\n\
          0002000200020064\n00640063\n0063FFFE\n00000000\n00000000\n",
    )?;
    try_case(
        rt,
        b"# four loops, each about a metal corner\n\
          0002000200020064\n006E0000\n0000006E\n0000006E\n006E0000\n",
    )?;
    try_case(
        rt,
        b"# four loops, each about a hollow corner\n\
          0002000200020064\n012C0032\n0032012C\n0032012C\n012C0032\n",
    )
}

// Closed meshes: the paper's block, its turned pair, a sample at the threshold, and no mesh at all.
fn blocks(rt: &impl Print) -> io::Result<()> {
    try_case(
        rt,
        b"# the paper's block\n\
          0003000300030064\n000000000000\n000000000000\n000000000000\n000000000000\n000001900000\n000000000000\n000000000000\n000000000000\n000000000000\n",
    )?;
    try_case(
        rt,
        b"# a hollow sample in metal: each quad the other way round\n\
          0003000300030064\n019001900190\n019001900190\n019001900190\n019001900190\n019000000190\n019001900190\n019001900190\n019001900190\n019001900190\n",
    )?;
    try_case(
        rt,
        b"# a sample at the threshold is metal\n\
          0003000300030064\n000000000000\n000000000000\n000000000000\n000000000000\n000000640000\n000000000000\n000000000000\n000000000000\n000000000000\n",
    )?;
    try_case(
        rt,
        b"# a sample one under the threshold is hollow: no vertices, closed\n\
          0003000300030064\n000000000000\n000000000000\n000000000000\n000000000000\n000000630000\n000000000000\n000000000000\n000000000000\n000000000000\n",
    )?;
    try_case(
        rt,
        b"# all metal: no vertices, closed\n\
          0002000200020064\n00640064\n00640064\n00640064\n00640064\n",
    )?;
    try_case(
        rt,
        b"# all hollow: no vertices, closed\n\
          0002000200020064\n00000000\n00000000\n00000000\n00000000\n",
    )
}

// Two samples of one sign across a face of two cubes, and all others of the other sign. Where the decider joins the two, four quads join the vertices of
// these cubes, and one side is walked twice each way. Where it parts them, each side is walked once each way. The mesh is closed in both cases.
fn pairs(rt: &impl Print) -> io::Result<()> {
    try_case(
        rt,
        b"# two samples of metal, joined across a face along x and y: closed\n\
          0004000400030064\n0000000000000000\n0000000000000000\n0000000000000000\n0000000000000000\n0000000000000000\n0000012C00000000\n00000000012C0000\n0000000000000000\n0000000000000000\n0000000000000000\n0000000000000000\n0000000000000000\n",
    )?;
    try_case(
        rt,
        b"# the same of the other sign: closed\n\
          0004000400030064\n0096009600960096\n0096009600960096\n0096009600960096\n0096009600960096\n0096009600960096\n0096000000960096\n0096009600000096\n0096009600960096\n0096009600960096\n0096009600960096\n0096009600960096\n0096009600960096\n",
    )?;
    try_case(
        rt,
        b"# two samples of metal, joined across a face along y and z: closed\n\
          0004000400040064\n0000000000000000\n0000000000000000\n0000000000000000\n0000000000000000\n0000000000000000\n0000000000000000\n0000019000000000\n0000000000000000\n0000000000000000\n000003E800000000\n0000000000000000\n0000000000000000\n0000000000000000\n0000000000000000\n0000000000000000\n0000000000000000\n",
    )?;
    try_case(
        rt,
        b"# two samples that are parted on their face: closed\n\
          0004000400030064\n0000000000000000\n0000000000000000\n0000000000000000\n0000000000000000\n0000000000000000\n0000006E00000000\n00000000006E0000\n0000000000000000\n0000000000000000\n0000000000000000\n0000000000000000\n0000000000000000\n",
    )
}

// An open mesh, and blocks whose axes differ.
fn shapes(rt: &impl Print) -> io::Result<()> {
    try_case(
        rt,
        b"# open at the box's sides\n\
          0003000300030064\n019001900190\n019001900190\n019001900190\n000000000000\n000000000000\n000000000000\n000000000000\n000000000000\n000000000000\n",
    )?;
    try_case(
        rt,
        b"# axes 8, 2, 3\n\
          0008000200030064\n00140039005E008300A80005002A004F\n00510076009B00C0001D00420067008C\n006D009200B700140039005E008300A8\n00AA003C0096002800820014006E0000\n00C600230048006D009200B700140039\n003B000200910058001F00AE0075003C\n",
    )?;
    try_case(
        rt,
        b"# axes 2, 3, 8\n\
          0002000300080064\n00140039\n00510076\n008E00B3\n006D0092\n00AA003C\n001F00AE\n00C60023\n003B0002\n007800A9\n0057007C\n00940090\n000900A4\n00B0000D\n00250056\n0062009F\n00410066\n007E001C\n00BB009A\n009A00BF\n000F00AA\n004C0095\n002B0050\n00680070\n00A50090\n",
    )?;
    try_case(
        rt,
        b"# axes 3, 8, 2\n\
          0003000800020064\n00140039005E\n00510076009B\n008E00B30010\n00030028004D\n00400065008A\n007D00A200C7\n00BA0017003C\n002F00540079\n006D009200B7\n00AA003C0096\n001F00AE0075\n005C00580054\n009900020033\n000E00740012\n004B001E00B9\n008800900098\n",
    )?;
    try_case(
        rt,
        b"# axes 3, 4, 5\n\
          0003000400050064\n00140039005E\n00510076009B\n008E00B30010\n00030028004D\n006D009200B7\n00AA003C0096\n001F00AE0075\n005C00580054\n00C600230048\n003B00020091\n007800A90012\n00B50088005B\n0057007C00A1\n00940090008C\n000900A40077\n004600B80062\n00B0000D0032\n002500560087\n0062009F0014\n009F00200069\n",
    )
}

// Refusal 3, and the lowest and the highest threshold that pass.
fn thresholds(rt: &impl Print) -> io::Result<()> {
    try_case(
        rt,
        b"# threshold 0000: 3\n\
          0002000200020000\n00C80000\n00000000\n00000000\n00000000\n",
    )?;
    try_case(
        rt,
        b"# threshold FFFF: 3\n\
          000200020002FFFF\n00C80000\n00000000\n00000000\n00000000\n",
    )?;
    try_case(
        rt,
        b"# threshold 0001 passes\n\
          0002000200020001\n00010000\n00000000\n00000000\n00000000\n",
    )?;
    try_case(
        rt,
        b"# threshold FFFE passes\n\
          000200020002FFFE\nFFFEFFFD\n00000000\n00000000\n00000000\n",
    )
}

// Refusal 1: an axis under 2 or over 256; the value is the lowest such axis.
fn short_axes(rt: &impl Print) -> io::Result<()> {
    try_case(
        rt,
        b"# first axis 0: 1\n\
          0000000200020064\n\n\n\n\n",
    )?;
    try_case(
        rt,
        b"# first axis 1: 1\n\
          0001000200020064\n0000\n0000\n0000\n0000\n",
    )?;
    try_case(
        rt,
        b"# second axis 1: 1\n\
          0002000100020064\n00000000\n00000000\n",
    )?;
    try_case(
        rt,
        b"# third axis 1: 1\n\
          0002000200010064\n00000000\n00000000\n",
    )?;
    try_case(
        rt,
        b"# second axis 257: 1\n\
          0002010100020064\n",
    )?;
    try_case(
        rt,
        b"# third axis FFFF: 1\n\
          00020002FFFF0064\n",
    )?;
    try_case(
        rt,
        b"# second axis 257 and third axis 0: 1, the second\n\
          0002010100000064\n",
    )
}

// Refusal 9: an axis over 8; the value is the lowest such axis.
fn long_axes(rt: &impl Print) -> io::Result<()> {
    try_case(
        rt,
        b"# first axis 9: 9\n\
          0009000200020064\n000000000000000000000000000000000000\n000000000000000000000000000000000000\n000000000000000000000000000000000000\n000000000000000000000000000000000000\n",
    )?;
    try_case(
        rt,
        b"# second axis 9: 9\n\
          0002000900020064\n00000000\n00000000\n00000000\n00000000\n00000000\n00000000\n00000000\n00000000\n00000000\n00000000\n00000000\n00000000\n00000000\n00000000\n00000000\n00000000\n00000000\n00000000\n",
    )?;
    try_case(
        rt,
        b"# third axis 9: 9\n\
          0002000200090064\n00000000\n00000000\n00000000\n00000000\n00000000\n00000000\n00000000\n00000000\n00000000\n00000000\n00000000\n00000000\n00000000\n00000000\n00000000\n00000000\n00000000\n00000000\n",
    )?;
    try_case(
        rt,
        b"# third axis 256: 9\n\
          0002000201000064\n",
    )?;
    try_case(
        rt,
        b"# second and third axis over 8: 9, the second\n\
          0002000901000064\n",
    )
}

// Refusals 8, 10 and 11 at line 1: what is no line of sixteen digits.
fn line_one(rt: &impl Print) -> io::Result<()> {
    try_case(rt, b"# empty input: 8, line 1\n")?;
    try_case(
        rt,
        b"# only a line end: 10, line 1, column 1\n\
          \n",
    )?;
    try_case(
        rt,
        b"# line 1 without its end: 10, line 1, column 17\n\
          0002000200020064",
    )?;
    try_case(
        rt,
        b"# line 1 one digit short: 10, line 1, column 16\n\
          000200020002006\n00C80000\n00000000\n00000000\n00000000\n",
    )?;
    try_case(
        rt,
        b"# line 1 one digit long: 11, line 1, column 17\n\
          00020002000200640\n00C80000\n00000000\n00000000\n00000000\n",
    )?;
    try_case(
        rt,
        b"# an empty line before line 1: 10, line 1, column 1\n\
          \n0002000200020064\n00C80000\n00000000\n00000000\n00000000\n",
    )
}

// Refusals 10 and 11 at line 1, which is all that there is.
fn line_one_alone(rt: &impl Print) -> io::Result<()> {
    try_case(
        rt,
        b"# one digit and the end: 10, line 1, column 2\n\
          0",
    )?;
    try_case(
        rt,
        b"# fifteen digits and the end: 10, line 1, column 16\n\
          000200020002006",
    )?;
    try_case(
        rt,
        b"# a letter in place of the end of line 1, and nothing behind it: 11, line 1, column 17\n\
          0002000200020064x",
    )
}

// Refusals 11 and 12 at line 1: a byte in place of its end, or one that is no digit.
fn line_one_bytes(rt: &impl Print) -> io::Result<()> {
    try_case(
        rt,
        b"# CR before the end of line 1: 11, line 1, column 17\n\
          0002000200020064\r\n00C80000\n00000000\n00000000\n00000000\n",
    )?;
    try_case(
        rt,
        b"# CR in place of the end of line 1: 11, line 1, column 17\n\
          0002000200020064\r00C80000\n00000000\n00000000\n00000000\n",
    )?;
    try_case(
        rt,
        b"# a NUL byte in line 1: 12, line 1, column 1\n\
          \0002000200020064\n00C80000\n00000000\n00000000\n00000000\n",
    )?;
    try_case(
        rt,
        b"# a lower-case digit in line 1: 12, line 1, column 16\n\
          000200020002006e\n00C80000\n00000000\n00000000\n00000000\n",
    )?;
    try_case(
        rt,
        b"# a blank in line 1: 12, line 1, column 1\n\
          \x20002000200020064\n00C80000\n00000000\n00000000\n00000000\n",
    )?;
    try_case(
        rt,
        b"# a byte above 127 in line 1: 12, line 1, column 16\n\
          000200020002006\xB4\n00C80000\n00000000\n00000000\n00000000\n",
    )?;
    try_case(
        rt,
        b"# a letter in the last column of line 1: 12, line 1, column 16\n\
          000200020002006g",
    )?;
    try_case(
        rt,
        b"# two wrong bytes in line 1, which is short as well: 12, line 1, column 5\n\
          0002g00200r2\n",
    )
}

// Refusals 11 and 12 at a row: a byte in place of the end of line 3, or one that is no digit at the end of the last row, line 5.
fn row_bytes(rt: &impl Print) -> io::Result<()> {
    try_case(
        rt,
        b"# CR before the end of a row: 11, line 3, column 9\n\
          0002000200020064\n00C80000\n00000000\r\n00000000\n00000000\n",
    )?;
    try_case(
        rt,
        b"# a NUL byte in a row: 12, line 5, column 8\n\
          0002000200020064\n00C80000\n00000000\n00000000\n0000000\0\n",
    )?;
    try_case(
        rt,
        b"# a lower-case digit in a row: 12, line 5, column 8\n\
          0002000200020064\n00C80000\n00000000\n00000000\n0000000a\n",
    )?;
    try_case(
        rt,
        b"# a blank in a row: 12, line 5, column 8\n\
          0002000200020064\n00C80000\n00000000\n00000000\n0000000 \n",
    )?;
    try_case(
        rt,
        b"# a byte above 127 in a row: 12, line 5, column 8\n\
          0002000200020064\n00C80000\n00000000\n00000000\n0000000\xC6\n",
    )
}

// Refusal 12 at a row: the bytes beside the digits.
fn row_neighbours(rt: &impl Print) -> io::Result<()> {
    try_case(
        rt,
        b"# the byte before 0 in a row: 12, line 5, column 8\n\
          0002000200020064\n00C80000\n00000000\n00000000\n0000000/\n",
    )?;
    try_case(
        rt,
        b"# the byte after 9 in a row: 12, line 5, column 8\n\
          0002000200020064\n00C80000\n00000000\n00000000\n0000000:\n",
    )?;
    try_case(
        rt,
        b"# the byte before A in a row: 12, line 5, column 8\n\
          0002000200020064\n00C80000\n00000000\n00000000\n0000000@\n",
    )?;
    try_case(
        rt,
        b"# the byte after F in a row: 12, line 5, column 8\n\
          0002000200020064\n00C80000\n00000000\n00000000\n0000000G\n",
    )?;
    try_case(
        rt,
        b"# the first and last digits of both kinds pass\n\
          0002000200020064\n00C80000\n09AF0000\n00000000\n00000000\n",
    )
}

// Refusals 10 and 11 at a row: its length; and 12, where a wrong character comes first.
fn row_lengths(rt: &impl Print) -> io::Result<()> {
    try_case(
        rt,
        b"# a row one digit short: 10, line 3, column 8\n\
          0002000200020064\n00C80000\n0000000\n00000000\n00000000\n",
    )?;
    try_case(
        rt,
        b"# a row one digit long: 11, line 3, column 9\n\
          0002000200020064\n00C80000\n000000000\n00000000\n00000000\n",
    )?;
    try_case(
        rt,
        b"# an empty row: 10, line 3, column 1\n\
          0002000200020064\n00C80000\n\n00000000\n00000000\n",
    )?;
    try_case(
        rt,
        b"# a row of one sample instead of two: 10, line 2, column 5\n\
          0002000200020064\n00C8\n00000000\n00000000\n00000000\n",
    )?;
    try_case(
        rt,
        b"# a row one digit short, with a letter behind: 10, line 3, column 8\n\
          0002000200020064\n00C80000\n0000000\ng\n00000000\n",
    )?;
    try_case(
        rt,
        b"# a short row, and a row too many: 10, line 3, column 8\n\
          0002000200020064\n00C80000\n0000000\n00000000\n00000000\n00000000\n",
    )?;
    try_case(
        rt,
        b"# a row that is long and has a letter: 12, line 3, column 2\n\
          0002000200020064\n00C80000\n0g00000000\n00000000\n00000000\n",
    )
}

// Refusals 10 and 12: the number of the row in a block of nine rows, and the first of two wrong rows.
fn row_numbers(rt: &impl Print) -> io::Result<()> {
    try_case(
        rt,
        b"# the first row of nine bad: 12, line 2, column 12\n\
          0003000300030064\n00000000000G\n000000000000\n000000000000\n000000000000\n000001900000\n000000000000\n000000000000\n000000000000\n000000000000\n",
    )?;
    try_case(
        rt,
        b"# the fifth row of nine bad: 12, line 6, column 1\n\
          0003000300030064\n000000000000\n000000000000\n000000000000\n000000000000\nG00000000000\n000000000000\n000000000000\n000000000000\n000000000000\n",
    )?;
    try_case(
        rt,
        b"# the last row of nine bad: 12, line 10, column 7\n\
          0003000300030064\n000000000000\n000000000000\n000000000000\n000000000000\n000001900000\n000000000000\n000000000000\n000000000000\n000000G00000\n",
    )?;
    try_case(
        rt,
        b"# the third and the fourth row bad: 10, line 4, column 5\n\
          0002000200020064\n00C80000\n00000000\n0000\n000G0000\n",
    )
}

// Refusals 8 and 10: a row that is missing or not ended.
fn ends(rt: &impl Print) -> io::Result<()> {
    try_case(
        rt,
        b"# no rows: 8, line 2\n\
          0002000200020064\n",
    )?;
    try_case(
        rt,
        b"# the last row missing: 8, line 5\n\
          0002000200020064\n00C80000\n00000000\n00000000\n",
    )?;
    try_case(
        rt,
        b"# the last row not ended: 10, line 5, column 9\n\
          0002000200020064\n00C80000\n00000000\n00000000\n00000000",
    )?;
    try_case(
        rt,
        b"# one digit of the first row: 10, line 2, column 2\n\
          0002000200020064\n0",
    )?;
    try_case(
        rt,
        b"# the paper's block without its last byte: 10, line 10, column 13\n\
          0003000300030064\n000000000000\n000000000000\n000000000000\n000000000000\n000001900000\n000000000000\n000000000000\n000000000000\n000000000000",
    )
}

// Refusal 8: bytes after the end of the last row.
fn after_the_end(rt: &impl Print) -> io::Result<()> {
    try_case(
        rt,
        b"# the paper's block with a line end behind it: 8, line 11\n\
          0003000300030064\n000000000000\n000000000000\n000000000000\n000000000000\n000001900000\n000000000000\n000000000000\n000000000000\n000000000000\n\n",
    )?;
    try_case(
        rt,
        b"# a line end after the last row: 8, line 6\n\
          0002000200020064\n00C80000\n00000000\n00000000\n00000000\n\n",
    )?;
    try_case(
        rt,
        b"# a digit after the last row: 8, line 6\n\
          0002000200020064\n00C80000\n00000000\n00000000\n00000000\n0",
    )?;
    try_case(
        rt,
        b"# a whole row too many: 8, line 6\n\
          0002000200020064\n00C80000\n00000000\n00000000\n00000000\n00000000\n",
    )?;
    try_case(
        rt,
        b"# a NUL byte after the last row: 8, line 6\n\
          0002000200020064\n00C80000\n00000000\n00000000\n00000000\n\0",
    )?;
    try_case(
        rt,
        b"# two rows too many, the second bad: 8, line 6\n\
          0002000200020064\n00C80000\n00000000\n00000000\n00000000\n00000000\n000G\n",
    )
}

// A sample at the ceiling is metal of that value, and each vertex whose cube has such a corner carries the mark, bit 12 of its word.
fn ceilings(rt: &impl Print) -> io::Result<()> {
    try_case(
        rt,
        b"# a ceiling at the first sample: its loop is marked\n\
          0002000200020064\nFFFF0000\n00000000\n00000000\n00000000\n",
    )?;
    try_case(
        rt,
        b"# a ceiling at the last sample: both loops of the cube are marked\n\
          0002000200020064\n00C80000\n00000000\n00000000\n0000FFFF\n",
    )?;
    try_case(
        rt,
        b"# ceilings at the second and at the fifth sample: one loop, which is marked\n\
          0002000200020064\n0000FFFF\n00000000\nFFFF0000\n00000000\n",
    )?;
    try_case(
        rt,
        b"# the paper's block with its last sample at the ceiling: two of nine vertices are marked\n\
          0003000300030064\n000000000000\n000000000000\n000000000000\n000000000000\n000001900000\n000000000000\n000000000000\n000000000000\n00000000FFFF\n",
    )?;
    try_case(
        rt,
        b"# one under the ceiling: no mark\n\
          0002000200020064\nFFFE0000\n00000000\n00000000\n00000000\n",
    )
}

// 10, 11 and 12 of line 1 before 1, 9, 3 and a later line.
fn line_one_first(rt: &impl Print) -> io::Result<()> {
    try_case(
        rt,
        b"# line 1 long, an axis under 2: 11, line 1, column 17\n\
          0001000200020064 \n0000\n0000\n0000\n0000\n",
    )?;
    try_case(
        rt,
        b"# line 1 long, an axis over 8: 11, line 1, column 17\n\
          0009000200020064 \n000000000000000000000000000000000000\n000000000000000000000000000000000000\n000000000000000000000000000000000000\n000000000000000000000000000000000000\n",
    )?;
    try_case(
        rt,
        b"# line 1 long, threshold 0: 11, line 1, column 17\n\
          0002000200020000 \n00C80000\n00000000\n00000000\n00000000\n",
    )?;
    try_case(
        rt,
        b"# line 1 long, the last row missing: 11, line 1, column 17\n\
          0002000200020064 \n00C80000\n00000000\n00000000\n",
    )?;
    try_case(
        rt,
        b"# line 1 long, a row bad: 11, line 1, column 17\n\
          0002000200020064 \n00000000\n0000000G\n00000000\n00000000\n",
    )?;
    try_case(
        rt,
        b"# line 1 long, axes and threshold wrong: 11, line 1, column 17\n\
          000000090101FFFFG\n",
    )?;
    try_case(
        rt,
        b"# line 1 short, an axis over 8: 10, line 1, column 16\n\
          000900020002006\n",
    )?;
    try_case(
        rt,
        b"# line 1 short, an axis under 2, a long row: 10, line 1, column 16\n\
          000100020002006\n00000\n",
    )?;
    try_case(
        rt,
        b"# a letter in line 1, an axis over 8, a short row: 12, line 1, column 1\n\
          x009000200020064\n0000\n",
    )?;
    try_case(
        rt,
        b"# a letter in line 1, threshold 0: 12, line 1, column 13\n\
          000200020002g000\n",
    )
}

// 1 before 9, 3 and what is wrong with a row, and with ceilings too.
fn one_first(rt: &impl Print) -> io::Result<()> {
    try_case(
        rt,
        b"# axes 9, 1, 2: 1 before 9\n\
          0009000100020064\n000000000000000000000000000000000000\n000000000000000000000000000000000000\n",
    )?;
    try_case(
        rt,
        b"# axes 9, 2, 257: 1 before 9\n\
          0009000201010064\n",
    )?;
    try_case(
        rt,
        b"# an axis under 2, threshold 0: 1 before 3\n\
          0002000200010000\n00000000\n00000000\n",
    )?;
    try_case(
        rt,
        b"# an axis over 256, threshold FFFF: 1 before 3\n\
          010100020002FFFF\n",
    )?;
    try_case(
        rt,
        b"# an axis under 2, no rows: 1 before 8\n\
          0002000100020064\n",
    )?;
    try_case(
        rt,
        b"# an axis under 2, bad rows: 1 before 12\n\
          0002000100020064\n0000000G\n000",
    )?;
    try_case(
        rt,
        b"# an axis under 2, a short row: 1 before 10\n\
          0002000100020064\n0000\n00000000\n",
    )?;
    try_case(
        rt,
        b"# an axis under 2, a long row: 1 before 11\n\
          0002000100020064\n000000000\n00000000\n",
    )?;
    try_case(
        rt,
        b"# an axis under 2, every sample at the ceiling: 1\n\
          0001000200020064\nFFFF\nFFFF\nFFFF\nFFFF\n",
    )
}

// 9 before 3 and what is wrong with a row, and with a ceiling too.
fn nine_first(rt: &impl Print) -> io::Result<()> {
    try_case(
        rt,
        b"# an axis over 8, threshold 0: 9 before 3\n\
          0002000900020000\n00000000\n00000000\n00000000\n00000000\n00000000\n00000000\n00000000\n00000000\n00000000\n00000000\n00000000\n00000000\n00000000\n00000000\n00000000\n00000000\n00000000\n00000000\n",
    )?;
    try_case(
        rt,
        b"# an axis over 8, threshold FFFF: 9 before 3\n\
          000200020009FFFF\n00000000\n00000000\n00000000\n00000000\n00000000\n00000000\n00000000\n00000000\n00000000\n00000000\n00000000\n00000000\n00000000\n00000000\n00000000\n00000000\n00000000\n00000000\n",
    )?;
    try_case(
        rt,
        b"# an axis over 8, no rows: 9 before 8\n\
          0009000200020064\n",
    )?;
    try_case(
        rt,
        b"# an axis over 8, bad rows: 9 before 12\n\
          0009000200020064\nG\n000",
    )?;
    try_case(
        rt,
        b"# an axis over 8, a short row: 9 before 10\n\
          0009000200020064\n00000000000000000000000000000000000\n",
    )?;
    try_case(
        rt,
        b"# an axis over 8, a long row: 9 before 11\n\
          0009000200020064\n0000000000000000000000000000000000000\n",
    )?;
    try_case(
        rt,
        b"# an axis over 8, a ceiling: 9\n\
          0009000200020064\nFFFF00000000000000000000000000000000\n000000000000000000000000000000000000\n000000000000000000000000000000000000\n000000000000000000000000000000000000\n",
    )
}

// 3 before what is wrong with a row, and with a ceiling too.
fn three_first(rt: &impl Print) -> io::Result<()> {
    try_case(
        rt,
        b"# threshold 0, no rows: 3 before 8\n\
          0002000200020000\n",
    )?;
    try_case(
        rt,
        b"# threshold FFFF, a bad row: 3 before 12\n\
          000200020002FFFF\n00C80000\n00000000\n0000000G\n00000000\n",
    )?;
    try_case(
        rt,
        b"# threshold 0, a row too many: 3 before 8\n\
          0002000200020000\n00C80000\n00000000\n00000000\n00000000\n00000000\n",
    )?;
    try_case(
        rt,
        b"# threshold 0, a long row: 3 before 11\n\
          0002000200020000\n00C800000\n00000000\n00000000\n00000000\n",
    )?;
    try_case(
        rt,
        b"# threshold 0, an empty row: 3 before 10\n\
          0002000200020000\n\n00000000\n00000000\n00000000\n",
    )?;
    try_case(
        rt,
        b"# threshold 0, a ceiling: 3\n\
          0002000200020000\nFFFF0000\n00000000\n00000000\n00000000\n",
    )?;
    try_case(
        rt,
        b"# threshold FFFF, a ceiling: 3\n\
          000200020002FFFF\nFFFF0000\n00000000\n00000000\n00000000\n",
    )
}

// Ceilings deep in metal and everywhere, beside a pore and two samples from it, at the highest threshold, and in a bad row.
fn ceilings_in_blocks(rt: &impl Print) -> io::Result<()> {
    try_case(
        rt,
        b"# a ceiling with metal all round: no vertices, closed\n\
          0003000300030064\n00C800C800C8\n00C800C800C8\n00C800C800C8\n00C800C800C8\n00C8FFFF00C8\n00C800C800C8\n00C800C800C8\n00C800C800C8\n00C800C800C8\n",
    )?;
    try_case(
        rt,
        b"# every sample at the ceiling: no vertices, closed\n\
          0002000200020064\nFFFFFFFF\nFFFFFFFF\nFFFFFFFF\nFFFFFFFF\n",
    )?;
    try_case(
        rt,
        b"# a ceiling beside a pore: four of eight vertices are marked\n\
          0004000300030064\n0190019001900190\n0190019001900190\n0190019001900190\n0190019001900190\n01900000FFFF0190\n0190019001900190\n0190019001900190\n0190019001900190\n0190019001900190\n",
    )?;
    try_case(
        rt,
        b"# a ceiling two samples from a pore, at the box's side: none is marked\n\
          0004000300030064\n0190019001900190\n0190019001900190\n0190019001900190\n0190019001900190\n019000000190FFFF\n0190019001900190\n0190019001900190\n0190019001900190\n0190019001900190\n",
    )?;
    try_case(
        rt,
        b"# threshold FFFE, a ceiling beside FFFD: half way\n\
          000200020002FFFE\nFFFFFFFD\nFFFDFFFD\nFFFDFFFD\nFFFDFFFD\n",
    )?;
    try_case(
        rt,
        b"# a bad row with a ceiling in it: 12, line 3, column 8\n\
          0002000200020064\n00000000\nFFFF000G\n00000000\n00000000\n",
    )
}

// The byte at a place of the checkerboard's input: eight samples along each axis, 110 and 0 in turn, at t = 100. A line has 33 bytes.
fn board_byte(at: usize) -> u8 {
    let head = b"0008000800080064\n";
    if at < 17 {
        return head[at];
    }
    let column = (at - 17) % 33;
    let row = (at - 17) / 33;
    if column == 32 {
        return 10;
    }
    let metal = b"006E";
    if (column / 4 + row % 8 + row / 8 % 8) % 2 == 0 {
        return metal[column % 4];
    }
    48
}

fn fill_board(board: &mut [u8]) {
    let mut i: usize = 0;
    while i < board.len() {
        board[i] = board_byte(i);
        i += 1;
    }
}

// The first bytes of the checkerboard's input, which has 2,129, and a digit more. Of the output its length and its first line.
fn try_board(rt: &impl Print, name: &[u8], n: usize) -> io::Result<()>
    requires { n ≤ 2130 }
{
    rt.write_all(name)?;
    let mut input = [0u8; 2130];
    fill_board(&mut input);
    let mut out = [0u8; 112917];
    let m = lines::run(&input[..n], &mut out);
    print!(rt; "{m:08x}")?;
    rt.write_all(b"\n")?;
    put_first_line(rt, &out[..m])
}

// The largest output, 112,917 bytes; and the last of 64 rows.
fn boards(rt: &impl Print) -> io::Result<()> {
    try_board(
        rt,
        b"# a checkerboard of eight samples along each axis: the length of its mesh, and the first line\n",
        2129,
    )?;
    try_board(
        rt,
        b"# its last row not ended: 10, line 65, column 33\n",
        2128,
    )?;
    try_board(rt, b"# a digit after its last row: 8, line 66\n", 2130)
}

fn main(rt: HostRuntime) -> io::Result<()> {
    cubes(&rt)?;
    blocks(&rt)?;
    pairs(&rt)?;
    shapes(&rt)?;
    thresholds(&rt)?;
    short_axes(&rt)?;
    long_axes(&rt)?;
    line_one(&rt)?;
    line_one_alone(&rt)?;
    line_one_bytes(&rt)?;
    row_bytes(&rt)?;
    row_neighbours(&rt)?;
    row_lengths(&rt)?;
    row_numbers(&rt)?;
    ends(&rt)?;
    after_the_end(&rt)?;
    ceilings(&rt)?;
    line_one_first(&rt)?;
    one_first(&rt)?;
    nine_first(&rt)?;
    three_first(&rt)?;
    ceilings_in_blocks(&rt)?;
    boards(&rt)
}
