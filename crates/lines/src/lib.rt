// The lines of a listing (02: P3), one for each word.
#![tactic(auto)]

ghost use Rattle.std.specs.Prelude.{◌≡◌, ◌+◌, ◌≤◌, length};
ghost use Rattle.isa.specs.Word.{top_of};
ghost use Rattle.rules.specs.Lent.{over};
ghost use Rattle.rules.specs.Lines.{flag, line_of, lines_in, lines_bytes};
ghost use Rattle.pieces.specs.Lays.{Lays};
ghost use Rattle.lines.specs.Lengths.{Counts};

use isa::Instruction;

// The most bytes of a line: 20 digits, a space, 16 digits, a space and `+`, the end.
pub const LINE: usize = 40;

// A space and `+` where the word's top bits are not zero.
fn put_flag(out: &mut [u8], n: usize, w: u64) -> usize
    requires { n + 2 ≤ length out.old }
    ensures { Lays n (flag (top_of w)) out.old out.new result }
{
    if Instruction::top(w) == 0 {
        return n;
    }
    pieces::put(out, n, b" +")
}

// The line of word number i.
fn put_line(out: &mut [u8], n: usize, i: u64, w: u64) -> usize
    requires { n + 40 ≤ length out.old }
    ensures { Lays n (line_of i w) out.old out.new result }
{
    let a = pieces::put_number(out, n, i as usize);
    let b = pieces::put(out, a, b" ");
    let c = pieces::put_hex(out, b, w, 16);
    let d = put_flag(out, c, w);
    pieces::put(out, d, b"\n")
}

// The line of word number i in the array's first bytes, and how many they are.
pub fn line(out: &mut [u8; LINE], i: u64, w: u64) -> usize
    ensures { (result ≡ length (line_of i w)) × ((out.new ≡ over (line_of i w) out.old) × Counts result out.new) }
{
    put_line(out, 0, i, w)
}

// The lines of the words that some bytes hold, 8 little-endian bytes each, the first with that index, in the slice's first bytes, and how many they are. Words are
// listed as far as there is room, LINE bytes for each; bytes behind the last whole word are not.
pub fn lines(out: &mut [u8], first: u64, words: &[u8]) -> usize
    ensures { (result ≡ length (lines_in first words.now out.old)) × ((out.new ≡ lines_bytes first words.now out.old) × Counts result out.new) }
{
    let whole = words.len() / 8;
    let room = out.len() / LINE;
    let mut n = 0;
    let mut k = 0;
    while k < whole && k < room {
        let i = std::num::wrapping_add_u64(first, k as u64);
        n = put_line(out, n, i, records::eight_in(words, 8 * k));
        k += 1;
    }
    n
}
