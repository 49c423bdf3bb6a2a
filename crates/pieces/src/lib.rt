// Bytes written piece by piece into a lent slice, each behind the one before it. The slice has room for them.
#![tactic(auto)]

ghost use Rattle.std.specs.Prelude.{◌≡◌, [], ◌∷◌, ◌+◌, ◌≤◌, ◌<◌, length};
ghost use Rattle.rules.specs.Texts.{digits, decimal};
ghost use Rattle.rules.specs.Lines.{hex_digits};
ghost use Rattle.rules.specs.Lines.{glyph as Lines·glyph};
ghost use Rattle.pieces.specs.Lays.{Lays};

// One byte.
fn put_byte(out: &mut [u8], n: usize, b: u8) -> usize
    requires { n + 1 ≤ length out.old }
    ensures { Lays n (b ∷ []) out.old out.new result }
{
    out[n] = b;
    n + 1
}

// A piece. Not by `copy_from_slice`, with which the archive for C needs `memmove` from outside.
pub fn put(out: &mut [u8], n: usize, s: &[u8]) -> usize
    requires { n + length s.now ≤ length out.old }
    ensures { Lays n s.now out.old out.new result }
{
    for i in 0..s.len() {
        out[n + i] = s[i];
    }
    n + s.len()
}

// A number in decimal, so many digits at most.
fn put_digits(out: &mut [u8], n: usize, v: usize, left: usize) -> usize
    requires { n + length (digits left v) ≤ length out.old }
    ensures { Lays n (digits left v) out.old out.new result }
{
    if left == 0 {
        return n;
    }
    let last = (48 + v % 10) as u8;
    if v < 10 {
        return put_byte(out, n, last);
    }
    let m = put_digits(out, n, v / 10, left - 1);
    put_byte(out, m, last)
}

// {} of a usize.
pub fn put_number(out: &mut [u8], n: usize, v: usize) -> usize
    requires { n + length (decimal v) ≤ length out.old }
    ensures { Lays n (decimal v) out.old out.new result }
{
    put_digits(out, n, v, 20)
}

// A hex digit.
fn glyph(d: u64) -> u8
    requires { d < 16 }
    ensures { result ≡ Lines·glyph d }
{
    if d < 10 {
        return (48 + d) as u8;
    }
    (87 + d) as u8
}

// The last hex digits of a number, so many.
pub fn put_hex(out: &mut [u8], n: usize, v: u64, left: usize) -> usize
    requires { n + left ≤ length out.old }
    ensures { Lays n (hex_digits left v) out.old out.new result }
{
    let mut rest = v;
    for i in (0..left).rev() {
        out[n + i] = glyph(rest % 16);
        rest /= 16;
    }
    n + left
}
