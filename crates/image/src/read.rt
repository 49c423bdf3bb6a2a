// Readers of what is there: the caller has seen that the bytes are, so that a number is one load.
ghost use Rattle.std.specs.Prelude.{◌≡◌, true, ◌+◌, ◌-◌, ◌≤◌, ◌<◌, min, length};
ghost use Rattle.rules.specs.Bytes.{le16, le32, name_byte_lem, name_from};
ghost use Rattle.image.specs.Names.{Fours, Named};

// Two bytes, little-endian.
pub fn half(s: &[u8], at: usize) -> usize
    requires { at + 2 ≤ length s.now }
    ensures { (result ≡ le16 s.now at) × (result < 65536) }
{
    usize::from(s[at]) + 256 * usize::from(s[at + 1])
}

// Four bytes, little-endian.
pub fn word(s: &[u8], at: usize) -> usize
    requires { at + 4 ≤ length s.now }
    ensures { (result ≡ le32 s.now at) × (result < 4294967296) }
{
    usize::from(s[at])
        + 256 * usize::from(s[at + 1])
        + 65536 * usize::from(s[at + 2])
        + 16777216 * usize::from(s[at + 3])
}

// A-Z a-z 0-9 _ :
fn name_byte(x: usize) -> bool
    ensures { result ≡ name_byte_lem x }
{
    if x < 48 {
        return false;
    }
    if x <= 58 {
        return true;
    }
    if x < 65 {
        return false;
    }
    if x <= 90 {
        return true;
    }
    if x == 95 {
        return true;
    }
    if x < 97 {
        return false;
    }
    x <= 122
}

// The bytes from one place up to another are bytes of a name, one by one.
fn each_name(s: &[u8], from: usize, to: usize) -> bool
    requires { to ≤ length s.now }
    ensures { result ≡ name_from s.now from (to - from) }
{
    for p in from..to {
        if !name_byte(usize::from(s[p])) {
            return false;
        }
    }
    true
}

// Four bytes at each of two places are bytes of a name, if this says so. The top bit of each byte is what counts: none has it, and of the eight
// ends of the ranges of name bytes (48, 59, 65, 91, 95, 96, 97, 123) each has passed an odd number, told by sums with no carry.
fn fours_name(s: &[u8], p: usize, q: usize) -> bool
    requires { (p + 4 ≤ length s.now) × (q + 4 ≤ length s.now) }
    ensures { result ≡ true → Fours s.now p q }
{
    let w = word(s, p) + 4294967296 * word(s, q);
    if w & 0x8080808080808080 != 0 {
        return false;
    }
    let a = (w + 0x5050505050505050) ^ (w + 0x4545454545454545);
    let b = (w + 0x3f3f3f3f3f3f3f3f) ^ (w + 0x2525252525252525);
    let c = (w + 0x2121212121212121) ^ (w + 0x2020202020202020);
    let d = (w + 0x1f1f1f1f1f1f1f1f) ^ (w + 0x0505050505050505);
    (a ^ b ^ (c ^ d)) & 0x8080808080808080 == 0x8080808080808080
}

// The same of one to three bytes: the first, the middle and the last, with a fourth that is one of a name.
fn few_name(s: &[u8], from: usize, to: usize) -> bool
    requires { (from < to) × (to ≤ from + 3) × (to ≤ length s.now) }
    ensures { result ≡ true → Named s.now from to }
{
    let w = usize::from(s[from])
        + 256 * usize::from(s[from + (to - from) / 2])
        + 65536 * usize::from(s[to - 1])
        + 0x30000000;
    if w & 0x80808080 != 0 {
        return false;
    }
    let a = (w + 0x50505050) ^ (w + 0x45454545);
    let b = (w + 0x3f3f3f3f) ^ (w + 0x25252525);
    let c = (w + 0x21212121) ^ (w + 0x20202020);
    let d = (w + 0x1f1f1f1f) ^ (w + 0x05050505);
    (a ^ b ^ (c ^ d)) & 0x80808080 == 0x80808080
}

// The same of all the bytes, eight at a time; the last eight may have been seen in part. What that does not tell is told one by one.
pub fn all_name(s: &[u8], from: usize, to: usize) -> bool
    requires { (from < to) × (to ≤ length s.now) }
    ensures { result ≡ name_from s.now from (to - from) }
{
    if to - from < 4 {
        if few_name(s, from, to) {
            return true;
        }
        return each_name(s, from, to);
    }
    let mut p = from;
    while p + 8 < to {
        if fours_name(s, p, p + 4) {
            p += 8;
        } else {
            return each_name(s, from, to);
        }
    }
    let q = p.min(to - 4);
    if fours_name(s, q, to - 4) {
        return true;
    }
    each_name(s, from, to)
}
