// Readings of an image's records, all total: past the image's end a byte is 0, a place is the end, a name is empty.
#![tactic(auto)]

ghost use Rattle.std.specs.Prelude.{◌≡◌, ◌+◌, ◌≤◌, ◌<◌, min, length};
ghost use Rattle.rules.specs.Bytes.{byte_at, le32, le64, kind_at, inside, after, int_at, op_at, name_at, eq_name};
ghost use Rattle.rules.specs.Read.{places_from, places_in};
ghost use Rattle.std.specs.Iterator.{YieldsFirst, item_count};
ghost use Rattle.records.specs.Records.{places_left};
ghost use Rattle.records.specs.Keys.{key_of};
ghost use Rattle.records.specs.Cells.{place_in, number_in, Beside};

// Cells for the names of a function (01: 512): two for each, and their count.
pub const NAMES: usize = 1025;

// The byte at i.
fn byte(img: &[u8], i: usize) -> u64
    ensures { (result ≡ byte_at img.now i) × (result < 256) }
{
    if i < img.len() { u64::from(img[i]) } else { 0 }
}

// Four bytes that are there: one load.
fn word_in(img: &[u8], i: usize) -> u64
    requires { i + 4 ≤ length img.now }
    ensures { (result ≡ le32 img.now i) × (result < 4294967296) }
{
    u64::from(img[i])
        + 256 * u64::from(img[i + 1])
        + 65536 * u64::from(img[i + 2])
        + 16777216 * u64::from(img[i + 3])
}

// Eight.
pub fn eight_in(img: &[u8], i: usize) -> u64
    requires { i + 8 ≤ length img.now }
    ensures { result ≡ le64 img.now i }
{
    word_in(img, i) + 4294967296 * word_in(img, i + 4)
}

// The four bytes from i on where fewer are left: names are often as short.
fn few(img: &[u8], i: usize) -> u64
    requires { (i ≤ length img.now) × (length img.now < i + 4) }
    ensures { (result ≡ le32 img.now i) × (result < 4294967296) }
{
    let n = img.len() - i;
    if n == 0 {
        return 0;
    }
    let a = u64::from(img[i]);
    if n == 1 {
        return a;
    }
    let b = a + 256 * u64::from(img[i + 1]);
    if n == 2 {
        return b;
    }
    b + 65536 * u64::from(img[i + 2])
}

// The four bytes from i on, the lowest first.
pub fn word32(img: &[u8], i: usize) -> u64
    ensures { (result ≡ le32 img.now i) × (result < 4294967296) }
{
    let n = img.len();
    let j = i.min(n);
    if n - j < 4 {
        return few(img, j);
    }
    word_in(img, j)
}

// The kind of a record that the image's end may cut.
fn kind_cut(img: &[u8], i: usize) -> u64
    requires { i ≤ length img.now }
    ensures { (result ≡ kind_at img.now i) × (result < 65536) }
{
    let a = byte(img, i + 4);
    let b = byte(img, i + 5);
    a + 256 * b
}

// The kind of the record at i (01: a record's bytes 4 and 5).
pub fn kind(img: &[u8], i: usize) -> u64
    ensures { (result ≡ kind_at img.now i) × (result < 65536) }
{
    let n = img.len();
    if i < n {
        if 6 <= n - i {
            return u64::from(img[i + 4]) + 256 * u64::from(img[i + 5]);
        }
    }
    kind_cut(img, i.min(n))
}

// Where the payload of the record at i starts.
pub fn body(img: &[u8], i: usize) -> usize
    ensures { (result ≡ inside img.now i) × (result ≤ length img.now) }
{
    let n = img.len();
    if i < n {
        if 6 <= n - i {
            return i + 6;
        }
    }
    n
}

// The place past the record at i: the end where not even its length is there.
pub fn past(img: &[u8], i: usize) -> usize
    ensures { (result ≡ after img.now i) × (result ≤ length img.now) }
{
    let n = img.len();
    if i < n {
        let left = n - i;
        if 4 <= left {
            let size = word_in(img, i) as usize;
            if size <= left - 4 {
                return i + 4 + size;
            }
        }
    }
    n
}

// The number of the Int at i.
pub fn int(img: &[u8], i: usize) -> u64
    ensures { result ≡ int_at img.now i }
{
    let p = body(img, i);
    if img.len() - p < 8 {
        return word32(img, p) + 4294967296 * word32(img, p + 4);
    }
    eight_in(img, p)
}

// The byte of the Op or Flag at i.
pub fn op(img: &[u8], i: usize) -> u64
    ensures { (result ≡ op_at img.now i) × (result < 256) }
{
    byte(img, body(img, i))
}

// The bytes of the Name at i.
pub fn name(img: &[u8], i: usize) -> &[u8]
    ensures { result.now ≡ name_at img.now i }
{
    let n = img.len();
    if i < n {
        let left = n - i;
        if 6 <= left {
            let size = word_in(img, i) as usize;
            if 2 <= size {
                if size <= left - 4 {
                    return &img[i + 6..i + 4 + size];
                }
            }
        }
    }
    let a = body(img, i);
    let e = past(img, i);
    if a <= e { &img[a..e] } else { &img[a..a] }
}

// Names of eight bytes and more: the last eight first, where names of one length differ most often.
fn same_long(a: &[u8], b: &[u8]) -> bool
    requires { (8 ≤ length a.now) × (length a.now ≡ length b.now) }
    ensures { result ≡ eq_name a.now b.now }
{
    let n = a.len();
    if eight_in(a, n - 8) != eight_in(b, n - 8) {
        return false;
    }
    let mut i = 0;
    while 8 < n - i {
        if eight_in(a, i) != eight_in(b, i) {
            return false;
        }
        i += 8;
    }
    true
}

// Names of four to seven bytes: the last four and the first four overlap.
fn same_four(a: &[u8], b: &[u8]) -> bool
    requires { (4 ≤ length a.now) × ((length a.now < 8) × (length a.now ≡ length b.now)) }
    ensures { result ≡ eq_name a.now b.now }
{
    let n = a.len();
    if word_in(a, n - 4) != word_in(b, n - 4) {
        return false;
    }
    if word_in(a, 0) != word_in(b, 0) {
        return false;
    }
    true
}

// Shorter ones.
fn same_few(a: &[u8], b: &[u8]) -> bool
    requires { length a.now ≡ length b.now }
    ensures { result ≡ eq_name a.now b.now }
{
    for i in 0..a.len() {
        if a[i] != b[i] {
            return false;
        }
    }
    true
}

// Whether two byte strings are the same.
pub fn same(a: &[u8], b: &[u8]) -> bool
    ensures { result ≡ eq_name a.now b.now }
{
    if a.len() != b.len() {
        return false;
    }
    if 8 <= a.len() {
        return same_long(a, b);
    }
    if 4 <= a.len() {
        return same_four(a, b);
    }
    same_few(a, b)
}

// Whether the Names at i and j are the same.
pub fn same_name(img: &[u8], i: usize, j: usize) -> bool
    ensures { result ≡ eq_name (name_at img.now i) (name_at img.now j) }
{
    same(name(img, i), name(img, j))
}

// Whether the Name at i is x.
pub fn is_name(img: &[u8], i: usize, x: &[u8]) -> bool
    ensures { result ≡ eq_name (name_at img.now i) x.now }
{
    same(name(img, i), x)
}

// A number that tells most byte strings apart: the first four bytes and the last four.
fn key(x: &[u8]) -> usize
    ensures { result ≡ key_of x.now }
{
    let n = x.len();
    if n < 4 {
        let all = few(x, 0) as usize;
        return all + 4294967296 * all;
    }
    word_in(x, 0) as usize + 4294967296 * (word_in(x, n - 4) as usize)
}

// The key of the Name at i.
pub fn name_key(img: &[u8], i: usize) -> usize
    ensures { result ≡ key_of (name_at img.now i) }
{
    key(name(img, i))
}

// The place p, or the end: the same name stands there.
pub fn within(img: &[u8], p: usize) -> usize
    ensures { (result ≤ length img.now) × ((name_at img.now result ≡ name_at img.now p) × (p ≤ length img.now → result ≡ p)) }
{
    p.min(img.len())
}

// A place and a number in one cell of an array: 01's images have at most 65,536 bytes.
pub fn beside(img: &[u8], p: usize, number: usize) -> usize
    requires { (length img.now ≤ 65536) × (number < 1099511627776) }
    ensures { Beside img.now p number result }
{
    within(img, p) + 131072 * number
}

// The place in a cell.
pub fn place_in(cell: usize) -> usize
    ensures { result ≡ place_in cell }
{
    cell % 131072
}

// The number beside it.
pub fn number_in(cell: usize) -> usize
    ensures { result ≡ number_in cell }
{
    cell / 131072
}

// The records from a place up to an end, so many at most: the place of each.
#[derive(Clone, Copy)]
pub struct Records<'a> {
    img: &'a [u8],
    at: usize,
    end: usize,
    left: usize,
}

impl Iterator for Records<'_> {
    type Item = usize;

    ghost next_gives = { YieldsFirst places_left };

    ghost remaining = { item_count places_left };

    fn next(&mut self) -> Option<usize> {
        if self.left == 0 || self.end <= self.at {
            return None;
        }
        let place = self.at;
        self.at = past(self.img, place);
        self.left -= 1;
        Some(place)
    }
}

// The records of the List at l.
pub fn list(img: &[u8], l: usize, most: usize) -> Records<'_>
    ensures { places_left result ≡ places_in most img.now l }
{
    Records {
        img,
        at: body(img, l),
        end: past(img, l),
        left: most,
    }
}

// How many records stand from `at` to `end`, `most` at most.
pub fn count(img: &[u8], at: usize, end: usize, most: usize) -> usize
    ensures { result ≡ length (places_from most img.now at end) }
{
    let records = Records {
        img,
        at,
        end,
        left: most,
    };
    records.count()
}
