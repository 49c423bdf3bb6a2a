// Where the functions, structs and storage fields of an image stand: listed once, then searched from the newest.
// A list starts at its base with the count and the heads of 61 buckets of keys of names; then a cell for each record: its place with the link beside it.
// A head is the last record of its bucket, a link the one before of the same bucket: its index + 1, 0 where there is none.
#![tactic(auto)]

ghost use Rattle.std.specs.Prelude.{◌≡◌, List, ℕ, ◌+◌, ◌*◌, ◌≤◌, ◌<◌, length, get_or};
ghost use Rattle.rules.specs.Read.{places_in};
ghost use Rattle.tables.specs.Listed.{Listed, Above, Cleared, Tabled, Named, functions_in, structs_in, storage_in};

pub const FUNCTIONS: usize = 0;

const STRUCTS: usize = 318;

const STORAGE: usize = 444;

pub const SIZE: usize = 762;

// An image of a contract, and where its functions, structs and storage fields stand.
#[derive(Clone, Copy)]
pub struct Contract<'a> {
    pub img: &'a [u8],
    pub tables: &'a [usize],
    pub ghost tabled: { Tabled img.now tables.now },
}

// The last record of a name: its index in its List and its place.
#[derive(Clone, Copy)]
pub struct Found {
    pub index: usize,
    pub place: usize,
}

// All buckets of the list at base are empty.
fn clear_heads(t: &mut [usize], base: usize)
    requires { base + 62 ≤ length t.old }
    ensures { Cleared t.old t.new base 61 }
{
    t[base + 1..base + 62].fill(0);
}

// Lists the records of the List at l, `most` of them at most.
fn fill_list(t: &mut [usize], base: usize, most: usize, img: &[u8], l: usize)
    requires { (base + 62 + most ≤ length t.old) × ((most ≤ 256) × (length img.now ≤ 65536)) }
    ensures { Listed img.now t.new base (places_in most img.now l) × Above t.old t.new base }
{
    clear_heads(t, base);
    let mut n = 0;
    for p in records::list(img, l, most) {
        let key = records::name_key(img, records::body(img, p));
        let head = base + 1 + key % 61;
        t[base + 62 + n] = records::beside(img, p, t[head]);
        t[head] = n + 1;
        n += 1;
    }
    t[base] = n;
}

// 01: a Contract is its Name, then the Lists of its storage, its structs and its functions.
pub fn fill_tables(t: &mut [usize; SIZE], img: &[u8])
    requires { length img.now ≤ 65536 }
    ensures { Tabled img.now t.new }
{
    let storage = records::past(img, records::body(img, 0));
    let structs = records::past(img, storage);
    let functions = records::past(img, structs);
    fill_list(t, FUNCTIONS, 256, img, functions);
    fill_list(t, STRUCTS, 64, img, structs);
    fill_list(t, STORAGE, 256, img, storage);
}

// The last record of the list at base whose name is the one at x, sought in its key's bucket.
fn last_named(img: &[u8], t: &[usize], base: usize, x: usize) -> Option<Found>
    requires { (ps : List ℕ) × Listed img.now t.now base ps }
    ensures { (ps : List ℕ) → Listed img.now t.now base ps → Named img.now x ps result }
{
    let key = records::name_key(img, x);
    let mut k = t[base + 1 + key % 61];
    while k != 0 {
        k -= 1;
        let cell = t[base + 62 + k];
        let p = records::place_in(cell);
        if records::same_name(img, records::body(img, p), x) {
            return Some(Found { index: k, place: p });
        }
        k = records::number_in(cell);
    }
    None
}

// The cell at i, 0 past the end.
fn cell(t: &[usize], i: usize) -> usize
    ensures { result ≡ get_or t.now i 0 }
{
    if i < t.len() { t[i] } else { 0 }
}

// The place at index i of the list at base.
fn place_at(t: &[usize], base: usize, i: usize) -> usize
    requires { base ≤ 444 }
    ensures { (img ps : List ℕ) → Listed img t.now base ps → i < length ps → result ≡ get_or ps i 0 }
{
    if i < t.len() {
        records::place_in(cell(t, base + 62 + i))
    } else {
        0
    }
}

// How many functions there are.
pub fn function_count(t: &[usize]) -> usize
    ensures { (img : List ℕ) → Tabled img t.now → result ≡ length (functions_in img) }
{
    cell(t, FUNCTIONS)
}

// How many structs there are.
pub fn struct_count(t: &[usize]) -> usize
    ensures { (img : List ℕ) → Tabled img t.now → result ≡ length (structs_in img) }
{
    cell(t, STRUCTS)
}

// The place of the function at index i.
pub fn function_place(t: &[usize], i: usize) -> usize
    ensures { (img : List ℕ) → Tabled img t.now → i < length (functions_in img) → result ≡ get_or (functions_in img) i 0 }
{
    place_at(t, FUNCTIONS, i)
}

// The place of the struct at index i.
pub fn struct_place(t: &[usize], i: usize) -> usize
    ensures { (img : List ℕ) → Tabled img t.now → i < length (structs_in img) → result ≡ get_or (structs_in img) i 0 }
{
    place_at(t, STRUCTS, i)
}

impl Contract<'_> {
    // The last function with the name at x (000: functions.get).
    pub fn function_named(&self, x: usize) -> Option<Found>
        ensures { Named self.now.img.now x (functions_in self.now.img.now) result }
    {
        last_named(self.img, self.tables, FUNCTIONS, x)
    }

    // The last struct with the name at x (001: structs.get).
    pub fn struct_named(&self, x: usize) -> Option<Found>
        ensures { Named self.now.img.now x (structs_in self.now.img.now) result }
    {
        last_named(self.img, self.tables, STRUCTS, x)
    }

    // The last storage field with the name at x (000: storage_map.get).
    pub fn storage_named(&self, x: usize) -> Option<Found>
        ensures { Named self.now.img.now x (storage_in self.now.img.now) result }
    {
        last_named(self.img, self.tables, STORAGE, x)
    }

    pub fn function_count(&self) -> usize
        ensures { result ≡ length (functions_in self.now.img.now) }
    {
        function_count(self.tables)
    }

    pub fn struct_count(&self) -> usize
        ensures { result ≡ length (structs_in self.now.img.now) }
    {
        struct_count(self.tables)
    }

    pub fn function_place(&self, i: usize) -> usize
        ensures { i < length (functions_in self.now.img.now) → result ≡ get_or (functions_in self.now.img.now) i 0 }
    {
        function_place(self.tables, i)
    }

    pub fn struct_place(&self, i: usize) -> usize
        ensures { i < length (structs_in self.now.img.now) → result ≡ get_or (structs_in self.now.img.now) i 0 }
    {
        struct_place(self.tables, i)
    }
}
