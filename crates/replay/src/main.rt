// The stored answers of the Rust (docs/STORED.md) on standard input, held against build, build_entries, analyse and text: how many there are and how many differ.
#![tactic(auto)]

ghost use Rattle.std.specs.Prelude.{◌≤◌, ◌<◌, IfOk};

use entries::Entry;
use rules::Answer;
use std::io;
use std::io::{ErrorKind, Read};

// What each word of the code slice and each number of the table is before a build.
const WORD: u64 = 0xa5a5_a5a5_a5a5_a5a5;

const NUMBER: u64 = 0x5a5a_5a5a_5a5a_5a5a;

// What each byte lent for the text is before it is told.
const BYTE: u8 = 0xa5;

// What is stored of a case: the image's length, the rooms, the answers, and the text's length.
#[derive(Clone, Copy)]
struct Case {
    size: u64,
    room: u64,
    table: u64,
    refusal: u64,
    place: u64,
    count: u64,
    words: u64,
    entries: u64,
    analysis: u64,
    analysed: u64,
    text: u64,
}

// What build_entries leaves.
#[derive(Clone, Copy)]
struct Made {
    answer: Answer,
    entries: [Entry; 256],
}

fn le64(s: &[u8], i: usize) -> u64
    requires { i ≤ 64 }
{
    let low = records::word32(s, i);
    let high = records::word32(s, i + 4);
    low + 4294967296 * high
}

fn case_in(s: &[u8]) -> Case {
    Case {
        size: records::word32(s, 0),
        room: records::word32(s, 4),
        table: records::word32(s, 8),
        refusal: records::word32(s, 12),
        place: records::word32(s, 16),
        count: records::word32(s, 20),
        words: le64(s, 24),
        entries: le64(s, 32),
        analysis: records::word32(s, 40),
        analysed: records::word32(s, 44),
        text: records::word32(s, 48),
    }
}

// FNV-1a: where it starts.
const START: u64 = 0xcbf2_9ce4_8422_2325;

// FNV-1a: times 0x100000001B3, modulo 2^64.
fn times(x: u64) -> u64 {
    let high = x / 4294967296;
    let low = x % 4294967296;
    let t = low * 435;
    (high * 435 + t / 4294967296 + low % 16777216 * 256) % 4294967296 * 4294967296 + t % 4294967296
}

fn hashed_word(h: u64, w: u64) -> u64 {
    let mut x = h;
    let mut rest = w;
    for _ in 0..8 {
        x = times(x ^ (rest % 256));
        rest /= 256;
    }
    x
}

fn hashed(s: &[u64]) -> u64 {
    let mut h = START;
    for w in s {
        h = hashed_word(h, *w);
    }
    h
}

// The first n entries, three numbers each.
fn hashed_entries(entries: [Entry; 256], n: usize) -> u64
    requires { n ≤ 256 }
{
    let mut h = START;
    for e in &entries[..n] {
        h = hashed_word(h, e.place);
        h = hashed_word(h, e.first);
        h = hashed_word(h, e.params);
    }
    h
}

// Numbers that make no whole entry: a refusal clears them, else they stay.
fn hashed_rest(h: u64, rest: usize, refusal: u64) -> u64 {
    let w = if refusal == 0 { NUMBER } else { 0 };
    let mut x = h;
    for _ in 0..rest {
        x = hashed_word(x, w);
    }
    x
}

fn least(a: u64, b: usize) -> usize
    ensures { result ≤ b }
{
    if a < (b as u64) { a as usize } else { b }
}

// Whether analyse answers as it is stored.
fn analysed(case: Case, image: &[u8]) -> bool {
    let a = sema::analyse(image);
    if a.refusal != case.analysis {
        return false;
    }
    a.place == case.analysed
}

// Whether build's numbers are the stored ones.
fn numbered(case: Case, b: Answer) -> bool {
    if b.refusal != case.refusal {
        return false;
    }
    if b.place != case.place {
        return false;
    }
    b.count == case.count
}

// Whether both slices hold what is stored, every entry included.
fn filled(case: Case, code: &[u64], table: &[u64]) -> bool {
    if hashed(code) != case.words {
        return false;
    }
    hashed(table) == case.entries
}

fn built(case: Case, image: &[u8], code: &mut [u64], table: &mut [u64]) -> bool {
    let b = compiler::build(image, code, table);
    if numbered(case, b) {
        filled(case, code, table)
    } else {
        false
    }
}

// The same with the rooms that are stored.
fn roomed(case: Case, image: &[u8], code: &mut [u64], table: &mut [u64]) -> bool {
    let words = least(case.room, code.len());
    let entries = least(case.table, table.len());
    built(case, image, &mut code[..words], &mut table[..entries])
}

// The one function that lends entries: they come and go by value.
fn listed(image: &[u8], code: &mut [u64], entries: [Entry; 256], n: usize) -> Made
    requires { n ≤ 256 }
{
    let mut table = entries;
    let answer = entries::build::build_entries(image, code, &mut table[..n]);
    Made {
        answer,
        entries: table,
    }
}

// Whether build_entries, over the entries that so many numbers make, answers and leaves what is stored.
fn entered(case: Case, image: &[u8], code: &mut [u64], numbers: usize) -> bool
    requires { numbers ≤ 768 }
{
    let poison = Entry {
        place: NUMBER,
        first: NUMBER,
        params: NUMBER,
    };
    let n = numbers / 3;
    let made = listed(image, code, [poison; 256], n);
    let answer = made.answer;
    let entries = made.entries;
    if numbered(case, answer) {
        if hashed(code) != case.words {
            return false;
        }
        let h = hashed_entries(entries, n);
        hashed_rest(h, numbers % 3, answer.refusal) == case.entries
    } else {
        false
    }
}

// The same with the rooms that are stored.
fn entered_roomed(case: Case, image: &[u8]) -> bool {
    let mut code = [WORD; 8192];
    let words = least(case.room, 8192);
    let numbers = least(case.table, 768);
    entered(case, image, &mut code[..words], numbers)
}

// Whether text's refusal and place are the stored ones, or 0 and 0 where those are of room, which does not arise.
fn refused(case: Case, a: Answer) -> bool {
    let arises = case.refusal != 50 && case.refusal != 51;
    let refusal = if arises { case.refusal } else { 0 };
    let place = if arises { case.place } else { 0 };
    if a.refusal != refusal {
        return false;
    }
    a.place == place
}

// Whether the bytes are the stored text, and behind it what was lent.
fn spelled(out: &[u8], stored: &[u8]) -> bool {
    for i in 0..out.len() {
        let byte = if i < stored.len() { stored[i] } else { BYTE };
        if out[i] != byte {
            return false;
        }
    }
    true
}

// Whether text answers and leaves what is stored. A length over 256, whose text is not read whole, is never its count.
fn told(case: Case, image: &[u8], stored: &[u8]) -> bool {
    let mut out = [BYTE; 256];
    let a = texts::text(image, &mut out);
    if refused(case, a) {
        if a.count != case.text {
            return false;
        }
        spelled(&out, stored)
    } else {
        false
    }
}

fn differs(same: bool) -> u64
    ensures { result ≤ 1 }
{
    if same { 0 } else { 1 }
}

// How many of the four answers differ: build's, build_entries', analyse's and text's.
fn differing(case: Case, image: &[u8], stored: &[u8]) -> u64
    ensures { result ≤ 4 }
{
    let mut code = [WORD; 8192];
    let mut table = [NUMBER; 768];
    let numbers = differs(roomed(case, image, &mut code, &mut table));
    let structs = differs(entered_roomed(case, image));
    let analysis = differs(analysed(case, image));
    numbers + structs + analysis + differs(told(case, image, stored))
}

// Whether the input had bytes for the whole slice.
fn read_whole(input: &mut impl Read, buf: &mut [u8]) -> io::Result<bool> {
    match input.read_exact(buf) {
        Ok(()) => Ok(true),
        Err(e) => {
            if e.kind() == ErrorKind::UnexpectedEof {
                Ok(false)
            } else {
                Err(e)
            }
        }
    }
}

// The image and the text of a case are read, and its answers compared.
fn read(input: &mut impl Read, case: Case, image: &mut [u8], stored: &mut [u8]) -> io::Result<u64>
    ensures { IfOk result (λ n. n ≤ 4) }
{
    if !read_whole(input, image)? {
        return Ok(4);
    }
    if !read_whole(input, stored)? {
        return Ok(4);
    }
    Ok(differing(case, image, stored))
}

// The case whose stored numbers are `head`, with room for its image and its text.
fn judged(
    input: &mut impl Read,
    head: &[u8],
    image: &mut [u8],
    stored: &mut [u8],
) -> io::Result<u64>
    ensures { IfOk result (λ n. n ≤ 4) }
{
    let case = case_in(head);
    let n = least(case.size, image.len());
    let t = least(case.text, stored.len());
    read(input, case, &mut image[..n], &mut stored[..t])
}

// The answers that differ in the next case.
fn replayed(input: &mut impl Read) -> io::Result<u64>
    ensures { IfOk result (λ n. n ≤ 4) }
{
    let mut head = [0u8; 52];
    let mut image = [0u8; 65537];
    let mut stored = [0u8; 256];
    if !read_whole(input, &mut head)? {
        return Ok(4);
    }
    judged(input, &head, &mut image, &mut stored)
}

// A number of the header.
fn counted(head: &[u8], at: usize) -> u64
    requires { at ≤ 64 }
    ensures { result < 4294967296 }
{
    records::word32(head, at)
}

// So many cases, and the answers that differ in them.
fn replay(rt: &impl Print, input: &mut impl Read, cases: u64) -> io::Result<()>
    requires { cases < 4294967296 }
{
    let mut differ = 0;
    for done in 0..cases {
        differ += replayed(input)?;
    }
    println!(rt; "{cases} cases, {differ} answers differ")
}

// The stored cases; then those that have a wrong number on purpose, so that a comparison which is lost is noticed.
fn main(rt: HostRuntime) -> io::Result<()> {
    let mut input = rt.stdin();
    let mut head = [0u8; 32];
    read_whole(&mut input, &mut head)?;
    replay(&rt, &mut input, counted(&head, 8))?;
    replay(&rt, &mut input, counted(&head, 28))
}
