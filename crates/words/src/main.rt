// The lines of the words on standard input (02: P3), 8 little-endian bytes each, a block at a time: any number of them, in constant memory.
#![tactic(auto)]

use std::io;
use std::io::{Read, Write};

// The words of a block.
const BLOCK: u64 = 1024;

// The bytes of a block's words.
const BYTES: usize = 8192;

// Every block starts below it, so that its indices have 64 bits.
const LAST: u64 = 18446744073709550592;

// The bytes behind the last whole word.
fn left_over(rt: &impl Eprint, n: usize) -> io::Result<()> {
    eprintln!(rt; "words: bytes behind the last whole word: {n}")
}

// What ends the input: bytes left over, or nothing more.
fn ended(rt: &impl Eprint, n: usize) -> io::Result<()> {
    if n != 0 {
        left_over(rt, n)?;
    }
    Ok(())
}

// The next block, its first word with that index: whether another may follow.
fn block(rt: &HostRuntime, words: &mut Vec<u8>, out: &mut [u8], first: u64) -> io::Result<bool> {
    words.clear();
    let n = rt.stdin().take(BYTES as u64).read_to_end(words)?;
    let k = lines::lines(out, first, words);
    rt.stdout().write_all(&out[..k])?;
    if n == BYTES {
        return Ok(true);
    }
    ended(rt, n % 8)?;
    Ok(false)
}

fn main(rt: HostRuntime) -> io::Result<()> {
    let mut words = Vec::with_capacity(rt.alloc(), BYTES)?;
    let mut out = [0u8; 40960];
    let mut first = 0;
    while first < LAST && block(&rt, &mut words, &mut out, first)? {
        first += BLOCK;
    }
    Ok(())
}
