// The listing (01: Sample contracts): an image on standard input, its words or its refusal on standard output.
#![tactic(auto)]

use rules::Answer;
use std::io;
use std::io::{Read, Write};

fn refused(rt: &impl Print, a: Answer) -> io::Result<()> {
    println!(rt; "refused {} {} {}", a.refusal, a.place, a.count)
}

// A line for each word.
fn words(rt: &impl Print, code: &[u64]) -> io::Result<()> {
    println!(rt; "words {}", code.len())?;
    for (i, w) in code.iter().enumerate() {
        line(rt, i, *w)?;
    }
    Ok(())
}

fn line(rt: &impl Print, i: usize, w: u64) -> io::Result<()> {
    let mut text = [0u8; lines::LINE];
    let n = lines::line(&mut text, i as u64, w);
    io::writer(rt).write_all(&text[..n])
}

// An accepted program fits the room.
fn accepted(rt: &impl Print, code: &[u64], count: u64) -> io::Result<()> {
    if count <= (code.len() as u64) {
        let n = count as usize;
        words(rt, &code[..n])?;
    }
    Ok(())
}

fn listing(rt: &impl Print, image: &[u8]) -> io::Result<()> {
    let mut code = [0u64; 8192];
    let mut table = [0u64; 768];
    let a = compiler::build(image, &mut code, &mut table);
    if a.refusal == 0 {
        accepted(rt, &code, a.count)
    } else {
        refused(rt, a)
    }
}

fn main(rt: HostRuntime) -> io::Result<()> {
    // One byte more than an image may have: then it is refused, whatever follows.
    let mut image = Vec::new(rt.alloc());
    rt.stdin().take(65537).read_to_end(&mut image)?;
    listing(&rt, &image)
}
