// Why each word of a program is there (02: P5): an image on standard input; for each word its index, the place of its record, and 0 or 1 and the
// index that its offset leads to. A refusal prints `refused`, number and place.
#![tactic(auto)]

use rules::Why;
use std::io;
use std::io::Read;

// 0, or 1 and the index that the offset leads to.
fn from(w: Why) -> u64 {
    if w.patched {
        if w.target < 1000000 {
            return w.target + 1;
        }
    }
    0
}

fn refusal(rt: &impl Print, w: Why) -> io::Result<()> {
    println!(rt; "refused {} {}", w.refusal, w.place)
}

fn all(rt: &impl Print, image: &[u8]) -> io::Result<()> {
    for i in 0..8192 {
        let w = why::why(image, i);
        if w.refusal != 0 {
            return refusal(rt, w);
        }
        println!(rt; "{i} {} {}", w.place, from(w))?;
    }
    Ok(())
}

fn main(rt: HostRuntime) -> io::Result<()> {
    let mut image = Vec::new(rt.alloc());
    rt.stdin().take(65537).read_to_end(&mut image)?;
    all(&rt, &image)
}
