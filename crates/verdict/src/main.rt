// Reads an image on standard input, to its end or one byte past the largest image, and writes its refusal and place.
#![tactic(auto)]

use rules::Seen;
use std::io;
use std::io::Read;

fn write(rt: &impl Print, refusal: usize, place: usize) -> io::Result<()> {
    println!(rt; "{refusal} {place}")
}

fn main(rt: HostRuntime) -> io::Result<()> {
    let mut image = Vec::new(rt.alloc());
    rt.stdin().take(65537).read_to_end(&mut image)?;
    let seen = image::check(&image);
    match seen {
        Ok(_) => write(&rt, 0, 0),
        Err((number, place)) => write(&rt, number, place),
    }
}
