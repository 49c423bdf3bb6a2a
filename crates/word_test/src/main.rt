// A test: the word through its public functions: every low byte from 0 to 32 read, and what is known of it, the edge registers and top bits, patches
// and offsets, a line each; and how many of the 256 low bytes are opcodes.
#![tactic(auto)]

use isa::{Height, Instruction, Opcode};
use std::io;

fn show(rt: &impl Print, answer: Option<u64>) -> io::Result<()> {
    match answer {
        Some(w) => println!(rt; "{w:016x}"),
        None => println!(rt; "no word"),
    }
}

// A word read, and the fields written again with its top bits.
fn again(rt: &impl Print, facts: &[u8; 256], w: u64) -> io::Result<()> {
    print!(rt; "{w:016x} ")?;
    match Instruction::decode(facts, w) {
        Some((i, top)) => {
            let o = i.opcode;
            let number = o.number();
            let rd = i.rd;
            let rs1 = i.rs1;
            let rs2 = i.rs2;
            let imm = i.imm;
            print!(rt; "{number} {rd} {rs1} {rs2} {imm} {top} ")?;
            show(rt, i.encode(top))
        }
        None => println!(rt; "refused"),
    }
}

// The fields without the top bits, written again.
fn cleared(facts: &[u8; 256], w: u64) -> Option<u64> {
    match Instruction::decode_any(facts, w) {
        Some(i) => i.encode(0),
        None => None,
    }
}

// The word of an opcode's number with three registers and top bits.
fn with(facts: &[u8; 256], n: u8, rd: u8, rs1: u8, rs2: u8, top: u16) -> Option<u64> {
    match Opcode::of(facts, n) {
        Some(o) => {
            let i = Instruction {
                opcode: o,
                rd,
                rs1,
                rs2,
                imm: 7,
            };
            i.encode(top)
        }
        None => None,
    }
}

// A word for what is told, where it holds.
fn tell(rt: &impl Print, holds: bool, what: &str) -> io::Result<()> {
    if holds {
        print!(rt; " {what}")?;
    }
    Ok(())
}

// What a word does to the height.
fn told(rt: &impl Print, height: Height) -> io::Result<()> {
    match height {
        Height::Same => Ok(()),
        Height::Up => tell(rt, true, "+1"),
        Height::Down => tell(rt, true, "-1"),
        Height::Call => tell(rt, true, "call"),
        Height::Ret => tell(rt, true, "ret"),
    }
}

// What is known of a low byte.
fn known(rt: &impl Print, facts: &[u8; 256], n: u8) -> io::Result<()> {
    let f = isa::byte::fact(facts, n);
    print!(rt; "{n:02x}")?;
    tell(rt, f.known, "opcode")?;
    tell(rt, f.rd, "rd")?;
    tell(rt, f.rs1, "rs1")?;
    tell(rt, f.rs2, "rs2")?;
    tell(rt, f.imm, "imm")?;
    let height = f.height;
    told(rt, height)?;
    println!(rt)
}

// Each low byte with bits 55 to 63 set, imm -1 and the registers 31, 0 and 30; then what is known of it.
fn low_bytes(rt: &impl Print, facts: &[u8; 256]) -> io::Result<()> {
    for n in 0..33 {
        again(rt, facts, 0xffff_ffff_fff8_1f00 + n)?;
        known(rt, facts, n as u8)?;
    }
    Ok(())
}

// How many low bytes are opcodes.
fn opcodes(facts: &[u8; 256]) -> u64 {
    let mut k = 0;
    for n in 0u64..256 {
        if isa::byte::fact(facts, n as u8).known {
            k += 1;
        }
    }
    k
}

fn main(rt: HostRuntime) -> io::Result<()> {
    let facts = isa::byte::facts();
    low_bytes(&rt, &facts)?;
    let count = opcodes(&facts);
    println!(rt; "{count}")?;
    show(&rt, with(&facts, Instruction::PUSH, 31, 31, 31, 0))?;
    show(
        &rt,
        with(&facts, Instruction::PUSH, 31, 31, 31, Instruction::TOP),
    )?;
    show(&rt, with(&facts, Instruction::PUSH, 32, 0, 0, 0))?;
    show(&rt, with(&facts, Instruction::PUSH, 0, 32, 0, 0))?;
    show(&rt, with(&facts, Instruction::PUSH, 0, 0, 32, 0))?;
    show(&rt, with(&facts, Instruction::PUSH, 0, 0, 0, 512))?;
    show(
        &rt,
        with(
            &facts,
            Instruction::VERIFY_MERKLE,
            Instruction::HEAP,
            Instruction::LAST_FREE,
            Instruction::ZERO,
            1,
        ),
    )?;
    show(&rt, cleared(&facts, 0xff80_0000_0000_4011))?;
    show(&rt, cleared(&facts, 0xff80_0000_0000_401f))?;
    show(
        &rt,
        Instruction::patched(&facts, 0xff80_0000_0000_4011, Instruction::offset(3, 9)),
    )?;
    show(&rt, Instruction::patched(&facts, 0x1f, 1))
}
