// What is known of each low byte of a word (02: P7): a table of 256 numbers, made once by whoever reads words in number, and lent.
ghost use Rattle.std.specs.Prelude.{◌≡◌, slice_index};
ghost use Rattle.isa.specs.Facts.{height_in, fact_in, Ruled};

use crate::{Fact, Height};

// An entry tells which of rd, rs1, rs2 and imm our generator may set,
const RD: u8 = 1;

const RS1: u8 = 2;

const RS2: u8 = 4;

const IMM: u8 = 8;

// whether the byte is an opcode,
const OPCODE: u8 = 16;

// and what the word does to the height: nothing, or one of these.
const UP: u8 = 32;

const DOWN: u8 = 64;

const CALL: u8 = 96;

const RET: u8 = 128;

// The table. (A constant that is indexed is made anew at each use.)
pub fn facts() -> [u8; 256]
    ensures { Ruled result }
{
    FACTS
}

// The three upper bits of an entry.
fn height(n: u8) -> Height
    ensures { result ≡ height_in n }
{
    match n {
        0 => Height::Same,
        1 => Height::Up,
        2 => Height::Down,
        3 => Height::Call,
        _ => Height::Ret,
    }
}

// What a table says of a low byte.
pub fn fact(facts: &[u8; 256], n: u8) -> Fact
    ensures { result ≡ fact_in (slice_index facts.now n) }
{
    let e = facts[n as usize];
    Fact {
        known: e / OPCODE % 2 == 1,
        rd: e / RD % 2 == 1,
        rs1: e / RS1 % 2 == 1,
        rs2: e / RS2 % 2 == 1,
        imm: e / IMM % 2 == 1,
        height: height(e / UP),
    }
}

// Each low byte's entry, from 0x00 on.
const FACTS: [u8; 256] = [
    OPCODE, // Halt
    OPCODE + RD + RS1 + RS2, // Add
    OPCODE + RD + RS1 + RS2, // Sub
    OPCODE + RD + RS1 + RS2, // Mul
    OPCODE + RD + RS1 + RS2, // Div
    OPCODE, // Inv
    OPCODE, // And
    OPCODE, // Or
    OPCODE, // Xor
    OPCODE, // Not
    OPCODE + RD + RS1 + RS2, // Eq
    OPCODE + RD + RS1 + RS2, // Neq
    OPCODE + RD + RS1 + RS2, // Lt
    OPCODE + RD + RS1 + RS2, // Gt
    OPCODE + RD + RS1 + RS2, // Lte
    OPCODE + RD + RS1 + RS2, // Gte
    OPCODE + IMM, // Jmp
    OPCODE + RS1 + IMM, // Jnz
    OPCODE + IMM + CALL, // Call
    OPCODE + RET, // Ret
    OPCODE + RD + RS1 + IMM, // Load
    OPCODE + RS1 + RS2 + IMM, // Store
    OPCODE + RS1 + UP, // Push
    OPCODE + RD + DOWN, // Pop
    OPCODE + RS1, // Assert
    OPCODE + RD + RS1 + RS2, // Poseidon
    OPCODE + RS1, // Log
    OPCODE + RD + RS2 + IMM, // SRead
    OPCODE + RS1 + RS2 + IMM, // SWrite
    OPCODE + RD + IMM, // Syscall
    OPCODE + RD + RS1 + RS2 + IMM, // VerifyMerkle
    0, // 0x1F, and all from here on: no opcode
    0,
    0,
    0,
    0,
    0,
    0,
    0,
    0,
    0,
    0,
    0,
    0,
    0,
    0,
    0,
    0,
    0,
    0,
    0,
    0,
    0,
    0,
    0,
    0,
    0,
    0,
    0,
    0,
    0,
    0,
    0,
    0,
    0,
    0,
    0,
    0,
    0,
    0,
    0,
    0,
    0,
    0,
    0,
    0,
    0,
    0,
    0,
    0,
    0,
    0,
    0,
    0,
    0,
    0,
    0,
    0,
    0,
    0,
    0,
    0,
    0,
    0,
    0,
    0,
    0,
    0,
    0,
    0,
    0,
    0,
    0,
    0,
    0,
    0,
    0,
    0,
    0,
    0,
    0,
    0,
    0,
    0,
    0,
    0,
    0,
    0,
    0,
    0,
    0,
    0,
    0,
    0,
    0,
    0,
    0,
    0,
    0,
    0,
    0,
    0,
    0,
    0,
    0,
    0,
    0,
    0,
    0,
    0,
    0,
    0,
    0,
    0,
    0,
    0,
    0,
    0,
    0,
    0,
    0,
    0,
    0,
    0,
    0,
    0,
    0,
    0,
    0,
    0,
    0,
    0,
    0,
    0,
    0,
    0,
    0,
    0,
    0,
    0,
    0,
    0,
    0,
    0,
    0,
    0,
    0,
    0,
    0,
    0,
    0,
    0,
    0,
    0,
    0,
    0,
    0,
    0,
    0,
    0,
    0,
    0,
    0,
    0,
    0,
    0,
    0,
    0,
    0,
    0,
    0,
    0,
    0,
    0,
    0,
    0,
    0,
    0,
    0,
    0,
    0,
    0,
    0,
    0,
    0,
    0,
    0,
    0,
    0,
    0,
    0,
    0,
    0,
    0,
    0,
    0,
    0,
    0,
    0,
    0,
    0,
    0,
    0,
    0,
    0,
    0,
    0,
    0,
    0,
    0,
    0,
    0,
    0,
    0,
    0,
    0,
    0,
    0,
    0,
    0,
    0,
    0,
    0,
    0,
    0,
    0,
];
