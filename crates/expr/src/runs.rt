// Runs of Push and Pop as plain stores: the words from number n up to `end`, into one sink as far as it goes. Of the bytes the last
// word may fit in part only.
ghost use Rattle.std.specs.Prelude.{◌≡◌, ◌+◌, ◌-◌, ◌*◌, ◌≤◌};
ghost use Rattle.lent.specs.Over.{over_at};
ghost use Rattle.lent.specs.Words.{bytes_of};
ghost use Rattle.expr.specs.Runs.{run, pushes, pops};

use isa::Opcode;

// Push of the registers 1, 2, .., as numbers
pub fn push_numbers(code: &mut [u64], n: usize, end: usize)
    ensures { code.new ≡ over_at n (run pushes 1 (end - n)) code.old }
{
    let stop = end.min(code.len());
    let mut i = 0;
    for j in n..stop {
        i += 1;
        code[j] = emit::word(Opcode::Push, 0, i, 0, 0);
    }
}

// The same as bytes
pub fn push_bytes(bytes: &mut [u8], n: usize, end: usize)
    ensures { bytes.new ≡ over_at (8 * n) (bytes_of (run pushes 1 (end - n))) bytes.old }
{
    let stop = end.min(bytes.len() / 8);
    let mut j = n;
    let mut i = 0;
    while j < stop {
        i += 1;
        lent::store_word(bytes, j, emit::word(Opcode::Push, 0, i, 0, 0));
        j += 1;
    }
    if j < end {
        lent::lay_word(bytes, j, emit::word(Opcode::Push, 0, i + 1, 0, 0));
    }
}

// Pop of the registers k, k - 1, .., as numbers
pub fn pop_numbers(code: &mut [u64], n: usize, end: usize, k: u64)
    requires { end ≤ n + k }
    ensures { code.new ≡ over_at n (run (pops k) 0 (end - n)) code.old }
{
    let stop = end.min(code.len());
    let mut i = 0;
    for j in n..stop {
        code[j] = emit::word(Opcode::Pop, k - i, 0, 0, 0);
        i += 1;
    }
}

// The same as bytes
pub fn pop_bytes(bytes: &mut [u8], n: usize, end: usize, k: u64)
    requires { end ≤ n + k }
    ensures { bytes.new ≡ over_at (8 * n) (bytes_of (run (pops k) 0 (end - n))) bytes.old }
{
    let stop = end.min(bytes.len() / 8);
    let mut j = n;
    let mut i = 0;
    while j < stop {
        lent::store_word(bytes, j, emit::word(Opcode::Pop, k - i, 0, 0, 0));
        i += 1;
        j += 1;
    }
    if j < end {
        lent::lay_word(bytes, j, emit::word(Opcode::Pop, k - i, 0, 0, 0));
    }
}
