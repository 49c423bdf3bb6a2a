// The function table as a lent slice of entry structs (01: What comes back). Every function over the slice is thin; what an entry holds is computed by value.
#![tactic(auto)]

ghost use Rattle.std.specs.Prelude.{◌≡◌, ◌≤◌, ◌<◌, length, get_or, set, replicate};
ghost use Rattle.rules.specs.Read.{function_at};
ghost use Rattle.rules.specs.Lent.{over};
ghost use Rattle.tables.specs.Listed.{functions_in};
ghost use Rattle.entries.specs.Entries.{blank};
ghost use Rattle.entries.specs.Rows.{entry_of, entries_of};

use tables::Contract;

pub mod build;

#[derive(Clone, Copy)]
pub struct Entry {
    pub place: u64,
    pub first: u64,
    pub params: u64,
}

// How many entries are lent.
pub fn room(table: &[Entry]) -> usize
    ensures { result ≡ length table.now }
{
    table.len()
}

// Entry i; past the end the blank one.
pub fn get(table: &[Entry], i: usize) -> Entry
    ensures { result ≡ get_or table.now i blank }
{
    if table.len() <= i {
        Entry {
            place: 0,
            first: 0,
            params: 0,
        }
    } else {
        table[i]
    }
}

// Entry i is e; the others stay. Past the end nothing is put.
pub fn put(table: &mut [Entry], i: usize, e: Entry)
    ensures { table.new ≡ set table.old i e }
{
    if i < table.len() {
        table[i] = e;
    }
}

// Every entry is blank (01: on a refusal all zero).
pub fn clear(table: &mut [Entry])
    ensures { table.new ≡ replicate (length table.old) blank }
{
    table.fill(Entry {
        place: 0,
        first: 0,
        params: 0,
    });
}

// The entry of function k (01: place, first word, parameter count).
fn entry_no(contract: &Contract<'_>, firsts: &[usize], k: usize) -> Entry
    requires { (k < length (functions_in contract.now.img.now)) × (k < length firsts.now) }
    ensures { result ≡ entry_of contract.now.img.now firsts.now k }
{
    let place = contract.function_place(k);
    Entry {
        place: place as u64,
        first: firsts[k] as u64,
        params: compiler::table::param_count(contract.img, place) as u64,
    }
}

// The entries of all functions, whose first words are `firsts`; past them what was lent.
fn fill(table: &mut [Entry], contract: &Contract<'_>, firsts: &[usize])
    requires { (length (functions_in contract.now.img.now) ≤ length firsts.now) × (length (functions_in contract.now.img.now) ≤ length table.old) }
    ensures { table.new ≡ over (entries_of contract.now.img.now firsts.now (length (functions_in contract.now.img.now))) table.old }
{
    for k in 0..contract.function_count() {
        table[k] = entry_no(contract, firsts, k);
    }
}
