// The function table as numbers, three to an entry (01: place, first word, parameter count, one for each function as declared).
ghost use Rattle.std.specs.Prelude.{◌≡◌, [], ◌∷◌, ◌+◌, ◌*◌, ◌≤◌, length};
ghost use Rattle.rules.specs.Read.{function_at, places_from};
ghost use Rattle.rules.specs.Lent.{over, spread};
ghost use Rattle.lent.specs.Over.{over_at};
ghost use Rattle.tables.specs.Listed.{functions_in};
ghost use Rattle.compiler.specs.Made.{three, below};

use tables::Contract;

// How many parameters the function at f has.
pub fn param_count(img: &[u8], f: usize) -> usize
    ensures { result ≡ length (function_at img.now f).params }
{
    let list = records::past(img, records::body(img, f));
    records::count(img, records::body(img, list), records::past(img, list), 512)
}

// Entry k.
fn write(table: &mut [u64], k: usize, place: usize, first: usize, params: usize)
    requires { 3 * k + 3 ≤ length table.old }
    ensures { table.new ≡ over_at (3 * k) (place ∷ first ∷ params ∷ []) table.old }
{
    let at = 3 * k;
    table[at] = place as u64;
    table[at + 1] = first as u64;
    table[at + 2] = params as u64;
}

// The entries of all functions, whose first words are `firsts`.
pub(crate) fn fill(table: &mut [u64], contract: &Contract<'_>, firsts: &[usize; 256])
    requires { 3 * length (functions_in contract.now.img.now) ≤ length table.old }
    ensures { table.new ≡ over (spread (three contract.now.img.now firsts.now) (below (length (functions_in contract.now.img.now)))) table.old }
{
    for k in 0..contract.function_count() {
        let place = contract.function_place(k);
        write(table, k, place, firsts[k], param_count(contract.img, place));
    }
}
