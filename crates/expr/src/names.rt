// What a name stands for: a register of the scope, a function, a builtin.
//
// The scope is a lent array of numbers: the count of names (512 at most), then two cells for each: its key, and the place of its
// Name with its register beside it. The newest of a name counts.
ghost use Rattle.std.specs.Prelude.{◌≡◌, false, List, ℕ, ◌+◌, ◌*◌, ◌<◌, ◌≤◌, min, length, get_or};
ghost use Rattle.rules.specs.Bytes.{name_at};
ghost use Rattle.rules.specs.Tree.{Expr};
ghost use Rattle.rules.specs.Builtins.{builtin};
ghost use Rattle.rules.specs.Emit.{find};
ghost use Rattle.rules.specs.Read.{contract_at};
ghost use Rattle.expr.specs.Scope.{scope_in};
ghost use Rattle.expr.specs.Names.{reg_of, Unknown, builtin_of, function_in};

use tables::Contract;

#[derive(Clone, Copy)]
pub enum Builtin {
    Poseidon,
    Sender,
    Nonce,
    BlockNumber,
    Merkle,
}

// The cell at i, 0 past the end.
fn cell(a: &[usize], i: usize) -> usize
    ensures { result ≡ get_or a.now i 0 }
{
    if i < a.len() { a[i] } else { 0 }
}

// How many names are in scope.
fn names_in(scope: &[usize]) -> usize
    ensures { result ≡ min (get_or scope.now 0 0) 512 }
{
    let n = cell(scope, 0);
    if n < 512 { n } else { 512 }
}

// 000: scope.get. Names are read only where keys are equal.
pub fn lookup(img: &[u8], scope: &[usize], x: usize) -> Option<u64>
    ensures { reg_of result ≡ find (name_at img.now x) (scope_in img.now scope.now) }
{
    let key = records::name_key(img, x);
    let mut k = names_in(scope);
    while k != 0 {
        k -= 1;
        if cell(scope, 2 * k + 1) == key {
            let c = cell(scope, 2 * k + 2);
            if records::same_name(img, records::place_in(c), x) {
                return Some(records::number_in(c) as u64);
            }
        }
    }
    None
}

// 000: func_offsets.get: the last function of the name at x, as its index
pub fn function_index(contract: &Contract<'_>, x: usize) -> usize
    ensures { result ≡ function_in contract.now.img.now (name_at contract.now.img.now x) }
{
    match contract.function_named(x) {
        Some(found) => found.index,
        None => 256,
    }
}

// Whether a name with this key can be one that generate_expr knows: most calls are of others.
fn may_be_builtin(key: usize) -> bool
    ensures { result ≡ false → Unknown key }
{
    match key {
        7957689470423363440 => true, // poseidon
        8243105117560599405 => true, // msg::sender
        7305804444525359981 => true, // msg::nonce
        8243102914930764898 => true, // block::number
        7381240851469591926 => true, // verify_merkle_proof
        _ => false,
    }
}

// 000: generate_expr, Call: the names that it knows
pub fn builtin_named(img: &[u8], x: usize) -> Option<Builtin>
    ensures { builtin_of result ≡ builtin (name_at img.now x) }
{
    if !may_be_builtin(records::name_key(img, x)) {
        return None;
    }
    if records::is_name(img, x, b"poseidon") {
        return Some(Builtin::Poseidon);
    }
    if records::is_name(img, x, b"msg::sender") {
        return Some(Builtin::Sender);
    }
    if records::is_name(img, x, b"msg::nonce") {
        return Some(Builtin::Nonce);
    }
    if records::is_name(img, x, b"block::number") {
        return Some(Builtin::BlockNumber);
    }
    if records::is_name(img, x, b"verify_merkle_proof") {
        return Some(Builtin::Merkle);
    }
    None
}
