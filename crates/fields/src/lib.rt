// Where a field stands in the structs of a contract. A later struct replaces an earlier one of its name (000: struct_layouts).
#![tactic(auto)]

ghost use Rattle.std.specs.Prelude.{◌≡◌, ◌<◌, length, get_or};
ghost use Rattle.rules.specs.Bytes.{name_at, inside};
ghost use Rattle.rules.specs.Read.{second, contract_at};
ghost use Rattle.rules.specs.Layout.{offset};
ghost use Rattle.tables.specs.Listed.{structs_in};
ghost use Rattle.fields.specs.Spots.{Position, Newest, Placed, searched};

use notes::Analysed;
use tables::Contract;

// 000: fields.iter().position: the first of the name x in the List of Fields at l
fn position(img: &[u8], l: usize, x: &[u8]) -> Option<usize>
    ensures { Position img.now l x.now result }
{
    for (n, p) in records::list(img, l, 64).enumerate() {
        if records::is_name(img, records::body(img, p), x) {
            return Some(n);
        }
    }
    None
}

// Whether no later struct has the name at x, which is the name of the struct with index i.
fn is_newest(contract: &Contract<'_>, i: usize, x: usize) -> bool
    requires { (i < length (structs_in contract.now.img.now)) × (x ≡ inside contract.now.img.now (get_or (structs_in contract.now.img.now) i 0)) }
    ensures { Newest contract.now.img.now i result }
{
    match contract.struct_named(x) {
        Some(found) => found.index == i,
        None => true,
    }
}

// The position of the field x in the struct with index i, if no later one has its name: that is asked only where the field is.
pub fn position_at(contract: &Contract<'_>, i: usize, x: &[u8]) -> Option<usize>
    requires { i < length (structs_in contract.now.img.now) }
    ensures { Placed contract.now.img.now x.now i result }
{
    let img = contract.img;
    let name = records::body(img, contract.struct_place(i));
    let here = position(img, records::past(img, name), x)?;
    if is_newest(contract, i, name) {
        Some(here)
    } else {
        None
    }
}

// 000: generate_expr, FieldAccess: the offset of the field at x, by the first struct that has it, for a base of no declared struct type
// (02: P2). Its name is read once.
fn field_offset(contract: &Contract<'_>, x: usize) -> u64
    ensures { result ≡ searched (contract_at contract.now.img.now) (name_at contract.now.img.now x) }
{
    let name = records::name(contract.img, x);
    for i in 0..contract.struct_count() {
        if let Some(k) = position_at(contract, i, name) {
            return (k as u64) * 8;
        }
    }
    0
}

// 02: P2: the offset of the field at x of the access at `at`: by the struct that its base is of, if that is noted.
pub fn offset_at(analysed: &Analysed<'_>, at: usize, x: usize) -> u64
    requires { x ≡ second analysed.now.contract.img.now at }
    ensures { result ≡ offset (contract_at analysed.now.contract.img.now) at (name_at analysed.now.contract.img.now x) }
{
    match analysed.note(at) {
        Some(k) => (k as u64) * 8,
        None => field_offset(&analysed.contract, x),
    }
}
