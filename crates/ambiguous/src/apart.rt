// Whether a field's first position differs between two structs.
ghost use Rattle.std.specs.Prelude.{◌≡◌};
ghost use Rattle.rules.specs.Bytes.{name_at};
ghost use Rattle.rules.specs.Read.{second, contract_at};
ghost use Rattle.rules.specs.Ambiguous.{is_ambiguous_lem};
ghost use Rattle.ambiguous.specs.Spots.{clash, unsure};

use notes::Analysed;
use tables::Contract;

// Two positions that differ.
fn differ(a: Option<usize>, b: Option<usize>) -> bool
    ensures { result ≡ clash a b }
{
    match (a, b) {
        (Some(i), Some(j)) => i != j,
        _ => false,
    }
}

// 01: For 30: the first position of the field at x differs between two structs.
pub fn is_ambiguous(contract: &Contract<'_>, x: usize) -> bool
    ensures { result ≡ unsure (contract_at contract.now.img.now) (name_at contract.now.img.now x) }
{
    let name = records::name(contract.img, x);
    let mut first = None;
    for i in 0..contract.struct_count() {
        let here = fields::position_at(contract, i, name);
        if differ(first, here) {
            return true;
        }
        first = first.or(here);
    }
    false
}

// 02: P2: the access at `at` to the field at x is ambiguous: only where its base is of no declared struct type, so that nothing is noted.
pub fn is_ambiguous_at(analysed: &Analysed<'_>, at: usize, x: usize) -> bool
    requires { x ≡ second analysed.now.contract.img.now at }
    ensures { result ≡ is_ambiguous_lem (contract_at analysed.now.contract.img.now) at (name_at analysed.now.contract.img.now x) }
{
    match analysed.note(at) {
        Some(_) => false,
        None => is_ambiguous(&analysed.contract, x),
    }
}
