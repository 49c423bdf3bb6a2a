// 001: sema.rs, analyze_expr, over the image. A name is the place of its record; the names in scope stand in a lent array. What it finds of
// each access is left in lent notes (02: P2).
#![tactic(auto)]

ghost use Rattle.std.specs.Prelude.{◌≡◌};
ghost use Rattle.rules.specs.Read.{expr_at, kMapping, kAccess, kLiteral, kBinary, kCall, name_in, second, struct_at, contract_at};
ghost use Rattle.rules.specs.Analyse.{inits};
ghost use Rattle.lookup.specs.Answers.{due_of, checked_of, env_of};
ghost use Rattle.typing.specs.Arguments.{args_of, sum_args, exprs_in, inits_in, one_init};
ghost use Rattle.rules.specs.Meant.{of_expr, of_exprs, of_inits};
ghost use Rattle.notes.specs.Notes.{Wrote};
ghost use Rattle.typing.specs.Gives.{expr_of, Gives};

use lookup::{Due, Fault, Misfit, Ty};
use tables::Contract;

// 001: analyze_expr, MappingRead.
#[cycle(analyze_expr)]
fn analyze_mapping(
    notes: &mut [u8; notes::SIZE],
    contract: &Contract<'_>,
    at: usize,
    d: usize,
    env: &[usize],
    top: usize,
) -> Result<Ty, Fault>
    ensures { Gives contract.now.img.now env.now notes.old notes.new top result (expr_of kMapping d contract.now.img.now at) }
{
    let img = contract.img;
    let key = records::past(img, records::body(img, at));
    analyze_expr(notes, contract, key, d, env, top)?;
    Ok(Ty::U64)
}

// 001: analyze_expr, FieldAccess.
#[cycle(analyze_expr)]
fn analyze_access(
    notes: &mut [u8; notes::SIZE],
    contract: &Contract<'_>,
    at: usize,
    d: usize,
    env: &[usize],
    top: usize,
) -> Result<Ty, Fault>
    ensures { Gives contract.now.img.now env.now notes.old notes.new top result (expr_of kAccess d contract.now.img.now at) }
{
    let img = contract.img;
    let base = records::body(img, at);
    let x = records::past(img, base);
    let b = analyze_expr(notes, contract, base, d, env, top)?;
    lookup::field_of(notes, contract, at, b, x)
}

// 001: analyze_expr, Binary.
#[cycle(analyze_expr)]
fn analyze_binary(
    notes: &mut [u8; notes::SIZE],
    contract: &Contract<'_>,
    at: usize,
    d: usize,
    env: &[usize],
    top: usize,
) -> Result<Ty, Fault>
    ensures { Gives contract.now.img.now env.now notes.old notes.new top result (expr_of kBinary d contract.now.img.now at) }
{
    let img = contract.img;
    let left = records::body(img, at);
    let op = records::past(img, left);
    let right = records::past(img, op);
    let a = analyze_expr(notes, contract, left, d, env, top)?;
    let b = analyze_expr(notes, contract, right, d, env, top)?;
    lookup::both(img, at, a, b)
}

// The arguments in the List at l, left at most, of a call that takes `params`: how many there are, and the first misfit.
#[cycle(analyze_expr)]
pub fn analyze_args(
    notes: &mut [u8; notes::SIZE],
    contract: &Contract<'_>,
    l: usize,
    left: usize,
    d: usize,
    env: &[usize],
    top: usize,
    params: Due,
) -> Result<(usize, Option<Misfit>), Fault>
    ensures { (args_of contract.now.img.now result ≡ sum_args (contract_at contract.now.img.now) (due_of contract.now.img.now params) 0 (exprs_in left d contract.now.img.now l) (env_of contract.now.img.now env.now top)) × Wrote (contract_at contract.now.img.now) notes.old notes.new (of_exprs (contract_at contract.now.img.now) (exprs_in left d contract.now.img.now l) (env_of contract.now.img.now env.now top)) (args_of contract.now.img.now result) }
{
    let img = contract.img;
    let mut due = params;
    let mut misfit = None;
    let mut n = 0;
    for p in records::list(img, l, left) {
        let b = analyze_expr(notes, contract, p, d, env, top)?;
        misfit = lookup::note(img, due, n, p, b, misfit);
        due = lookup::next_due(img, due);
        n += 1;
    }
    Ok((n, misfit))
}

// 001: analyze_expr, Call. The look-up is made first, and told last.
#[cycle(analyze_expr)]
fn analyze_call(
    notes: &mut [u8; notes::SIZE],
    contract: &Contract<'_>,
    at: usize,
    d: usize,
    env: &[usize],
    top: usize,
) -> Result<Ty, Fault>
    ensures { Gives contract.now.img.now env.now notes.old notes.new top result (expr_of kCall d contract.now.img.now at) }
{
    let img = contract.img;
    let x = records::body(img, at);
    let list = records::past(img, x);
    let c = lookup::callee_named(contract, x);
    let params = lookup::dues(img, c);
    let (n, misfit) = analyze_args(notes, contract, list, 64, d, env, top, params)?;
    lookup::apply_to(img, at, x, c, n, misfit)
}

// 001: analyze_expr, StructLiteral: the Init at `at`, of the struct at s: its value, then its field.
#[cycle(analyze_expr)]
fn analyze_init(
    notes: &mut [u8; notes::SIZE],
    contract: &Contract<'_>,
    at: usize,
    d: usize,
    env: &[usize],
    top: usize,
    s: usize,
) -> Result<(), Fault>
    ensures { (checked_of contract.now.img.now result ≡ one_init (contract_at contract.now.img.now) (struct_at contract.now.img.now s) at (name_in contract.now.img.now at) (expr_at d contract.now.img.now (second contract.now.img.now at)) (env_of contract.now.img.now env.now top)) × Wrote (contract_at contract.now.img.now) notes.old notes.new (of_expr (contract_at contract.now.img.now) (expr_at d contract.now.img.now (second contract.now.img.now at)) (env_of contract.now.img.now env.now top)) (checked_of contract.now.img.now result) }
{
    let img = contract.img;
    let value = records::past(img, records::body(img, at));
    let b = analyze_expr(notes, contract, value, d, env, top)?;
    lookup::init_fits(img, at, s, b)
}

// The Inits in the List at l, of the struct at s.
#[cycle(analyze_expr)]
fn analyze_inits(
    notes: &mut [u8; notes::SIZE],
    contract: &Contract<'_>,
    l: usize,
    d: usize,
    env: &[usize],
    top: usize,
    s: usize,
) -> Result<(), Fault>
    ensures { (checked_of contract.now.img.now result ≡ inits (contract_at contract.now.img.now) (struct_at contract.now.img.now s) (inits_in d contract.now.img.now l) (env_of contract.now.img.now env.now top)) × Wrote (contract_at contract.now.img.now) notes.old notes.new (of_inits (contract_at contract.now.img.now) (inits_in d contract.now.img.now l) (env_of contract.now.img.now env.now top)) (checked_of contract.now.img.now result) }
{
    for p in records::list(contract.img, l, 64) {
        analyze_init(notes, contract, p, d, env, top, s)?;
    }
    Ok(())
}

// 001: analyze_expr, StructLiteral.
#[cycle(analyze_expr)]
fn analyze_literal(
    notes: &mut [u8; notes::SIZE],
    contract: &Contract<'_>,
    at: usize,
    d: usize,
    env: &[usize],
    top: usize,
) -> Result<Ty, Fault>
    ensures { Gives contract.now.img.now env.now notes.old notes.new top result (expr_of kLiteral d contract.now.img.now at) }
{
    let img = contract.img;
    let x = records::body(img, at);
    let list = records::past(img, x);
    let Some(found) = contract.struct_named(x) else {
        return Err(Fault::NoStruct(at, x));
    };
    analyze_inits(notes, contract, list, d, env, top, found.place)?;
    Ok(Ty::Struct(x))
}

// 001: analyze_expr, of the expression at `at`, d records deep at most.
#[cycle(analyze_expr)]
pub fn analyze_expr(
    notes: &mut [u8; notes::SIZE],
    contract: &Contract<'_>,
    at: usize,
    d: usize,
    env: &[usize],
    top: usize,
) -> Result<Ty, Fault>
    ensures { Gives contract.now.img.now env.now notes.old notes.new top result (expr_at d contract.now.img.now at) }
{
    if d == 0 {
        return Ok(Ty::Unknown);
    }
    let img = contract.img;
    let k = records::kind(img, at);
    match k {
        64 => Ok(Ty::U64),
        65 => lookup::analyze_ident(img, at, env, top),
        66 => Ok(Ty::U64),
        67 => analyze_mapping(notes, contract, at, d - 1, env, top),
        68 => analyze_access(notes, contract, at, d - 1, env, top),
        69 => analyze_literal(notes, contract, at, d - 1, env, top),
        70 => analyze_binary(notes, contract, at, d - 1, env, top),
        71 => analyze_call(notes, contract, at, d - 1, env, top),
        _ => Ok(Ty::Unknown),
    }
}
