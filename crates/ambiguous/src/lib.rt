// 01: For 30: the first access in the image whose field has another first position in another struct.
#![tactic(auto)]

ghost use Rattle.std.specs.Prelude.{◌≡◌};
ghost use Rattle.rules.specs.Bytes.{inside, after};
ghost use Rattle.rules.specs.Tables.{or_else};
ghost use Rattle.rules.specs.Read.{expr_at, expr_as, exprs_from, inits_from, kAccess, stmt_at_lem, stmt_as, stmt_kind_of, body_at, sIf, sWhile, sFor, sReturn, contract_at};
ghost use Rattle.rules.specs.Ambiguous.{in_expr_lem, in_exprs, in_inits_lem, in_stmt_lem, in_stmts, first_ambiguous_lem};

use notes::Analysed;

mod agree;
mod apart;

// The place of a record's second part.
fn second(img: &[u8], at: usize) -> usize
    ensures { result ≡ after img.now (inside img.now at) }
{
    records::past(img, records::body(img, at))
}

// An access stands before its base.
#[cycle(in_expr)]
fn in_access(analysed: &Analysed<'_>, d: usize, at: usize) -> Option<usize>
    ensures { result ≡ in_expr_lem (contract_at analysed.now.contract.img.now) (expr_as kAccess (expr_at d analysed.now.contract.img.now) analysed.now.contract.img.now at) }
{
    let img = analysed.contract.img;
    let base = records::body(img, at);
    if apart::is_ambiguous_at(analysed, at, records::past(img, base)) {
        return Some(at);
    }
    in_expr(analysed, d, base)
}

// The expressions at a and at b.
#[cycle(in_expr)]
fn in_two(analysed: &Analysed<'_>, d: usize, a: usize, b: usize) -> Option<usize>
    ensures { result ≡ or_else (in_expr_lem (contract_at analysed.now.contract.img.now) (expr_at d analysed.now.contract.img.now a)) (in_expr_lem (contract_at analysed.now.contract.img.now) (expr_at d analysed.now.contract.img.now b)) }
{
    match in_expr(analysed, d, a) {
        Some(place) => Some(place),
        None => in_expr(analysed, d, b),
    }
}

// The expressions of the List at l, `most` of them at most.
#[cycle(in_expr)]
fn in_args(analysed: &Analysed<'_>, d: usize, l: usize, most: usize) -> Option<usize>
    ensures { result ≡ in_exprs (contract_at analysed.now.contract.img.now) (exprs_from most (expr_at d analysed.now.contract.img.now) analysed.now.contract.img.now (inside analysed.now.contract.img.now l) (after analysed.now.contract.img.now l)) }
{
    for p in records::list(analysed.contract.img, l, most) {
        if let Some(place) = in_expr(analysed, d, p) {
            return Some(place);
        }
    }
    None
}

// The values of the List of Inits at l.
#[cycle(in_expr)]
fn in_inits(analysed: &Analysed<'_>, d: usize, l: usize) -> Option<usize>
    ensures { result ≡ in_inits_lem (contract_at analysed.now.contract.img.now) (inits_from 64 (expr_at d analysed.now.contract.img.now) analysed.now.contract.img.now (inside analysed.now.contract.img.now l) (after analysed.now.contract.img.now l)) }
{
    let img = analysed.contract.img;
    for p in records::list(img, l, 64) {
        if let Some(place) = in_expr(analysed, d, second(img, p)) {
            return Some(place);
        }
    }
    None
}

// The expression at `at`, d records deep at most.
#[cycle(in_expr)]
fn in_expr(analysed: &Analysed<'_>, d: usize, at: usize) -> Option<usize>
    ensures { result ≡ in_expr_lem (contract_at analysed.now.contract.img.now) (expr_at d analysed.now.contract.img.now at) }
{
    if d == 0 {
        return None;
    }
    let img = analysed.contract.img;
    let k = records::kind(img, at);
    match k {
        67 => in_expr(analysed, d - 1, second(img, at)),
        68 => in_access(analysed, d - 1, at),
        69 => in_inits(analysed, d - 1, second(img, at)),
        70 => in_two(
            analysed,
            d - 1,
            records::body(img, at),
            records::past(img, second(img, at)),
        ),
        71 => in_args(analysed, d - 1, second(img, at), 64),
        _ => None,
    }
}

// A Return's value, if it has one.
fn in_return(analysed: &Analysed<'_>, d: usize, at: usize) -> Option<usize>
    ensures { result ≡ in_stmt_lem (contract_at analysed.now.contract.img.now) (stmt_as sReturn (expr_at d analysed.now.contract.img.now) (stmt_at_lem d analysed.now.contract.img.now) analysed.now.contract.img.now at) }
{
    let img = analysed.contract.img;
    let value = records::body(img, at);
    if value < records::past(img, at) {
        in_expr(analysed, d, value)
    } else {
        None
    }
}

// The statement at `at`, of a kind k that holds no statements.
fn in_simple(analysed: &Analysed<'_>, d: usize, at: usize, k: u64) -> Option<usize>
    requires { (k ≡ 37 → ⊥) × ((k ≡ 38 → ⊥) × (k ≡ 39 → ⊥)) }
    ensures { result ≡ in_stmt_lem (contract_at analysed.now.contract.img.now) (stmt_as (stmt_kind_of k) (expr_at d analysed.now.contract.img.now) (stmt_at_lem d analysed.now.contract.img.now) analysed.now.contract.img.now at) }
{
    let img = analysed.contract.img;
    let first = records::body(img, at);
    let next = records::past(img, first);
    match k {
        32 => in_expr(analysed, d, next),
        33 => in_expr(analysed, d, first),
        34 => in_expr(analysed, d, next),
        35 => in_expr(analysed, d, next),
        36 => in_two(analysed, d, next, records::past(img, next)),
        40 => in_return(analysed, d, at),
        41 => in_args(analysed, d, next, 65536),
        42 => in_expr(analysed, d, first),
        _ => None,
    }
}

// The statements of the List at l.
#[cycle(in_stmt)]
fn in_body(analysed: &Analysed<'_>, d: usize, l: usize) -> Option<usize>
    ensures { result ≡ in_stmts (contract_at analysed.now.contract.img.now) (body_at (stmt_at_lem d analysed.now.contract.img.now) analysed.now.contract.img.now l) }
{
    for p in records::list(analysed.contract.img, l, 65536) {
        if let Some(place) = in_stmt(analysed, d, p) {
            return Some(place);
        }
    }
    None
}

// The same, behind what came first.
#[cycle(in_stmt)]
fn then_body(analysed: &Analysed<'_>, d: usize, first: Option<usize>, l: usize) -> Option<usize>
    ensures { result ≡ or_else first (in_stmts (contract_at analysed.now.contract.img.now) (body_at (stmt_at_lem d analysed.now.contract.img.now) analysed.now.contract.img.now l)) }
{
    match first {
        Some(place) => Some(place),
        None => in_body(analysed, d, l),
    }
}

// `then` before `else`.
#[cycle(in_stmt)]
fn in_if(analysed: &Analysed<'_>, d: usize, at: usize) -> Option<usize>
    ensures { result ≡ in_stmt_lem (contract_at analysed.now.contract.img.now) (stmt_as sIf (expr_at d analysed.now.contract.img.now) (stmt_at_lem d analysed.now.contract.img.now) analysed.now.contract.img.now at) }
{
    let img = analysed.contract.img;
    let test = records::body(img, at);
    let then = records::past(img, test);
    let other = records::past(img, then);
    let t = in_expr(analysed, d, test);
    let a = then_body(analysed, d, t, then);
    if other < records::past(img, at) {
        then_body(analysed, d, a, other)
    } else {
        a
    }
}

#[cycle(in_stmt)]
fn in_while(analysed: &Analysed<'_>, d: usize, at: usize) -> Option<usize>
    ensures { result ≡ in_stmt_lem (contract_at analysed.now.contract.img.now) (stmt_as sWhile (expr_at d analysed.now.contract.img.now) (stmt_at_lem d analysed.now.contract.img.now) analysed.now.contract.img.now at) }
{
    let img = analysed.contract.img;
    let test = records::body(img, at);
    let t = in_expr(analysed, d, test);
    then_body(analysed, d, t, records::past(img, test))
}

#[cycle(in_stmt)]
fn in_for(analysed: &Analysed<'_>, d: usize, at: usize) -> Option<usize>
    ensures { result ≡ in_stmt_lem (contract_at analysed.now.contract.img.now) (stmt_as sFor (expr_at d analysed.now.contract.img.now) (stmt_at_lem d analysed.now.contract.img.now) analysed.now.contract.img.now at) }
{
    let img = analysed.contract.img;
    let from = second(img, at);
    let to = records::past(img, from);
    let t = in_two(analysed, d, from, to);
    then_body(analysed, d, t, records::past(img, to))
}

// The statement at `at`, d records deep at most.
#[cycle(in_stmt)]
fn in_stmt(analysed: &Analysed<'_>, d: usize, at: usize) -> Option<usize>
    ensures { result ≡ in_stmt_lem (contract_at analysed.now.contract.img.now) (stmt_at_lem d analysed.now.contract.img.now at) }
{
    if d == 0 {
        return None;
    }
    let k = records::kind(analysed.contract.img, at);
    match k {
        37 => in_if(analysed, d - 1, at),
        38 => in_while(analysed, d - 1, at),
        39 => in_for(analysed, d - 1, at),
        _ => in_simple(analysed, d - 1, at, k),
    }
}

// Every function, called or not.
fn in_functions(analysed: &Analysed<'_>) -> Option<usize>
    ensures { result ≡ first_ambiguous_lem (contract_at analysed.now.contract.img.now) }
{
    let img = analysed.contract.img;
    for i in 0..analysed.contract.function_count() {
        let params = second(img, analysed.contract.function_place(i));
        let flag = records::past(img, records::past(img, params));
        if let Some(place) = in_body(analysed, 64, records::past(img, flag)) {
            return Some(place);
        }
    }
    None
}

// 01: row 30, place. Where no field has two positions the tree is not walked. What is lent serves as a table, whatever it held.
pub fn first_ambiguous(seen: &mut [usize; records::NAMES], analysed: &Analysed<'_>) -> Option<usize>
    ensures { result ≡ first_ambiguous_lem (contract_at analysed.now.contract.img.now) }
{
    if notes::all_noted(analysed.notes) {
        return None;
    }
    if agree::all_agree(seen, &analysed.contract) {
        return None;
    }
    in_functions(analysed)
}
