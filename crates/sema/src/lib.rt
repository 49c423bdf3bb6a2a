// 001: sema.rs, its statements and all above them (expressions: crate typing), over the image. A name is the place of its record; the names in
// scope stand in a lent array; what is found of each access is left in lent notes (02: P2).
// front.rt: what stands before generation, in its order.
#![tactic(auto)]

pub mod front;

ghost use Rattle.std.specs.Prelude.{◌≡◌, List, ℕ, suc, ◌≤◌, ◌+◌, ◌*◌, length};
ghost use Rattle.rules.specs.Bytes.{name_at};
ghost use Rattle.rules.specs.Read.{expr_at, stmt_at_lem, stmt_kind_of, sLet, sAssign, sMapping, sIf, sWhile, sFor, sReturn, sEmit, places_in, function_at, contract_at};
ghost use Rattle.rules.specs.Types.{Typ, clash, with_name};
ghost use Rattle.rules.specs.Refusal.{unless, refused};
ghost use Rattle.rules.specs.Analyse.{function};
ghost use Rattle.rules.specs.Meant.{of_expr, of_stmts, of_function, accesses};
ghost use Rattle.rules.specs.Build.{analyse_of};
ghost use Rattle.notes.specs.Notes.{Wrote};
ghost use Rattle.lookup.specs.Answers.{ty_of, checked_of, env_of, fault_of};
ghost use Rattle.bounds.specs.Sizes.{vars, vars-stmts};
ghost use Rattle.sema.specs.Entry.{Passed, analysis};
ghost use Rattle.sema.specs.Steps.{stmt_of, body_of, else_of, Stepped, Step, Steps, only, in_loop, Bound, names};

use lookup::{Due, Fault, Ty};
use rules::Answer;
use tables::Contract;

// A statement that is one expression.
fn run_expr(
    notes: &mut [u8; notes::SIZE],
    contract: &Contract<'_>,
    at: usize,
    d: usize,
    env: &[usize],
    top: usize,
) -> Result<usize, Fault>
    ensures { Stepped contract.now.img.now env.now env.now notes.old notes.new top 0 result (only (contract_at contract.now.img.now) (expr_at d contract.now.img.now at) (env_of contract.now.img.now env.now top)) (of_expr (contract_at contract.now.img.now) (expr_at d contract.now.img.now at) (env_of contract.now.img.now env.now top)) }
{
    typing::analyze_expr(notes, contract, at, d, env, top)?;
    Ok(top)
}

// The fault, where a value of type b does not stand for one of type a.
fn same_type(img: &[u8], a: Ty, b: Ty, fault: Fault) -> Result<(), Fault>
    ensures { checked_of img.now result ≡ unless (clash (ty_of img.now a) (ty_of img.now b)) (fault_of img.now fault) tt }
{
    if lookup::clashing(img, a, b) {
        return Err(fault);
    }
    Ok(())
}

// 001: analyze_stmt, Assign: an undefined target comes before the expression.
fn analyze_assign(
    notes: &mut [u8; notes::SIZE],
    contract: &Contract<'_>,
    at: usize,
    d: usize,
    env: &[usize],
    top: usize,
) -> Result<usize, Fault>
    ensures { (R : Typ) → Step contract.now.img.now env.now env.now notes.old notes.new top result R (stmt_of sAssign d contract.now.img.now at) }
{
    let img = contract.img;
    let x = records::body(img, at);
    let a = lookup::find_local(img, env, top, x).ok_or(Fault::Target(at, x))?;
    let b = typing::analyze_expr(notes, contract, records::past(img, x), d, env, top)?;
    same_type(img, a, b, Fault::Assign(at, a, b))?;
    Ok(top)
}

// 001: analyze_stmt, MappingWrite.
fn analyze_write(
    notes: &mut [u8; notes::SIZE],
    contract: &Contract<'_>,
    at: usize,
    d: usize,
    env: &[usize],
    top: usize,
) -> Result<usize, Fault>
    ensures { (R : Typ) → Step contract.now.img.now env.now env.now notes.old notes.new top result R (stmt_of sMapping d contract.now.img.now at) }
{
    let img = contract.img;
    let key = records::past(img, records::body(img, at));
    typing::analyze_expr(notes, contract, key, d, env, top)?;
    run_expr(notes, contract, records::past(img, key), d, env, top)
}

// 001: analyze_stmt, Return.
fn analyze_return(
    notes: &mut [u8; notes::SIZE],
    contract: &Contract<'_>,
    at: usize,
    d: usize,
    env: &[usize],
    top: usize,
    ret: Ty,
) -> Result<usize, Fault>
    ensures { Step contract.now.img.now env.now env.now notes.old notes.new top result (ty_of contract.now.img.now ret) (stmt_of sReturn d contract.now.img.now at) }
{
    let img = contract.img;
    let value = records::body(img, at);
    let b = if value < records::past(img, at) {
        typing::analyze_expr(notes, contract, value, d, env, top)?
    } else {
        Ty::Void
    };
    same_type(img, ret, b, Fault::Return(at, ret, b))?;
    Ok(top)
}

// 001: analyze_stmt, Emit.
fn analyze_emit(
    notes: &mut [u8; notes::SIZE],
    contract: &Contract<'_>,
    at: usize,
    d: usize,
    env: &[usize],
    top: usize,
) -> Result<usize, Fault>
    ensures { (R : Typ) → Step contract.now.img.now env.now env.now notes.old notes.new top result R (stmt_of sEmit d contract.now.img.now at) }
{
    let img = contract.img;
    let list = records::past(img, records::body(img, at));
    typing::analyze_args(notes, contract, list, 65536, d, env, top, Due::Words(0))?;
    Ok(top)
}

// 001: analyze_stmt, of a kind k that adds no name.
fn analyze_simple(
    notes: &mut [u8; notes::SIZE],
    contract: &Contract<'_>,
    at: usize,
    k: u64,
    d: usize,
    env: &[usize],
    top: usize,
    ret: Ty,
) -> Result<usize, Fault>
    requires { (k ≡ 32 → ⊥) × ((k ≡ 37 → ⊥) × ((k ≡ 38 → ⊥) × (k ≡ 39 → ⊥))) }
    ensures { Step contract.now.img.now env.now env.now notes.old notes.new top result (ty_of contract.now.img.now ret) (stmt_of (stmt_kind_of k) d contract.now.img.now at) }
{
    let img = contract.img;
    match k {
        33 => run_expr(notes, contract, records::body(img, at), d, env, top),
        34 => analyze_assign(notes, contract, at, d, env, top),
        35 => run_expr(
            notes,
            contract,
            records::past(img, records::body(img, at)),
            d,
            env,
            top,
        ),
        36 => analyze_write(notes, contract, at, d, env, top),
        40 => analyze_return(notes, contract, at, d, env, top, ret),
        41 => analyze_emit(notes, contract, at, d, env, top),
        42 => run_expr(notes, contract, records::body(img, at), d, env, top),
        _ => Ok(top),
    }
}

// 001: analyze_stmt, Let.
fn analyze_let(
    env: &mut [usize],
    notes: &mut [u8; notes::SIZE],
    contract: &Contract<'_>,
    at: usize,
    d: usize,
    top: usize,
) -> Result<usize, Fault>
    requires { top + 2 ≤ length env.old }
    ensures { (R : Typ) → Step contract.now.img.now env.old env.new notes.old notes.new top result R (stmt_of sLet d contract.now.img.now at) }
{
    let img = contract.img;
    let x = records::body(img, at);
    let b = typing::analyze_expr(notes, contract, records::past(img, x), d, env, top)?;
    Ok(lookup::push(env, img, top, x, b))
}

// The statements of the List at `at`.
#[cycle(analyze_stmt)]
fn analyze_list(
    env: &mut [usize],
    notes: &mut [u8; notes::SIZE],
    contract: &Contract<'_>,
    at: usize,
    d: usize,
    top: usize,
    ret: Ty,
) -> Result<usize, Fault>
    requires { top + 2 * vars-stmts (body_of d contract.now.img.now at) ≤ length env.old }
    ensures { Steps contract.now.img.now env.old env.new notes.old notes.new top result (ty_of contract.now.img.now ret) (body_of d contract.now.img.now at) }
{
    let mut t = top;
    for p in records::list(contract.img, at, 65536) {
        t = analyze_stmt(env, notes, contract, p, d, t, ret)?;
    }
    Ok(t)
}

// The List at `at`, if it stands before end.
#[cycle(analyze_stmt)]
fn analyze_else(
    env: &mut [usize],
    notes: &mut [u8; notes::SIZE],
    contract: &Contract<'_>,
    at: usize,
    end: usize,
    d: usize,
    top: usize,
    ret: Ty,
) -> Result<usize, Fault>
    requires { top + 2 * vars-stmts (else_of d contract.now.img.now at end) ≤ length env.old }
    ensures { Steps contract.now.img.now env.old env.new notes.old notes.new top result (ty_of contract.now.img.now ret) (else_of d contract.now.img.now at end) }
{
    if at < end {
        analyze_list(env, notes, contract, at, d, top, ret)
    } else {
        Ok(top)
    }
}

// 001: analyze_stmt, If. The names of `then` are there in `else`, and after it.
#[cycle(analyze_stmt)]
fn analyze_if(
    env: &mut [usize],
    notes: &mut [u8; notes::SIZE],
    contract: &Contract<'_>,
    at: usize,
    d: usize,
    top: usize,
    ret: Ty,
) -> Result<usize, Fault>
    requires { top + 2 * vars (stmt_of sIf d contract.now.img.now at) ≤ length env.old }
    ensures { Step contract.now.img.now env.old env.new notes.old notes.new top result (ty_of contract.now.img.now ret) (stmt_of sIf d contract.now.img.now at) }
{
    let img = contract.img;
    let test = records::body(img, at);
    let then = records::past(img, test);
    let other = records::past(img, then);
    let end = records::past(img, at);
    typing::analyze_expr(notes, contract, test, d, env, top)?;
    let k = analyze_list(env, notes, contract, then, d, top, ret)?;
    analyze_else(env, notes, contract, other, end, d, k, ret)
}

// 001: analyze_stmt, While.
#[cycle(analyze_stmt)]
fn analyze_while(
    env: &mut [usize],
    notes: &mut [u8; notes::SIZE],
    contract: &Contract<'_>,
    at: usize,
    d: usize,
    top: usize,
    ret: Ty,
) -> Result<usize, Fault>
    requires { top + 2 * vars (stmt_of sWhile d contract.now.img.now at) ≤ length env.old }
    ensures { Step contract.now.img.now env.old env.new notes.old notes.new top result (ty_of contract.now.img.now ret) (stmt_of sWhile d contract.now.img.now at) }
{
    let img = contract.img;
    let test = records::body(img, at);
    typing::analyze_expr(notes, contract, test, d, env, top)?;
    analyze_list(env, notes, contract, records::past(img, test), d, top, ret)
}

// The body of a For, with its name at x; the names of both are dropped after it.
#[cycle(analyze_stmt)]
fn analyze_loop(
    env: &mut [usize],
    notes: &mut [u8; notes::SIZE],
    contract: &Contract<'_>,
    at: usize,
    x: usize,
    d: usize,
    top: usize,
    ret: Ty,
) -> Result<usize, Fault>
    requires { top + 2 * (suc (vars-stmts (body_of d contract.now.img.now at))) ≤ length env.old }
    ensures { Stepped contract.now.img.now env.old env.new notes.old notes.new top (suc (vars-stmts (body_of d contract.now.img.now at))) result (in_loop (contract_at contract.now.img.now) (ty_of contract.now.img.now ret) (name_at contract.now.img.now x) (body_of d contract.now.img.now at) (env_of contract.now.img.now env.old top)) (of_stmts (contract_at contract.now.img.now) (ty_of contract.now.img.now ret) (body_of d contract.now.img.now at) (with_name (name_at contract.now.img.now x) Typ.u64 (env_of contract.now.img.now env.old top))) }
{
    let inner = lookup::push(env, contract.img, top, x, Ty::U64);
    analyze_list(env, notes, contract, at, d, inner, ret)?;
    Ok(top)
}

// 001: analyze_stmt, For.
#[cycle(analyze_stmt)]
fn analyze_for(
    env: &mut [usize],
    notes: &mut [u8; notes::SIZE],
    contract: &Contract<'_>,
    at: usize,
    d: usize,
    top: usize,
    ret: Ty,
) -> Result<usize, Fault>
    requires { top + 2 * vars (stmt_of sFor d contract.now.img.now at) ≤ length env.old }
    ensures { Step contract.now.img.now env.old env.new notes.old notes.new top result (ty_of contract.now.img.now ret) (stmt_of sFor d contract.now.img.now at) }
{
    let img = contract.img;
    let x = records::body(img, at);
    let from = records::past(img, x);
    let to = records::past(img, from);
    typing::analyze_expr(notes, contract, from, d, env, top)?;
    typing::analyze_expr(notes, contract, to, d, env, top)?;
    analyze_loop(env, notes, contract, records::past(img, to), x, d, top, ret)
}

// 001: analyze_stmt, of the statement at `at`, d records deep at most, in a function that gives `ret`.
#[cycle(analyze_stmt)]
fn analyze_stmt(
    env: &mut [usize],
    notes: &mut [u8; notes::SIZE],
    contract: &Contract<'_>,
    at: usize,
    d: usize,
    top: usize,
    ret: Ty,
) -> Result<usize, Fault>
    requires { top + 2 * vars (stmt_at_lem d contract.now.img.now at) ≤ length env.old }
    ensures { Step contract.now.img.now env.old env.new notes.old notes.new top result (ty_of contract.now.img.now ret) (stmt_at_lem d contract.now.img.now at) }
{
    if d == 0 {
        return Ok(top);
    }
    let k = records::kind(contract.img, at);
    match k {
        32 => analyze_let(env, notes, contract, at, d - 1, top),
        37 => analyze_if(env, notes, contract, at, d - 1, top, ret),
        38 => analyze_while(env, notes, contract, at, d - 1, top, ret),
        39 => analyze_for(env, notes, contract, at, d - 1, top, ret),
        _ => analyze_simple(notes, contract, at, k, d - 1, env, top, ret),
    }
}

// 001: analyze_function, the parameters: the Fields of the List at `at`.
fn push_params(env: &mut [usize], img: &[u8], at: usize) -> usize
    requires { (2 * length (places_in 512 img.now at) ≤ length env.old) × (length img.now ≤ 65536) }
    ensures { Bound img.now env.old env.new 0 (places_in 512 img.now at) result }
{
    let mut top = 0;
    for p in records::list(img, at, 512) {
        let t = lookup::declared(img, p);
        top = lookup::push(env, img, top, records::body(img, p), t);
    }
    top
}

// 001: analyze_function, of the function at p.
fn analyze_function(
    env: &mut [usize],
    notes: &mut [u8; notes::SIZE],
    contract: &Contract<'_>,
    p: usize,
) -> Result<(), Fault>
    requires { 2 * names (function_at contract.now.img.now p) ≤ length env.old }
    ensures { (checked_of contract.now.img.now result ≡ function (contract_at contract.now.img.now) (function_at contract.now.img.now p)) × ((length env.new ≡ length env.old) × Wrote (contract_at contract.now.img.now) notes.old notes.new (of_function (contract_at contract.now.img.now) (function_at contract.now.img.now p)) (checked_of contract.now.img.now result)) }
{
    let img = contract.img;
    let params = records::past(img, records::body(img, p));
    let gives = records::past(img, params);
    let body = records::past(img, records::past(img, gives));
    let top = push_params(env, img, params);
    let ret = lookup::user_ret(img, p);
    analyze_list(env, notes, contract, body, 64, top, ret)?;
    Ok(())
}

// 001: analyze, of an image that the check passed, with its tables: the functions in turn. `env` is for the names in scope: 512 of them, two cells each.
fn analyse_checked(
    env: &mut [usize],
    notes: &mut [u8; notes::SIZE],
    contract: &Contract<'_>,
) -> Result<(), Fault>
    requires { (Passed contract.now.img.now) × (1025 ≤ length env.old) }
    ensures { (checked_of contract.now.img.now result ≡ analysis contract.now.img.now) × Wrote (contract_at contract.now.img.now) notes.old notes.new (accesses (contract_at contract.now.img.now)) (checked_of contract.now.img.now result) }
{
    for i in 0..contract.function_count() {
        analyze_function(env, notes, contract, contract.function_place(i))?;
    }
    Ok(())
}

// 01: What comes back, rows 10 to 22.
fn refusal(f: Fault) -> Answer
    ensures { (img : List ℕ) → result ≡ refused (fault_of img f) }
{
    match f {
        Fault::Ident(p, _) => Answer::of(10, p, 0),
        Fault::Target(p, _) => Answer::of(11, p, 0),
        Fault::Assign(p, _, _) => Answer::of(12, p, 0),
        Fault::Return(p, _, _) => Answer::of(13, p, 0),
        Fault::NoField(p, _, _) => Answer::of(14, p, 0),
        Fault::NotStruct(p) => Answer::of(15, p, 0),
        Fault::InitType(p, _) => Answer::of(16, p, 0),
        Fault::InitField(p, _) => Answer::of(17, p, 0),
        Fault::NoStruct(p, _) => Answer::of(18, p, 0),
        Fault::ArgCount(p, _, _, _) => Answer::of(19, p, 0),
        Fault::ArgType(p, _, _) => Answer::of(20, p, 0),
        Fault::NoFunction(p, _) => Answer::of(21, p, 0),
        Fault::Operands(p) => Answer::of(22, p, 0),
    }
}

// 01: the first public answer: the check, then the analysis. It writes nothing.
pub fn analyse(image: &[u8]) -> Answer
    ensures { result ≡ analyse_of image.now }
{
    let mut tables = [0usize; tables::SIZE];
    let mut names = [0usize; records::NAMES];
    let mut notes = [0u8; notes::SIZE];
    front::answer_of(front::analysis(&mut tables, &mut names, &mut notes, image))
}
