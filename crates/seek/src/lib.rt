// Which record a word is of (02: P5), expressions: from a record down to the part that the word lies in, until it lies in none.
//
// A part's words are counted by generating it once more (crate expr), into slices that nobody looks at. No function calls itself: a step
// leads to one part, and find_expr goes on from there, the depth falling. `want` is the word's number, `end` that of the word behind the record's last.
#![tactic(auto)]

ghost use Rattle.std.specs.Prelude.{◌≡◌, ◌+◌, eqb, None};
ghost use Rattle.rules.specs.Read.{expr_at, exprs_from, inits_from, kMapping, kAccess, kLiteral, kBinary, kCall};
ghost use Rattle.expr.specs.Made.{args_at_lem};
ghost use Rattle.seek.specs.Spots.{owned, leaping, calling, into, args, inits, Counts, Saves, Row, Listed, Leads, Steps, Calls, Finds};

use emit::{Rules, St};
use expr::names;
use expr::names::Builtin;
use notes::Analysed;

// What a word is to its record: patched never, as a jump ahead, as a call of a function; or it lies in a part, an expression, a List of
// statements or a statement.
#[derive(Clone, Copy, PartialEq, Eq)]
pub enum Way {
    Plain,
    Ahead,
    Calls,
    Value,
    Block,
    Stmt,
}

// The record that a word is of; of a jump ahead the word that it leads to, of a call the function's index.
#[derive(Clone, Copy)]
pub struct Spot {
    pub place: usize,
    pub way: Way,
    pub to: usize,
}

// A spot, or the part that the word lies in: it starts with the state st and ends before word number `to`.
#[derive(Clone, Copy)]
pub struct Step {
    pub place: usize,
    pub way: Way,
    pub to: usize,
    pub st: St,
}

// The word is the record's own, and is not patched.
pub fn own(place: usize, st: St) -> Step
    ensures { result ≡ owned place st }
{
    Step {
        place,
        way: Way::Plain,
        to: 0,
        st,
    }
}

// The word is the record's own jump to word number `to`.
pub fn jump(place: usize, to: usize, st: St) -> Step
    ensures { result ≡ leaping place to st }
{
    Step {
        place,
        way: Way::Ahead,
        to,
        st,
    }
}

// The word is the record's own call of the function with that index.
fn call(place: usize, function: usize, st: St) -> Step
    ensures { result ≡ calling place function st }
{
    Step {
        place,
        way: Way::Calls,
        to: function,
        st,
    }
}

// The word lies in the expression at `place`.
pub fn value(place: usize, end: usize, st: St) -> Step
    ensures { result ≡ into place end st }
{
    Step {
        place,
        way: Way::Value,
        to: end,
        st,
    }
}

// The state behind the expression at x.
pub fn count_expr(
    analysed: &Analysed<'_>,
    scope: &[usize],
    rules: Rules,
    d: usize,
    x: usize,
    st: St,
) -> St
    ensures { Counts analysed.now.contract.img.now scope.now rules d x st result }
{
    let mut code = [0u64; 1];
    let mut bytes = [0u8; 1];
    expr::gen_expr(&mut code, &mut bytes, analysed, scope, rules, d, x, st)
}

// Of one part, and the own words of the record at `at` behind it.
pub fn in_value(
    analysed: &Analysed<'_>,
    scope: &[usize],
    rules: Rules,
    d: usize,
    x: usize,
    at: usize,
    st: St,
    want: usize,
) -> Step
    ensures { Row analysed.now.contract.img.now scope.now rules d x at st want result }
{
    let v = count_expr(analysed, scope, rules, d, x, st);
    if want < v.n {
        return value(x, v.n, st);
    }
    own(at, st)
}

// Of a Binary.
fn in_binary(
    analysed: &Analysed<'_>,
    scope: &[usize],
    rules: Rules,
    d: usize,
    at: usize,
    st: St,
    end: usize,
    want: usize,
) -> Step
    ensures { Leads analysed.now.contract.img.now scope.now rules d kBinary at st end want result }
{
    let img = analysed.contract.img;
    let left = records::body(img, at);
    let op = records::past(img, left);
    let right = records::past(img, op);
    let a = count_expr(analysed, scope, rules, d, left, st);
    if want < a.n {
        return value(left, a.n, st);
    }
    in_value(analysed, scope, rules, d, right, at, a, want)
}

// Of a FieldAccess.
fn in_field(
    analysed: &Analysed<'_>,
    scope: &[usize],
    rules: Rules,
    d: usize,
    at: usize,
    st: St,
    end: usize,
    want: usize,
) -> Step
    ensures { Leads analysed.now.contract.img.now scope.now rules d kAccess at st end want result }
{
    let base = records::body(analysed.contract.img, at);
    in_value(analysed, scope, rules, d, base, at, st, want)
}

// Of a MappingRead.
fn in_mapping(
    analysed: &Analysed<'_>,
    scope: &[usize],
    rules: Rules,
    d: usize,
    at: usize,
    st: St,
    end: usize,
    want: usize,
) -> Step
    ensures { Leads analysed.now.contract.img.now scope.now rules d kMapping at st end want result }
{
    let img = analysed.contract.img;
    let key = records::past(img, records::body(img, at));
    in_value(analysed, scope, rules, d, key, at, st, want)
}

// Of the values of a StructLiteral, from the record at `first` to e, 64 at most; behind them the word is that of the literal at `at`.
fn in_inits(
    analysed: &Analysed<'_>,
    scope: &[usize],
    rules: Rules,
    d: usize,
    first: usize,
    e: usize,
    at: usize,
    st: St,
    want: usize,
) -> Step
    ensures { Listed analysed.now.contract.img.now scope.now rules d (inits analysed.now.contract.img.now scope.now rules (inits_from 64 (expr_at d analysed.now.contract.img.now) analysed.now.contract.img.now first e) st) at st want result }
{
    let img = analysed.contract.img;
    let mut p = first;
    let mut s = st;
    for _i in 0..64usize {
        if e <= p {
            return own(at, s);
        }
        let x = records::past(img, records::body(img, p));
        let v = count_expr(analysed, scope, rules, d, x, s);
        if want < v.n {
            return value(x, v.n, s);
        }
        s = v;
        p = records::past(img, p);
    }
    own(at, s)
}

// Of the arguments of a Call, from the record at `first` to e, 64 at most; behind them the word is that of the Call at `at`.
fn in_args(
    analysed: &Analysed<'_>,
    scope: &[usize],
    rules: Rules,
    d: usize,
    first: usize,
    e: usize,
    at: usize,
    st: St,
    want: usize,
) -> Step
    ensures { Listed analysed.now.contract.img.now scope.now rules d (args analysed.now.contract.img.now scope.now rules (exprs_from 64 (expr_at d analysed.now.contract.img.now) analysed.now.contract.img.now first e) st) at st want result }
{
    let mut p = first;
    let mut s = st;
    for _i in 0..64usize {
        if e <= p {
            return own(at, s);
        }
        let v = count_expr(analysed, scope, rules, d, p, s);
        if want < v.n {
            return value(p, v.n, s);
        }
        s = v;
        p = records::past(analysed.contract.img, p);
    }
    own(at, s)
}

// Of a StructLiteral: the pointer, the values, the rest.
fn in_literal(
    analysed: &Analysed<'_>,
    scope: &[usize],
    rules: Rules,
    d: usize,
    at: usize,
    st: St,
    end: usize,
    want: usize,
) -> Step
    ensures { Leads analysed.now.contract.img.now scope.now rules d kLiteral at st end want result }
{
    let img = analysed.contract.img;
    let list = records::past(img, records::body(img, at));
    let p = records::body(img, list);
    let e = records::past(img, list);
    let a = st.alloc_reg(rules, at);
    let q = a.reserve();
    if want < q.n {
        return own(at, st);
    }
    in_inits(analysed, scope, rules, d, p, e, at, q, want)
}

// Of the arguments of the Call at `at`, in the List behind its Name.
fn in_list(
    analysed: &Analysed<'_>,
    scope: &[usize],
    rules: Rules,
    d: usize,
    at: usize,
    st: St,
    want: usize,
) -> Step
    ensures { Listed analysed.now.contract.img.now scope.now rules d (args analysed.now.contract.img.now scope.now rules (args_at_lem d analysed.now.contract.img.now at) st) at st want result }
{
    let img = analysed.contract.img;
    let list = records::past(img, records::body(img, at));
    let p = records::body(img, list);
    let e = records::past(img, list);
    in_args(analysed, scope, rules, d, p, e, at, st, want)
}

// The state behind the saves of a call.
fn saved(st: St, k: u64) -> St
    ensures { Saves st k result }
{
    St {
        next: st.next,
        reg: st.reg,
        err: st.err,
        place: st.place,
        n: emit::sum(st.n, k as usize),
    }
}

// Behind the Call stand the result's Pop and one for each of the k registers that were saved.
fn is_call(want: usize, k: u64, end: usize) -> bool
    ensures { result ≡ eqb (want + k + 2) end }
{
    if end <= want {
        return false;
    }
    let left = (end - want) as u64;
    if left < 2 {
        return false;
    }
    left - 2 == k
}

// Of a call of a function: the registers in use, the arguments, Call, the result, the registers again.
fn in_user(
    analysed: &Analysed<'_>,
    scope: &[usize],
    rules: Rules,
    d: usize,
    at: usize,
    st: St,
    end: usize,
    want: usize,
) -> Step
    ensures { Calls analysed.now.contract.img.now scope.now rules d at st end want None result }
{
    let k = emit::less_one(st.next);
    let a = saved(st, k);
    if want < a.n {
        return own(at, st);
    }
    let r = in_list(analysed, scope, rules, d, at, a, want);
    if r.way == Way::Value {
        return r;
    }
    if is_call(want, k, end) {
        return call(
            at,
            names::function_index(&analysed.contract, records::body(analysed.contract.img, at)),
            st,
        );
    }
    own(at, st)
}

// Of a Call.
fn in_call(
    analysed: &Analysed<'_>,
    scope: &[usize],
    rules: Rules,
    d: usize,
    at: usize,
    st: St,
    end: usize,
    want: usize,
) -> Step
    ensures { Leads analysed.now.contract.img.now scope.now rules d kCall at st end want result }
{
    let img = analysed.contract.img;
    match names::builtin_named(img, records::body(img, at)) {
        Some(Builtin::Poseidon | Builtin::Merkle) => in_list(
            analysed, scope, rules, d, at, st, want,
        ),
        Some(Builtin::Sender | Builtin::Nonce | Builtin::BlockNumber) => own(at, st),
        None => in_user(analysed, scope, rules, d, at, st, end, want),
    }
}

// From the expression at `at`, whose parts are d records deep at most, to the part that the word lies in.
fn step_expr(
    analysed: &Analysed<'_>,
    scope: &[usize],
    rules: Rules,
    d: usize,
    at: usize,
    st: St,
    end: usize,
    want: usize,
) -> Step
    ensures { Steps analysed.now.contract.img.now scope.now rules d at st end want result }
{
    match records::kind(analysed.contract.img, at) {
        67 => in_mapping(analysed, scope, rules, d, at, st, end, want),
        68 => in_field(analysed, scope, rules, d, at, st, end, want),
        69 => in_literal(analysed, scope, rules, d, at, st, end, want),
        70 => in_binary(analysed, scope, rules, d, at, st, end, want),
        71 => in_call(analysed, scope, rules, d, at, st, end, want),
        _ => own(at, st),
    }
}

// The record that the word is of, in the expression at `at`.
pub fn find_expr(
    analysed: &Analysed<'_>,
    scope: &[usize],
    rules: Rules,
    depth: usize,
    at: usize,
    st: St,
    end: usize,
    want: usize,
) -> Spot
    ensures { Finds analysed.now.contract.img.now scope.now rules (expr_at depth analysed.now.contract.img.now at) st end want result }
{
    let mut t = value(at, end, st);
    for d in (0..depth).rev() {
        t = step_expr(analysed, scope, rules, d, t.place, t.st, t.to, want);
        if t.way != Way::Value {
            return Spot {
                place: t.place,
                way: t.way,
                to: t.to,
            };
        }
    }
    Spot {
        place: t.place,
        way: Way::Plain,
        to: 0,
    }
}
