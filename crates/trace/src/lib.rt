// Which record a word is of (02: P5), statements: from a List of statements down to the statement that the word lies in, from there to its
// part, until it is the statement's own word or lies in an expression (crate seek).
//
// A statement is counted by generating it once more (crate stmt); what stands behind everything else is not, since the end is known. The scope is
// lent: where the walk goes back to the start of a part, the count of names is put back.
#![tactic(auto)]

ghost use Rattle.std.specs.Prelude.{◌≡◌, suc, ◌+◌, ◌<◌, leb, length};
ghost use Rattle.rules.specs.Read.{stmt_at_lem, body_at, else_at, sMapping, sIf, sWhile, sFor, sReturn, sEmit};
ghost use Rattle.bounds.specs.Sizes.{vars, vars-stmts};
ghost use Rattle.stmt.specs.Frame.{Ready};
ghost use Rattle.stmt.specs.Runs.{taken};
ghost use Rattle.seek.specs.declared.Way.TheVariants as way;
ghost use Rattle.trace.specs.Moves.{entering, within, Counted, CountedAll, CountedElse, Loops, Moves, Steps, Reaches, Falls, Ends, Blocks};

use emit::{Rules, St};
use notes::Analysed;
use seek::{Spot, Step, Way};

// The word lies in the List of statements at `list`.
fn block(list: usize, end: usize, st: St) -> Step
    ensures { result ≡ entering list end st }
{
    Step {
        place: list,
        way: Way::Block,
        to: end,
        st,
    }
}

// The word lies in the statement at `at`.
fn stmt_at(at: usize, end: usize, st: St) -> Step
    ensures { result ≡ within at end st }
{
    Step {
        place: at,
        way: Way::Stmt,
        to: end,
        st,
    }
}

// Whether the word is among the last k before `end`.
pub fn among_last(want: usize, k: usize, end: usize) -> bool
    ensures { result ≡ leb end (want + k) }
{
    if end <= want {
        return true;
    }
    end - want <= k
}

// The state behind the statement at `at`.
fn count_stmt(
    scope: &mut [usize],
    analysed: &Analysed<'_>,
    rules: Rules,
    d: usize,
    at: usize,
    st: St,
) -> St
    requires { Ready analysed.now.contract.img.now analysed.now.contract.tables.now analysed.now.notes.now scope.old (vars (stmt_at_lem d analysed.now.contract.img.now at)) × (at < length analysed.now.contract.img.now) }
    ensures { Counted rules analysed.now.contract.img.now d at st scope.old result scope.new }
{
    let mut code = [0u64; 1];
    let mut bytes = [0u8; 1];
    stmt::gen_stmts(
        &mut code,
        &mut bytes,
        scope,
        analysed,
        rules,
        d,
        at,
        records::past(analysed.contract.img, at),
        st,
    )
}

// The state behind the statements of the List at `list`.
fn count_stmts(
    scope: &mut [usize],
    analysed: &Analysed<'_>,
    rules: Rules,
    d: usize,
    list: usize,
    st: St,
) -> St
    requires { Ready analysed.now.contract.img.now analysed.now.contract.tables.now analysed.now.notes.now scope.old (vars-stmts (body_at (stmt_at_lem d analysed.now.contract.img.now) analysed.now.contract.img.now list)) }
    ensures { CountedAll rules analysed.now.contract.img.now d list st scope.old result scope.new }
{
    let img = analysed.contract.img;
    let mut code = [0u64; 1];
    let mut bytes = [0u8; 1];
    stmt::gen_stmts(
        &mut code,
        &mut bytes,
        scope,
        analysed,
        rules,
        d,
        records::body(img, list),
        records::past(img, list),
        st,
    )
}

// The state behind `else`, where there is one before `stop`.
fn count_else(
    scope: &mut [usize],
    analysed: &Analysed<'_>,
    rules: Rules,
    d: usize,
    list: usize,
    stop: usize,
    st: St,
) -> St
    requires { Ready analysed.now.contract.img.now analysed.now.contract.tables.now analysed.now.notes.now scope.old (vars-stmts (else_at (stmt_at_lem d analysed.now.contract.img.now) analysed.now.contract.img.now list stop)) }
    ensures { CountedElse rules analysed.now.contract.img.now d list stop st scope.old result scope.new }
{
    if list < stop {
        count_stmts(scope, analysed, rules, d, list, st)
    } else {
        st
    }
}

// Of a MappingWrite: the key, the value, the rest.
fn in_mapping(
    analysed: &Analysed<'_>,
    scope: &[usize],
    rules: Rules,
    d: usize,
    at: usize,
    st: St,
    end: usize,
    want: usize,
) -> Step
    ensures { Moves analysed.now.contract.img.now analysed.now.contract.tables.now analysed.now.notes.now scope.now scope.now rules d sMapping at st end want result }
{
    let img = analysed.contract.img;
    let key = records::past(img, records::body(img, at));
    let value = records::past(img, key);
    let a = seek::count_expr(analysed, scope, rules, d, key, st);
    if want < a.n {
        return seek::value(key, a.n, st);
    }
    seek::in_value(analysed, scope, rules, d, value, at, a, want)
}

// Of a Return: the Pop, the value, the rest.
fn in_return(
    analysed: &Analysed<'_>,
    scope: &[usize],
    rules: Rules,
    d: usize,
    at: usize,
    st: St,
    end: usize,
    want: usize,
) -> Step
    ensures { Moves analysed.now.contract.img.now analysed.now.contract.tables.now analysed.now.notes.now scope.now scope.now rules d sReturn at st end want result }
{
    let img = analysed.contract.img;
    let value = records::body(img, at);
    let a = st.alloc_reg(rules, at);
    let t = a.reserve();
    if want < t.n {
        return seek::own(at, st);
    }
    if value < records::past(img, at) {
        return seek::in_value(analysed, scope, rules, d, value, at, t, want);
    }
    seek::own(at, st)
}

// Of an Emit: each argument, and its Log.
fn in_emit(
    analysed: &Analysed<'_>,
    scope: &[usize],
    rules: Rules,
    d: usize,
    at: usize,
    st: St,
    end: usize,
    want: usize,
) -> Step
    ensures { Moves analysed.now.contract.img.now analysed.now.contract.tables.now analysed.now.notes.now scope.now scope.now rules d sEmit at st end want result }
{
    let img = analysed.contract.img;
    let list = records::past(img, records::body(img, at));
    let e = records::past(img, list);
    let mut p = records::body(img, list);
    let mut s = st;
    while p < e {
        let v = seek::count_expr(analysed, scope, rules, d, p, s);
        if want < v.n {
            return seek::value(p, v.n, s);
        }
        s = v.reserve();
        if want < s.n {
            return seek::own(at, st);
        }
        p = records::past(img, p);
    }
    seek::own(at, st)
}

// Of an If: the condition, Jnz, `else`, Jmp, `then`.
fn in_if(
    scope: &mut [usize],
    analysed: &Analysed<'_>,
    rules: Rules,
    d: usize,
    at: usize,
    st: St,
    end: usize,
    want: usize,
) -> Step
    requires { Ready analysed.now.contract.img.now analysed.now.contract.tables.now analysed.now.notes.now scope.old (vars (taken sIf d analysed.now.contract.img.now at)) }
    ensures { Moves analysed.now.contract.img.now analysed.now.contract.tables.now analysed.now.notes.now scope.old scope.new rules d sIf at st end want result }
{
    let img = analysed.contract.img;
    let cond = records::body(img, at);
    let then = records::past(img, cond);
    let other = records::past(img, then);
    let stop = records::past(img, at);
    let v = seek::count_expr(analysed, scope, rules, d, cond, st);
    if want < v.n {
        return seek::value(cond, v.n, st);
    }
    let a = stmt::open_slot(v, st.next);
    let mark = scope[0];
    let e = count_else(scope, analysed, rules, d, other, stop, a);
    let b = e.reserve();
    if want < a.n {
        return seek::jump(at, b.n, st);
    }
    if want < e.n {
        scope[0] = mark;
        return block(other, e.n, a);
    }
    if want < b.n {
        return seek::jump(at, end, st);
    }
    block(then, end, b)
}

// Of a loop behind its condition, which ends with the state v: Jnz, Jmp, the block, and k words more.
fn in_loop(at: usize, list: usize, next: u64, k: usize, v: St, end: usize, want: usize) -> Step
    ensures { Loops at list next k v end want result }
{
    let j = v.reserve();
    let a = stmt::open_slot(j, next);
    if want < j.n {
        return seek::jump(at, a.n, v);
    }
    if want < a.n {
        return seek::jump(at, end, v);
    }
    if among_last(want, k, end) {
        return seek::own(at, v);
    }
    block(list, end - k, a)
}

// Of a While: the condition, then the loop, the jump back behind its block.
fn in_while(
    analysed: &Analysed<'_>,
    scope: &[usize],
    rules: Rules,
    d: usize,
    at: usize,
    st: St,
    end: usize,
    want: usize,
) -> Step
    requires { Ready analysed.now.contract.img.now analysed.now.contract.tables.now analysed.now.notes.now scope.now (vars (taken sWhile d analysed.now.contract.img.now at)) }
    ensures { Moves analysed.now.contract.img.now analysed.now.contract.tables.now analysed.now.notes.now scope.now scope.now rules d sWhile at st end want result }
{
    let img = analysed.contract.img;
    let cond = records::body(img, at);
    let list = records::past(img, cond);
    let v = seek::count_expr(analysed, scope, rules, d, cond, st);
    if want < v.n {
        return seek::value(cond, v.n, st);
    }
    in_loop(at, list, st.next, 1, v, end, want)
}

// Of a For: from, to, Add, Lt, then the loop with the variable's name, three words behind its block.
fn in_for(
    scope: &mut [usize],
    analysed: &Analysed<'_>,
    rules: Rules,
    d: usize,
    at: usize,
    st: St,
    end: usize,
    want: usize,
) -> Step
    requires { Ready analysed.now.contract.img.now analysed.now.contract.tables.now analysed.now.notes.now scope.old (vars (taken sFor d analysed.now.contract.img.now at)) }
    ensures { Moves analysed.now.contract.img.now analysed.now.contract.tables.now analysed.now.notes.now scope.old scope.new rules d sFor at st end want result }
{
    let img = analysed.contract.img;
    let var = records::body(img, at);
    let from = records::past(img, var);
    let to = records::past(img, from);
    let v = seek::count_expr(analysed, scope, rules, d, from, st);
    if want < v.n {
        return seek::value(from, v.n, st);
    }
    let w = seek::count_expr(analysed, scope, rules, d, to, v);
    if want < w.n {
        return seek::value(to, w.n, v);
    }
    let r = w.alloc_reg(rules, at);
    let i = r.reserve();
    if want < i.n {
        return seek::own(at, st);
    }
    let c = i.alloc_reg(rules, at);
    let l = c.reserve();
    if want < l.n {
        return seek::own(at, st);
    }
    stmt::bind(scope, img, var, r.reg);
    in_loop(at, records::past(img, to), i.next, 3, l, end, want)
}

// From the statement at `at`, whose parts are d records deep at most, to the part that the word lies in.
fn step_stmt(
    scope: &mut [usize],
    analysed: &Analysed<'_>,
    rules: Rules,
    d: usize,
    at: usize,
    st: St,
    end: usize,
    want: usize,
) -> Step
    requires { Ready analysed.now.contract.img.now analysed.now.contract.tables.now analysed.now.notes.now scope.old (vars (stmt_at_lem (suc d) analysed.now.contract.img.now at)) }
    ensures { Steps analysed.now.contract.img.now analysed.now.contract.tables.now analysed.now.notes.now scope.old scope.new rules d at st end want result }
{
    let img = analysed.contract.img;
    let first = records::body(img, at);
    let second = records::past(img, first);
    match records::kind(img, at) {
        32 | 34 | 35 => seek::in_value(analysed, scope, rules, d, second, at, st, want),
        33 | 42 => seek::in_value(analysed, scope, rules, d, first, at, st, want),
        36 => in_mapping(analysed, scope, rules, d, at, st, end, want),
        37 => in_if(scope, analysed, rules, d, at, st, end, want),
        38 => in_while(analysed, scope, rules, d, at, st, end, want),
        39 => in_for(scope, analysed, rules, d, at, st, end, want),
        40 => in_return(analysed, scope, rules, d, at, st, end, want),
        41 => in_emit(analysed, scope, rules, d, at, st, end, want),
        _ => seek::own(at, st),
    }
}

// To the statement of the List at `list` that the word lies in.
fn step_block(
    scope: &mut [usize],
    analysed: &Analysed<'_>,
    rules: Rules,
    d: usize,
    list: usize,
    st: St,
    end: usize,
    want: usize,
) -> Step
    requires { Ready analysed.now.contract.img.now analysed.now.contract.tables.now analysed.now.notes.now scope.old (vars-stmts (body_at (stmt_at_lem d analysed.now.contract.img.now) analysed.now.contract.img.now list)) }
    ensures { Reaches analysed.now.contract.img.now analysed.now.contract.tables.now analysed.now.notes.now scope.old scope.new rules d list st end want result }
{
    let img = analysed.contract.img;
    let e = records::past(img, list);
    let mut p = records::body(img, list);
    let mut s = st;
    while p < e {
        let q = records::past(img, p);
        if e <= q {
            return stmt_at(p, end, s);
        }
        let mark = scope[0];
        let a = count_stmt(scope, analysed, rules, d, p, s);
        if want < a.n {
            scope[0] = mark;
            return stmt_at(p, a.n, s);
        }
        s = a;
        p = q;
    }
    seek::own(list, s)
}

// From the List of statements that t leads to, d records deep at most, to the part of a statement that the word lies in.
fn step_list(
    scope: &mut [usize],
    analysed: &Analysed<'_>,
    rules: Rules,
    d: usize,
    t: Step,
    want: usize,
) -> Step
    requires { Ready analysed.now.contract.img.now analysed.now.contract.tables.now analysed.now.notes.now scope.old (vars-stmts (body_at (stmt_at_lem d analysed.now.contract.img.now) analysed.now.contract.img.now t.place)) × (d ≡ 0 → ⊥) }
    ensures { Falls analysed.now.contract.img.now analysed.now.contract.tables.now analysed.now.notes.now scope.old scope.new rules d t want result }
{
    let b = step_block(scope, analysed, rules, d, t.place, t.st, t.to, want);
    if b.way != Way::Stmt {
        return seek::own(b.place, b.st);
    }
    step_stmt(scope, analysed, rules, d - 1, b.place, b.st, b.to, want)
}

// The spot that t leads to, where that is no List of statements.
fn settle(
    analysed: &Analysed<'_>,
    scope: &[usize],
    rules: Rules,
    d: usize,
    t: Step,
    want: usize,
) -> Spot
    ensures { (t.way ≡ way.Block → ⊥) → Ends analysed.now.contract.img.now scope.now rules d want t result }
{
    if t.way == Way::Value {
        return seek::find_expr(analysed, scope, rules, d, t.place, t.st, t.to, want);
    }
    Spot {
        place: t.place,
        way: t.way,
        to: t.to,
    }
}

// The record that the word is of, in the List of statements at `list`.
pub fn find_stmt(
    scope: &mut [usize],
    analysed: &Analysed<'_>,
    rules: Rules,
    depth: usize,
    list: usize,
    st: St,
    end: usize,
    want: usize,
) -> Spot
    requires { Ready analysed.now.contract.img.now analysed.now.contract.tables.now analysed.now.notes.now scope.old (vars-stmts (body_at (stmt_at_lem depth analysed.now.contract.img.now) analysed.now.contract.img.now list)) }
    ensures { Blocks analysed.now.contract.img.now scope.old rules depth list st end want result }
{
    let mut t = block(list, end, st);
    for d in (0..depth).rev() {
        t = step_list(scope, analysed, rules, d + 1, t, want);
        if t.way != Way::Block {
            return settle(analysed, scope, rules, d, t, want);
        }
    }
    settle(analysed, scope, rules, 0, t, want)
}
