// What the analysis (001: sema.rs) looks up: types, names in scope, structs, fields and functions. A name is the place of its record.
#![tactic(auto)]

ghost use Rattle.std.specs.Prelude.{◌≡◌, List, ℕ, ◌≤◌, ◌+◌, eqb, length, get_or, drop};
ghost use Rattle.rules.specs.Bytes.{pick, name_at, inside, after};
ghost use Rattle.rules.specs.Tables.{last, nth, mapped};
ghost use Rattle.rules.specs.Tree.{Expr};
ghost use Rattle.rules.specs.Read.{name_in, struct_at, contract_at, function_at};
ghost use Rattle.rules.specs.Types.{Typ, type_named, tag_of, name_of, eq_typ, clash, init_clash, find};
ghost use Rattle.rules.specs.Refusal.{Refusal, unless};
ghost use Rattle.rules.specs.Builtins.{builtin, arity};
ghost use Rattle.rules.specs.Analyse.{ret_type, params_of, field_type_lem, init_fits_lem, fitted, applied, signature, expr, clashes};
ghost use Rattle.lookup.specs.Answers.{ty_of, got_of, sig_at, typ_of, env_of, ret_of, due_of, typed_of, checked_of, misfit_of, noted};
ghost use Rattle.lookup.specs.Scope.{Pushed};
ghost use Rattle.lookup.specs.Fields.{Spotted, Accessed};

use tables::Contract;

// 001: Type. A struct's type has the place of its name.
#[derive(Clone, Copy)]
pub enum Ty {
    U64,
    Bool,
    Field,
    Void,
    Unknown,
    Struct(usize),
}

// A field of a struct: its first position, and the place of its last Field.
#[derive(Clone, Copy)]
struct Spot {
    position: usize,
    place: usize,
}

// A builtin with the number of its parameters; a function of the image with its place.
#[derive(Clone, Copy)]
pub enum Callee {
    Builtin(usize),
    User(usize),
    Undefined,
}

// The parameters that are still due: so many of type u64; or the Fields from a place to an end, so many at most.
#[derive(Clone, Copy)]
pub enum Due {
    Words(usize),
    Fields(usize, usize, usize),
}

// Why a contract is refused, with the places of what the Rust's text says.
#[derive(Clone, Copy)]
pub enum Fault {
    Ident(usize, usize),
    Target(usize, usize),
    Assign(usize, Ty, Ty),
    Return(usize, Ty, Ty),
    NoField(usize, usize, usize),
    NotStruct(usize),
    InitType(usize, usize),
    InitField(usize, usize),
    NoStruct(usize, usize),
    ArgCount(usize, usize, usize, usize),
    ArgType(usize, usize, usize),
    NoFunction(usize, usize),
    Operands(usize),
}

// The first argument that does not fit its parameter: its index and its place.
#[derive(Clone, Copy)]
pub struct Misfit {
    pub index: usize,
    pub place: usize,
}

// 001: Type::from_str, of the name at p.
fn type_at(img: &[u8], p: usize) -> Ty
    ensures { ty_of img.now result ≡ type_named (name_at img.now p) }
{
    if records::is_name(img, p, b"u64") {
        return Ty::U64;
    }
    if records::is_name(img, p, b"bool") {
        return Ty::Bool;
    }
    if records::is_name(img, p, b"field") {
        return Ty::Field;
    }
    Ty::Struct(p)
}

fn tag(t: Ty) -> usize
    ensures { (img : List ℕ) → result ≡ tag_of (ty_of img t) }
{
    match t {
        Ty::U64 => 0,
        Ty::Bool => 1,
        Ty::Field => 2,
        Ty::Void => 3,
        Ty::Unknown => 4,
        Ty::Struct(_) => 5,
    }
}

// The place of a struct's name; of another type's, the end, where no name is.
fn name_place(img: &[u8], t: Ty) -> usize
    ensures { name_at img.now result ≡ name_of (ty_of img.now t) }
{
    match t {
        Ty::Struct(p) => p,
        Ty::U64 | Ty::Bool | Ty::Field | Ty::Void | Ty::Unknown => img.len(),
    }
}

fn type_of(tag: usize, p: usize) -> Ty
    ensures { (img : List ℕ) → ty_of img result ≡ typ_of tag (name_at img p) }
{
    match tag {
        0 => Ty::U64,
        1 => Ty::Bool,
        2 => Ty::Field,
        3 => Ty::Void,
        4 => Ty::Unknown,
        _ => Ty::Struct(p),
    }
}

// Only a struct's type has a name.
fn same_type(img: &[u8], a: Ty, b: Ty) -> bool
    ensures { result ≡ eq_typ (ty_of img.now a) (ty_of img.now b) }
{
    let k = tag(a);
    if k != tag(b) {
        return false;
    }
    if k < 5 {
        return true;
    }
    records::same_name(img, name_place(img, a), name_place(img, b))
}

// Two types that differ, neither of them Unknown.
pub fn clashing(img: &[u8], a: Ty, b: Ty) -> bool
    ensures { result ≡ clash (ty_of img.now a) (ty_of img.now b) }
{
    if same_type(img, a, b) {
        return false;
    }
    if tag(a) == 4 {
        return false;
    }
    if tag(b) == 4 {
        return false;
    }
    true
}

// A mismatch of an Init: only the value's type may be Unknown.
fn init_clashing(img: &[u8], a: Ty, b: Ty) -> bool
    ensures { result ≡ init_clash (ty_of img.now a) (ty_of img.now b) }
{
    if same_type(img, b, a) {
        return false;
    }
    if tag(b) == 4 {
        return false;
    }
    true
}

fn cell(a: &[usize], i: usize) -> usize
    ensures { result ≡ get_or a.now i 0 }
{
    if i < a.len() { a[i] } else { 0 }
}

// 001: env.get. The type of the newest local with the name at x; names are compared only where their keys are equal.
pub fn find_local(img: &[u8], env: &[usize], top: usize, x: usize) -> Option<Ty>
    ensures { got_of img.now result ≡ find (name_at img.now x) (env_of img.now env.now top) }
{
    let key = records::name_key(img, x);
    let mut k = top;
    while 2 <= k {
        k -= 2;
        if cell(env, k) == key {
            let c = cell(env, k + 1);
            if records::same_name(img, records::place_in(c), x) {
                let n = records::number_in(c);
                return Some(type_of(n % 8, n / 8));
            }
        }
    }
    None
}

// 001: env.insert. One name more, with the name at x, of type t.
pub fn push(env: &mut [usize], img: &[u8], top: usize, x: usize, t: Ty) -> usize
    requires { (top + 2 ≤ length env.old) × (length img.now ≤ 65536) }
    ensures { Pushed img.now env.old env.new top x t result }
{
    let key = records::name_key(img, x);
    let a = tag(t);
    let b = records::within(img, name_place(img, t));
    let cell = records::beside(img, x, a + 8 * b);
    env[top] = key;
    env[top + 1] = cell;
    top + 2
}

// The type of the Field at f.
pub fn declared(img: &[u8], f: usize) -> Ty
    ensures { ty_of img.now result ≡ type_named (name_at img.now (after img.now (inside img.now f))) }
{
    type_at(img, records::past(img, records::body(img, f)))
}

// The type of the field with the name at x of the struct at s.
fn field_type(img: &[u8], s: usize, x: usize) -> Option<Ty>
    ensures { got_of img.now result ≡ field_type_lem (name_at img.now x) (struct_at img.now s) }
{
    let list = records::past(img, records::body(img, s));
    let spot = field_spot(img, list, records::name(img, x))?;
    Some(declared(img, spot.place))
}

// 001: Builtins. How many arguments the one with the name at x takes.
fn builtin_arity(img: &[u8], x: usize) -> Option<usize>
    ensures { result ≡ mapped arity (builtin (name_at img.now x)) }
{
    let name = records::name(img, x);
    if records::same(name, b"poseidon") {
        return Some(2);
    }
    if records::same(name, b"msg::sender") {
        return Some(0);
    }
    if records::same(name, b"msg::nonce") {
        return Some(0);
    }
    if records::same(name, b"block::number") {
        return Some(0);
    }
    if records::same(name, b"verify_merkle_proof") {
        return Some(3);
    }
    None
}

// 001: functions.get: the builtins were put in last.
pub fn callee_named(contract: &Contract<'_>, x: usize) -> Callee
    ensures { sig_at contract.now.img.now result ≡ signature (contract_at contract.now.img.now) (name_at contract.now.img.now x) }
{
    if let Some(k) = builtin_arity(contract.img, x) {
        return Callee::Builtin(k);
    }
    match contract.function_named(x) {
        Some(found) => Callee::User(found.place),
        None => Callee::Undefined,
    }
}

// The parameters of a function.
pub fn dues(img: &[u8], c: Callee) -> Due
    ensures { due_of img.now result ≡ params_of (sig_at img.now c) }
{
    match c {
        Callee::Builtin(k) => Due::Words(k),
        Callee::User(p) => {
            let list = records::past(img, records::body(img, p));
            Due::Fields(records::body(img, list), records::past(img, list), 512)
        }
        Callee::Undefined => Due::Words(0),
    }
}

// The type of the next parameter.
fn first_due(img: &[u8], due: Due) -> Option<Ty>
    ensures { got_of img.now result ≡ nth 0 (due_of img.now due) }
{
    match due {
        Due::Words(k) => {
            if k == 0 {
                return None;
            }
            Some(Ty::U64)
        }
        Due::Fields(at, end, left) => {
            if left == 0 {
                return None;
            }
            if end <= at {
                return None;
            }
            Some(declared(img, at))
        }
    }
}

// The parameters behind the next one.
pub fn next_due(img: &[u8], due: Due) -> Due
    ensures { due_of img.now result ≡ drop 1 (due_of img.now due) }
{
    match due {
        Due::Words(k) => {
            if k == 0 {
                return due;
            }
            Due::Words(k - 1)
        }
        Due::Fields(at, end, left) => {
            if left == 0 {
                return due;
            }
            if end <= at {
                return due;
            }
            Due::Fields(records::past(img, at), end, left - 1)
        }
    }
}

// How many parameters are due.
fn due_count(img: &[u8], due: Due) -> usize
    ensures { result ≡ length (due_of img.now due) }
{
    match due {
        Due::Words(k) => k,
        Due::Fields(at, end, left) => records::count(img, at, end, left),
    }
}

// 001: analyze_function, the return type of the function at p.
pub fn user_ret(img: &[u8], p: usize) -> Ty
    ensures { ty_of img.now result ≡ ret_type (function_at img.now p).ret }
{
    let params = records::past(img, records::body(img, p));
    let list = records::past(img, params);
    let name = records::body(img, list);
    if name < records::past(img, list) {
        type_at(img, name)
    } else {
        Ty::Void
    }
}

fn ret(img: &[u8], c: Callee) -> Ty
    ensures { ty_of img.now result ≡ ret_of (sig_at img.now c) }
{
    match c {
        Callee::Builtin(_) => Ty::U64,
        Callee::User(p) => user_ret(img, p),
        Callee::Undefined => Ty::Unknown,
    }
}

// Whether a value of type t does not fit the next parameter.
fn misfits(img: &[u8], due: Due, t: Ty) -> bool
    ensures { result ≡ clashes (nth 0 (due_of img.now due)) (ty_of img.now t) }
{
    match first_due(img, due) {
        Some(e) => clashing(img, e, t),
        None => false,
    }
}

// 001: Arg {} type mismatch. The misfit found before, else the argument at `at`, of index i and type t, if it does not fit.
pub fn note(img: &[u8], due: Due, i: usize, at: usize, t: Ty, m: Option<Misfit>) -> Option<Misfit>
    ensures { misfit_of result ≡ noted (clashes (nth 0 (due_of img.now due)) (ty_of img.now t)) i at (misfit_of m) }
{
    if m.is_none() && misfits(img, due, t) {
        return Some(Misfit {
            index: i,
            place: at,
        });
    }
    m
}

// 001: analyze_expr, Ident.
pub fn analyze_ident(img: &[u8], at: usize, env: &[usize], top: usize) -> Result<Ty, Fault>
    ensures { typed_of img.now result ≡ expr (contract_at img.now) (Expr.ident at (name_in img.now at)) (env_of img.now env.now top) }
{
    let x = records::body(img, at);
    find_local(img, env, top, x).ok_or(Fault::Ident(at, x))
}

// The first position where a field is found, 64 if nowhere yet: it is sought at n, or was found before.
fn first_of(first: usize, is: bool, n: usize) -> usize
    ensures { result ≡ pick is (pick (eqb first 64) n first) first }
{
    if is {
        if first == 64 {
            return n;
        }
    }
    first
}

// The last place.
fn last_of(last: usize, is: bool, p: usize) -> usize
    ensures { result ≡ pick is p last }
{
    if is { p } else { last }
}

// The field x in the List of Fields at l: its type is the last one's (001), its position the first one's (000). Two numbers are the walk's state: with
// both in an enum it took twice the time (docs/DECISIONS.md, 52).
fn field_spot(img: &[u8], l: usize, x: &[u8]) -> Option<Spot>
    ensures { Spotted img.now l x.now result }
{
    let end = records::past(img, l);
    let mut p = records::body(img, l);
    let mut n = 0;
    let mut first: usize = 64;
    let mut last: usize = 0;
    while n < 64 && p < end {
        let is = records::is_name(img, records::body(img, p), x);
        first = first_of(first, is, n);
        last = last_of(last, is, p);
        p = records::past(img, p);
        n += 1;
    }
    if first == 64 {
        None
    } else {
        Some(Spot {
            position: first,
            place: last,
        })
    }
}

// A field, with the name at x, of the struct with the name at s.
fn struct_field(
    notes: &mut [u8; notes::SIZE],
    contract: &Contract<'_>,
    at: usize,
    s: usize,
    x: usize,
) -> Result<Ty, Fault>
    ensures { Accessed contract.now.img.now notes.old notes.new at (Typ.struct (name_at contract.now.img.now s)) x result }
{
    let img = contract.img;
    let Some(found) = contract.struct_named(s) else {
        notes::leave(notes);
        return Ok(Ty::Unknown);
    };
    let list = records::past(img, records::body(img, found.place));
    let spot = field_spot(img, list, records::name(img, x)).ok_or(Fault::NoField(at, s, x))?;
    notes::set(notes, at, spot.position);
    Ok(declared(img, spot.place))
}

// 001: analyze_expr, FieldAccess: a field, with the name at x, of a value of type t. What is found is noted (02: P2).
pub fn field_of(
    notes: &mut [u8; notes::SIZE],
    contract: &Contract<'_>,
    at: usize,
    t: Ty,
    x: usize,
) -> Result<Ty, Fault>
    ensures { Accessed contract.now.img.now notes.old notes.new at (ty_of contract.now.img.now t) x result }
{
    match t {
        Ty::Struct(s) => struct_field(notes, contract, at, s, x),
        Ty::Unknown => {
            notes::leave(notes);
            Ok(Ty::Unknown)
        }
        Ty::U64 | Ty::Bool | Ty::Field | Ty::Void => Err(Fault::NotStruct(at)),
    }
}

// 001: analyze_expr, Binary: the operands' types. A comparison too has the left one.
pub fn both(img: &[u8], at: usize, a: Ty, b: Ty) -> Result<Ty, Fault>
    ensures { typed_of img.now result ≡ unless (clash (ty_of img.now a) (ty_of img.now b)) (Refusal.operands at) (ty_of img.now a) }
{
    if clashing(img, a, b) {
        Err(Fault::Operands(at))
    } else {
        Ok(a)
    }
}

// 001: analyze_expr, StructLiteral: the Init at `at`, of the struct at s, with a value of type t.
pub fn init_fits(img: &[u8], at: usize, s: usize, t: Ty) -> Result<(), Fault>
    ensures { checked_of img.now result ≡ init_fits_lem at (name_in img.now at) (field_type_lem (name_in img.now at) (struct_at img.now s)) (ty_of img.now t) }
{
    let x = records::body(img, at);
    let due = field_type(img, s, x).ok_or(Fault::InitField(at, x))?;
    if init_clashing(img, due, t) {
        return Err(Fault::InitType(at, x));
    }
    Ok(())
}

// A call of a function that there is, with the name at x, with n arguments.
fn fit_call(
    img: &[u8],
    at: usize,
    x: usize,
    c: Callee,
    n: usize,
    m: Option<Misfit>,
) -> Result<Ty, Fault>
    ensures { typed_of img.now result ≡ fitted at (name_at img.now x) n (misfit_of m) (params_of (sig_at img.now c)) (ret_of (sig_at img.now c)) }
{
    let k = due_count(img, dues(img, c));
    if k != n {
        return Err(Fault::ArgCount(at, x, k, n));
    }
    match m {
        Some(misfit) => Err(Fault::ArgType(misfit.place, misfit.index, x)),
        None => Ok(ret(img, c)),
    }
}

// 001: analyze_expr, Call: of the function with the name at x, with n arguments.
pub fn apply_to(
    img: &[u8],
    at: usize,
    x: usize,
    c: Callee,
    n: usize,
    m: Option<Misfit>,
) -> Result<Ty, Fault>
    ensures { typed_of img.now result ≡ applied at (name_at img.now x) n (misfit_of m) (sig_at img.now c) }
{
    match c {
        Callee::Undefined => Err(Fault::NoFunction(at, x)),
        Callee::Builtin(_) | Callee::User(_) => fit_call(img, at, x, c, n, m),
    }
}
