// The image check (01: The contract image; rows 1 to 7 of What comes back): any bytes whatsoever are sound or have a first fault.
#![tactic(auto)]

mod grammar;
mod read;

ghost use Rattle.std.specs.Prelude.{◌≡◌, ◌+◌, ◌-◌, ◌≤◌, ◌<◌, length, eqb, leb};
ghost use Rattle.rules.specs.Bytes.{◌or◌, ◌and◌};
ghost use Rattle.rules.specs.Check.{unframed, counts, small, own_of, vars_in_lem, check_of};
ghost use Rattle.image.specs.Rows.{off, full, Right};
ghost use Rattle.image.specs.Within.{short, first_of, fault_of, Parts};

use grammar::{
    CONTRACT_PARTS, MANY, PARAM, PARTS, STORAGE_FIELD, TABLE, after_first, dues_of, is_ended,
    is_leaf, not_due,
};
use read::{all_name, half, word};
use rules::Seen;

// Under 6 bytes are left, or the length is under 2 or passes the end.
fn no_frame(s: &[u8], at: usize, end: usize) -> bool
    requires { (at ≤ end) × (end ≤ length s.now) }
    ensures { result ≡ unframed s.now at end }
{
    if end - at < 6 {
        return true;
    }
    let len = word(s, at);
    if len < 2 {
        return true;
    }
    end - at < 4 + len
}

// A parameter, a Let or a For.
fn is_var(d: usize, kind: usize) -> bool
    ensures { result ≡ counts d kind }
{
    if d == PARAM {
        return true;
    }
    if kind == 32 {
        return true;
    }
    kind == 39
}

// One of too many parameters, Lets and Fors.
fn many_vars(d: usize, kind: usize, vars: usize) -> bool
    ensures { result ≡ (counts d kind and leb 512 vars) }
{
    if vars < 512 {
        return false;
    }
    is_var(d, kind)
}

// The record is the first over a bound: of its List, or of its function's parameters, Lets and Fors.
fn too_many(d: usize, kind: usize, dues: usize, vars: usize) -> bool
    ensures { result ≡ (full d dues or counts d kind and leb 512 vars) }
{
    if STORAGE_FIELD <= d {
        if dues < PARTS {
            return true;
        }
        return many_vars(d, kind, vars);
    }
    many_vars(d, kind, vars)
}

// One byte below a limit.
fn is_small(s: &[u8], from: usize, to: usize, limit: usize) -> bool
    requires { (from ≤ to) × (to ≤ length s.now) }
    ensures { result ≡ small s.now from to limit }
{
    if to - from == 1 {
        usize::from(s[from]) < limit
    } else {
        false
    }
}

// The record's own bytes are right.
fn own(s: &[u8], from: usize, to: usize, kind: usize) -> bool
    requires { (from ≤ to) × (to ≤ length s.now) }
    ensures { result ≡ own_of s.now from to kind }
{
    if kind == 1 {
        if to - from == 0 {
            return false;
        }
        if 64 < to - from {
            return false;
        }
        return all_name(s, from, to);
    }
    if kind == 3 {
        return is_small(s, from, to, 2);
    }
    if kind == 4 {
        return is_small(s, from, to, 10);
    }
    if kind == 64 {
        return to - from == 8;
    }
    true
}

// The refusal of a record, before its own bytes and its parts are looked at, where d is due; or 0.
fn refusal(
    t: &[usize; 90],
    room: usize,
    left: usize,
    d: usize,
    dues: usize,
    vars: usize,
    size: usize,
    kind: usize,
) -> usize
    requires { (d < 32) × (size < 4294967296) }
    ensures { result ≡ first_of (short size room) (eqb left 0) (off t.now d kind) (full d dues or counts d kind and leb 512 vars) }
{
    if size < 2 {
        return 2;
    }
    if room < 4 + size {
        return 2;
    }
    if left == 0 {
        return 6;
    }
    if not_due(t, d, kind) {
        return 3;
    }
    if too_many(d, kind, dues, vars) {
        return 7;
    }
    0
}

// The count of parameters, Lets and Fors at the record's children: a Function starts anew.
fn vars_in(d: usize, kind: usize, vars: usize) -> usize
    requires { vars < 9223372036854775808 }
    ensures { (result ≡ vars_in_lem d kind vars) × (result ≤ vars + 1) }
{
    if kind == 19 {
        return 0;
    }
    if is_var(d, kind) { vars + 1 } else { vars }
}

// A fault as one number, above every count. Where nothing is due any record is one too many.
fn fault(d: usize, number: usize, place: usize) -> usize
    requires { (number < 8) × (place < 4294967296) }
    ensures { result ≡ fault_of d number place }
{
    if d == 0 {
        return 4 * PARTS + place;
    }
    number * PARTS + place
}

// Checks the parts of a record, `levels` being left for each; what is due in it is `dues`. It calls itself on each that has parts, but for
// one that is the last and ends where the record does: its parts come next.
fn check_record(
    s: &[u8],
    t: &[usize; 90],
    from: usize,
    end: usize,
    levels: usize,
    dues: usize,
    vars: usize,
) -> usize
    requires { (from ≤ end) × (end ≤ length s.now) × (end ≤ 65536) × (vars + 6 ≤ from) × Right t.now }
    ensures { Parts levels s.now from end dues vars result }
{
    let mut p = from;
    let mut left = levels;
    let mut w = dues;
    let mut n = vars;
    loop {
        let d = w % 32;
        if end - p < 6 {
            if is_ended(d, p, end) {
                return n;
            }
            return fault(d, 2, p);
        }
        let size = word(s, p);
        let kind = half(s, p + 4);
        let no = refusal(t, end - p, left, d, w, n, size, kind);
        if no != 0 {
            return fault(d, no, p);
        }
        let next = p + 4 + size;
        w = after_first(d, w);
        if is_leaf(t, kind) {
            if own(s, p + 6, next, kind) {
                p = next;
                continue;
            }
            return fault(d, 5, p);
        }
        let inner = dues_of(t, d, kind);
        let m = vars_in(d, kind, n);
        if is_ended(w % 32, next, end) {
            p += 6;
            left -= 1;
            w = inner;
            n = m;
            continue;
        }
        let r = check_record(s, t, p + 6, next, left - 1, inner, m);
        if MANY <= r {
            return r;
        }
        p = next;
        n = r;
    }
}

// The first fault of an image, or where it ends: the numbers of document 01's rows 1 to 7 are given by `rules` Check (`refusal_of`, `children_of`, `whole_of`, `check_of`).
pub fn check(image: &[u8]) -> Seen
    ensures { result ≡ check_of image.now }
{
    if 65536 < image.len() {
        return Err((1, 0));
    }
    if no_frame(image, 0, image.len()) {
        return Err((2, 0));
    }
    if half(image, 4) != 16 {
        return Err((3, 0));
    }
    let next = 4 + word(image, 0);
    let t = TABLE;
    let r = check_record(image, &t, 6, next, 63, CONTRACT_PARTS, 0);
    if MANY <= r {
        return Err((r / PARTS, r % PARTS));
    }
    if next < image.len() {
        Err((4, next))
    } else {
        Ok((next, r))
    }
}
