// Why is this word here (02: P5): the record whose own translation emitted a word of an image's program, and where its offset leads if it was
// patched later. The program is built once for its refusals and for where each function starts, and no word is kept; then the walk goes
// down from the function that the word lies in (crates trace and seek).
#![tactic(auto)]

ghost use Rattle.std.specs.Prelude.{◌≡◌, ◌≤◌};
ghost use Rattle.rules.specs.Build.{rules};
ghost use Rattle.rules.specs.Read.{contract_at};
ghost use Rattle.rules.specs.Why.{marked, because, why_in, why_of};
ghost use Rattle.notes.specs.Notes.{Known};
ghost use Rattle.sema.specs.Entry.{Passed};
ghost use Rattle.codegen.specs.Does.{Given};
ghost use Rattle.seek.specs.Spots.{plain, Saves};
ghost use Rattle.why.specs.Tells.{refusing, target_in, InFunction, Lies, Located, Opened};

use compiler::stages;
use emit::{Rules, St};
use notes::Analysed;
use rules::{Answer, Why};
use seek::{Spot, Way};
use sema::front;
use tables::Contract;

// 02: no word has the index
const NO_WORD: u64 = 53;

// The build's own refusal.
fn refused(a: Answer) -> Why
    ensures { result ≡ refusing a }
{
    Why {
        refusal: a.refusal,
        place: a.place,
        patched: false,
        target: 0,
    }
}

// A word of the record at `place` that is not patched.
fn own(place: usize) -> Spot
    ensures { result ≡ plain place }
{
    Spot {
        place,
        way: Way::Plain,
        to: 0,
    }
}

// The state behind one Pop for each parameter.
fn popped(st: St, params: usize) -> St
    ensures { Saves st params result }
{
    St {
        next: st.next,
        reg: st.reg,
        err: st.err,
        place: st.place,
        n: emit::sum(st.n, params),
    }
}

// Of a function: the Pops, the Push, its statements, and the five words that every function ends with.
fn in_function(
    scope: &mut [usize],
    analysed: &Analysed<'_>,
    rules: Rules,
    f: usize,
    first: usize,
    end: usize,
    want: usize,
) -> Spot
    requires { Given analysed.now.contract.img.now analysed.now.contract.tables.now analysed.now.notes.now scope.old f }
    ensures { InFunction analysed.now.contract.img.now rules f first end want result }
{
    let img = analysed.contract.img;
    scope[0] = 0;
    let st = St {
        next: 1,
        reg: 0,
        err: 0,
        place: 0,
        n: first,
    };
    let a = st.alloc_reg(rules, f);
    let p = a.reserve();
    let b = codegen::bind_params(scope, img, rules, f, p);
    let params = scope[0];
    let q = popped(b, params);
    let u = q.reserve();
    if want < u.n {
        return own(f);
    }
    if trace::among_last(want, 5, end) {
        return own(f);
    }
    let w = u.with(0, codegen::next_of(a.reg, params));
    trace::find_stmt(
        scope,
        analysed,
        rules,
        64,
        codegen::statements(img, f),
        w,
        end - 5,
        want,
    )
}

// The index of the function that the word lies in: the first whose successor starts behind it, or the last.
fn function_of(firsts: &[usize; 256], count: usize, want: usize) -> usize
    requires { count ≤ 256 }
    ensures { Lies firsts.now count want result }
{
    let mut k: usize = 0;
    while k + 1 < count {
        if want < firsts[k + 1] {
            return k;
        }
        k += 1;
    }
    k
}

// Of the program, n words long: the Contract's three words first, of which the second calls main.
fn in_program(
    scope: &mut [usize],
    firsts: &[usize; 256],
    analysed: &Analysed<'_>,
    rules: Rules,
    n: usize,
    want: usize,
) -> Spot
    requires { Located analysed.now.contract.img.now analysed.now.contract.tables.now analysed.now.notes.now scope.old }
    ensures { Opened analysed.now.contract.img.now rules firsts.now n want result }
{
    if want == 1 {
        return Spot {
            place: 0,
            way: Way::Calls,
            to: codegen::main_index(&analysed.contract),
        };
    }
    if want < 3 {
        return own(0);
    }
    let count = analysed.contract.function_count();
    let k = function_of(firsts, count, want);
    let end = if k + 1 < count { firsts[k + 1] } else { n };
    in_function(
        scope,
        analysed,
        rules,
        analysed.contract.function_place(k),
        firsts[k],
        end,
        want,
    )
}

// A spot as an answer: a call leads to its function's first word.
fn because(firsts: &[usize; 256], s: Spot) -> Why
    ensures { result ≡ because 0 s.place (target_in firsts.now s) }
{
    let place = s.place as u64;
    let to = s.to;
    match s.way {
        Way::Ahead => Why {
            refusal: 0,
            place,
            patched: true,
            target: to as u64,
        },
        Way::Calls if to < 256 => Why {
            refusal: 0,
            place,
            patched: true,
            target: firsts[to] as u64,
        },
        _ => Why {
            refusal: 0,
            place,
            patched: false,
            target: 0,
        },
    }
}

// Behind analysis and 30: generation, then the walk.
fn generated<'a>(
    names: &mut [usize; records::NAMES],
    image: &'a [u8],
    tables: &'a [usize],
    notes: &'a [u8; notes::SIZE],
    index: u64,
) -> Why
    requires { Known image.now tables.now notes.now × Passed image.now }
    ensures { result ≡ why_in index (marked rules (contract_at image.now)) }
{
    let mut code = [0u64; 1];
    let mut bytes = [0u8; 1];
    let mut firsts = [0usize; 256];
    let target = stages::target();
    let a = stages::generated(
        &mut code,
        &mut bytes,
        names,
        &mut firsts,
        image,
        tables,
        notes,
        target,
    );
    if a.refusal != 0 {
        return refused(a);
    }
    if a.count <= index {
        return Why {
            refusal: NO_WORD,
            place: 0,
            patched: false,
            target: 0,
        };
    }
    let contract = Contract { img: image, tables };
    let analysed = Analysed { contract, notes };
    let s = in_program(
        names,
        &firsts,
        &analysed,
        target,
        a.count as usize,
        index as usize,
    );
    because(&firsts, s)
}

// The record of word number `index`, whether it was patched, and the word that its offset leads to. The build's own refusals come first (50 and
// 51 do not arise), then 53 where there is no such word.
pub fn why(image: &[u8], index: u64) -> Why
    ensures { result ≡ why_of image.now index }
{
    let mut tables = [0usize; tables::SIZE];
    let mut names = [0usize; records::NAMES];
    let mut notes = [0u8; notes::SIZE];
    if let Err(judged) = front::judge(&mut tables, &mut names, &mut notes, image) {
        return refused(judged.answer());
    }
    generated(&mut names, image, &tables, &notes, index)
}
