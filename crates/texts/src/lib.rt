// The texts of the Rust (02: P1), of any image and any slice.
#![tactic(auto)]

ghost use Rattle.std.specs.Prelude.{◌≡◌, ◌≤◌, length, Err};
ghost use Rattle.rules.specs.Build.{rules};
ghost use Rattle.rules.specs.Link.{generate};
ghost use Rattle.rules.specs.Read.{contract_at};
ghost use Rattle.rules.specs.Refusal.{answer};
ghost use Rattle.rules.specs.Texts.{text_answer, text_bytes};
ghost use Rattle.notes.specs.Notes.{Known};
ghost use Rattle.sema.specs.Entry.{Passed};
ghost use Rattle.sema.specs.Front.{judged_of};
ghost use Rattle.texts.specs.Tells.{Tells, Room};

use compiler::stages;
use rules::Answer;
use sema::front;
use sema::front::Refused;

// 02: count is the text's length
fn told(a: Answer, count: usize) -> Answer
    ensures { result ≡ answer a.refusal a.place count }
{
    Answer {
        count: count as u64,
        ..a
    }
}

// What comes before generation. Only analysis has a text.
fn refused_text(out: &mut [u8], image: &[u8], refused: Refused) -> Answer
    requires { Room (judged_of image.now (Err refused)) out.old }
    ensures { Tells (judged_of image.now (Err refused)) out.old out.new result }
{
    let a = refused.answer();
    match refused {
        Refused::Analysis(fault) => told(a, wording::fault(out, image, fault)),
        Refused::Image(_, _) => a,
        Refused::Ambiguous(_) => a,
    }
}

// Generation, for its refusal alone: no word is kept.
fn generated_text(
    out: &mut [u8],
    names: &mut [usize; records::NAMES],
    image: &[u8],
    tables: &[usize; tables::SIZE],
    notes: &[u8; notes::SIZE],
) -> Answer
    requires { Room (generate rules (contract_at image.now)) out.old × (Known image.now tables.now notes.now × Passed image.now) }
    ensures { Tells (generate rules (contract_at image.now)) out.old out.new result }
{
    let mut code = [0u64; 1];
    let mut bytes = [0u8; 1];
    let mut firsts = [0usize; 256];
    let a = stages::generated(
        &mut code,
        &mut bytes,
        names,
        &mut firsts,
        image,
        tables,
        notes,
        stages::target(),
    );
    if a.refusal == 0 {
        return told(a, 0);
    }
    told(
        a,
        wording::generation(out, image, a.refusal, a.place as usize),
    )
}

// Number and place of the build's refusal (50 and 51 do not arise) and the length of its text, which lies over the slice; what lies past it
// is as it was lent. The slice needs 256 bytes (52). Where there is no text (52, 0, 1 to 7, 30) the slice is unchanged.
pub fn text(image: &[u8], out: &mut [u8]) -> Answer
    ensures { (result ≡ text_answer image.now out.old) × (out.new ≡ text_bytes image.now out.old) }
{
    if out.len() < 256 {
        return Answer::of(52, 0, 0);
    }
    let mut tables = [0usize; tables::SIZE];
    let mut names = [0usize; records::NAMES];
    let mut notes = [0u8; notes::SIZE];
    match front::judge(&mut tables, &mut names, &mut notes, image) {
        Ok(()) => generated_text(out, &mut names, image, &tables, &notes),
        Err(refused) => refused_text(out, image, refused),
    }
}
