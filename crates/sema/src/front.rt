// What stands before generation, in document 01's order: image, analysis, 30. What is refused is handed on as data, with all that a
// text of it needs; number and place are made of it at the edge.
ghost use Rattle.std.specs.Prelude.{◌≡◌, List, ℕ};
ghost use Rattle.rules.specs.Ambiguous.{first_ambiguous_lem};
ghost use Rattle.rules.specs.Build.{analysed, judged, analysis_answer};
ghost use Rattle.rules.specs.Read.{contract_at};
ghost use Rattle.notes.specs.Notes.{Known, Blank};
ghost use Rattle.sema.specs.Entry.{Passed};
ghost use Rattle.sema.specs.Front.{refused_of, judged_of, spotted, Judges};
ghost use Rattle.rules.specs.Refusal.{refused};

use lookup::Fault;
use notes::Analysed;
use rules::{Answer, Seen};
use tables::Contract;

// Rows 1 to 7: number and place. Rows 10 to 22. Row 30: its place.
#[derive(Clone, Copy)]
pub enum Refused {
    Image(usize, usize),
    Analysis(Fault),
    Ambiguous(usize),
}

impl Refused {
    // 01: What comes back: its number and its place
    pub fn answer(self) -> Answer
        ensures { (img : List ℕ) → result ≡ refused (refused_of img self) }
    {
        match self {
            Refused::Image(number, place) => Answer::of(number as u64, place, 0),
            Refused::Analysis(fault) => crate::refusal(fault),
            Refused::Ambiguous(place) => Answer::of(30, place, 0),
        }
    }
}

// The tables and the analysis of an image that passed the check.
fn behind_check(
    tables: &mut [usize; tables::SIZE],
    names: &mut [usize; records::NAMES],
    notes: &mut [u8; notes::SIZE],
    image: &[u8],
) -> Result<(), Refused>
    requires { Passed image.now × Blank notes.old }
    ensures { Judges image.now (analysed image.now) tables.new notes.new result }
{
    tables::fill_tables(tables, image);
    let contract = Contract { img: image, tables };
    crate::analyse_checked(names, notes, &contract).map_err(Refused::Analysis)
}

// 01: image, analysis
pub(crate) fn analysis(
    tables: &mut [usize; tables::SIZE],
    names: &mut [usize; records::NAMES],
    notes: &mut [u8; notes::SIZE],
    image: &[u8],
) -> Result<(), Refused>
    requires { Blank notes.old }
    ensures { Judges image.now (analysed image.now) tables.new notes.new result }
{
    match image::check(image) {
        Err((number, place)) => Err(Refused::Image(number, place)),
        Ok(_) => behind_check(tables, names, notes, image),
    }
}

// 01: row 30. The analysis is over, so that its names serve once more as a table of fields.
fn ambiguity<'a>(
    names: &mut [usize; records::NAMES],
    image: &'a [u8],
    tables: &'a [usize],
    notes: &'a [u8; notes::SIZE],
) -> Result<(), Refused>
    requires { Known image.now tables.now notes.now }
    ensures { result ≡ spotted (first_ambiguous_lem (contract_at image.now)) }
{
    let contract = Contract { img: image, tables };
    match ambiguous::first_ambiguous(names, &Analysed { contract, notes }) {
        Some(place) => Err(Refused::Ambiguous(place)),
        None => Ok(()),
    }
}

// 01: image, analysis, 30
pub fn judge(
    tables: &mut [usize; tables::SIZE],
    names: &mut [usize; records::NAMES],
    notes: &mut [u8; notes::SIZE],
    image: &[u8],
) -> Result<(), Refused>
    requires { Blank notes.old }
    ensures { Judges image.now (judged image.now) tables.new notes.new result }
{
    analysis(tables, names, notes, image)?;
    ambiguity(names, image, tables, notes)
}

// 01: What comes back
pub fn answer_of(judged: Result<(), Refused>) -> Answer
    ensures { (img : List ℕ) → result ≡ analysis_answer (judged_of img judged) }
{
    match judged {
        Ok(()) => Answer::of(0, 0, 0),
        Err(refused) => refused.answer(),
    }
}
