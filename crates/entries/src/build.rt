// A build whose function table is a lent slice of entry structs (01: What comes back).
ghost use Rattle.std.specs.Prelude.{◌≡◌, ℕ, ◌/◌, length};
ghost use Rattle.rules.specs.Build.{rules, outcome};
ghost use Rattle.compiler.specs.Ends.{Built};
ghost use Rattle.compiler.specs.Stages.{Leaves};
ghost use Rattle.entries.specs.Entries.{numbers_of};

use crate::Entry;
use rules::Answer;
use tables::Contract;

// What a build leaves for the table: its answer, where the functions stand, their first words.
#[derive(Clone, Copy)]
struct Made {
    answer: Answer,
    tables: [usize; tables::SIZE],
    firsts: [usize; 256],
}

// All but the function table, which has room for so many entries.
fn work(image: &[u8], code: &mut [u64], room: usize) -> Made
    ensures { (t : ℕ) → t / 3 ≡ room → Leaves image.now code.old result.answer code.new result.firsts result.tables (outcome rules image.now (length code.old) t) }
{
    let mut tables = [0usize; tables::SIZE];
    let mut firsts = [0usize; 256];
    let answer = compiler::stages::make(
        code,
        &mut firsts,
        &mut tables,
        image,
        room,
        compiler::stages::target(),
    );
    Made {
        answer,
        tables,
        firsts,
    }
}

// The same whole answer as compiler::build's, over the numbers of the entries.
pub fn build_entries(image: &[u8], code: &mut [u64], table: &mut [Entry]) -> Answer
    ensures { Built rules image.now code.old (numbers_of table.old) result code.new (numbers_of table.new) }
{
    let m = work(image, code, table.len());
    if m.answer.refusal == 0 {
        let tables = m.tables;
        let firsts = m.firsts;
        let contract = Contract {
            img: image,
            tables: &tables,
        };
        crate::fill(table, &contract, &firsts);
    } else {
        crate::clear(table);
    }
    m.answer
}
