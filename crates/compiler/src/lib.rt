// The public build (01: What comes back), of any image and any room.
#![tactic(auto)]

pub mod stages;
pub mod table;

ghost use Rattle.rules.specs.Build.{rules};
ghost use Rattle.compiler.specs.Ends.{Built};

use rules::Answer;
use tables::Contract;

// Refusal, place and count of an image built into a lent code slice, with a lent table of function entries, three numbers each (place,
// first word, parameter count). On a refusal both are all zero; on 0 what lies past the words and the entries is as it was lent.
pub fn build(image: &[u8], code: &mut [u64], table: &mut [u64]) -> Answer
    ensures { Built rules image.now code.old table.old result code.new table.new }
{
    let mut firsts = [0usize; 256];
    let mut tables = [0usize; tables::SIZE];
    let a = stages::make(
        code,
        &mut firsts,
        &mut tables,
        image,
        table.len() / 3,
        stages::target(),
    );
    if a.refusal != 0 {
        table.fill(0);
        return a;
    }
    let contract = Contract {
        img: image,
        tables: &tables,
    };
    table::fill(table, &contract, &firsts);
    a
}
