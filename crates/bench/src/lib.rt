// The check and the build as C functions, for `oracle/` to compare and to time: the three numbers in one, as `host` packs them.
#![tactic(auto)]

ghost use Rattle.std.specs.Prelude.{◌≡◌};
ghost use Rattle.rules.specs.Check.{check_of};
ghost use Rattle.rules.specs.Build.{rules, packed, build_of, code_of, table_of};
ghost use Rattle.bench.specs.Small.{checked};

use rules::{Answer, Seen};

// 01: rows 1 to 7
#[unsafe(no_mangle)]
pub extern "C" fn hasp_check(image: &[u8]) -> u64
    ensures { result ≡ packed (checked (check_of image.now)) }
{
    match image::check(image) {
        Ok(_) => 0,
        Err((number, place)) => host::pack(Answer::of(number as u64, place, 0)),
    }
}

// compiler::build
#[unsafe(no_mangle)]
pub extern "C" fn hasp_build(image: &[u8], code: &mut [u64], table: &mut [u64]) -> u64
    ensures { (result ≡ packed (build_of rules image.now code.old table.old))
        × (code.new ≡ code_of rules image.now code.old table.old)
        × (table.new ≡ table_of rules image.now code.old table.old) }
{
    host::pack(compiler::build(image, code, table))
}
