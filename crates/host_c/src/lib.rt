// The answers of `host` as C functions: a slice is a pointer and a length. Each calls the function of the same name and says what that says.
#![tactic(auto)]

ghost use Rattle.std.specs.Prelude.{◌≡◌, length};
ghost use Rattle.rules.specs.Build.{rules, packed, analyse_of, host_of, host_bytes};
ghost use Rattle.rules.specs.Texts.{text_answer, text_bytes};
ghost use Rattle.rules.specs.Why.{why_of, packed_why};
ghost use Rattle.rules.specs.Lines.{lines_in, lines_bytes};

// 01: analyse, its three numbers in one.
#[unsafe(no_mangle)]
pub extern "C" fn host_analyse(image: &[u8]) -> u64
    ensures { result ≡ packed (analyse_of image.now) }
{
    host::host_analyse(image)
}

// 01: A host's entry: the words as bytes; a refusal clears the whole slice.
#[unsafe(no_mangle)]
pub extern "C" fn host_build(image: &[u8], out: &mut [u8]) -> u64
    ensures { (result ≡ host_of rules image.now out.old) × (out.new ≡ host_bytes rules image.now out.old) }
{
    host::host_build(image, out)
}

// 02: P1: the Rust's text of a refusal, in the slice's first bytes.
#[unsafe(no_mangle)]
pub extern "C" fn host_text(image: &[u8], out: &mut [u8]) -> u64
    ensures { (result ≡ packed (text_answer image.now out.old)) × (out.new ≡ text_bytes image.now out.old) }
{
    host::host_text(image, out)
}

// 02: P5: why word number `index` is there.
#[unsafe(no_mangle)]
pub extern "C" fn host_why(image: &[u8], index: u64) -> u64
    ensures { result ≡ packed_why (why_of image.now index) }
{
    host::host_why(image, index)
}

// 02: P3: the lines of some words, the first with that index, and how many bytes they take.
#[unsafe(no_mangle)]
pub extern "C" fn host_lines(first: u64, words: &[u8], out: &mut [u8]) -> u64
    ensures { (result ≡ length (lines_in first words.now out.old)) × (out.new ≡ lines_bytes first words.now out.old) }
{
    host::host_lines(first, words, out)
}
