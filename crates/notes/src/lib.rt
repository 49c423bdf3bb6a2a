// What analysis leaves for generation and for 30 (02: P2): for each access the position of its field in the struct that its base is of.
// A byte for three places: 0, or 64 times the place's remainder and one more than the position. Two accesses of a checked image never share one.
// The last byte is no access's: it is set where some base is of no declared struct type, so that the field is searched.
#![tactic(auto)]

ghost use Rattle.std.specs.Prelude.{◌≡◌, ◌<◌, get_or, eqb};
ghost use Rattle.notes.specs.Notes.{noted, left, read_as_lem, note_at, Known};

use tables::Contract;

// A byte for three places of an image of 65,536 bytes.
pub const SIZE: usize = 21846;

// A contract, and what its analysis noted of each access.
#[derive(Clone, Copy)]
pub struct Analysed<'a> {
    pub contract: Contract<'a>,
    pub notes: &'a [u8; SIZE],
    pub ghost known: { Known contract.img.now contract.tables.now notes.now },
}

// Notes that the field of the access at p stands at position k.
pub fn set(notes: &mut [u8], p: usize, k: usize)
    requires { k < 64 }
    ensures { notes.new ≡ noted notes.old p k }
{
    let i = p / 3;
    if notes.len() <= i {
        return;
    }
    notes[i] = (p % 3 * 64 + k + 1) as u8;
}

// Notes that some access is searched.
pub fn leave(notes: &mut [u8; SIZE])
    ensures { notes.new ≡ left notes.old }
{
    notes[SIZE - 1] = 255;
}

// Whether none is.
pub fn all_noted(notes: &[u8; SIZE]) -> bool
    ensures { result ≡ eqb (get_or notes.now 21845 0) 0 }
{
    notes[SIZE - 1] == 0
}

// What a byte says of the place p.
fn read(p: usize, v: usize) -> Option<usize>
    ensures { result ≡ read_as_lem p v }
{
    if v == 0 {
        return None;
    }
    if (v - 1) / 64 == p % 3 {
        Some((v - 1) % 64)
    } else {
        None
    }
}

// The note of the access at p.
pub fn get(notes: &[u8], p: usize) -> Option<usize>
    ensures { result ≡ note_at notes.now p }
{
    let i = p / 3;
    if i < notes.len() {
        read(p, usize::from(notes[i]))
    } else {
        None
    }
}

impl Analysed<'_> {
    // The note of the access at p.
    pub fn note(&self, p: usize) -> Option<usize>
        ensures { result ≡ note_at self.now.notes.now p }
    {
        let notes = self.notes;
        get(notes, p)
    }
}
