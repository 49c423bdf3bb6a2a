// Whether all structs agree on where each field stands: then no access is ambiguous, and none need be looked at.
//
// A table from the key of a name to a position, in 509 slots (a prime, so that the whole key counts): from the key's own slot on, the first
// that is free or has the key. A slot is two cells: the key, and one more than the position; 0 where the slot is free.
ghost use Rattle.std.specs.Prelude.{true, false, ◌≡◌, ℕ, ◌<◌, ◌≤◌, length, get_or, None, Some};
ghost use Rattle.rules.specs.Bytes.{Name};
ghost use Rattle.rules.specs.Read.{contract_at};
ghost use Rattle.ambiguous.specs.Spots.{unsure};
ghost use Rattle.ambiguous.specs.Slots.{Slot, Noted, Held, Extends};

use tables::Contract;

// The slot of a key, if there is one or one is free.
fn slot_of(seen: &[usize], key: usize) -> Option<usize>
    requires { 1018 ≤ length seen.now }
    ensures { (h : ℕ) → result ≡ Some h → Slot seen.now key h }
{
    let mut h = key % 509;
    for _ in 0..509usize {
        if seen[2 * h + 1] == 0 {
            return Some(h);
        }
        if seen[2 * h] == key {
            return Some(h);
        }
        h = (h + 1) % 509;
    }
    None
}

// Notes that a field whose name has this key stands at position n. False where one stands elsewhere, or no slot is free.
fn note(seen: &mut [usize], key: usize, n: usize) -> bool
    requires { (n < 64) × (1018 ≤ length seen.old) }
    ensures { result ≡ true → Noted seen.old seen.new key n }
{
    let s = slot_of(seen, key);
    match s {
        Some(h) => {
            let v = seen[2 * h + 1];
            if v == 0 {
                seen[2 * h] = key;
                seen[2 * h + 1] = n + 1;
                true
            } else {
                v == n + 1
            }
        }
        None => false,
    }
}

// Notes the Fields of the List at l.
fn note_fields(seen: &mut [usize], img: &[u8], l: usize) -> bool
    requires { 1018 ≤ length seen.old }
    ensures { result ≡ true → Extends seen.old seen.new × Held img.now seen.new l }
{
    for (n, p) in records::list(img, l, 64).enumerate() {
        let key = records::name_key(img, records::body(img, p));
        if !note(seen, key, n) {
            return false;
        }
    }
    true
}

// Every slot is free.
fn forget(seen: &mut [usize])
    requires { 1018 ≤ length seen.old }
    ensures { (j : ℕ) → j < 1018 → get_or seen.new j 0 ≡ 0 }
{
    seen[..1018].fill(0);
}

// No field has two positions. The table stands in what is lent, and is left there.
pub fn all_agree(seen: &mut [usize; records::NAMES], contract: &Contract<'_>) -> bool
    ensures { result ≡ true → (x : Name) → unsure (contract_at contract.now.img.now) x ≡ false }
{
    forget(seen);
    let img = contract.img;
    for i in 0..contract.struct_count() {
        let fields = crate::second(img, contract.struct_place(i));
        if !note_fields(seen, img, fields) {
            return false;
        }
    }
    true
}
