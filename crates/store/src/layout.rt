// Values in the store's bytes: reading the slot of a row, and filling it.
ghost use Rattle.std.specs.Prelude.{◌≡◌, ◌+◌, ◌≤◌, length, take, drop};
ghost use Rattle.rows.specs.Layout.{store_size, longest, is_text, set_at};
ghost use Rattle.store.specs.Layout.{filled, overwritten, value_at, with_value_at};

use crate::Store;
use rows::Kind;
use rows::lookup::{kind_at, place_at, size_at};

// The bytes from a place on, at most so many.
fn part(bytes: &[u8], from: usize, count: usize) -> &[u8]
    ensures { result.now ≡ take count (drop from bytes.now) }
{
    octets::first_bytes(octets::bytes_after(bytes, from), count)
}

fn is_text(index: usize) -> bool
    ensures { result ≡ is_text (set_at index) }
{
    kind_at(index) == Kind::Text
}

// The value that the row at an index holds.
#[tactic(auto, using(crate::proofs::Slots::place_within))]
pub fn value_at(bytes: &[u8], index: usize) -> &[u8]
    ensures { result.now ≡ value_at bytes.now index }
{
    let place = place_at(index);
    let size = size_at(index);
    if is_text(index) {
        let length = usize::from(octets::byte_at(bytes, place));
        let slot = part(bytes, place + 1, size);
        return octets::first_bytes(slot, length);
    }
    part(bytes, place, size)
}

// The store with other bytes from a place on.
fn put(mut store: Store, at: usize, bytes: &[u8]) -> Store
    requires { at + length bytes.now ≤ store_size }
    ensures { result ≡ overwritten store at bytes.now }
{
    octets::overwrite(&mut store.bytes, at, bytes);
    store
}

// The store with a value that fills a slot, what it leaves of the slot zero.
fn fill(store: Store, at: usize, size: usize, value: &[u8]) -> Store
    requires { (at + size ≤ store_size) × (size ≤ longest) }
    ensures { result ≡ overwritten store at (filled size value.now) }
{
    let kept = octets::first_bytes(value, size);
    let mut begun = put(store, at, kept);
    begun.bytes[at + kept.len()..at + size].fill(0);
    begun
}

// The store with another value in the slot of the row at an index.
#[tactic(auto, using(crate::proofs::Slots::place_within, crate::proofs::Slots::size_width, crate::proofs::Slots::text_within, crate::proofs::Slots::kept_length, crate::proofs::Slots::stored_text, rows::proofs::Rule::size_most))]
pub fn with_value_at(store: Store, index: usize, value: &[u8]) -> Store
    ensures { result ≡ with_value_at store index value.now }
{
    let place = place_at(index);
    let size = size_at(index);
    if is_text(index) {
        let kept = octets::first_bytes(value, size);
        let length = [kept.len() as u8];
        let begun = put(store, place, &length);
        return fill(begun, place + 1, size, value);
    }
    fill(store, place, size, value)
}
