//! The hash of a name, as rust-analyzer takes it: rustc-hash's `FxHasher` over the name, and its 64 bits folded into
//! 16.

ghost use Rattle.std.specs.Prelude.{◌≡◌, ◌≤◌, ◌<◌, ◌++◌, ◌∷◌, [], ℕ, Some, length};
ghost use Rattle.rust_ids.specs.Hash as spec;

use hir_input::FileAstId;

// What the state of the hash is multiplied by for each word.
const MULTIPLIER: u64 = 0xf135_7aea_2e62_a9c5;

// What is kept of the bytes of a text so far.
#[derive(Clone, Copy)]
struct Pair {
    left: u64,
    right: u64,
}

/// The 16 bits that stand for a name in the id of an item at the top of a file, or wherever the module does not count.
/// rustc-hash's `FxHasher` over the text, folded as rust-analyzer folds it.
pub fn name_hash(name: &str) -> u16
    ensures { result ≡ spec.name_hash name.now }
{
    short_hash(hash_from_state(add_name(0, name)))
}

/// The 16 bits that stand for the name of what a module holds: before the name stands that module's id, as
/// rust-analyzer packs it. A number of the module past 2047 is taken whole.
pub fn name_hash_in(outer: FileAstId, name: &str) -> u16
    ensures { result ≡ spec.name_hash_in (Some outer) name.now }
{
    let packed = outer.hash as u64 + outer.number as u64 * 0x1_0000 + 0x3800_0000;
    short_hash(hash_from_state(add_name(add_word(add_word(0, 1), packed), name)))
}

// Eight bytes as a word, the lowest first.
fn eight_bytes(text: &[u8]) -> u64
    requires { 8 ≤ length text.now }
    ensures { result ≡ spec.eight_bytes text.now }
{
    u64::from_le_bytes([
        text[0], text[1], text[2], text[3], text[4], text[5], text[6], text[7],
    ])
}

// Four bytes as a word, the lowest first.
fn four_bytes(text: &[u8]) -> u64
    requires { 4 ≤ length text.now }
    ensures { result ≡ spec.four_bytes text.now }
{
    u32::from_le_bytes([text[0], text[1], text[2], text[3]]) as u64
}

// The low 64 bits of a product, xor its high 64 bits.
fn mix(a: u64, b: u64) -> u64
    ensures { result ≡ spec.mix a b }
{
    let product = a as u128 * b as u128;
    let low = a.wrapping_mul(b);
    let high = (product >> 64) as u64;
    low ^ high
}

// Sixteen bytes are taken in.
fn absorb(pair: Pair, text: &[u8]) -> Pair
    requires { 16 ≤ length text.now }
    ensures { result ≡ spec.absorb pair text.now }
{
    let left = pair.left ^ eight_bytes(text);
    let right = 0xa409_3822_299f_31d0 ^ eight_bytes(&text[8..]);
    Pair {
        left: pair.right,
        right: mix(left, right),
    }
}

// All of a text but for its end is taken in.
#[tactic(auto, using(crate::proofs::Blocks::absorbed_more, crate::proofs::Blocks::absorbed_few))]
fn absorb_text(text: &[u8]) -> Pair
    ensures { result ≡ spec.absorb_text spec.hash_start text.now }
{
    let mut pair = Pair {
        left: 0x243f_6a88_85a3_08d3,
        right: 0x1319_8a2e_0370_7344,
    };
    let mut rest = text;
    while rest.len() > 16 {
        pair = absorb(pair, rest);
        rest = rest.split_at(16).1;
    }
    pair
}

// The two words at the end of a text.
fn ends(text: &[u8]) -> Pair
    ensures { result ≡ spec.end_bytes text.now }
{
    let bytes = text.len();
    if bytes > 16 {
        let left = eight_bytes(&text[bytes - 16..]);
        let right = eight_bytes(&text[bytes - 8..]);
        return Pair { left, right };
    }
    if bytes >= 8 {
        let left = eight_bytes(text);
        let right = eight_bytes(&text[bytes - 8..]);
        return Pair { left, right };
    }
    if bytes >= 4 {
        let left = four_bytes(text);
        let right = four_bytes(&text[bytes - 4..]);
        return Pair { left, right };
    }
    if bytes >= 1 {
        let left = text[0] as u64;
        let right = text[bytes - 1] as u64 * 256 + text[bytes / 2] as u64;
        return Pair { left, right };
    }
    Pair { left: 0, right: 0 }
}

// The word of a text.
#[tactic(auto, unfolding(crate::specs::Hash::text_word))]
fn text_word(text: &[u8]) -> u64
    ensures { result ≡ spec.text_word text.now }
{
    let pair = absorb_text(text);
    let end = ends(text);
    mix(pair.left ^ end.left, pair.right ^ end.right) ^ text.len() as u64
}

// A word is taken into the state of the hash.
fn add_word(state: u64, word: u64) -> u64
    ensures { result ≡ spec.add_word state word }
{
    state.wrapping_add(word).wrapping_mul(MULTIPLIER)
}

// A name is taken into the state of the hash.
fn add_name(state: u64, name: &str) -> u64
    ensures { result ≡ spec.add_word (spec.add_word state (spec.text_word name.now)) 255 }
{
    add_word(add_word(state, text_word(name.as_bytes())), 255)
}

// The 64 bits from the state behind the last word.
#[tactic(auto, unfolding(crate::specs::Hash::hash_from_state))]
fn hash_from_state(state: u64) -> u64
    ensures { result ≡ spec.hash_from_state state }
{
    state.rotate_left(26)
}

// One of the four words of 16 bits of a hash, counted from the lowest.
fn quarter(hash: u64, at: u32) -> u16
    requires { at < 4 }
    ensures { result ≡ spec.quarter hash at }
{
    ((hash >> (16 * at)) % 0x1_0000) as u16
}

// A quarter is taken into the 16 bits.
fn add_quarter(bits: u16, quarter: u16) -> u16
    ensures { result ≡ spec.add_quarter bits quarter }
{
    bits.wrapping_add(quarter).wrapping_mul(0xecc5)
}

// 64 bits made 16.
#[tactic(auto, unfolding(crate::specs::Hash::short_hash))]
fn short_hash(hash: u64) -> u16
    ensures { result ≡ spec.short_hash hash }
{
    let bits = add_quarter(quarter(hash, 0), quarter(hash, 1));
    add_quarter(add_quarter(bits, quarter(hash, 2)), quarter(hash, 3))
}
