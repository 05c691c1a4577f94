// A hash of every area that a call may write. Areas are hashed whole, and not only the part that the answer speaks of, so a slot
// changed behind it is seen.
//
// It is the value at BASE of the polynomial whose coefficients are the words, modulo the prime MODULUS. Each word has one residue,
// and BASE is no multiple of the prime, so two lists that differ in one word never have one hash. Two lists of n words that differ in
// more have one hash at n of the prime's 2^40 bases at most, and nothing in the code under test knows the base. A product of two
// residues of these sizes fits 64 bits.
ghost use Rattle.std.specs.Prelude.{◌≡◌, fold};
ghost use Rattle.replay_areas.specs.Hash.{with_word};

use super::areas::Element;
use super::shared::{BASE, MODULUS};

// A hash with one word more. The first remainder changes nothing; it makes the product fit whatever is handed in.
pub fn word(hash: u64, x: u32) -> u64
    ensures { result ≡ with_word hash x }
{
    ((hash % MODULUS) * BASE + u64::from(x) + 1) % MODULUS
}

// A hash with every element of an area.
pub fn elements<T: Element>(start: u64, area: &[T]) -> u64
    ensures { result ≡ fold (λ hash x. with_word hash (T.in_hash x)) start area.now }
{
    area.iter().fold(start, |hash, x| word(hash, x.word()))
}
