// The product of a card's machines over a word, which every engine shares: its nodes, its joint step, and the theorem on the best candidate stand
// in specs/. The code is the check of the word, and that of the sets in its place.
#![tactic(auto)]

ghost use Rattle.std.specs.Prelude.{◌≡◌, ◌&&◌, ◌^◌, ◌<◌};
ghost use Rattle.basics.specs.Words.{ℕ, leb};
ghost use Rattle.refusals.specs.Refusals.{refuse, checked_number};
ghost use Rattle.product.specs.Optimizing.{sound_word};
ghost use Rattle.product.specs.OptimizingSets.{symbol_set, sets_refusal};

use machine::{Pair, sets};
use refusals::Refusal;

// Whether a byte is one of the symbols 1 to `symbols`.
fn is_symbol(byte: u8, symbols: u8) -> bool
    ensures { result ≡ (leb 1 byte && leb byte symbols) }
{
    (Pair::EMPTY < byte) & (byte <= symbols)
}

// Refusal 8: whether a word has at most 24 symbols, each 1 to `symbols`.
pub fn check_word(word: &[u8], symbols: u8) -> Result<(), Refusal>
    ensures { checked_number result ≡ refuse 8 (sound_word symbols word.now) }
{
    if word.len() > 24 {
        return Err(Refusal::Word);
    }
    for &byte in word {
        if !is_symbol(byte, symbols) {
            return Err(Refusal::Word);
        }
    }
    Ok(())
}

// Whether a set has symbols of 1 to S alone, and one at least; `last` is the set of S.
fn is_symbol_set(set: u64, last: u64) -> bool
    ensures { (S : ℕ) → last ≡ 2 ^ S → result ≡ symbol_set S set }
{
    let empty = sets::set_of(Pair::EMPTY);
    sets::is_sound(set, last) & !sets::holds(set, empty)
}

// 8's length limit and refusal 25: whether there are at most 24 sets, each of symbols of 1 to `symbols`.
pub fn check_sets(sets: &[u64], symbols: u8) -> Result<(), Refusal>
    requires { symbols < 64 }
    ensures { checked_number result ≡ sets_refusal symbols sets.now }
{
    if sets.len() > 24 {
        return Err(Refusal::Word);
    }
    let last = sets::set_of(symbols);
    for &set in sets {
        if !is_symbol_set(set, last) {
            return Err(Refusal::Sets);
        }
    }
    Ok(())
}
