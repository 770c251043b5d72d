// Sets of symbols as 64-bit numbers: bit n is symbol n, bit 0 the empty symbol.
ghost use Rattle.std.specs.Prelude.{◌≡◌, ◌&&◌, ◌<◌, ◌^◌};
ghost use Rattle.basics.specs.Words.{true, not, ℕ, eqb, member};
ghost use Rattle.symbols.specs.SymbolSets.{least_symbol, without_symbol, without_empty, sound_set, partners};

// The set of the empty symbol.
pub const EMPTY: u64 = 1 << crate::EMPTY;

// The set of one symbol.
pub fn set_of(symbol: u8) -> u64
    requires { symbol < 64 }
    ensures { result ≡ 2 ^ symbol }
{
    1 << symbol
}

// Whether a set has a symbol; `one` is the set of that symbol.
pub fn holds(set: u64, one: u64) -> bool
    ensures { (symbol : ℕ) → one ≡ 2 ^ symbol → result ≡ member set symbol }
{
    set & one != 0
}

// Whether a set is not empty and has no bit over S; `last` is the set of S.
pub fn is_sound(set: u64, last: u64) -> bool
    ensures { (S : ℕ) → last ≡ 2 ^ S → result ≡ sound_set S set }
{
    (set != 0) & (set / 2 < last)
}

// The least symbol of a set that is not empty.
pub fn least(set: u64) -> usize
    requires { 0 < set }
    ensures { (result ≡ least_symbol set) × (result < 64) × (member set result ≡ true) }
{
    // A cast, since `usize::from` takes no u32.
    set.trailing_zeros() as usize
}

// A set that is not empty without its least symbol.
pub fn without_least(set: u64) -> u64
    requires { 0 < set }
    ensures { (result < set) × ((n : ℕ) → member result n ≡ (member set n && not (eqb n (least_symbol set)))) }
{
    set & (set - 1)
}

// A set without a symbol; `one` is the set of that symbol.
fn without(set: u64, one: u64) -> u64
    ensures { (symbol : ℕ) → one ≡ 2 ^ symbol → result ≡ without_symbol set symbol }
{
    set & (set ^ one)
}

// A set without the empty symbol.
pub fn without_empty(set: u64) -> u64
    ensures { result ≡ without_empty set }
{
    without(set, EMPTY)
}

// The symbols of a set that make a pair of an arc's kind with one symbol, whichever of the two is in; `one` is the set of that symbol.
pub fn of_kind(set: u64, kind: u8, one: u64) -> u64
    ensures { (x : ℕ) → one ≡ 2 ^ x → result ≡ partners kind set x }
{
    if kind == 0 {
        return set;
    }
    if kind == 1 {
        return without_empty(set & one);
    }
    without(set, one)
}
