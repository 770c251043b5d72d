// A set of outputs four by four, the least first.
ghost use Rattle.std.specs.Prelude.{◌≡◌};
ghost use Rattle.machine.specs.SymbolSets.{least_symbol};
ghost use Rattle.cells.specs.Fours.{after_least, next_four, without_four};

// The least output of a set; 64, which no machine takes, where there is none.
fn least(set: u64) -> u8
    ensures { result ≡ least_symbol set }
{
    set.trailing_zeros() as u8
}

// A set without its least output.
fn after_least(set: u64) -> u64
    ensures { result ≡ after_least set }
{
    if set == 0 {
        return 0;
    }
    set & (set - 1)
}

// The next four outputs of a set; 64 where there are no more.
pub fn next_four(outputs: u64) -> [u8; 4]
    ensures { result ≡ next_four outputs }
{
    let second = after_least(outputs);
    let third = after_least(second);
    let fourth = after_least(third);
    [least(outputs), least(second), least(third), least(fourth)]
}

// A set without its next four.
pub fn without_four(outputs: u64) -> u64
    ensures { result ≡ without_four outputs }
{
    after_least(after_least(after_least(after_least(outputs))))
}
