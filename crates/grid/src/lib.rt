// The sizes of an accepted card, made once by the checks and handed on by value.
#![tactic(auto)]

ghost use Rattle.std.specs.Prelude.{◌≡◌};
ghost use Rattle.card.specs.Card.{card_refusal};
ghost use Rattle.grid.specs.Grids.{GridOf};

// The numbers of machines and of symbols; the state counts of the machines, their sum and their product, P.
#[derive(Clone, Copy)]
pub struct Grid {
    pub machines: usize,
    pub symbols: u8,
    pub counts: [u8; 6],
    pub states: usize,
    pub size: usize,
}

// The sizes of an accepted card; the counts from K on are 0.
pub fn grid_of(card: &[u8]) -> Grid
    requires { card_refusal card.now ≡ 0 }
    ensures { GridOf card.now result }
{
    let machines = card::machine_count(card);
    let symbols = card::symbol_count(card);
    let mut counts = [0u8; 6];
    let mut states = 0;
    let mut size = 1;
    for m in 0..machines {
        let count = machine::state_count(card::part(card, m));
        counts[m] = count as u8;
        states += count;
        size *= count;
    }
    Grid {
        machines,
        symbols,
        counts,
        states,
        size,
    }
}
