// The weighted order, in which sums of weights are compared, on the same search as the ranked one.
#![tactic(auto)]

ghost use Rattle.std.specs.Prelude.{◌≡◌, ◌*◌, ◌<◌, ◌≤◌};
ghost use Rattle.basics.specs.Words.{true, length, take};
ghost use Rattle.tables.specs.Tables.{CountsOfSome};
ghost use Rattle.cells.specs.Columns.{WeightsOf};
ghost use Rattle.product.specs.Weights.{sound_weights};
ghost use Rattle.tables.specs.SumsDone.{AllDone};
ghost use Rattle.grid.specs.Grids.{GridOf};
ghost use Rattle.weighted.specs.WeighsBy.{HighsWritten, WeighsBy};
ghost use Rattle.machine_weights.specs.Highs.{six_highs};
ghost use Rattle.weighted.specs.FirstPlace.{card_places, first_put};
ghost use Rattle.weighted.specs.Labelling.{LabelPre};

use grid::Grid;

// Writes what a mark of each machine counts in high: 256 times its weight, the second of three numbers.
fn write_highs(numbers: &mut [u64], weights: &[u32])
    requires { (3 * length weights.now ≤ length numbers.old) × (length weights.now ≤ 6) }
    ensures { HighsWritten weights.now numbers.old numbers.new (length weights.now) }
{
    for (m, &weight) in weights.iter().enumerate() {
        numbers[3 * m + 1] = 256 * u64::from(weight);
    }
}

// The numbers of machines with these state counts and weights, three for each: what a state counts in a code, what a mark counts in high, and in low.
pub fn weights_of(counts: &[u8], weights: &[u32]) -> [u64; 18]
    requires { CountsOfSome counts.now × (sound_weights (length counts.now) weights.now ≡ true) }
    ensures { WeightsOf counts.now (take (3 * length counts.now) result) × WeighsBy weights.now (take (3 * length counts.now) result) × (length result ≡ 18) }
{
    let mut numbers = [0u64; 18];
    write_highs(&mut numbers, weights);
    cells::scales::write_scales(&mut numbers, counts);
    numbers
}

// A machine with the greatest weight. Which one it is is of no matter to the labels, only to the time.
fn heaviest(weights: &[u32]) -> usize
    requires { (0 < length weights.now) × (length weights.now ≤ 6) }
    ensures { result < length weights.now }
{
    let mut first = 0;
    for (m, &weight) in weights.iter().enumerate() {
        if weight > weights[first] {
            first = m;
        }
    }
    first
}

// The machines in card order, but one of them first, and the first one in its place.
fn places_with(machine: usize) -> [u8; 6]
    requires { machine < 6 }
    ensures { result ≡ first_put machine card_places }
{
    let mut places = [0u8, 1, 2, 3, 4, 5];
    places.swap(0, machine);
    places
}

// What marks count in high, by these places.
fn highs_with(numbers: &[u64], machine: usize) -> [u64; 6]
    requires { machine < 6 }
    ensures { result ≡ first_put machine (six_highs numbers.now) }
{
    let mut highs = machine_weights::six_highs(numbers);
    highs.swap(0, machine);
    highs
}

// Labels all nodes: the label of a node is the cost of a best path from it. The lists have the marks of the heaviest machine first, as under a ranking
// those of the highest: so they can be left where a label is too far from the others.
pub fn label(work: &mut [u64], card: &[u8], grid: Grid, weights: &[u32], sets: &[u64])
    requires { LabelPre card.now weights.now sets.now work.old grid.size × GridOf card.now grid }
    ensures { AllDone card.now weights.now sets.now work.old work.new }
{
    let all = grid.counts;
    let machines = grid.machines;
    let counts = &all[..machines];
    let numbers = weights_of(counts, weights);
    let used = &numbers[..3 * machines];
    let first = heaviest(weights);
    let places = places_with(first);
    let marks = machine_weights::ranked_weights(counts, &places[..machines]);
    let highs = highs_with(used, first);
    labelling::label_all(
        &mut [],
        work,
        card,
        grid,
        used,
        highs,
        &marks[..3 * machines],
        sets,
    );
}
