// What states and marks count in the numbers of joint steps and labels.
#![tactic(auto)]

ghost use Rattle.std.specs.Prelude.{◌≡◌, ◌*◌, ◌<◌};
ghost use Rattle.basics.specs.Words.{true, length, take};
ghost use Rattle.ranking.specs.Rankings.{is_ranking};
ghost use Rattle.tables.specs.Tables.{CountsOfSome};
ghost use Rattle.tables.specs.Places.{six_places};
ghost use Rattle.cells.specs.Cells.{high_of};
ghost use Rattle.cells.specs.Columns.{WeightsOf};
ghost use Rattle.settling.specs.Prices.{SixWeights};
ghost use Rattle.insertions.specs.RankedWeights.{weight_by, RankedWeights};
ghost use Rattle.machine_weights.specs.Highs.{six_highs};

use basics::index;

// What a mark counts in a high number, by the place of its machine in the ranking: 16 bits for each of the first three, above the 8 of a code.
pub const HIGHS: [u64; 6] = [1099511627776, 16777216, 256, 0, 0, 0];

// And in a low number: 16 bits for each of the others, above the 16 of the pairs.
const LOWS: [u64; 6] = [0, 0, 0, 281474976710656, 4294967296, 65536];

// What a mark of a machine counts, where the machine at each place counts the number at that place.
fn weight(places: &[u8; 6], weights: &[u64; 6], machine: u8) -> u64
    requires { (length places.now ≡ 6) × (length weights.now ≡ 6) × SixWeights weights.now }
    ensures { result ≡ weight_by places.now weights.now machine }
{
    let mut sum = 0;
    for (i, &place) in places.iter().enumerate() {
        if place == machine {
            sum += weights[i];
        }
    }
    sum
}

// The weights of machines, three numbers each: what a state counts in a code, what a mark counts in high and in low.
pub fn ranked_weights(counts: &[u8], ranking: &[u8]) -> [u64; 18]
    requires { CountsOfSome counts.now × (is_ranking (length counts.now) ranking.now ≡ true) }
    ensures { WeightsOf counts.now (take (3 * length counts.now) result) × RankedWeights (six_places ranking.now) (take (3 * length counts.now) result) × (length result ≡ 18) }
{
    let places = tables::six_places(ranking);
    let highs = HIGHS;
    let lows = LOWS;
    let mut weights = [0u64; 18];
    let mut scale = 1;
    for m in (0..counts.len()).rev() {
        let at = 3 * m;
        weights[at] = scale as u64;
        weights[at + 1] = weight(&places, &highs, m as u8);
        weights[at + 2] = weight(&places, &lows, m as u8);
        scale *= index(counts[m]);
    }
    weights
}

// What a mark of a machine counts in high, 0 past the last one.
fn high_at(weights: &[u64], machine: usize) -> u64
    requires { machine < 6 }
    ensures { result ≡ high_of weights.now machine }
{
    weights.get(3 * machine + 1).copied().unwrap_or(0)
}

// What marks of six machines count in high. Six calls, and no chain: a chain over 0..6 is no plainer.
pub fn six_highs(weights: &[u64]) -> [u64; 6]
    ensures { result ≡ six_highs weights.now }
{
    [
        high_at(weights, 0),
        high_at(weights, 1),
        high_at(weights, 2),
        high_at(weights, 3),
        high_at(weights, 4),
        high_at(weights, 5),
    ]
}
