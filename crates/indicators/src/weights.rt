// Weights of a D indicator from the scores of those that take part, and the largest of the scores, which A indicators take too.
ghost use Rattle.std.specs.Prelude.{◌≡◌, false};
ghost use Rattle.calls.specs.Indicators.{Measure};
ghost use Rattle.indicators.specs.Steps.{ScoresWithin};
ghost use Rattle.indicators.specs.Points.{largest, is_levelled, weights};

use weighing::linear_weight;

// D indicators.
pub(crate) fn linear_weights(mask: u16, scores: [u64; 16]) -> [u64; 16]
    requires { ScoresWithin scores }
    ensures { (measure : Measure) → is_levelled measure ≡ false → result ≡ weights measure mask scores }
{
    let top = largest_of(scores);
    std::array::from_fn(|operator| linear_weight(mask, scores[operator], top, operator as u8))
}

pub(crate) fn largest_of(list: [u64; 16]) -> u64
    ensures { result ≡ largest list }
{
    list.iter().fold(0, |top, x| top.max(*x))
}
