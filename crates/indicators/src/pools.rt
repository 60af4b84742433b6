// The pool of an indicator, and its points: the pool shared by the weights.
ghost use Rattle.std.specs.Prelude.{◌≡◌, ◌≤◌, ◌<◌};
ghost use Rattle.calls.specs.Limits.{indicator_count};
ghost use Rattle.values.specs.Bounds.{points_most, pool_most};
ghost use Rattle.values.specs.Indicator.{reliable_mask, scores as scores_of_indicator, pool, numbered};
ghost use Rattle.indicators.specs.Points.{weights, points};

use crate::interruptions::interruption_weights;
use crate::weights::linear_weights;
use book::Book;
use exact::divide;
use values::{Measured, reliable_mask, scores_of, settings_of};
use weighing::ones_of;

// In hundredths, by operator. Between equal remainders access points decide.
pub fn points_of(m: Measured, number: u8) -> [u64; 16]
    requires { number < indicator_count }
    ensures { result ≡ points m.entry.book.now (numbered number) }
{
    apportion::share(
        pool_of(m.book, number),
        weights_of(m, number),
        settings_of(m.book, 1),
    )
}

// A indicators have the first four numbers, D indicators the others.
fn weights_of(m: Measured, number: u8) -> [u64; 16]
    requires { number < indicator_count }
    ensures { result ≡ weights (numbered number).measure (reliable_mask m.entry.book.now (numbered number)) (scores_of_indicator m.entry.book.now (numbered number)) }
{
    let mask = reliable_mask(m.book, number);
    if number < 4 {
        return interruption_weights(mask, m, number);
    }
    let scores = scores_of(mask, m, number);
    linear_weights(mask, scores)
}

// In hundredths.
pub fn pool_of(b: &Book, number: u8) -> u64
    requires { number < indicator_count }
    ensures { (result ≡ pool b.now (numbered number)) × (result ≤ pool_most) }
{
    divide(
        300 * points_a_year(number) * ones_of(reliable_mask(b, number)),
        ones_of(b.joined),
    )
}

fn points_a_year(number: u8) -> u64
    requires { number < indicator_count }
    ensures { (result ≡ (numbered number).points) × (result ≤ points_most) }
{
    match number {
        0 => 154,
        1 => 126,
        2 => 66,
        3 => 54,
        4 => 20,
        _ => 5,
    }
}
