// Weights of an A indicator, in the order of annex 9, 4.2.1. What each of the five steps gives stands in Sequence.antt of specs, here and
// in `values`.
ghost use Rattle.std.specs.Prelude.{◌≡◌, cond, false, ℕ, ◌*◌, ◌≤◌, ◌<◌, get_or};
ghost use Rattle.calls.specs.Limits.{operators, indicator_count};
ghost use Rattle.apportion.specs.Sum.{sum as sum_of_all};
ghost use Rattle.exact.specs.Division.{over};
ghost use Rattle.exponent.specs.Weight.{first_weight};
ghost use Rattle.values.specs.Bounds.{score_most};
ghost use Rattle.values.specs.Operators.{table, each, count};
ghost use Rattle.book.specs.declared.Book.{Book};
ghost use Rattle.values.specs.Indicator.{reliable_mask, numbered};
ghost use Rattle.values.specs.Parts.{HasMeasures};
ghost use Rattle.indicators.specs.Steps.{ScoresWithin, Thousandths, LevelAsked};
ghost use Rattle.indicators.specs.Points.{is_better};
ghost use Rattle.indicators.specs.Sequence.{thousandths as thousandths_of_sums, exponent_weights, levelled_weights, in_sequence};

use crate::weights::largest_of;
use std::array;
use values::{Measured, sums_of_years, yearly_values};
use weighing::{is_better, levelled_weight, normalise};

// The five steps in turn, for A1 to A4 alike. The last takes mask and sums again: who is better cannot be told from the weights.
pub(crate) fn interruption_weights(mask: u16, m: Measured, number: u8) -> [u64; 16]
    requires { number < indicator_count }
    ensures { (b : Book) → HasMeasures b m.entry.book.now.settings m.entry.book.now.figures m.entry.book.now.indices → mask ≡ reliable_mask b (numbered number) → result ≡ in_sequence b (numbered number) }
{
    let values = yearly_values(m, number);
    let sums = sums_of_years(mask, values);
    let thousandths = thousandths_of(sums);
    let weights = exponent_weights(thousandths);
    level(mask, sums, weights)
}

// Step 3: each sum in thousandths of the largest.
fn thousandths_of(sums: [u64; 16]) -> [u64; 16]
    requires { ScoresWithin sums }
    ensures { result ≡ thousandths_of_sums sums }
{
    let top = largest_of(sums);
    array::from_fn(|operator| thousandth(sums[operator], top))
}

fn thousandth(sum: u64, top: u64) -> u64
    requires { (sum ≤ top) × (top ≤ score_most) }
    ensures { result ≡ over (1000 * sum) top }
{
    normalise(1000, sum, top)
}

// Step 4: the table's weight of each.
fn exponent_weights(thousandths: [u64; 16]) -> [u64; 16]
    requires { Thousandths thousandths }
    ensures { result ≡ exponent_weights thousandths }
{
    let table = exponent::all_weights();
    array::from_fn(|operator| table[thousandths[operator] as usize])
}

// Step 5: better operators alike. The annex levels points, 01 weights. Whoever takes no part has had the first weight until now, and gets 0.
fn level(mask: u16, sums: [u64; 16], own: [u64; 16]) -> [u64; 16]
    requires { LevelAsked sums own }
    ensures { result ≡ levelled_weights mask sums own }
{
    let better = better_ones(mask, sums);
    let g = number_of(better);
    let together = weight_of(better, own);
    let sum = apportion::sum_of(sums);
    array::from_fn(|operator| {
        levelled_weight(
            mask,
            sums[operator],
            sum,
            operator as u8,
            g,
            together,
            own[operator],
        )
    })
}

// Who is better than the mean of those that take part.
fn better_ones(mask: u16, sums: [u64; 16]) -> [bool; 16]
    requires { ScoresWithin sums }
    ensures { result ≡ table operators (is_better mask sums) }
{
    let sum = apportion::sum_of(sums);
    array::from_fn(|operator| is_better(mask, sums[operator], sum, operator as u8))
}

fn number_of(better: [bool; 16]) -> u64
    ensures { (result ≡ count operators (λ (operator : ℕ). get_or better operator false)) × (result ≤ operators) }
{
    better.iter().filter(|is| **is).count() as u64
}

// The better operators' weights together.
fn weight_of(better: [bool; 16], own: [u64; 16]) -> u64
    requires { (place : ℕ) → get_or own place 0 ≤ first_weight }
    ensures { result ≡ sum_of_all (each (λ (operator : ℕ). cond (get_or better operator false) (get_or own operator 0) 0)) }
{
    apportion::sum_of::<16>(array::from_fn(|operator| {
        if better[operator] { own[operator] } else { 0 }
    }))
}
