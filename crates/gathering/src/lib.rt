// The points of all indicators, each worked out once: pools, points one after the other, and each operator's total.
#![tactic(auto)]

ghost use Rattle.std.specs.Prelude.{◌≡◌, ℕ, ◌+◌, ◌≤◌, ◌<◌, length, get_or};
ghost use Rattle.std.proofs.Math.Seq.{paste};
ghost use Rattle.calls.specs.Limits.{indicator_count};
ghost use Rattle.calls.specs.Indicators.{indicators_of};
ghost use Rattle.indicators.specs.Points.{pool_numbered, points_numbered};
ghost use Rattle.values.specs.Bounds.{pool_most, total_most};
ghost use Rattle.values.specs.Operators.{each};
ghost use Rattle.gathering.specs.Steps.{OneGathered, AllGathered};

use book::Book;
use calls::{INDICATOR_COUNT, INDICATORS, Kind, OPERATORS, takes_mark};
use indicators::{points_of, pool_of};
use values::Measured;

// A number for each indicator and operator.
pub const POINT_PLACES: usize = OPERATORS * INDICATORS;

#[derive(Clone, Copy)]
pub struct Gathered {
    // In hundredths, by the indicators' numbers; 0 where the kind has none.
    pub pools: [u64; INDICATORS],
    // In hundredths, at indicator * 16 + operator: one flat list, since a settlement holds its points so.
    pub points: [u64; POINT_PLACES],
    // In hundredths, by operator: a list of their own, as the settlement's are.
    pub totals: [u64; 16],
}

pub fn gather(kind: Kind, m: Measured) -> Gathered
    ensures { AllGathered m.entry.book.now (indicators_of kind) result }
{
    let mut g = Gathered {
        pools: [0u64; INDICATORS],
        points: [0u64; POINT_PLACES],
        totals: [0u64; 16],
    };
    for number in 0..INDICATOR_COUNT {
        g.put(kind, m, number);
    }
    g
}

impl Gathered {
    // The indicator of a number put in.
    fn put(&mut self, kind: Kind, m: Measured, number: u8)
        requires number_there { number < indicator_count }
        requires totals_most { (k : ℕ) → get_or self.old.totals k 0 ≤ total_most }
        ensures { OneGathered m.entry.book.now (indicators_of kind) number self.old self.new }
    {
        let shares = points_in(kind, m, number);
        self.pools[number as usize] = pool_in(kind, m.book, number);
        place(&mut self.points, 16 * number as usize, shares);
        self.totals = add(self.totals, shares);
    }
}

// The points of the kind's indicator of a number; 0 for all if it has none.
fn points_in(kind: Kind, m: Measured, number: u8) -> [u64; 16]
    requires { number < indicator_count }
    ensures { result ≡ points_numbered m.entry.book.now (indicators_of kind) number }
{
    if !takes_mark(kind, number) {
        return [0u64; 16];
    }
    points_of(m, number)
}

fn pool_in(kind: Kind, b: &Book, number: u8) -> u64
    requires { number < indicator_count }
    ensures { result ≡ pool_numbered b.now (indicators_of kind) number }
{
    if !takes_mark(kind, number) {
        return 0;
    }
    pool_of(b, number)
}

// Sixteen numbers put into the list from a place on.
fn place(list: &mut [u64], at: usize, shares: [u64; 16])
    requires { at + 16 ≤ length list.old }
    ensures { list.new ≡ paste list.old at shares 16 }
{
    list[at..at + 16].copy_from_slice(&shares);
}

fn add(list: [u64; 16], other: [u64; 16]) -> [u64; 16]
    requires { ((k : ℕ) → get_or list k 0 ≤ total_most) × ((k : ℕ) → get_or other k 0 ≤ pool_most) }
    ensures { result ≡ each (λ (k : ℕ). get_or list k 0 + get_or other k 0) }
{
    std::array::from_fn(|operator| list[operator] + other[operator])
}
