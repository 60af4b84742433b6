// Money by operator: the pot, limits, the weights of returns, and the adjustment of what is received and paid.
#![tactic(auto)]

ghost use Rattle.std.specs.Prelude.{◌≡◌, ℕ, ◌*◌, ◌/◌, ◌-◌, ◌^◌, ◌≤◌, ◌<◌, min, get_or};
ghost use Rattle.std.proofs.Math.IntN.{sub_ℕ};
ghost use Rattle.calls.specs.Limits.{operators, rate_limit};
ghost use Rattle.apportion.specs.Sum.{sum};
ghost use Rattle.values.specs.Bounds.{access_limit, income_limit, total_most, pot_most, limit_most};
ghost use Rattle.values.specs.Operators.{table, each};
ghost use Rattle.money.specs.Money.{capped, balanced, adjusted_by};

use apportion::{share, sum_of};
use std::array;

const MILLION: u64 = 1000000;

// A rate of all incomes.
pub fn pot_of(rate: u32, incomes: [u64; 16]) -> u64
    requires { (rate ≤ rate_limit) × ((k : ℕ) → get_or incomes k 0 ≤ income_limit) }
    ensures { (result ≡ rate * sum incomes / 1000000) × (result ≤ pot_most) }
{
    u64::from(rate) * sum_of(incomes) / MILLION
}

// A rate of each income.
pub fn limits_of(rate: u32, incomes: [u64; 16]) -> [u64; 16]
    requires { (rate ≤ rate_limit) × ((k : ℕ) → get_or incomes k 0 ≤ income_limit) }
    ensures { (result ≡ each (λ (operator : ℕ). rate * get_or incomes operator 0 / 1000000)) × ((k : ℕ) → get_or result k 0 ≤ limit_most) }
{
    let cap = u64::from(rate);
    array::from_fn(|operator| cap * incomes[operator] / MILLION)
}

// Access points times the points of all indicators.
pub fn return_weights(access: [u64; 16], totals: [u64; 16]) -> [u64; 16]
    requires { ((k : ℕ) → k < 16 → get_or access k 0 ≤ access_limit) × ((k : ℕ) → k < 16 → get_or totals k 0 ≤ total_most) }
    ensures { (result ≡ each (λ (operator : ℕ). get_or access operator 0 * get_or totals operator 0)) × (sum result ≤ operators * (access_limit * total_most)) }
{
    array::from_fn(|operator| access[operator] * totals[operator])
}

// What is received less what is paid, each cut to its limit, and the larger side shared again.
pub fn adjust(
    received: [u64; 16],
    paid: [u64; 16],
    limits: [u64; 16],
    sizes: [u64; 16],
) -> [i64; 16]
    requires { (k : ℕ) → k < 16 → get_or limits k 0 ≤ limit_most }
    ensures { result ≡ adjusted_by received paid limits sizes }
{
    let bonuses = capped_side(received, paid, limits);
    let maluses = capped_side(paid, received, limits);
    let gains = balanced_side(bonuses, maluses, sizes);
    let losses = balanced_side(maluses, bonuses, sizes);
    differences(gains, losses)
}

// What one side has more than the other, each cut to its limit.
fn capped_side(more: [u64; 16], less: [u64; 16], limit: [u64; 16]) -> [u64; 16]
    ensures { result ≡ capped more less limit }
{
    array::from_fn(|operator| {
        more[operator]
            .saturating_sub(less[operator])
            .min(limit[operator])
    })
}

// The larger side is shared again to the smaller sum.
fn balanced_side(side: [u64; 16], other: [u64; 16], sizes: [u64; 16]) -> [u64; 16]
    requires { (sum side < 2 ^ 62) × (sum other < 2 ^ 62) }
    ensures { result ≡ balanced side other sizes }
{
    let smaller = sum_of(other);
    if smaller < sum_of(side) {
        return share(smaller, side, sizes);
    }
    side
}

// The gain of each operator less its loss.
fn differences(gains: [u64; 16], losses: [u64; 16]) -> [i64; 16]
    requires { ((k : ℕ) → k < 16 → get_or gains k 0 < 2 ^ 62) × ((k : ℕ) → k < 16 → get_or losses k 0 < 2 ^ 62) }
    ensures { result ≡ table operators (λ (operator : ℕ). sub_ℕ (get_or gains operator 0) (get_or losses operator 0)) }
{
    array::from_fn(|operator| gains[operator] as i64 - losses[operator] as i64)
}
