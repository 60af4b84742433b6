// The exponent weights: a constant table of 1001 numbers (01: "The weight of k stands in a table").
#![tactic(auto)]

mod table;

ghost use Rattle.std.specs.Prelude.{◌≡◌, ℕ, ◌≤◌, get_or};
ghost use Rattle.exponent.specs.Weight.{weight_of};

use table::WEIGHTS;

// The weight of k.
pub fn weight(k: usize) -> u64
    requires { k ≤ 1000 }
    ensures { result ≡ weight_of k }
{
    let weights = all_weights();
    weights[k]
}

// The weights of 0 to 1000. A constant array is laid out anew wherever it is used, so whoever looks up several k takes them all once.
pub fn all_weights() -> [u64; 1001]
    ensures { (k : ℕ) → k ≤ 1000 → get_or result k 0 ≡ weight_of k }
{
    WEIGHTS
}
