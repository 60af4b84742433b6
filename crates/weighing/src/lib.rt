// The weight of one operator at an indicator, from its score and what those that take part come to.
#![tactic(auto)]

ghost use Rattle.std.specs.Prelude.{◌≡◌, cond, ◌&&◌, ◌-◌, ◌*◌, ◌≤◌, ltb, eqb};
ghost use Rattle.std.specs.Int.Count.{ones};
ghost use Rattle.calls.specs.Limits.{operators};
ghost use Rattle.calls.specs.Masks.{has};
ghost use Rattle.exact.specs.Division.{over};
ghost use Rattle.exponent.specs.Weight.{first_weight};
ghost use Rattle.values.specs.Bounds.{score_most};
ghost use Rattle.weighing.specs.Steps.{NormalisingAsked};

use calls::has_bit;

// How many operators a mask holds.
pub fn ones_of(mask: u16) -> u64
    ensures { (result ≡ ones mask) × (result ≤ 16) }
{
    u64::from(mask.count_ones())
}

// Better than the mean of those that take part.
pub fn is_better(mask: u16, score: u64, sum: u64, operator: u8) -> bool
    requires { score ≤ score_most }
    ensures { result ≡ has mask operator && ltb (ones mask * score) sum }
{
    has_bit(mask, operator) && ones_of(mask) * score < sum
}

// The weight of one that takes part: each better operator takes the sum of their weights, each other g times its own. 0 for the others.
pub fn levelled_weight(
    mask: u16,
    score: u64,
    sum: u64,
    operator: u8,
    g: u64,
    together: u64,
    own: u64,
) -> u64
    requires score_bounded { score ≤ score_most }
    requires few { g ≤ operators }
    requires own_most { own ≤ first_weight }
    ensures { result ≡ cond (has mask operator) (cond (eqb g 0) own (cond (has mask operator && ltb (ones mask * score) sum) together (g * own))) 0 }
{
    let takes_part = has_bit(mask, operator);
    if !takes_part {
        return 0;
    }
    if g == 0 {
        return own;
    }
    if is_better(mask, score, sum, operator) {
        return together;
    }
    g * own
}

// A score as so many parts of the largest.
pub fn normalise(parts: u64, score: u64, top: u64) -> u64
    requires { NormalisingAsked parts score top }
    ensures { (result ≡ over (parts * score) top) × (result ≤ parts) }
{
    if top == 0 {
        return 0;
    }
    let d = exact::divide_product(parts, score, top);
    d.quotient
}

pub fn linear_weight(mask: u16, score: u64, top: u64, operator: u8) -> u64
    requires { (score ≤ top) × (top ≤ score_most) }
    ensures { result ≡ cond (has mask operator) (1000000 - 6 * over (100000 * score) top) 0 }
{
    if !has_bit(mask, operator) {
        return 0;
    }
    1000000 - 6 * normalise(100000, score, top)
}
