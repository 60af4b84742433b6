// Sharing a total by weights over sixteen places, by largest remainders (01: "Sharing T by weights").
#![tactic(auto)]

ghost use Rattle.std.specs.Prelude.{◌≡◌, ◌+◌, ◌^◌, ◌<◌};
ghost use Rattle.apportion.specs.Sum.{sum};
ghost use Rattle.apportion.specs.Steps.{DividingEach, quotients, spare, claim_at};
ghost use Rattle.apportion.specs.Share.{floors, remainders, precedes, foremost, award, share};

use exact::Division;

// What a place claims a unit by.
#[derive(Clone, Copy)]
struct Claim {
    remainder: u64,
    size: u64,
    place: usize,
}

// The shares of t by weights; of equal remainders the larger size comes first. Sixteen weights of money or points stay far below the bounds.
pub fn share(t: u64, weights: [u64; 16], sizes: [u64; 16]) -> [u64; 16]
    requires { (t < 2 ^ 62) × (sum weights < 2 ^ 62) }
    ensures { result ≡ share t weights sizes }
{
    let s = sum_of(weights);
    if s == 0 {
        return [0u64; 16];
    }
    let places = divide_each(t, weights, s);
    let whole = sum_of(quotients(places));
    award_units(t - whole, places, sizes)
}

// The sum of an array's numbers.
pub fn sum_of<const N: usize>(numbers: [u64; N]) -> u64
    requires { sum numbers < 2 ^ 64 }
    ensures { result ≡ sum numbers.entry }
{
    numbers.iter().sum()
}

// t * weight / s at each place.
fn divide_each(t: u64, weights: [u64; 16], s: u64) -> [Division; 16]
    requires { DividingEach t weights s }
    ensures { (quotients result ≡ floors t weights) × (spare result ≡ remainders t weights) }
{
    std::array::from_fn(|i| exact::divide_product(t, weights[i], s))
}

fn quotients(places: [Division; 16]) -> [u64; 16]
    ensures { result ≡ quotients places }
{
    places.map(|d| d.quotient)
}

// Gives one unit after the other to the foremost place, and spends its remainder.
fn award_units(units: u64, divisions: [Division; 16], sizes: [u64; 16]) -> [u64; 16]
    requires { sum (quotients divisions) + units < 2 ^ 62 }
    ensures { result ≡ award sizes units (spare divisions) (quotients divisions) }
{
    let mut places = divisions;
    for _ in 0..units {
        let place = foremost_place(&places, &sizes);
        places[place] = Division {
            quotient: places[place].quotient + 1,
            remainder: 0,
        };
    }
    quotients(places)
}

// The place that is served first.
fn foremost_place(places: &[Division; 16], sizes: &[u64; 16]) -> usize
    ensures { (result ≡ foremost sizes.now (spare places.now) 16) × (result < 16) }
{
    let mut best = claim_of(places, sizes, 0);
    for i in 1..16 {
        let next = claim_of(places, sizes, i);
        if next.precedes(best) {
            best = next;
        }
    }
    best.place
}

impl Claim {
    // Whether this claim is served before another: the larger remainder, at a tie the larger size, and only then the lower place.
    fn precedes(self, other: Claim) -> bool
        ensures { result ≡ precedes self.remainder self.size self.place other.remainder other.size other.place }
    {
        if self.remainder != other.remainder {
            return other.remainder < self.remainder;
        }
        if self.size != other.size {
            return other.size < self.size;
        }
        self.place < other.place
    }
}

fn claim_of(places: &[Division; 16], sizes: &[u64; 16], place: usize) -> Claim
    requires { place < 16 }
    ensures { result ≡ claim_at places.now sizes.now place }
{
    Claim {
        remainder: places[place].remainder,
        size: sizes[place],
        place,
    }
}
