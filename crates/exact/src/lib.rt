// Division, rounded down; and quotient and remainder of a product, at once where it fits 64 bits and in steps of 64 bits where it passes
// them (01: "Some products pass 64 bits; the answer is exact all the same").
#![tactic(auto)]

ghost use Rattle.std.specs.Prelude.{◌≡◌, ◌+◌, ◌*◌, ◌/◌, ◌%◌, ◌<◌, ◌≤◌};
ghost use Rattle.exact.specs.Division.{over, Dividing, Appending};

// What a whole division gives.
#[derive(Debug, Clone, Copy, PartialEq, Eq)]
pub struct Division {
    pub quotient: u64,
    pub remainder: u64,
}

// Rounded down; a zero divisor gives 0.
pub fn divide(dividend: u64, divisor: u64) -> u64
    ensures { (result ≡ over dividend divisor) × (result ≤ dividend) }
{
    dividend.checked_div(divisor).unwrap_or(0)
}

// t * w divided by s, exact over the whole numbers. In each wide product here w is a part of a sum s, or s is the largest of some w,
// so w ≤ s.
pub fn divide_product(t: u64, w: u64, s: u64) -> Division
    requires { Dividing t w s }
    ensures { (result.quotient ≡ t * w / s) × (result.remainder ≡ t * w % s) }
{
    match t.checked_mul(w) {
        Some(product) => Division {
            quotient: product / s,
            remainder: product % s,
        },
        None => divide_by_digits(t, w, s),
    }
}

// The same division, t taken from the top by digits of as many bits as s leaves free, but for one.
fn divide_by_digits(t: u64, w: u64, s: u64) -> Division
    requires { Dividing t w s }
    ensures { (result.quotient ≡ t * w / s) × (result.remainder ≡ t * w % s) }
{
    let width = u64::leading_zeros(s) - 1;
    let mut k = 64 - u64::leading_zeros(t);
    let mut d = Division {
        quotient: 0,
        remainder: 0,
    };
    // No `for`: the digits have one width each but the last, which takes the bits that are left.
    while 0 < k {
        let bits = width.min(k);
        let base = 1 << bits;
        k -= bits;
        d = append_digit(d, (t >> k) % base, base, w, s);
    }
    d
}

// The division of a product whose factor t is one digit longer: t times the digits' base, and the digit added.
fn append_digit(d: Division, digit: u64, base: u64, w: u64, s: u64) -> Division
    requires { Appending d.quotient d.remainder digit base w s }
    ensures { (result.remainder < s) × (result.quotient * s + result.remainder ≡ base * (d.quotient * s + d.remainder) + digit * w) }
{
    let sum = d.remainder * base + digit * w;
    Division {
        quotient: d.quotient * base + sum / s,
        remainder: sum % s,
    }
}
