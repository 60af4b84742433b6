// Shares totals by weights, each with four rows of sizes, and prints each case as T, the weights, the sizes, = and the shares.
#![tactic(auto)]

mod cases;

ghost use Rattle.std.specs.Prelude.{◌≡◌, ◌^◌, ◌<◌, length};
ghost use Rattle.apportion.specs.Sum.{sum};

use cases::{CASES, SIZES};
use std::io;

// No number of a case reaches this: then sixteen of them stay within what `apportion` takes.
const LIMIT: u64 = 1 << 57;

fn main(rt: HostRuntime) -> io::Result<()> {
    let (cases, rows) = CASES.split_at(SIZES);
    for case in cases.as_chunks::<17>().0 {
        for sizes in rows.as_chunks::<16>().0 {
            print_case(
                &rt,
                bounded(case[0]),
                all_bounded(&case[1..]),
                all_bounded(sizes),
            )?;
        }
    }
    Ok(())
}

fn all_bounded(numbers: &[u64]) -> [u64; 16]
    requires { length numbers.now ≡ 16 }
    ensures { sum result < 2 ^ 62 }
{
    // A loop, whose invariant carries the sum's bound.
    let mut all = [0u64; 16];
    for i in 0..16 {
        all[i] = bounded(numbers[i]);
    }
    all
}

fn bounded(n: u64) -> u64
    ensures { result < 2 ^ 57 }
{
    n % LIMIT
}

fn print_case(rt: &impl Print, t: u64, weights: [u64; 16], sizes: [u64; 16]) -> io::Result<()>
    requires { (t < 2 ^ 62) × (sum weights < 2 ^ 62) }
{
    print!(rt; "{t}")?;
    print_numbers(rt, &weights)?;
    print_numbers(rt, &sizes)?;
    print!(rt; " =")?;
    print_numbers(rt, &apportion::share(t, weights, sizes))?;
    println!(rt)
}

fn print_numbers(rt: &impl Print, numbers: &[u64]) -> io::Result<()> {
    for n in numbers {
        print!(rt; " {n}")?;
    }
    Ok(())
}
