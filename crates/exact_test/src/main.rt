// Divides products at the extremes of `exact` and in between, and prints each as t w s = quotient remainder.
#![tactic(auto)]

mod cases;

use cases::CASES;
use std::io;

const LIMIT: u64 = 1 << 62;

fn main(rt: HostRuntime) -> io::Result<()> {
    for [t, w, s] in CASES.as_chunks::<3>().0 {
        print_case(&rt, *t, *w, *s)?;
    }
    Ok(())
}

// A case that `exact` does not take is left out, and then the output is not the expected one.
fn print_case(rt: &impl Print, t: u64, w: u64, s: u64) -> io::Result<()> {
    if t < LIMIT && w <= s && 0 < s && s < LIMIT {
        let d = exact::divide_product(t, w, s);
        println!(rt; "{t} {w} {s} = {} {}", d.quotient, d.remainder)?;
    }
    Ok(())
}
