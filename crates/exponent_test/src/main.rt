// Prints the 1001 exponent weights, one a line, from k = 0 on.
#![tactic(auto)]

use std::io;

fn main(rt: HostRuntime) -> io::Result<()> {
    for k in 0..1001 {
        println!(&rt; "{}", exponent::weight(k))?;
    }
    Ok(())
}
