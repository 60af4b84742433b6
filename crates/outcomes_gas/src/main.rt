// The program that tells what becomes of each field of a filing of gas.
#![tactic(auto)]

use calls::Kind;

fn main(rt: HostRuntime) {
    telling::print_outcomes(&rt, Kind::Gas);
}
