// The program that settles a filing of gas.
#![tactic(auto)]

use calls::Kind;

fn main(rt: HostRuntime) {
    settling::print_settlement(&rt, Kind::Gas);
}
