// The program that settles a filing of electricity.
#![tactic(auto)]

use calls::Kind;

fn main(rt: HostRuntime) {
    settling::print_settlement(&rt, Kind::Electricity);
}
