// The program that writes a book of gas out.
#![tactic(auto)]

use calls::Kind;

fn main(rt: HostRuntime) {
    writing_out::print_book(&rt, Kind::Gas);
}
