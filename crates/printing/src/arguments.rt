// Prints the arguments of a filing call.
use calls::Call;
use std::io;

pub fn print(rt: &impl Print, filing_call: Call) -> io::Result<()> {
    match filing_call {
        Call::Join { operator } => print!(rt; " {operator}"),
        Call::Setting {
            operator,
            which,
            value,
        } => print!(rt; " {operator} {which} {value}"),
        Call::Interruption {
            operator,
            sign,
            level,
            cause,
            start,
            end,
            weight,
        } => print!(rt; " {operator} {sign} {level} {cause} {start} {end} {weight}"),
        Call::Amount {
            operator,
            year,
            figure,
            sign,
            value,
        } => print!(rt; " {operator} {year} {figure} {sign} {value}"),
        Call::Mark {
            operator,
            indicator,
            mark,
        } => print!(rt; " {operator} {indicator} {mark}"),
        Call::Rates { pot, cap } => print!(rt; " {pot} {cap}"),
        Call::Index { number, value } => print!(rt; " {number} {value}"),
    }
}
