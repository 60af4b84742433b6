// Asks for the yearly sheet of an operator, and prints it.
use book::Book;
use calls::Call;
use fields::Field;
use printing::print::answered;
use std::io;

// The field inside the command is an amount's; of its numbers only operator and year are looked at.
pub(crate) fn sheet(rt: &impl Print, b: Book, field: Field) -> io::Result<()> {
    let Field::CallThen {
        filing_call: Call::Amount { operator, year, .. },
        ..
    } = field
    else {
        return Ok(());
    };
    let asked = sheets::sheet(b, operator, year);
    print!(rt; " {operator} {year}")?;
    answered(rt, asked.answer)?;
    for count in asked.counts {
        print!(rt; " {count}")?;
    }
    Ok(())
}
