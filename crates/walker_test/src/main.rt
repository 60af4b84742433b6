// Walks over a few filings, and prints each as bytes = well formed fields, the offset where the walk ends, what stands there.
#![tactic(auto)]

use calls::number_of;
use fields::Field;
use std::io;

fn main(rt: HostRuntime) -> io::Result<()> {
    show(&rt, b"")?;
    // The table's examples of 1, 2 and 3.
    show(&rt, b"\x01\x00")?;
    show(&rt, b"\x63\x00\x00")?;
    show(&rt, b"\x01\x00\x02\x00\x00")?;
    // A join, twice: the bytes are well formed, whatever a book answers.
    show(&rt, b"\x01\x00\x01\x00\x01\x00\x01\x00")?;
    // A mark, rates and an index.
    show(
        &rt,
        b"\x05\x00\x03\x00\x06\x01\x06\x00\x08\x00\x00\x13\x88\x00\x00\x27\x10\x07\x00\x05\x03\x00\x00\x27\x10",
    )?;
    // A setting, and a field whose length passes the end.
    show(
        &rt,
        b"\x02\x00\x0a\x00\x00\x00\x00\x00\x00\x00\x00\x00\x64\x04\x00\x0c\x00",
    )?;
    // An amount, an interruption, and a tag that is unknown.
    show(
        &rt,
        b"\x04\x00\x0c\x00\x00\x00\x00\x00\x00\x00\x00\x00\x00\x00\x01\x03\x00\x18\x00\x00\x00\x00\x00\x00\x00\x00\x00\x00\x00\x00\x00\x00\x00\x00\x00\x00\x00\xb5\x00\x00\x00\x01\x08\x00\x00",
    )
}

// The filing's bytes, then what the walk comes to.
fn show(rt: &impl Print, bytes: &[u8]) -> io::Result<()> {
    for byte in bytes {
        print!(rt; "{byte} ")?;
    }
    let walked = walker::walk(bytes);
    print!(rt; "= {} {}", walked.fields, walked.offset)?;
    match walked.field {
        Field::CallThen { .. } => println!(rt; " field"),
        Field::End => println!(rt; " end"),
        Field::Refused(refusal) => println!(rt; " refused {}", number_of(refusal)),
    }
}
