// Prints lists of numbers, and answers.
use calls::Answer;
use std::fmt::Display;
use std::io;

// The values of a list that are not 0, each with its place.
pub fn list<T: Copy + Default + PartialEq + Display>(
    rt: &impl Print,
    values: &[T],
) -> io::Result<()> {
    print!(rt; " |")?;
    for (place, value) in values.iter().enumerate() {
        if *value != T::default() {
            print!(rt; " {place}:{value}")?;
        }
    }
    Ok(())
}

pub fn answered(rt: &impl Print, answer: Answer) -> io::Result<()> {
    match answer {
        Answer::Yes => print!(rt; " = yes"),
        Answer::Counted { year } => print!(rt; " = counted {year}"),
        Answer::LeftOut(reason) => print!(rt; " = left out {reason}"),
        Answer::Refused(refusal) => print!(rt; " = refused {}", calls::number_of(refusal)),
    }
}
