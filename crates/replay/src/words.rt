// The words for commands and for what can be stored. A command's name stands at its tag, less 200 where that is above 200; from JOINED on
// stands what can be stored. The words between are printed for numbers that name neither.
const COUNT: usize = 31;

const WORDS: [&str; COUNT] = [
    "-",
    "join",
    "setting",
    "interruption",
    "amount",
    "mark",
    "rates",
    "index",
    "fresh",
    "show",
    "settle",
    "store",
    "sheet",
    "gas",
    "electricity",
    "yes",
    "counted",
    "refused",
    "left",
    "out",
    "short",
    "planned",
    "coupled",
    "exceptional",
    "joined",
    "marks",
    "figure",
    "pot",
    "cap",
    "index",
    "setting",
];

pub(crate) const JOINED: u8 = 24;

// A number past the table has some word of it.
pub(crate) fn word_of(number: u8) -> &'static str {
    WORDS[number as usize % COUNT]
}
