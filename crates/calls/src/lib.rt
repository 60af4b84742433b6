// A filing call and its answers, the limits of 01, what a kind takes, and masks of operators.
#![tactic(auto)]

mod answers;
mod kinds;
mod limits;
mod masks;

pub use answers::number_of;
pub use kinds::{
    first_indicator, is_network, takes_figure, takes_interruptions, takes_mark, takes_setting,
};
pub use limits::{
    ACCESS_POINT_LIMIT, CABIN_LIMIT, FIGURE_LIMIT, FIGURE_PLACES, FIGURES, FIRST_COUNT,
    FIRST_START, FRESH_INDEX, INCOME_LIMIT, INDEX_LEAST, INDEX_MOST, INDICATOR_COUNT, INDICATORS,
    INDICES, LAST_END, LAST_FIGURE, LAST_INDEX, LAST_INDICATOR, LAST_OPERATOR, LAST_SETTING,
    LAST_YEAR, MARK_PLACES, OPERATOR_FIGURES, OPERATORS, OUTCOMES, RATE_LIMIT, SETTING_PLACES,
    SETTINGS, WEIGHT_LIMIT, YEARS, cabins_in,
};
pub use masks::{has_bit, include_bit, remask};
use std::fmt;

// The kinds of operators, each with a book of its own.
#[derive(Debug, Clone, Copy, PartialEq, Eq)]
pub enum Kind {
    Electricity,
    Gas,
}

// A filing call with its arguments, as the fields of a filing give them: numbers and no enums, since a number out of range is refused by 5.
#[derive(Debug, Clone, Copy, PartialEq, Eq)]
pub enum Call {
    Join {
        operator: u8,
    },
    Setting {
        operator: u8,
        which: u8,
        value: u64,
    },
    Interruption {
        operator: u8,
        sign: u8,
        level: u8,
        cause: u8,
        start: i64,
        end: i64,
        weight: u32,
    },
    Amount {
        operator: u8,
        year: u8,
        figure: u8,
        sign: u8,
        value: u64,
    },
    Mark {
        operator: u8,
        indicator: u8,
        mark: u8,
    },
    Rates {
        pot: u32,
        cap: u32,
    },
    Index {
        number: u8,
        value: u32,
    },
}

// The answers other than yes, in the order of their numbers. Which is looked at before which is another order: specs/Laws.antt has it.
#[derive(Debug, Clone, Copy, PartialEq, Eq)]
pub enum Refusal {
    Truncated = 1,
    UnknownTag = 2,
    WrongLength = 3,
    UnknownOperator = 4,
    OutOfRange = 5,
    AlreadyJoined = 6,
    NotJoined = 7,
    AboveLimit = 8,
    BelowZero = 9,
    NoneJoined = 10,
    NetworkMissing = 11,
    AllMarked = 12,
    BufferTooShort = 13,
    StartsAfterEnd = 14,
    OutsidePeriod = 15,
}

// Why an interruption is left out.
#[derive(Debug, Clone, Copy, PartialEq, Eq)]
pub enum Reason {
    Short,
    Planned,
    Coupled,
    Exceptional,
}

impl fmt::Display for Reason {
    fn fmt<W: fmt::Write>(&self, f: &mut fmt::Formatter<W>) -> fmt::Result {
        f.write_str(match self {
            Reason::Short => "short",
            Reason::Planned => "planned",
            Reason::Coupled => "coupled",
            Reason::Exceptional => "exceptional",
        })
    }
}

// An own enum and no Result: 01 names it, with each answer beside the others.
#[derive(Debug, Clone, Copy, PartialEq, Eq)]
pub enum Answer {
    Yes,
    Counted { year: u8 },
    LeftOut(Reason),
    Refused(Refusal),
}
