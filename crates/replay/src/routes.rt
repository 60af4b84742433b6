// A filing call done by its own function: by value, or with the book lent. Those of gas have none for an interruption, which goes by the
// function for any call.
use book::Book;
use bookkeeping::Answered;
use calls::{Call, Kind};
use lent::held;

// A call done by the function of its name, of those listed; an interruption as the arm says that stands last.
macro_rules! done {
    (
        $b:ident, $filing_call:ident,
        $functions:ident::{$join:ident, $setting:ident, $amount:ident, $mark:ident, $rates:ident, $index:ident},
        $interruption:pat => $interrupted:expr
    ) => {
        match $filing_call {
            Call::Join { operator } => $functions::$join($b, operator),
            Call::Setting { operator, which, value } => $functions::$setting($b, operator, which, value),
            $interruption => $interrupted,
            Call::Amount { operator, year, figure, sign, value } => $functions::$amount($b, operator, year, figure, sign, value),
            Call::Mark { operator, indicator, mark } => $functions::$mark($b, operator, indicator, mark),
            Call::Rates { pot, cap } => $functions::$rates($b, pot, cap),
            Call::Index { number, value } => $functions::$index($b, number, value),
        }
    };
}

pub(crate) fn by_value(kind: Kind, b: Book, filing_call: Call) -> Answered {
    match kind {
        Kind::Electricity => done!(
            b, filing_call,
            bookkeeping::{join, setting, amount, mark, rates, index},
            Call::Interruption { operator, sign, level, cause, start, end, weight } =>
                bookkeeping::interruption(b, operator, sign, level, cause, start, end, weight)
        ),
        Kind::Gas => done!(
            b, filing_call,
            bookkeeping::{join_gas, setting_gas, amount_gas, mark_gas, rates_gas, index_gas},
            Call::Interruption { .. } => bookkeeping::file_gas(b, filing_call)
        ),
    }
}

pub(crate) fn lent(kind: Kind, b: Book, filing_call: Call) -> Answered {
    match kind {
        Kind::Electricity => done!(
            b, filing_call,
            held::{join, setting, amount, mark, rates, index},
            Call::Interruption { operator, sign, level, cause, start, end, weight } =>
                held::interruption(b, operator, sign, level, cause, start, end, weight)
        ),
        Kind::Gas => done!(
            b, filing_call,
            held::{join_gas, setting_gas, amount_gas, mark_gas, rates_gas, index_gas},
            Call::Interruption { .. } => held::file_gas(b, filing_call)
        ),
    }
}
