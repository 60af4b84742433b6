// The filing calls on a book of gas: those of electricity but for the interruption, of which gas has none. 02 wants calls of their own for gas.
ghost use Rattle.ledger.specs.Filed.{FilesGas};

use crate::Answered;
use crate::by_value::file_as;
use book::Book;
use calls::{Call, Kind};

// A call that is at hand as a value; an interruption gets 2.
pub fn file_gas(b: Book, filing_call: Call) -> Answered
    ensures { FilesGas b filing_call result.answer result.book }
{
    file_as(Kind::Gas, b, filing_call)
}

pub fn join_gas(b: Book, operator: u8) -> Answered
    ensures { FilesGas b (Call.Join operator) result.answer result.book }
{
    file_gas(b, Call::Join { operator })
}

// Active access points (which 1) or income in cents (2).
pub fn setting_gas(b: Book, operator: u8, which: u8, value: u64) -> Answered
    ensures { FilesGas b (Call.Setting operator which value) result.answer result.book }
{
    file_gas(
        b,
        Call::Setting {
            operator,
            which,
            value,
        },
    )
}

// To or from a figure, 4 to 7.
pub fn amount_gas(b: Book, operator: u8, year: u8, figure: u8, sign: u8, value: u64) -> Answered
    ensures { FilesGas b (Call.Amount operator year figure sign value) result.answer result.book }
{
    file_gas(
        b,
        Call::Amount {
            operator,
            year,
            figure,
            sign,
            value,
        },
    )
}

// At an indicator, 4 or 5.
pub fn mark_gas(b: Book, operator: u8, indicator: u8, mark: u8) -> Answered
    ensures { FilesGas b (Call.Mark operator indicator mark) result.answer result.book }
{
    file_gas(
        b,
        Call::Mark {
            operator,
            indicator,
            mark,
        },
    )
}

pub fn rates_gas(b: Book, pot: u32, cap: u32) -> Answered
    ensures { FilesGas b (Call.Rates pot cap) result.answer result.book }
{
    file_gas(b, Call::Rates { pot, cap })
}

pub fn index_gas(b: Book, number: u8, value: u32) -> Answered
    ensures { FilesGas b (Call.Index number value) result.answer result.book }
{
    file_gas(b, Call::Index { number, value })
}
