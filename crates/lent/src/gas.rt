// The filing calls, and reading a filing, with a book of gas lent. Each is its core of the same name, lent. 02 wants calls of their own for gas.
ghost use Rattle.std.specs.Prelude.{◌≡◌};
ghost use Rattle.ledger.specs.Filed.{FilesGas};
ghost use Rattle.filing.specs.Reader.{reached_by, read_gas};

use book::Book;
use calls::{Answer, Call};
use filing::Progress;

pub fn join_gas(b: &mut Book, operator: u8) -> Answer
    ensures { FilesGas b.old (Call.Join operator) result b.new }
{
    let filed = bookkeeping::join_gas(*b, operator);
    *b = filed.book;
    filed.answer
}

// Active access points (which 1) or income in cents (2).
pub fn setting_gas(b: &mut Book, operator: u8, which: u8, value: u64) -> Answer
    ensures { FilesGas b.old (Call.Setting operator which value) result b.new }
{
    let filed = bookkeeping::setting_gas(*b, operator, which, value);
    *b = filed.book;
    filed.answer
}

// To or from a figure, 4 to 7.
pub fn amount_gas(b: &mut Book, operator: u8, year: u8, figure: u8, sign: u8, value: u64) -> Answer
    ensures { FilesGas b.old (Call.Amount operator year figure sign value) result b.new }
{
    let filed = bookkeeping::amount_gas(*b, operator, year, figure, sign, value);
    *b = filed.book;
    filed.answer
}

// At an indicator, 4 or 5.
pub fn mark_gas(b: &mut Book, operator: u8, indicator: u8, mark: u8) -> Answer
    ensures { FilesGas b.old (Call.Mark operator indicator mark) result b.new }
{
    let filed = bookkeeping::mark_gas(*b, operator, indicator, mark);
    *b = filed.book;
    filed.answer
}

pub fn rates_gas(b: &mut Book, pot: u32, cap: u32) -> Answer
    ensures { FilesGas b.old (Call.Rates pot cap) result b.new }
{
    let filed = bookkeeping::rates_gas(*b, pot, cap);
    *b = filed.book;
    filed.answer
}

pub fn index_gas(b: &mut Book, number: u8, value: u32) -> Answer
    ensures { FilesGas b.old (Call.Index number value) result b.new }
{
    let filed = bookkeeping::index_gas(*b, number, value);
    *b = filed.book;
    filed.answer
}

// A call that is at hand as a value; an interruption gets 2.
pub fn file_gas(b: &mut Book, filing_call: Call) -> Answer
    ensures { FilesGas b.old filing_call result b.new }
{
    let filed = bookkeeping::file_gas(*b, filing_call);
    *b = filed.book;
    filed.answer
}

pub fn read_gas(b: &mut Book, bytes: &[u8]) -> Progress
    ensures { reached_by b.new result ≡ read_gas b.old bytes.now }
{
    let after = reader::read_gas(*b, bytes);
    *b = after.book;
    after.progress
}
