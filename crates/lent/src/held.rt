// The lent calls for code that holds a book by value: each lends it to the call of the same name and gives it back beside the answer, with the
// contract of the by-value core.
ghost use Rattle.std.specs.Prelude.{◌≡◌};
ghost use Rattle.std.specs.Fn.{FnOnceReturnsAtMut};
ghost use Rattle.ledger.specs.Filed.{Files, FilesGas};
ghost use Rattle.filing.specs.Reader.{told, read_gas, read};

use crate::{gas, lending, reading};
use book::Book;
use bookkeeping::Answered;
use calls::{Answer, Call};
use filing::Reading;

// A held book lent to a call, and given back beside the call's answer.
fn hold<F: FnOnce(&mut Book) -> Answer>(mut b: Book, call: F) -> Answered
    requires { F.IsAlwaysCallable call }
    ensures { FnOnceReturnsAtMut F.FnOnce call b result.answer result.book }
{
    let answer = call(&mut b);
    Answered { book: b, answer }
}

pub fn join(b: Book, operator: u8) -> Answered
    ensures { Files b (Call.Join operator) result.answer result.book }
{
    hold(b, |lent| lending::join(lent, operator))
}

pub fn setting(b: Book, operator: u8, which: u8, value: u64) -> Answered
    ensures { Files b (Call.Setting operator which value) result.answer result.book }
{
    hold(b, |lent| lending::setting(lent, operator, which, value))
}

pub fn interruption(
    b: Book,
    operator: u8,
    sign: u8,
    level: u8,
    cause: u8,
    start: i64,
    end: i64,
    weight: u32,
) -> Answered
    ensures { Files b (Call.Interruption operator sign level cause start end weight) result.answer result.book }
{
    hold(
        b,
        |lent| lending::interruption(lent, operator, sign, level, cause, start, end, weight),
    )
}

pub fn amount(b: Book, operator: u8, year: u8, figure: u8, sign: u8, value: u64) -> Answered
    ensures { Files b (Call.Amount operator year figure sign value) result.answer result.book }
{
    hold(
        b,
        |lent| lending::amount(lent, operator, year, figure, sign, value),
    )
}

pub fn mark(b: Book, operator: u8, indicator: u8, mark: u8) -> Answered
    ensures { Files b (Call.Mark operator indicator mark) result.answer result.book }
{
    hold(b, |lent| lending::mark(lent, operator, indicator, mark))
}

pub fn rates(b: Book, pot: u32, cap: u32) -> Answered
    ensures { Files b (Call.Rates pot cap) result.answer result.book }
{
    hold(b, |lent| lending::rates(lent, pot, cap))
}

pub fn index(b: Book, number: u8, value: u32) -> Answered
    ensures { Files b (Call.Index number value) result.answer result.book }
{
    hold(b, |lent| lending::index(lent, number, value))
}

pub fn read(mut b: Book, bytes: &[u8]) -> Reading
    ensures { told result ≡ read b bytes.now }
{
    let progress = reading::read(&mut b, bytes);
    Reading { book: b, progress }
}

pub fn join_gas(b: Book, operator: u8) -> Answered
    ensures { FilesGas b (Call.Join operator) result.answer result.book }
{
    hold(b, |lent| gas::join_gas(lent, operator))
}

pub fn setting_gas(b: Book, operator: u8, which: u8, value: u64) -> Answered
    ensures { FilesGas b (Call.Setting operator which value) result.answer result.book }
{
    hold(b, |lent| gas::setting_gas(lent, operator, which, value))
}

pub fn amount_gas(b: Book, operator: u8, year: u8, figure: u8, sign: u8, value: u64) -> Answered
    ensures { FilesGas b (Call.Amount operator year figure sign value) result.answer result.book }
{
    hold(
        b,
        |lent| gas::amount_gas(lent, operator, year, figure, sign, value),
    )
}

pub fn mark_gas(b: Book, operator: u8, indicator: u8, mark: u8) -> Answered
    ensures { FilesGas b (Call.Mark operator indicator mark) result.answer result.book }
{
    hold(b, |lent| gas::mark_gas(lent, operator, indicator, mark))
}

pub fn rates_gas(b: Book, pot: u32, cap: u32) -> Answered
    ensures { FilesGas b (Call.Rates pot cap) result.answer result.book }
{
    hold(b, |lent| gas::rates_gas(lent, pot, cap))
}

pub fn index_gas(b: Book, number: u8, value: u32) -> Answered
    ensures { FilesGas b (Call.Index number value) result.answer result.book }
{
    hold(b, |lent| gas::index_gas(lent, number, value))
}

pub fn file_gas(b: Book, filing_call: Call) -> Answered
    ensures { FilesGas b filing_call result.answer result.book }
{
    hold(b, |lent| gas::file_gas(lent, filing_call))
}

pub fn read_gas(mut b: Book, bytes: &[u8]) -> Reading
    ensures { told result ≡ read_gas b bytes.now }
{
    let progress = gas::read_gas(&mut b, bytes);
    Reading { book: b, progress }
}
