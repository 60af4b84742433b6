// The filing calls with the book lent. Each is its core of the same name, lent: the core is given a copy of the book, the book that it leaves is
// stored where the lent one stands, and its answer is the answer. 01 wants such a thin call for each.
ghost use Rattle.ledger.specs.Filed.{Files};

use book::Book;
use calls::{Answer, Call};

// An operator, 0 to 15, joins.
pub fn join(b: &mut Book, operator: u8) -> Answer
    ensures { Files b.old (Call.Join operator) result b.new }
{
    let filed = bookkeeping::join(*b, operator);
    *b = filed.book;
    filed.answer
}

// The latest value of an operator's cabins (which 0), active access points (1) or income in cents (2).
pub fn setting(b: &mut Book, operator: u8, which: u8, value: u64) -> Answer
    ensures { Files b.old (Call.Setting operator which value) result b.new }
{
    let filed = bookkeeping::setting(*b, operator, which, value);
    *b = filed.book;
    filed.answer
}

// An interruption is filed (sign 0) or withdrawn (1), of the medium (level 0) or low voltage network (1). Causes: 0 own network, 1 planned, 2
// coupled network, 3 exceptional with outside attestation, 4 exceptional without. Times are seconds from the start of 2017; weight is the
// number of cabins, for low voltage 1.
pub fn interruption(
    b: &mut Book,
    operator: u8,
    sign: u8,
    level: u8,
    cause: u8,
    start: i64,
    end: i64,
    weight: u32,
) -> Answer
    ensures { Files b.old (Call.Interruption operator sign level cause start end weight) result b.new }
{
    let filed = bookkeeping::interruption(*b, operator, sign, level, cause, start, end, weight);
    *b = filed.book;
    filed.answer
}

// An amount is filed to (sign 0) or withdrawn from (1) a figure, 0 to 7, of an operator and year, 0 to 2.
pub fn amount(b: &mut Book, operator: u8, year: u8, figure: u8, sign: u8, value: u64) -> Answer
    ensures { Files b.old (Call.Amount operator year figure sign value) result b.new }
{
    let filed = bookkeeping::amount(*b, operator, year, figure, sign, value);
    *b = filed.book;
    filed.answer
}

// An operator is marked unreliable (mark 1), or not (0), at an indicator, 0 to 5.
pub fn mark(b: &mut Book, operator: u8, indicator: u8, mark: u8) -> Answer
    ensures { Files b.old (Call.Mark operator indicator mark) result b.new }
{
    let filed = bookkeeping::mark(*b, operator, indicator, mark);
    *b = filed.book;
    filed.answer
}

// Pot rate and cap rate, in millionths.
pub fn rates(b: &mut Book, pot: u32, cap: u32) -> Answer
    ensures { Files b.old (Call.Rates pot cap) result b.new }
{
    let filed = bookkeeping::rates(*b, pot, cap);
    *b = filed.book;
    filed.answer
}

// An index in hundredths: numbers 0 to 2 for the June before each year, 3 for June 2013.
pub fn index(b: &mut Book, number: u8, value: u32) -> Answer
    ensures { Files b.old (Call.Index number value) result b.new }
{
    let filed = bookkeeping::index(*b, number, value);
    *b = filed.book;
    filed.answer
}
