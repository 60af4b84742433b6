// The seven filing calls on a book that is lent, altered in place; a refused call leaves it. Each refuses in the order of the table: 2, 4,
// 5, an interruption 14 and 15, 6 or 7, then 8 and 9.
ghost use Rattle.std.specs.Prelude.{List};
ghost use Rattle.calls.specs.Indicators.{Indicator, indicators_of};
ghost use Rattle.posting.specs.Parts.{Leaves, yes_or, answer_or, NoneRefused, EntersJudged};

use admission::{admit, admit_interruption, mark_unattested};
use arguments::{
    amount_in_range, details_in_range, index_in_range, mark_in_range, rates_in_range,
    setting_in_range,
};
use book::{Book, setting_slot};
use calls::{
    Answer, Call, Kind, LAST_OPERATOR, Refusal, has_bit, include_bit, remask, takes_interruptions,
};
use judging::{count_figure, judge, seconds_of, year_of};
use ledger::{Admitted, Entry, enter, enter_counted};

pub fn join(kind: Kind, b: &mut Book, operator: u8) -> Result<(), Refusal>
    ensures { Leaves (indicators_of kind) b.old (Call.Join operator) (yes_or result) b.new }
{
    if LAST_OPERATOR < operator {
        return Err(Refusal::UnknownOperator);
    }
    if has_bit(b.joined, operator) {
        return Err(Refusal::AlreadyJoined);
    }
    b.joined = include_bit(b.joined, operator);
    mark_unattested(kind, &mut b.marks, operator);
    Ok(())
}

// Which: 1 active access points, 2 income, else the cabins of a year.
pub fn setting(kind: Kind, b: &mut Book, operator: u8, which: u8, value: u64) -> Result<(), Refusal>
    ensures { Leaves (indicators_of kind) b.old (Call.Setting operator which value) (yes_or result) b.new }
{
    admit(b.joined, operator, setting_in_range(kind, which, value))?;
    let at = setting_slot(operator, which);
    b.settings[at] = value;
    Ok(())
}

// Level: 0 MV, 1 LV. One that is left out is counted, too.
pub fn interruption(
    kind: Kind,
    b: &mut Book,
    operator: u8,
    sign: u8,
    level: u8,
    cause: u8,
    start: i64,
    end: i64,
    weight: u32,
) -> Result<Answer, Refusal>
    ensures leaves { Leaves (indicators_of kind) b.old (Call.Interruption operator sign level cause start end weight) (answer_or result) b.new }
    ensures none_refused { NoneRefused result }
{
    if !takes_interruptions(kind) {
        return Err(Refusal::UnknownTag);
    }
    let valid = details_in_range(sign, level, cause, weight);
    admit_interruption(b.joined, operator, valid, start, end)?;
    let seconds = seconds_of(start, end);
    let year = year_of(start, end);
    let admitted = Admitted {
        operator,
        sign,
        level,
        year,
        weight,
        seconds,
    };
    enter_judged(b, cause, admitted)
}

// What counts is entered whole, and of what is left out its count.
fn enter_judged(b: &mut Book, cause: u8, admitted: Admitted) -> Result<Answer, Refusal>
    ensures enters { EntersJudged b.old cause admitted.operator admitted.sign admitted.level admitted.weight admitted.seconds admitted.year (answer_or result) b.new }
    ensures none_refused { NoneRefused result }
{
    let year = admitted.year;
    match judge(cause, admitted.seconds) {
        None => {
            enter_counted(b, admitted)?;
            Ok(Answer::Counted { year })
        }
        Some(reason) => {
            let one = Entry {
                operator: admitted.operator,
                year,
                figure: count_figure(reason),
                sign: admitted.sign,
                value: 1,
            };
            enter(b, one)?;
            Ok(Answer::LeftOut(reason))
        }
    }
}

// Sign: 0 file, 1 withdraw.
pub fn amount(
    kind: Kind,
    b: &mut Book,
    operator: u8,
    year: u8,
    figure: u8,
    sign: u8,
    value: u64,
) -> Result<(), Refusal>
    ensures { Leaves (indicators_of kind) b.old (Call.Amount operator year figure sign value) (yes_or result) b.new }
{
    admit(
        b.joined,
        operator,
        amount_in_range(kind, year, figure, sign),
    )?;
    let one = Entry {
        operator,
        year,
        figure,
        sign,
        value,
    };
    enter(b, one)
}

// Mark: 1 unreliable, 0 not.
pub fn mark_indicator(
    kind: Kind,
    b: &mut Book,
    operator: u8,
    indicator: u8,
    mark: u8,
) -> Result<(), Refusal>
    ensures { Leaves (indicators_of kind) b.old (Call.Mark operator indicator mark) (yes_or result) b.new }
{
    admit(b.joined, operator, mark_in_range(kind, indicator, mark))?;
    let at = indicator as usize;
    b.marks[at] = remask(b.marks[at], operator, mark);
    Ok(())
}

// The same for every kind, as an index.
pub fn rates(b: &mut Book, pot: u32, cap: u32) -> Result<(), Refusal>
    ensures { (kind : List Indicator) → Leaves kind b.old (Call.Rates pot cap) (yes_or result) b.new }
{
    if !rates_in_range(pot, cap) {
        return Err(Refusal::OutOfRange);
    }
    b.pot_rate = pot;
    b.cap_rate = cap;
    Ok(())
}

// Number: 0 to 2 the June before each year, 3 June 2013.
pub fn index(b: &mut Book, number: u8, value: u32) -> Result<(), Refusal>
    ensures { (kind : List Indicator) → Leaves kind b.old (Call.Index number value) (yes_or result) b.new }
{
    if !index_in_range(number, value) {
        return Err(Refusal::OutOfRange);
    }
    b.indices[number as usize] = value;
    Ok(())
}
