// What an indicator measures of one operator in one year, and one setting of each operator.
ghost use Rattle.std.specs.Prelude.{◌≡◌, ◌≤◌, ◌<◌, ℕ};
ghost use Rattle.calls.specs.Limits.{operators, years, setting_count, figure_count, figure_limit, indicator_count};
ghost use Rattle.calls.specs.Indicators.{frequency, duration, fee};
ghost use Rattle.book.specs.Book.{KnownFigure, figure_of};
ghost use Rattle.values.specs.Indicator.{yearly_value, numbered};
ghost use Rattle.values.specs.Operators.{settings_of};

use crate::measured::Measured;
use book::{Book, figure_slot, setting_slot};
use calls::cabins_in;
use exact::divide;

// One setting of each operator.
pub fn settings_of(b: &Book, which: u8) -> [u64; 16]
    requires { which < setting_count }
    ensures { result ≡ settings_of b.now which }
{
    std::array::from_fn(|operator| b.settings[setting_slot(operator as u8, which)])
}

// The value of an operator's year.
pub(crate) fn yearly_value(m: Measured, number: u8, operator: u8, year: u8) -> u64
    requires number_there { number < indicator_count }
    requires operator_there { operator < operators }
    requires year_there { year < years }
    ensures { result ≡ yearly_value m.entry.book.now (numbered number).measure operator year }
{
    let cabins = cabins_in(year);
    match number {
        0 => frequency(m, operator, year, 0, cabins),
        1 => duration(m, operator, year, 1, 0),
        2 => frequency(m, operator, year, 2, 1),
        3 => duration(m, operator, year, 3, 2),
        4 => fee(m, operator, year, 4, 5),
        _ => fee(m, operator, year, 6, 7),
    }
}

// So many interruptions for each million of a setting.
fn frequency(m: Measured, operator: u8, year: u8, figure: u8, which: u8) -> u64
    requires figure_there { KnownFigure operator year figure }
    requires setting_there { which < setting_count }
    ensures { (by-year : ℕ → ℕ) → by-year year ≡ which → result ≡ yearly_value m.entry.book.now (frequency figure by-year) operator year }
{
    let times = figure_in(m, operator, year, figure);
    divide(
        1000000 * times,
        m.book.settings[setting_slot(operator, which)],
    )
}

// Milliseconds for each of what they are weighed by.
fn duration(m: Measured, operator: u8, year: u8, seconds: u8, weight: u8) -> u64
    requires seconds_there { KnownFigure operator year seconds }
    requires weight_there { KnownFigure operator year weight }
    ensures { result ≡ yearly_value m.entry.book.now (duration seconds weight) operator year }
{
    let lasted = figure_in(m, operator, year, seconds);
    divide(1000 * lasted, figure_in(m, operator, year, weight))
}

// Fees per connection, in the money of June 2013. A count of 0 is taken as 1.
fn fee(m: Measured, operator: u8, year: u8, paid: u8, connections: u8) -> u64
    requires paid_there { KnownFigure operator year paid }
    requires connections_there { KnownFigure operator year connections }
    ensures { result ≡ yearly_value m.entry.book.now (fee paid connections) operator year }
{
    let base = u64::from(m.book.indices[3]);
    let index = u64::from(m.book.indices[year as usize]);
    let fees = figure_in(m, operator, year, paid);
    let made = figure_in(m, operator, year, connections).max(1);
    divide(10 * fees * base, made * index)
}

// A figure of an operator and year.
fn figure_in(m: Measured, operator: u8, year: u8, figure: u8) -> u64
    requires figure_there { KnownFigure operator year figure }
    ensures value { result ≡ figure_of m.entry.book.now operator year figure }
    ensures most { result ≤ figure_limit }
{
    m.book.figures[figure_slot(operator, year, figure)]
}
