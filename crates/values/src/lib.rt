// Yearly values of an indicator by operator and their sums over three years, the first two steps of annex 9, 4.2.1; and the operators that take
// part. The book is lent, since by value it is copied at each call.
#![tactic(auto)]

mod measured;
mod measures;

ghost use Rattle.std.specs.Prelude.{◌≡◌, cond, ◌+◌, ◌≤◌, ◌<◌};
ghost use Rattle.calls.specs.Limits.{years, indicator_count};
ghost use Rattle.calls.specs.Masks.{has};
ghost use Rattle.values.specs.Bounds.{yearly_most};
ghost use Rattle.values.specs.Indicator.{yearly_values, reliable_mask, scores, numbered};
ghost use Rattle.values.specs.Sequence.{values_by_year, sums_of_years};
ghost use Rattle.values.specs.Steps.{YearsWithin};
ghost use Rattle.values.specs.Parts.{HasMeasures};
ghost use Rattle.book.specs.declared.Book.{Book as Declared-as-Book};

use book::Book;
use calls::has_bit;
pub use measured::Measured;
pub use measures::settings_of;
use measures::yearly_value;

// The scores of the operators that take part in an indicator; 0 for the others. They are those of every book with these measures in which those
// of the mask take part.
pub fn scores_of(mask: u16, m: Measured, number: u8) -> [u64; 16]
    requires { number < indicator_count }
    ensures { (b : Declared-as-Book) → HasMeasures b m.entry.book.now.settings m.entry.book.now.figures m.entry.book.now.indices → mask ≡ reliable_mask b (numbered number) → result ≡ scores b (numbered number) }
{
    sums_of_years(mask, yearly_values(m, number))
}

// Step 1: the values of each of the three years, by operator; of operators that take no part too.
pub fn yearly_values(m: Measured, number: u8) -> [[u64; 16]; 3]
    requires { number < indicator_count }
    ensures { result ≡ values_by_year m.entry.book.now (numbered number).measure }
{
    [
        values_in(m, number, 0),
        values_in(m, number, 1),
        values_in(m, number, 2),
    ]
}

// The values of a year, by operator.
fn values_in(m: Measured, number: u8, year: u8) -> [u64; 16]
    requires number_there { number < indicator_count }
    requires year_there { year < years }
    ensures { result ≡ yearly_values m.entry.book.now (numbered number).measure year }
{
    std::array::from_fn(|operator| yearly_value(m, number, operator as u8, year))
}

// Step 2: the sum of the three years, where the annex has their mean (01 decides). It is 0 for whoever takes no part.
pub fn sums_of_years(mask: u16, values: [[u64; 16]; 3]) -> [u64; 16]
    requires { YearsWithin values }
    ensures { result ≡ sums_of_years mask values }
{
    std::array::from_fn(|operator| {
        let sum = values[0][operator] + values[1][operator] + values[2][operator];
        if_reliable(mask, operator as u8, sum)
    })
}

// The sum of one that takes part.
fn if_reliable(mask: u16, operator: u8, sum: u64) -> u64
    ensures { result ≡ cond (has mask operator) sum 0 }
{
    if has_bit(mask, operator) {
        return sum;
    }
    0
}

// Joined and without a mark: a mask of both.
pub fn reliable_mask(b: &Book, number: u8) -> u16
    requires { number < indicator_count }
    ensures { result ≡ reliable_mask b.now (numbered number) }
{
    let unmarked = !b.marks[number as usize];
    b.joined & unmarked
}
