// A fresh book, and what a book holds, by name.
ghost use Rattle.std.specs.Prelude.{◌≡◌, cond, ◌&&◌, ◌*◌, ◌<◌, ltb};
ghost use Rattle.calls.specs.Limits.{operators, years, setting_count, figure_count};
ghost use Rattle.book.specs.Book.{KnownFigure, fresh_book, is_joined, setting_slot, figure_slot, setting_of, figure_of};

use crate::Book;
use calls::{
    FIGURE_PLACES, FIGURES, FRESH_INDEX, INDICATORS, INDICES, LAST_FIGURE, LAST_OPERATOR,
    LAST_SETTING, LAST_YEAR, SETTING_PLACES, SETTINGS, YEARS, has_bit,
};

pub fn fresh() -> Book
    ensures { result ≡ fresh_book }
{
    Book {
        joined: 0,
        marks: [0u16; INDICATORS],
        settings: [0u64; SETTING_PLACES],
        figures: [0u64; FIGURE_PLACES],
        pot_rate: 0,
        cap_rate: 0,
        indices: [FRESH_INDEX; INDICES],
    }
}

pub fn is_joined(b: Book, operator: u8) -> bool
    ensures { result ≡ is_joined b operator }
{
    has_bit(b.joined, operator)
}

// Cabins, active access points or income of an operator; 0 for an operator or a setting that there is not.
pub fn setting_of(b: Book, operator: u8, which: u8) -> u64
    ensures { result ≡ cond (ltb operator operators && ltb which setting_count) (setting_of b operator which) 0 }
{
    if LAST_OPERATOR < operator || LAST_SETTING < which {
        return 0;
    }
    b.settings[setting_slot(operator, which)]
}

// Where a setting of an operator stands.
pub fn setting_slot(operator: u8, which: u8) -> usize
    requires { (operator < operators) × (which < setting_count) }
    ensures { (result ≡ setting_slot operator which) × (result < operators * setting_count) }
{
    operator as usize * SETTINGS + which as usize
}

// A figure of an operator and year; 0 for an operator, a year or a figure that there is not.
pub fn figure_of(b: Book, operator: u8, year: u8, figure: u8) -> u64
    ensures { result ≡ cond (ltb operator operators && ltb year years && ltb figure figure_count) (figure_of b operator year figure) 0 }
{
    if LAST_OPERATOR < operator || LAST_YEAR < year || LAST_FIGURE < figure {
        return 0;
    }
    b.figures[figure_slot(operator, year, figure)]
}

// Where a figure of an operator and year stands.
pub fn figure_slot(operator: u8, year: u8, figure: u8) -> usize
    requires { KnownFigure operator year figure }
    ensures { (result ≡ figure_slot operator year figure) × (result < operators * years * figure_count) }
{
    (operator as usize * YEARS + year as usize) * FIGURES + figure as usize
}
