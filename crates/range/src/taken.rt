// Whether a book is in the range of its kind: within its limits, and 0 wherever the kind takes nothing.
ghost use Rattle.std.specs.Prelude.{◌≡◌};
ghost use Rattle.calls.specs.Indicators.{indicators_of};
ghost use Rattle.book.specs.Book.{settings_taken, figures_taken, marks_taken, only_taken, in_range};

use crate::limits::within_limits;
use book::Book;
use calls::{
    FIGURE_PLACES, FIGURES, INDICATORS, Kind, SETTING_PLACES, SETTINGS, takes_figure,
    takes_interruptions, takes_mark, takes_setting,
};

pub fn in_range(kind: Kind, b: Book) -> bool
    ensures { result ≡ in_range (indicators_of kind) b }
{
    // With interruptions every place is taken.
    within_limits(b) && (takes_interruptions(kind) || only_taken(kind, b))
}

fn only_taken(kind: Kind, b: Book) -> bool
    ensures { result ≡ only_taken (indicators_of kind) b }
{
    if !settings_taken(kind, b) {
        return false;
    }
    if !figures_taken(kind, b) {
        return false;
    }
    marks_taken(kind, b)
}

fn settings_taken(kind: Kind, b: Book) -> bool
    ensures { result ≡ settings_taken (indicators_of kind) b }
{
    (0..SETTING_PLACES).all(|i| takes_setting(kind, (i % SETTINGS) as u8) || b.settings[i] == 0)
}

fn figures_taken(kind: Kind, b: Book) -> bool
    ensures { result ≡ figures_taken (indicators_of kind) b }
{
    (0..FIGURE_PLACES).all(|i| takes_figure(kind, (i % FIGURES) as u8) || b.figures[i] == 0)
}

// Whole masks.
fn marks_taken(kind: Kind, b: Book) -> bool
    ensures { result ≡ marks_taken (indicators_of kind) b }
{
    (0..INDICATORS).all(|i| takes_mark(kind, i as u8) || b.marks[i] == 0)
}
