// Whether a book has what settling needs: the settings that 11 asks for, and at an indicator somebody who takes part, or 12.
#![tactic(auto)]

ghost use Rattle.std.specs.Prelude.{◌≡◌, true, ◌&&◌, ◌<◌, eqb};
ghost use Rattle.calls.specs.Limits.{operators, setting_count};
ghost use Rattle.book.specs.Book.{within_limits, is_joined, setting_of};
ghost use Rattle.calls.specs.Indicators.{indicators_of, is_network};
ghost use Rattle.book.specs.declared.Book.{Book as Declared-as-Book};
ghost use Rattle.values.specs.Parts.{HasMarks};
ghost use Rattle.readiness.specs.Readiness.{setting_missing, network_missing, all_marked};

use book::{Book, setting_slot};
use calls::{INDICATOR_COUNT, Kind, OPERATORS, SETTINGS, first_indicator, has_bit, is_network};
use values::reliable_mask;

// Whether a joined operator has 0 of a setting that the kind asks for: access points, and of electricity the cabins of each year.
pub fn network_missing(kind: Kind, b: &Book) -> bool
    ensures { result ≡ network_missing b.now (indicators_of kind) }
{
    (0..SETTINGS).any(|which| asked_and_missing(kind, b, which as u8))
}

fn asked_and_missing(kind: Kind, b: &Book, which: u8) -> bool
    requires { which < setting_count }
    ensures { result ≡ is_network (indicators_of kind) which && setting_missing b.now which }
{
    is_network(kind, which) && setting_missing(b, which)
}

// Whether a joined operator has 0 of a setting.
fn setting_missing(b: &Book, which: u8) -> bool
    requires { which < setting_count }
    ensures { result ≡ setting_missing b.now which }
{
    (0..OPERATORS).any(|operator| lacks(b, operator as u8, which))
}

// Whether one has joined and its setting is 0.
fn lacks(b: &Book, operator: u8, which: u8) -> bool
    requires { (operator < operators) × (which < setting_count) }
    ensures { result ≡ is_joined b.now operator && eqb (setting_of b.now operator which) 0 }
{
    has_bit(b.joined, operator) && b.settings[setting_slot(operator, which)] == 0
}

// Whether nobody takes part at any indicator of the kind. Operators and marks alone decide, whatever else a book within its limits holds.
pub fn all_marked(kind: Kind, b: &Book) -> bool
    ensures { (other : Declared-as-Book) → within_limits other ≡ true → HasMarks other b.now.joined b.now.marks → result ≡ all_marked other (indicators_of kind) }
{
    (first_indicator(kind)..INDICATOR_COUNT).all(|number| reliable_mask(b, number) == 0)
}
