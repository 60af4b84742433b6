// Entries in the figures of a book that is lent: what is entered, or 8 or 9 and the book left.
ghost use Rattle.std.specs.Prelude.{[], ◌∷◌};
ghost use Rattle.calls.specs.Answers.{counted_in};
ghost use Rattle.calls.specs.Call.{entry, measured_entries, interruption_entries};
ghost use Rattle.ledger.specs.Steps.{Enters, EntryInRange, CountedInRange};

use book::{Book, figure_slot};
use calls::{FIRST_COUNT, Refusal};
use judging::move_figure;

// A value for one figure: with sign 0 added, with 1 subtracted.
#[derive(Clone, Copy)]
pub struct Entry {
    pub operator: u8,
    pub year: u8,
    pub figure: u8,
    pub sign: u8,
    pub value: u64,
    ghost in_range: { EntryInRange operator year figure sign },
}

// An interruption that is admitted, with its year and its length: with sign 0 added, with 1 subtracted.
#[derive(Clone, Copy)]
pub struct Admitted {
    pub operator: u8,
    pub sign: u8,
    pub level: u8,
    pub year: u8,
    pub weight: u32,
    pub seconds: u64,
    ghost in_range: { CountedInRange operator sign level year weight seconds },
}

// An interruption that counts: what it measures, and 1 in the figure that counts those, added or subtracted.
pub fn enter_counted(b: &mut Book, counted: Admitted) -> Result<(), Refusal>
    ensures { Enters b.old (interruption_entries counted.operator counted.sign counted.level counted.weight counted.seconds counted.year (counted_in counted.year)) result b.new }
{
    let count_at = figure_slot(counted.operator, counted.year, FIRST_COUNT);
    let moved = move_figure(counted.sign, 1, b.figures[count_at])?;
    // Stored last, since what is measured may be refused.
    enter_measured(b, counted)?;
    b.figures[count_at] = moved;
    Ok(())
}

// Weight, and weight times seconds, added or subtracted.
fn enter_measured(b: &mut Book, counted: Admitted) -> Result<(), Refusal>
    ensures { Enters b.old (measured_entries counted.operator counted.sign counted.level counted.weight counted.seconds (counted_in counted.year)) result b.new }
{
    let Admitted {
        operator,
        sign,
        level,
        year,
        weight,
        seconds,
    } = counted;
    let weight_at = figure_slot(operator, year, 2 * level);
    let seconds_at = figure_slot(operator, year, 2 * level + 1);
    let moved = move_figure(sign, weight as u64, b.figures[weight_at])?;
    let moved_seconds = move_figure(sign, weight as u64 * seconds, b.figures[seconds_at])?;
    b.figures[weight_at] = moved;
    b.figures[seconds_at] = moved_seconds;
    Ok(())
}

// A value added to a figure, or subtracted from it.
pub fn enter(b: &mut Book, one: Entry) -> Result<(), Refusal>
    ensures { Enters b.old (entry one.operator one.year one.figure one.sign one.value ∷ []) result b.new }
{
    let at = figure_slot(one.operator, one.year, one.figure);
    b.figures[at] = move_figure(one.sign, one.value, b.figures[at])?;
    Ok(())
}
