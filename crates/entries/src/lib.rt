// The places of a written filing, in its order: joins, settings, amounts, marks, indices, rates. At each the book's value is fresh, and
// there is nothing, or there is a field for it. A mark is fresh as a join sets it.
#![tactic(auto)]

ghost use Rattle.std.specs.Prelude.{◌≡◌, ◌*◌, ◌<◌, not, ◌&&◌};
ghost use Rattle.calls.specs.Limits.{operators, years, figure_count, setting_count, indicator_count, index_count};
ghost use Rattle.calls.specs.Masks.{has};
ghost use Rattle.calls.specs.Indicators.{indicators_of};
ghost use Rattle.entries.specs.Entries.{EntryOf, places, join_at, setting_at, amount_at, mark_at, index_at, rates_at, calls_at};

use book::{Book, figure_slot, setting_slot};
use calls::{
    FIGURE_PLACES, FIGURES, FRESH_INDEX, INDICATORS, INDICES, Kind, MARK_PLACES, OPERATOR_FIGURES,
    SETTING_PLACES, SETTINGS, has_bit, takes_mark,
};
use encoding::Encoded;

const SETTINGS_FROM: usize = 16;

const AMOUNTS_FROM: usize = SETTINGS_FROM + SETTING_PLACES;

const MARKS_FROM: usize = AMOUNTS_FROM + FIGURE_PLACES;

const INDICES_FROM: usize = MARKS_FROM + MARK_PLACES;

const RATES_FROM: usize = INDICES_FROM + INDICES;

pub const PLACES: usize = RATES_FROM + 1;

// The sign of an amount that is filed.
const FILE: u64 = 0;

// A mark that is cleared.
const ATTESTED: u64 = 0;

pub fn entry_at(kind: Kind, b: &Book, place: usize) -> Option<Encoded>
    requires { place < places }
    ensures { EntryOf result (calls_at (indicators_of kind) b.now place) }
{
    if place < SETTINGS_FROM {
        return join_entry(b, place);
    }
    if place < AMOUNTS_FROM {
        return setting_entry(b, place - SETTINGS_FROM);
    }
    if place < MARKS_FROM {
        return amount_entry(b, place - AMOUNTS_FROM);
    }
    if place < INDICES_FROM {
        return mark_entry(kind, b, place - MARKS_FROM);
    }
    if place < RATES_FROM {
        return index_entry(b, place - INDICES_FROM);
    }
    rates_entry(b)
}

fn join_entry(b: &Book, place: usize) -> Option<Encoded>
    requires { place < operators }
    ensures { EntryOf result (join_at b.now.joined place) }
{
    if !has_bit(b.joined, place as u8) {
        return None;
    }
    Some(Encoded {
        tag: 1,
        front: place as u64,
        front_width: 1,
        value: 0,
        value_width: 0,
    })
}

fn setting_entry(b: &Book, place: usize) -> Option<Encoded>
    requires { place < operators * setting_count }
    ensures { EntryOf result (setting_at b.now.settings place) }
{
    let operator = place / SETTINGS;
    let which = place % SETTINGS;
    let value = b.settings[setting_slot(operator as u8, which as u8)];
    if value == 0 {
        return None;
    }
    Some(Encoded {
        tag: 2,
        front: operator as u64 * 256 + which as u64,
        front_width: 2,
        value,
        value_width: 8,
    })
}

fn amount_entry(b: &Book, place: usize) -> Option<Encoded>
    requires { place < operators * (years * figure_count) }
    ensures { EntryOf result (amount_at b.now.figures place) }
{
    let operator = place / OPERATOR_FIGURES;
    let year = place % OPERATOR_FIGURES / FIGURES;
    let figure = place % FIGURES;
    let value = b.figures[figure_slot(operator as u8, year as u8, figure as u8)];
    if value == 0 {
        return None;
    }
    Some(Encoded {
        tag: 4,
        front: ((operator as u64 * 256 + year as u64) * 256 + figure as u64) * 256 + FILE,
        front_width: 4,
        value,
        value_width: 8,
    })
}

fn mark_entry(kind: Kind, b: &Book, place: usize) -> Option<Encoded>
    requires { place < operators * indicator_count }
    ensures { EntryOf result (mark_at (indicators_of kind) b.now.joined b.now.marks place) }
{
    let operator = place / INDICATORS;
    let indicator = place % INDICATORS;
    let taken = takes_mark(kind, indicator as u8);
    if !is_cleared(b.joined, taken, b.marks[indicator], operator as u8) {
        return None;
    }
    Some(Encoded {
        tag: 5,
        front: (operator as u64 * 256 + indicator as u64) * 256 + ATTESTED,
        front_width: 3,
        value: 0,
        value_width: 0,
    })
}

// The mark of an operator that has joined, at an indicator of the kind, cleared since.
fn is_cleared(joined: u16, taken: bool, marked: u16, operator: u8) -> bool
    ensures { result ≡ has joined operator && (taken && not (has marked operator)) }
{
    if has_bit(marked, operator) {
        return false;
    }
    if taken {
        return has_bit(joined, operator);
    }
    false
}

fn index_entry(b: &Book, place: usize) -> Option<Encoded>
    requires { place < index_count }
    ensures { EntryOf result (index_at b.now.indices place) }
{
    let index = b.indices[place];
    if index == FRESH_INDEX {
        return None;
    }
    Some(Encoded {
        tag: 7,
        front: place as u64,
        front_width: 1,
        value: u64::from(index),
        value_width: 4,
    })
}

// One field for both, if either is not 0.
fn rates_entry(b: &Book) -> Option<Encoded>
    ensures { EntryOf result (rates_at b.now.pot_rate b.now.cap_rate) }
{
    if b.pot_rate == 0 && b.cap_rate == 0 {
        return None;
    }
    Some(Encoded {
        tag: 6,
        front: b.pot_rate as u64,
        front_width: 4,
        value: b.cap_rate as u64,
        value_width: 4,
    })
}
