// Whether a book is within its limits: every value, and only fresh ones for an operator not joined.
ghost use Rattle.std.specs.Prelude.{◌≡◌, cond, not, ◌&&◌, ◌||◌, ℕ, ◌+◌, ◌*◌, ◌<◌, leb, get_or};
ghost use Rattle.calls.specs.Limits.{operators, operator_figures, figure_limit, index_least, index_most};
ghost use Rattle.calls.specs.Masks.{has};
ghost use Rattle.book.specs.Book.{every, has_sixteen_bits, settings_in_range, figures_in_range, marks_in_range, rates_in_range, indices_in_range, within_limits};

use arguments::setting_limit;
use book::Book;
use calls::{
    FIGURE_LIMIT, FIGURE_PLACES, INDEX_LEAST, INDEX_MOST, OPERATOR_FIGURES, OPERATORS,
    SETTING_PLACES, SETTINGS, has_bit,
};

pub(crate) fn within_limits(b: Book) -> bool
    ensures { result ≡ within_limits b }
{
    if !settings_in_range(b) {
        return false;
    }
    if !figures_in_range(b) {
        return false;
    }
    if !marks_in_range(b) {
        return false;
    }
    if !rates_in_range(b) {
        return false;
    }
    indices_in_range(b)
}

fn settings_in_range(b: Book) -> bool
    ensures { result ≡ settings_in_range b }
{
    (0..SETTING_PLACES).all(|i| {
        let limit = setting_limit((i % SETTINGS) as u8);
        b.settings[i] <= most_allowed(b.joined, (i / SETTINGS) as u8, limit)
    })
}

fn figures_in_range(b: Book) -> bool
    ensures { result ≡ figures_in_range b }
{
    (0..OPERATORS).all(|operator| all_within(&b.figures, b.joined, operator))
}

// Whether the figures of an operator stay within their limit, which is taken once for all of them.
fn all_within(figures: &[u64; FIGURE_PLACES], joined: u16, operator: usize) -> bool
    requires { operator < operators }
    ensures { result ≡ every operator_figures (λ (k : ℕ). leb (get_or figures.now (operator * operator_figures + k) 0) (cond (has joined operator) figure_limit 0)) }
{
    let most = most_allowed(joined, operator as u8, FIGURE_LIMIT);
    let from = operator * OPERATOR_FIGURES;
    (from..from + OPERATOR_FIGURES).all(|i| figures[i] <= most)
}

// A limit, or 0 for an operator not joined.
fn most_allowed(joined: u16, operator: u8, limit: u64) -> u64
    ensures { result ≡ cond (has joined operator) limit 0 }
{
    if has_bit(joined, operator) { limit } else { 0 }
}

fn marks_in_range(b: Book) -> bool
    ensures { result ≡ marks_in_range b }
{
    b.marks.iter().all(|mask| only_of(*mask, b.joined))
}

// Only joined operators have a mark: the mask has nothing that it has not in common with theirs.
fn only_of(mask: u16, joined: u16) -> bool
    ensures { result ≡ has_sixteen_bits mask && every operators (λ (operator : ℕ). not (has mask operator) || has joined operator) }
{
    mask & joined == mask
}

fn rates_in_range(b: Book) -> bool
    ensures { result ≡ rates_in_range b }
{
    arguments::rates_in_range(b.pot_rate, b.cap_rate)
}

fn indices_in_range(b: Book) -> bool
    ensures { result ≡ indices_in_range b }
{
    b.indices.iter().all(|value| index_within(*value))
}

fn index_within(value: u32) -> bool
    ensures { result ≡ leb index_least value && leb value index_most }
{
    (INDEX_LEAST..=INDEX_MOST).contains(&value)
}
