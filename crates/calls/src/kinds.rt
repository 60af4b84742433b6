// What the book of a kind takes. One function tells the kinds apart, and the others ask it.
ghost use Rattle.std.specs.Prelude.{◌≡◌, ◌<◌, ◌≤◌, drop};
ghost use Rattle.calls.specs.Limits.{setting_count, figure_count, indicator_count};
ghost use Rattle.calls.specs.Indicators.{electricity, indicators_of, is_network, takes_interruptions, takes_setting, takes_figure, takes_mark};

use crate::Kind;

pub fn takes_interruptions(kind: Kind) -> bool
    ensures { result ≡ takes_interruptions (indicators_of kind) }
{
    match kind {
        Kind::Electricity => true,
        Kind::Gas => false,
    }
}

// Gas has access points and income, and no cabins.
pub fn takes_setting(kind: Kind, which: u8) -> bool
    requires { which < setting_count }
    ensures { result ≡ takes_setting (indicators_of kind) which }
{
    takes_interruptions(kind) || (1..=2).contains(&which)
}

// Whether 11 asks for a setting: for all but the income.
pub fn is_network(kind: Kind, which: u8) -> bool
    requires { which < setting_count }
    ensures { result ≡ is_network (indicators_of kind) which }
{
    which != 2 && takes_setting(kind, which)
}

// Gas has fees and connections alone.
pub fn takes_figure(kind: Kind, figure: u8) -> bool
    requires { figure < figure_count }
    ensures { result ≡ takes_figure (indicators_of kind) figure }
{
    takes_interruptions(kind) || (4..=7).contains(&figure)
}

// Gas has D1 and D2.
pub fn takes_mark(kind: Kind, indicator: u8) -> bool
    requires { indicator < indicator_count }
    ensures { result ≡ takes_mark (indicators_of kind) indicator }
{
    takes_interruptions(kind) || 4 <= indicator
}

// The indicators of a kind are those from this number on.
pub fn first_indicator(kind: Kind) -> u8
    ensures { (indicators_of kind ≡ drop result electricity) × (result ≤ indicator_count) }
{
    if takes_interruptions(kind) { 0 } else { 4 }
}
