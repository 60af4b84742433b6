// The ranges of the calls' arguments, other than the operator and an interruption's.
ghost use Rattle.std.specs.Prelude.{◌≡◌};
ghost use Rattle.calls.specs.Limits.{setting_limit};
ghost use Rattle.calls.specs.Call.{facts_of};
ghost use Rattle.calls.specs.Indicators.{electricity, indicators_of};

use calls::{
    ACCESS_POINT_LIMIT, CABIN_LIMIT, Call, INCOME_LIMIT, INDEX_LEAST, INDEX_MOST, Kind,
    LAST_FIGURE, LAST_INDEX, LAST_INDICATOR, LAST_SETTING, LAST_YEAR, RATE_LIMIT, takes_figure,
    takes_mark, takes_setting,
};

pub fn setting_in_range(kind: Kind, which: u8, value: u64) -> bool
    ensures { result ≡ (facts_of (indicators_of kind) (Call.Setting 0 which value)).within_range }
{
    if LAST_SETTING < which {
        return false;
    }
    if !takes_setting(kind, which) {
        return false;
    }
    value <= setting_limit(which)
}

// By number: 01's calls carry a setting as one.
pub fn setting_limit(which: u8) -> u64
    ensures { result ≡ setting_limit which }
{
    match which {
        1 => ACCESS_POINT_LIMIT,
        2 => INCOME_LIMIT,
        _ => CABIN_LIMIT,
    }
}

pub fn amount_in_range(kind: Kind, year: u8, figure: u8, sign: u8) -> bool
    ensures { result ≡ (facts_of (indicators_of kind) (Call.Amount 0 year figure sign 0)).within_range }
{
    if LAST_YEAR < year {
        return false;
    }
    if LAST_FIGURE < figure {
        return false;
    }
    if !takes_figure(kind, figure) {
        return false;
    }
    sign <= 1
}

pub fn mark_in_range(kind: Kind, indicator: u8, mark: u8) -> bool
    ensures { result ≡ (facts_of (indicators_of kind) (Call.Mark 0 indicator mark)).within_range }
{
    if LAST_INDICATOR < indicator {
        return false;
    }
    if !takes_mark(kind, indicator) {
        return false;
    }
    mark <= 1
}

pub fn rates_in_range(pot: u32, cap: u32) -> bool
    ensures { result ≡ (facts_of electricity (Call.Rates pot cap)).within_range }
{
    pot <= RATE_LIMIT && cap <= RATE_LIMIT
}

pub fn index_in_range(number: u8, value: u32) -> bool
    ensures { result ≡ (facts_of electricity (Call.Index number value)).within_range }
{
    number <= LAST_INDEX && (INDEX_LEAST..=INDEX_MOST).contains(&value)
}
