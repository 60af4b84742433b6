// The counts and limits of 01, "The book" and "The filing", as specs/Limits.antt says them in definitions.
ghost use Rattle.std.specs.Prelude.{◌≡◌, ◌<◌};
ghost use Rattle.calls.specs.Limits.{setting_count, cabins_in};

pub const OPERATORS: usize = 16;

pub const LAST_OPERATOR: u8 = (OPERATORS - 1) as u8;

pub const YEARS: usize = 3;

pub const LAST_YEAR: u8 = (YEARS - 1) as u8;

pub const FIGURES: usize = 13;

pub const LAST_FIGURE: u8 = (FIGURES - 1) as u8;

// The last figures count interruptions: counted, short, planned, coupled, exceptional. The first of them, and how many they are.
pub const FIRST_COUNT: u8 = 8;

pub const OUTCOMES: usize = 5;

// Cabins of the first year, access points, income, cabins of the second year, of the third.
pub const SETTINGS: usize = 5;

pub const LAST_SETTING: u8 = (SETTINGS - 1) as u8;

pub const INDICATORS: usize = 6;

// As a number of eight bits, by which indicators are counted.
pub const INDICATOR_COUNT: u8 = INDICATORS as u8;

pub const LAST_INDICATOR: u8 = (INDICATORS - 1) as u8;

pub const INDICES: usize = 4;

pub const LAST_INDEX: u8 = (INDICES - 1) as u8;

// How many of each the sixteen operators have, and the figures of one operator.
pub const SETTING_PLACES: usize = OPERATORS * SETTINGS;

pub const FIGURE_PLACES: usize = OPERATORS * OPERATOR_FIGURES;

pub const OPERATOR_FIGURES: usize = YEARS * FIGURES;

pub const MARK_PLACES: usize = OPERATORS * INDICATORS;

pub const CABIN_LIMIT: u64 = 100000;

pub const ACCESS_POINT_LIMIT: u64 = 4000000;

pub const INCOME_LIMIT: u64 = 100000000000;

pub const FIGURE_LIMIT: u64 = 100000000000;

pub const RATE_LIMIT: u32 = 20000;

pub const INDEX_LEAST: u32 = 1;

pub const INDEX_MOST: u32 = 100000;

pub const FRESH_INDEX: u32 = 10000;

// Of an interruption: cabins, and seconds.
pub const WEIGHT_LIMIT: u32 = 100000;

pub const LAST_END: i64 = 94607999;

// The first second of the year before the three: an interruption may have begun then.
pub const FIRST_START: i64 = -31536000;

// The setting that has the cabins of a year. Both are numbers, as 01's calls carry them.
pub fn cabins_in(year: u8) -> u8
    ensures { (result ≡ cabins_in year) × (result < setting_count) }
{
    match year {
        0 => 0,
        1 => 3,
        _ => 4,
    }
}
