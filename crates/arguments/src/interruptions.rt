// The ranges of an interruption's values other than its times.
ghost use Rattle.std.specs.Prelude.{◌≡◌};
ghost use Rattle.calls.specs.Call.{weight_in_range, details_in_range};

use calls::WEIGHT_LIMIT;

pub fn details_in_range(sign: u8, level: u8, cause: u8, weight: u32) -> bool
    ensures { result ≡ details_in_range sign level cause weight }
{
    if 1 < sign {
        return false;
    }
    if 1 < level {
        return false;
    }
    if 4 < cause {
        return false;
    }
    weight_in_range(level, weight)
}

// What holds at either level is tested first: an interruption takes five fewer instructions so.
fn weight_in_range(level: u8, weight: u32) -> bool
    ensures { result ≡ weight_in_range level weight }
{
    if weight < 1 {
        return false;
    }
    if level != 0 {
        return weight == 1;
    }
    weight <= WEIGHT_LIMIT
}
