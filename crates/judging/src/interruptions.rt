// An interruption that is in range: its year and length, whether it counts or is left out and why, and the figure that counts it.
ghost use Rattle.std.specs.Prelude.{◌≡◌, false};
ghost use Rattle.calls.specs.Answers.{left_out_as};
ghost use Rattle.calls.specs.Call.{starts_after_end, outside_period, year_of, seconds_of, count_figure};
ghost use Rattle.judging.specs.Steps.{JudgedAs};

use calls::{FIRST_COUNT, Reason};

const YEAR_LENGTH: u64 = 31536000;

// Up to this many seconds an interruption is short.
const SHORT: u64 = 180;

// The year is that of the end.
pub fn year_of(start: i64, end: i64) -> u8
    requires { outside_period start end ≡ false }
    ensures { result ≡ year_of end }
{
    let stop = end as u64;
    (stop / YEAR_LENGTH) as u8
}

// How long an interruption lasts.
pub fn seconds_of(start: i64, end: i64) -> u64
    requires { (starts_after_end start end ≡ false) × (outside_period start end ≡ false) }
    ensures { result ≡ seconds_of start end }
{
    (end - start) as u64
}

// Why an interruption is left out, if it is: short comes before the cause.
pub fn judge(cause: u8, seconds: u64) -> Option<Reason>
    ensures { JudgedAs cause seconds result }
{
    if seconds <= SHORT {
        return Some(Reason::Short);
    }
    if cause == 1 {
        return Some(Reason::Planned);
    }
    if cause == 2 {
        return Some(Reason::Coupled);
    }
    if cause == 3 {
        return Some(Reason::Exceptional);
    }
    None
}

// The figure that counts those left out for a reason; figure FIRST_COUNT counts those that count.
pub fn count_figure(reason: Reason) -> u8
    ensures { result ≡ count_figure (left_out_as reason) }
{
    match reason {
        Reason::Short => FIRST_COUNT + 1,
        Reason::Planned => FIRST_COUNT + 2,
        Reason::Coupled => FIRST_COUNT + 3,
        Reason::Exceptional => FIRST_COUNT + 4,
    }
}
