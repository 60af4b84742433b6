// The checks of an interruption: 14 and 15, which its times may give, stand between 5 and 7.
ghost use Rattle.std.specs.Prelude.{◌≡◌};
ghost use Rattle.calls.specs.Answers.{first_of};
ghost use Rattle.calls.specs.Call.{outside_period};
ghost use Rattle.ledger.specs.Steps.{interruption_lines};
ghost use Rattle.admission.specs.Admission.{admission_said};

use calls::{FIRST_START, LAST_END, LAST_OPERATOR, Refusal, has_bit};

// It has the checks of `admit` again: as one function for both it took 14 instructions more for each amount.
pub fn admit_interruption(
    joined: u16,
    operator: u8,
    valid: bool,
    start: i64,
    end: i64,
) -> Result<(), Refusal>
    ensures { admission_said result ≡ first_of (interruption_lines joined operator valid start end) tt }
{
    if LAST_OPERATOR < operator {
        return Err(Refusal::UnknownOperator);
    }
    let member = has_bit(joined, operator);
    let outside = is_outside(start, end);
    if !valid {
        return Err(Refusal::OutOfRange);
    }
    if end < start {
        return Err(Refusal::StartsAfterEnd);
    }
    if outside {
        return Err(Refusal::OutsidePeriod);
    }
    if !member {
        return Err(Refusal::NotJoined);
    }
    Ok(())
}

// Whether it ends outside the three years or starts too early.
fn is_outside(start: i64, end: i64) -> bool
    ensures { result ≡ outside_period start end }
{
    if end < 0 {
        return true;
    }
    if LAST_END < end {
        return true;
    }
    start < FIRST_START
}
