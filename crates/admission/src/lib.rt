// What comes before a filing call does its work: the checks that calls share, and the marks that a newcomer has.
#![tactic(auto)]

mod interruptions;

ghost use Rattle.std.specs.Prelude.{◌≡◌, cond, ◌<◌, ◌≤◌, length};
ghost use Rattle.calls.specs.Limits.{operators, indicator_count};
ghost use Rattle.calls.specs.Masks.{including};
ghost use Rattle.calls.specs.Indicators.{indicators_of};
ghost use Rattle.calls.specs.Answers.{first_of};
ghost use Rattle.ledger.specs.Calls.{unattested};
ghost use Rattle.ledger.specs.Steps.{member_lines};
ghost use Rattle.admission.specs.Admission.{admission_said};

use calls::{Kind, LAST_OPERATOR, Refusal, has_bit, include_bit, takes_mark};
pub use interruptions::admit_interruption;

// The checks that setting, amount, mark and a yearly sheet share: 4, 5 and 7, in the order of the table.
pub fn admit(joined: u16, operator: u8, valid: bool) -> Result<(), Refusal>
    ensures { admission_said result ≡ first_of (member_lines joined operator valid) tt }
{
    if LAST_OPERATOR < operator {
        return Err(Refusal::UnknownOperator);
    }
    let member = has_bit(joined, operator);
    if !valid {
        return Err(Refusal::OutOfRange);
    }
    if !member {
        return Err(Refusal::NotJoined);
    }
    Ok(())
}

// No attestation is in when an operator joins: its mark is set at every indicator of the kind.
pub fn mark_unattested(kind: Kind, marks: &mut [u16], operator: u8)
    requires { (operator < operators) × (length marks.old ≤ indicator_count) }
    ensures { marks.new ≡ unattested (indicators_of kind) marks.old operator }
{
    for indicator in 0..marks.len() {
        let mask = marks[indicator];
        let marked = mark_newcomer(mask, operator, takes_mark(kind, indicator as u8));
        marks[indicator] = marked;
    }
}

// A mask with an operator's mark set, if the indicator is one of its kind.
fn mark_newcomer(mask: u16, operator: u8, taken: bool) -> u16
    requires { operator < operators }
    ensures { result ≡ cond taken (including mask operator) mask }
{
    if taken {
        return include_bit(mask, operator);
    }
    mask
}
