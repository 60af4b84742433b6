// The covered form of a step: what stands at an offset of a slice, and the offset after it.
ghost use Rattle.std.specs.Prelude.{◌≡◌};
ghost use Rattle.fields.specs.Field.{field_at, field_said};
ghost use Rattle.walker.specs.Walk.{past, offset_after};

use fields::{Field, field_at};

// What stands at an offset, and the offset after it: the same at the end and at a field that 1, 2 or 3 refuses.
#[derive(Clone, Copy)]
pub(crate) struct Step {
    pub field: Field,
    pub offset: usize,
}

pub(crate) fn step_at(bytes: &[u8], at: usize) -> Step
    ensures { (field_said result.field ≡ field_at bytes.now at) × (result.offset ≡ offset_after bytes.now at) }
{
    let field = field_at(bytes, at);
    let offset = offset_past(field, at);
    Step { field, offset }
}

fn offset_past(field: Field, at: usize) -> usize
    ensures { result ≡ past at (field_said field) }
{
    match field {
        Field::CallThen { filing_call, next } => next,
        Field::End => at,
        Field::Refused(refusal) => at,
    }
}
