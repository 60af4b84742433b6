// The functions over a walker. Each takes it apart, or puts one together, around the covered step on slice and number.
ghost use Rattle.std.specs.Prelude.{◌≡◌};
ghost use Rattle.fields.specs.Field.{field_said};
ghost use Rattle.walker.specs.Walk.{stands_at, moved_on, walker_at};

use crate::steps::step_at;
use crate::{Taken, Walker};

pub fn walker_over<'a>(bytes: &'a [u8]) -> Walker<'a>
    ensures { result ≡ walker_at bytes.entry 0 }
{
    Walker { bytes, offset: 0 }
}

pub fn offset<'a>(w: Walker<'a>) -> usize
    ensures { result ≡ w.entry.offset }
{
    w.offset
}

pub fn next<'a>(w: Walker<'a>) -> Taken<'a>
    ensures { (field_said result.field ≡ stands_at w.entry) × (result.walker ≡ moved_on w.entry) }
{
    let step = step_at(w.bytes, w.offset);
    Taken {
        field: step.field,
        walker: Walker {
            bytes: w.bytes,
            offset: step.offset,
        },
    }
}
