// What stands in a filing at an offset: a field and the call that it files, the end, or a field that 1, 2 or 3 refuses.
ghost use Rattle.std.specs.Prelude.{◌≡◌, ◌+◌, ◌<◌, length, List};
ghost use Rattle.calls.specs.Indicators.{Indicator, indicators_of};
ghost use Rattle.fields.specs.Field.{field_in, field_at, field_said};

use crate::Field;
use crate::tags::content_at;
use calls::{Kind, Refusal};
use contents::unsigned_at;

// In a filing of electricity.
pub fn field_at(bytes: &[u8], at: usize) -> Field
    ensures { field_said result ≡ field_at bytes.now at }
{
    field_in(Kind::Electricity, bytes, at)
}

// In a filing of a kind.
pub fn field_in(kind: Kind, bytes: &[u8], at: usize) -> Field
    ensures { field_said result ≡ field_in (indicators_of kind) bytes.now at }
{
    if bytes.len() < 3 {
        return short_at(bytes, at);
    }
    let last = bytes.len() - 3;
    if last < at {
        return short_at(bytes, at);
    }
    let size = unsigned_at(bytes, at + 1, 2) as usize;
    if last - at < size {
        return Field::Refused(Refusal::Truncated);
    }
    let tag = bytes[at];
    content_at(kind, tag, size, bytes, at + 3)
}

// Fewer than three bytes are left: the end, or 1, in filings of every kind.
fn short_at(bytes: &[u8], at: usize) -> Field
    requires { length bytes.now < at + 3 }
    ensures { (kind : List Indicator) → field_said result ≡ field_in kind bytes.now at }
{
    if bytes.len() <= at {
        return Field::End;
    }
    Field::Refused(Refusal::Truncated)
}
