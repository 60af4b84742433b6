// What a tag and a content say: 2, 3, or the call that they file.
ghost use Rattle.std.specs.Prelude.{◌≡◌, true, List, ◌+◌, ◌≤◌, length};
ghost use Rattle.calls.specs.Indicators.{Indicator, indicators_of};
ghost use Rattle.contents.specs.Content.{is_known, tagged};
ghost use Rattle.fields.specs.Field.{field_said, has_tag};
ghost use Rattle.fields.specs.Steps.{content_said};

use crate::Field;
use calls::{Kind, Refusal, takes_interruptions};
use contents::call_at;

// Of so many bytes of content that start at an offset and do not pass the end. The tag is a number of the input, which may be none that is
// known. One match on it leads to its size and its call, of which the compiler makes one jump.
pub(crate) fn content_at(kind: Kind, tag: u8, size: usize, bytes: &[u8], at: usize) -> Field
    requires { at + size ≤ length bytes.now }
    ensures { field_said result ≡ content_said (indicators_of kind) tag size bytes.now at }
{
    match tag {
        1 => sized(1, 1, size, bytes, at),
        2 => sized(2, 10, size, bytes, at),
        3 => interruption_at(kind, size, bytes, at),
        4 => sized(4, 12, size, bytes, at),
        5 => sized(5, 3, size, bytes, at),
        6 => sized(6, 8, size, bytes, at),
        7 => sized(7, 5, size, bytes, at),
        _ => Field::Refused(Refusal::UnknownTag),
    }
}

// Of tag 3, which gas has not.
fn interruption_at(kind: Kind, size: usize, bytes: &[u8], at: usize) -> Field
    requires { at + size ≤ length bytes.now }
    ensures { field_said result ≡ content_said (indicators_of kind) 3 size bytes.now at }
{
    if !takes_interruptions(kind) {
        return Field::Refused(Refusal::UnknownTag);
    }
    sized(3, 24, size, bytes, at)
}

// Of a known tag whose content is to have so many bytes, in filings of every kind that has the tag.
fn sized(tag: u8, due: usize, size: usize, bytes: &[u8], at: usize) -> Field
    requires { (is_known tag ≡ true) × (due ≡ (tagged tag).size) × (at + size ≤ length bytes.now) }
    ensures { (kind : List Indicator) → has_tag kind tag ≡ true → field_said result ≡ content_said kind tag size bytes.now at }
{
    if size != due {
        return Field::Refused(Refusal::WrongLength);
    }
    Field::CallThen {
        filing_call: call_at(tag, bytes, at),
        next: at + due,
    }
}
