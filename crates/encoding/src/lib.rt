// A field of a filing put into a lent slice at a place; each function answers with the place after it.
#![tactic(auto)]

ghost use Rattle.std.specs.Prelude.{◌≡◌, ◌+◌, ◌≤◌, length};
ghost use Rattle.fields.specs.Encoding.{in_bytes};
ghost use Rattle.text.specs.Steps.{with_text_at};
ghost use Rattle.encoding.specs.Fields.{bytes_in};

// A field to be written. Its content is two numbers: the single bytes in front, as one number, and the value after them. Of rates
// they are the two rates; a width of 0 leaves a number out.
#[derive(Clone, Copy)]
pub struct Encoded {
    pub tag: u8,
    pub front: u64,
    pub front_width: usize,
    pub value: u64,
    pub value_width: usize,
}

// The lowest byte last.
fn put_number(out: &mut [u8], at: usize, number: u64, width: usize) -> usize
    requires { at + length (in_bytes width number) ≤ length out.old }
    ensures { (out.new ≡ with_text_at out.old at (in_bytes width number)) × (result ≡ at + length (in_bytes width number)) }
{
    let mut rest = number;
    for left in (0..width).rev() {
        out[at + left] = (rest % 256) as u8;
        rest /= 256;
    }
    at + width
}

pub fn put_field(out: &mut [u8], at: usize, field: Encoded) -> usize
    requires { at + length (bytes_in field) ≤ length out.old }
    ensures { (out.new ≡ with_text_at out.old at (bytes_in field)) × (result ≡ at + length (bytes_in field)) }
{
    let length_at = put_number(out, at, field.tag as u64, 1);
    let content_at = put_number(
        out,
        length_at,
        (field.front_width + field.value_width) as u64,
        2,
    );
    let value_at = put_number(out, content_at, field.front, field.front_width);
    put_number(out, value_at, field.value, field.value_width)
}

// How many bytes a field has, which are few: a field of a written filing has at most 15.
pub fn field_size(field: Encoded) -> usize
    requires { length (bytes_in field) ≤ 15 }
    ensures { result ≡ length (bytes_in field) }
{
    3 + field.front_width + field.value_width
}
