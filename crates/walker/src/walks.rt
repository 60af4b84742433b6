// A walk over a whole filing: its bytes are lent once, and the walker keeps them.
ghost use Rattle.std.specs.Prelude.{◌≡◌, length};
ghost use Rattle.fields.specs.Field.{field_said};
ghost use Rattle.filing.specs.Reader.{fields_of};
ghost use Rattle.filing.specs.Laws.{calls_in};
ghost use Rattle.filing.specs.Ends.{end_in, found_in};

use crate::Walked;
use crate::walkers::{next, offset, walker_over};

pub fn walk(bytes: &[u8]) -> Walked
    ensures { (result.fields ≡ length (calls_in (fields_of bytes.now))) × (result.offset ≡ end_in (fields_of bytes.now)) × (field_said result.field ≡ found_in (fields_of bytes.now)) }
{
    let mut fields = 0;
    let mut walker = walker_over(bytes);
    let mut taken = next(walker);
    // A field moves the walker on by 3 bytes or more; nothing else does. No iterator: it would end by None, and the walk tells where it ends
    // and what stands there, which `next` gives.
    while walker.offset < taken.walker.offset {
        fields += 1;
        walker = taken.walker;
        taken = next(walker);
    }
    Walked {
        fields,
        offset: offset(walker),
        field: taken.field,
    }
}
