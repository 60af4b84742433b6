// Bytes, words and numbers put into a lent slice at a place; each answers with the place after it.
#![tactic(auto)]

ghost use Rattle.std.specs.Prelude.{◌≡◌, [], ◌∷◌, ◌+◌, ◌≤◌, length};
ghost use Rattle.text.specs.Text.{decimal, signed_decimal};
ghost use Rattle.text.specs.Steps.{with_text_at};

pub fn put_byte(out: &mut [u8], at: usize, byte: u8) -> usize
    requires { at + 1 ≤ length out.old }
    ensures { (out.new ≡ with_text_at out.old at (byte ∷ [])) × (result ≡ at + 1) }
{
    out[at] = byte;
    at + 1
}

pub fn put_word(out: &mut [u8], at: usize, word: &[u8]) -> usize
    requires { at + length word.now ≤ length out.old }
    ensures { (out.new ≡ with_text_at out.old at word.now) × (result ≡ at + length word.now) }
{
    let end = at + word.len();
    out[at..end].copy_from_slice(word);
    end
}

// From the last digit to the first.
pub fn put_decimal(out: &mut [u8], at: usize, n: u64) -> usize
    requires { at + length (decimal n) ≤ length out.old }
    ensures { (out.new ≡ with_text_at out.old at (decimal n)) × (result ≡ at + length (decimal n)) }
{
    let count = digit_count(n);
    let mut rest = n;
    for left in (1..count).rev() {
        out[at + left] = 48 + (rest % 10) as u8;
        rest /= 10;
    }
    out[at] = 48 + rest as u8;
    at + count
}

fn digit_count(n: u64) -> usize
    ensures { result ≡ length (decimal n) }
{
    n.max(1).ilog10() as usize + 1
}

pub fn put_signed(out: &mut [u8], at: usize, n: i64) -> usize
    requires { at + length (signed_decimal n) ≤ length out.old }
    ensures { (out.new ≡ with_text_at out.old at (signed_decimal n)) × (result ≡ at + length (signed_decimal n)) }
{
    let size = n.unsigned_abs();
    if n < 0 {
        let next = put_byte(out, at, b'-');
        return put_decimal(out, next, size);
    }
    put_decimal(out, at, size)
}
