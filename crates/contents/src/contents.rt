// The call that the content of a field gives.
ghost use Rattle.std.specs.Prelude.{◌≡◌, true, ◌+◌, ◌≤◌, length, take, drop};
ghost use Rattle.contents.specs.Content.{is_known, tagged};

use crate::numbers::{eight_at, four_at, signed_at};
use calls::Call;

// The call of a known tag whose content starts at an offset and does not pass the end.
pub fn call_at(tag: u8, bytes: &[u8], at: usize) -> Call
    requires { (is_known tag ≡ true) × (at + (tagged tag).size ≤ length bytes.now) }
    ensures { result ≡ (tagged tag).call (take (tagged tag).size (drop at bytes.now)) }
{
    match tag {
        1 => Call::Join {
            operator: bytes[at],
        },
        2 => setting_at(bytes, at),
        3 => interruption_at(bytes, at),
        4 => amount_at(bytes, at),
        5 => mark_at(bytes, at),
        6 => rates_at(bytes, at),
        _ => index_at(bytes, at),
    }
}

fn setting_at(bytes: &[u8], at: usize) -> Call
    requires { at + 10 ≤ length bytes.now }
    ensures { result ≡ (tagged 2).call (take 10 (drop at bytes.now)) }
{
    Call::Setting {
        operator: bytes[at],
        which: bytes[at + 1],
        value: eight_at(bytes, at + 2),
    }
}

fn interruption_at(bytes: &[u8], at: usize) -> Call
    requires { at + 24 ≤ length bytes.now }
    ensures { result ≡ (tagged 3).call (take 24 (drop at bytes.now)) }
{
    Call::Interruption {
        operator: bytes[at],
        sign: bytes[at + 1],
        level: bytes[at + 2],
        cause: bytes[at + 3],
        start: signed_at(bytes, at + 4),
        end: signed_at(bytes, at + 12),
        weight: four_at(bytes, at + 20),
    }
}

fn amount_at(bytes: &[u8], at: usize) -> Call
    requires { at + 12 ≤ length bytes.now }
    ensures { result ≡ (tagged 4).call (take 12 (drop at bytes.now)) }
{
    Call::Amount {
        operator: bytes[at],
        year: bytes[at + 1],
        figure: bytes[at + 2],
        sign: bytes[at + 3],
        value: eight_at(bytes, at + 4),
    }
}

fn mark_at(bytes: &[u8], at: usize) -> Call
    requires { at + 3 ≤ length bytes.now }
    ensures { result ≡ (tagged 5).call (take 3 (drop at bytes.now)) }
{
    Call::Mark {
        operator: bytes[at],
        indicator: bytes[at + 1],
        mark: bytes[at + 2],
    }
}

fn rates_at(bytes: &[u8], at: usize) -> Call
    requires { at + 8 ≤ length bytes.now }
    ensures { result ≡ (tagged 6).call (take 8 (drop at bytes.now)) }
{
    Call::Rates {
        pot: four_at(bytes, at),
        cap: four_at(bytes, at + 4),
    }
}

fn index_at(bytes: &[u8], at: usize) -> Call
    requires { at + 5 ≤ length bytes.now }
    ensures { result ≡ (tagged 7).call (take 5 (drop at bytes.now)) }
{
    Call::Index {
        number: bytes[at],
        value: four_at(bytes, at + 1),
    }
}
