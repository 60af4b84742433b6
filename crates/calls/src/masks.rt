// Sets of operators as masks of sixteen bits, which 01 prescribes.
ghost use Rattle.std.specs.Prelude.{◌≡◌, ◌<◌};
ghost use Rattle.calls.specs.Masks.{has, including, excluding, remasked};

use crate::limits::LAST_OPERATOR;

// Whether bit k of a mask is set.
pub fn has_bit(mask: u16, k: u8) -> bool
    ensures { result ≡ has mask k }
{
    k <= LAST_OPERATOR && (mask >> k) % 2 == 1
}

pub fn include_bit(mask: u16, k: u8) -> u16
    requires { k < 16 }
    ensures { result ≡ including mask k }
{
    mask | (1 << k)
}

fn exclude_bit(mask: u16, k: u8) -> u16
    requires { k < 16 }
    ensures { result ≡ excluding mask k }
{
    if has_bit(mask, k) {
        return mask - (1 << k);
    }
    mask
}

// The marks of an indicator with an operator's mark set to 1 or 0.
pub fn remask(mask: u16, operator: u8, mark: u8) -> u16
    requires { operator < 16 }
    ensures { result ≡ remasked mask operator mark }
{
    if mark == 1 {
        return include_bit(mask, operator);
    }
    exclude_bit(mask, operator)
}
