ghost use Rattle.std.specs.Prelude.{◌≡◌, ◌<◌, ◌≤◌, ◌+◌, ◌-◌, ◌*◌, ◌^◌, ◌↔◌, ℕ, IsTrue, IfSome, IfNone, length, slice_index};
ghost use Rattle.std.specs.Prelude.{decimal as decimal_text};
ghost use Rattle.std.specs.Option.{SomeIff};

/// Whether a zero stands before other octets.
fn has_leading_zero(word: &[u8]) -> bool
    ensures { IsTrue result ↔ ((1 < length word.now) × (slice_index word.now 0 ≡ 48)) }
{
    word.len() > 1 && word[0] == b'0'
}

/// The number with one digit more; `None` where the octet is no digit or the number is too great.
fn with_digit(value: u64, digit: u8) -> Option<u64>
    ensures { SomeIff result ((48 ≤ digit) × (digit ≤ 57) × (value * 10 + (digit - 48) < 2 ^ 64)) (value * 10 + (digit - 48)) }
{
    if !digit.is_ascii_digit() {
        return None;
    }
    value.checked_mul(10)?.checked_add(u64::from(digit - b'0'))
}

/// The number below 2 ^ 64 that a decimal spells: digits without a leading zero, but for `0` itself.
pub fn decimal(word: &[u8]) -> Option<u64>
    ensures found { IfSome result (λ n. word.now ≡ decimal_text n) }
    ensures none { IfNone result ((n : ℕ) → n < 2 ^ 64 → word.now ≡ decimal_text n → ⊥) }
{
    if word.is_empty() {
        return None;
    }
    if has_leading_zero(word) {
        return None;
    }
    let mut value = 0u64;
    for digit in word {
        let Some(next) = with_digit(value, *digit) else {
            return None;
        };
        value = next;
    }
    Some(value)
}
