ghost use Rattle.std.specs.Prelude.{◌≤◌, ◌<◌, ◌^◌, ◌*◌, length};
ghost use Rattle.bcast_base.specs.Numbers.{Le};

/// The number that at most 8 octets encode, the least octet first.
#[tactic(auto, using(crate::proofs::Places::one_more_read))]
pub fn read_le(from: &[u8]) -> u64
    requires { length from.now ≤ 8 }
    ensures { Le result from.now }
{
    let mut value = 0u64;
    for place in 0..from.len() {
        let octet = from[from.len() - 1 - place];
        value = value * 256 + u64::from(octet);
    }
    value
}

/// Encodes a number over the whole of `into`, the least octet first.
pub fn write_le(value: u64, into: &mut [u8])
    requires room { length into.old ≤ 8 }
    requires fits { value < 2 ^ (8 * length into.old) }
    ensures { Le value into.new }
{
    let mut rest = value;
    for octet in into.iter_mut() {
        *octet = (rest & 0xff) as u8;
        rest >>= 8;
    }
}
