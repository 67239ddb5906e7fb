//! A BIGInfo, and the check of its group.
ghost use Rattle.std.specs.Prelude.{◌≡◌, ◌≢◌, ◌≤◌, length, take, IsSome, None};
ghost use Rattle.big_info.specs.Layout.{Encodes, octet_count};
ghost use Rattle.big_info.specs.Reading.{info_of};
ghost use Rattle.big_info.specs.Rows.{first_fault};
ghost use Rattle.big_info.specs.Widths.{FitsWidths};
ghost use Rattle.c_values.specs.Infos.{big_info, row_of};
ghost use Rattle.c_values.specs.Statuses.{group, no_room, ok, range};
ghost use Rattle.layouts_c.specs.Checks.{InfoReadAs};

use big_info::{Limits, check_group_within, decode_big_info, encode_big_info};
use c_values::status::{GROUP, LAYOUT, OK, RANGE, ROOM};
use c_values::{AirBigInfo, info_for_c, info_in, put};

/// Reads a BIGInfo: the struct stays as it was where there are neither 33 nor 57 octets.
#[unsafe(no_mangle)]
pub extern "C" fn air_big_info_read(from: &[u8], into: &mut AirBigInfo) -> u32
    ensures { InfoReadAs (info_of from.now) result into.old into.new }
{
    match decode_big_info(from) {
        Ok(info) => {
            *into = info_for_c(&info);
            OK
        }
        Err(_) => LAYOUT,
    }
}

/// Writes a BIGInfo at the front of the room.
#[unsafe(no_mangle)]
pub extern "C" fn air_big_info_write(info: &AirBigInfo, room: &mut [u8], count: &mut usize) -> u32
    ensures written { result ≡ ok → Encodes (big_info info.now) 0 (take count.new room.new) }
    ensures count { result ≡ ok → count.new ≤ length room.new }
    ensures wide { ¬ FitsWidths (big_info info.now) → result ≡ range }
    ensures fits { FitsWidths (big_info info.now) → result ≢ range }
    ensures same { result ≢ ok → (room.new ≡ room.old) × (count.new ≡ count.old) }
    ensures room { octet_count (big_info info.now) ≤ length room.old → result ≢ no_room }
    ensures either { result ≢ ok → result ≢ range → result ≡ no_room }
{
    let info = info_in(info);
    if !info.fits() {
        return RANGE;
    }
    let mut octets = [0u8; 57];
    let written = encode_big_info(&info, &mut octets);
    if put(&octets[..written], room) {
        *count = written;
        OK
    } else {
        ROOM
    }
}

/// Checks the numbers of a group, for up to 31 events ahead: the number of the first row that holds, from 1 to 14.
#[unsafe(no_mangle)]
pub extern "C" fn air_group_check(info: &AirBigInfo, row: &mut u8) -> u32
    ensures row { result ≡ group → row.new ≡ row_of (first_fault 31 (big_info info.now)) }
    ensures some { result ≡ group → IsSome (first_fault 31 (big_info info.now)) }
    ensures none { result ≡ ok → first_fault 31 (big_info info.now) ≡ None }
    ensures wide { ¬ FitsWidths (big_info info.now) → result ≡ range }
    ensures fits { FitsWidths (big_info info.now) → result ≢ range }
    ensures same { result ≢ group → row.new ≡ row.old }
    ensures either { result ≢ ok → result ≢ range → result ≡ group }
{
    let info = info_in(info);
    if !info.fits() {
        return RANGE;
    }
    match check_group_within(&info, Limits::VERSION_2) {
        Ok(_) => OK,
        Err(fault) => {
            *row = fault.number();
            GROUP
        }
    }
}
