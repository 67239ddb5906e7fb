//! Whether octets have a layout, and else the first fault.
ghost use Rattle.std.specs.Prelude.{◌≡◌, ◌≢◌};
ghost use Rattle.bass_operations.specs.Reading.{op_of};
ghost use Rattle.base_grammar.specs.Reading.{base_of};
ghost use Rattle.c_values.specs.Faults.{base_fault_c, operation_fault_c, pac_fault_c, pdu_fault_c, state_fault_c};
ghost use Rattle.c_values.specs.Statuses.{layout, memory, ok};
ghost use Rattle.iso_pdu.specs.Reading.{read_of};
ghost use Rattle.pacs_records.specs.Reading.{value_in};
ghost use Rattle.receive_state.specs.Reading.{state_of};
ghost use Rattle.layouts_c.specs.Checks.{CheckedAs};

use base_grammar::{BaseFault, decode_base};
use bass_operations::{OpFault, decode_operation};
use c_values::status::{LAYOUT, MEMORY, OK};
use c_values::{
    AirFault, base_fault_for_c, operation_fault_for_c, pac_fault_for_c, pdu_fault_for_c,
    state_fault_for_c,
};
use iso_pdu::read_pdu;
use pacs_records::{PacFault, decode_pacs};
use receive_state::{StateFault, decode_state};
use std::alloc::Global;

/// Whether octets are a BASE (Basic Audio Profile 1.0, section 3.7.2.2).
#[unsafe(no_mangle)]
pub extern "C" fn air_base_check(alloc: Global, from: &[u8], fault: &mut AirFault) -> u32
    ensures checked { CheckedAs base_fault_c (base_of from.now) result fault.old fault.new }
    ensures either { result ≢ ok → result ≢ layout → result ≡ memory }
{
    match decode_base(alloc, from) {
        Ok(_) => OK,
        Err(BaseFault::Memory) => MEMORY,
        Err(found) => {
            *fault = base_fault_for_c(found);
            LAYOUT
        }
    }
}

/// Whether octets are a Sink PAC value (Published Audio Capabilities Service 1.0, section 3.1).
#[unsafe(no_mangle)]
pub extern "C" fn air_pac_check(alloc: Global, from: &[u8], fault: &mut AirFault) -> u32
    ensures checked { CheckedAs pac_fault_c (value_in from.now) result fault.old fault.new }
    ensures either { result ≢ ok → result ≢ layout → result ≡ memory }
{
    match decode_pacs(alloc, from) {
        Ok(_) => OK,
        Err(PacFault::Memory) => MEMORY,
        Err(found) => {
            *fault = pac_fault_for_c(found);
            LAYOUT
        }
    }
}

/// Whether octets are an operation (Broadcast Audio Scan Service 1.0, section 3.1.1).
#[unsafe(no_mangle)]
pub extern "C" fn air_operation_check(alloc: Global, from: &[u8], fault: &mut AirFault) -> u32
    ensures checked { CheckedAs operation_fault_c (op_of from.now) result fault.old fault.new }
    ensures either { result ≢ ok → result ≢ layout → result ≡ memory }
{
    match decode_operation(alloc, from) {
        Ok(_) => OK,
        Err(OpFault::Memory) => MEMORY,
        Err(found) => {
            *fault = operation_fault_for_c(found);
            LAYOUT
        }
    }
}

/// Whether octets are a receive state (Broadcast Audio Scan Service 1.0, section 3.2), or none.
#[unsafe(no_mangle)]
pub extern "C" fn air_state_check(alloc: Global, from: &[u8], fault: &mut AirFault) -> u32
    ensures checked { CheckedAs state_fault_c (state_of from.now) result fault.old fault.new }
    ensures either { result ≢ ok → result ≢ layout → result ≡ memory }
{
    match decode_state(alloc, from) {
        Ok(_) => OK,
        Err(StateFault::Memory) => MEMORY,
        Err(found) => {
            *fault = state_fault_for_c(found);
            LAYOUT
        }
    }
}

/// Whether octets are an isochronous PDU of at most this payload (Core 5.2, volume 6 part B, section 2.6).
#[unsafe(no_mangle)]
pub extern "C" fn air_pdu_check(from: &[u8], max_pdu: u8, fault: &mut AirFault) -> u32
    ensures checked { CheckedAs pdu_fault_c (read_of max_pdu from.now) result fault.old fault.new }
    ensures either { result ≢ ok → result ≡ layout }
{
    match read_pdu(from, max_pdu) {
        Ok(_) => OK,
        Err(found) => {
            *fault = pdu_fault_for_c(found);
            LAYOUT
        }
    }
}
