//! The numbers of the standards, each under its name there, and the lengths of what is read and answered.
//!
//! Code and definitions cite them, so a number has one place. The vectors have them as the standards do.

// Operation codes (SPC-4, 'Commands for all device types'; SBC-3, 'READ (10)' and 'WRITE (10)
// command').

pub const TEST_UNIT_READY: u8 = 0x00;

pub const REQUEST_SENSE: u8 = 0x03;

pub const INQUIRY: u8 = 0x12;

pub const READ_10: u8 = 0x28;

pub const WRITE_10: u8 = 0x2a;

pub const PERSISTENT_RESERVE_IN: u8 = 0x5e;

pub const PERSISTENT_RESERVE_OUT: u8 = 0x5f;

pub const REPORT_LUNS: u8 = 0xa0;

// Service actions of PERSISTENT RESERVE IN (SPC-4, 'PERSISTENT RESERVE IN command').

pub const READ_KEYS: u8 = 0x00;

pub const READ_RESERVATION: u8 = 0x01;

pub const REPORT_CAPABILITIES: u8 = 0x02;

// Service actions of PERSISTENT RESERVE OUT (SPC-4, 'PERSISTENT RESERVE OUT command').

pub const REGISTER: u8 = 0x00;

pub const RESERVE: u8 = 0x01;

pub const RELEASE: u8 = 0x02;

pub const CLEAR: u8 = 0x03;

pub const PREEMPT: u8 = 0x04;

pub const PREEMPT_AND_ABORT: u8 = 0x05;

pub const REGISTER_AND_IGNORE_EXISTING_KEY: u8 = 0x06;

// Flags of the parameter list of PERSISTENT RESERVE OUT (SPC-4, 'Basic PERSISTENT RESERVE OUT parameter
// list').

pub const APTPL: u8 = 0x01;

pub const ALL_TG_PT: u8 = 0x04;

pub const SPEC_I_PT: u8 = 0x08;

/// The flag of REQUEST SENSE that asks for descriptor format (SPC-4, 'REQUEST SENSE command').
pub const DESC: u8 = 0x01;

// Sense keys (SPC-4, 'Sense key and additional sense code definitions').

pub const NO_SENSE: u8 = 0x00;

pub const ILLEGAL_REQUEST: u8 = 0x05;

pub const UNIT_ATTENTION: u8 = 0x06;

// Additional sense codes, with the qualifier zero (SPC-4, 'Sense key and additional sense code
// definitions').

pub const NO_ADDITIONAL_SENSE_INFORMATION: u8 = 0x00;

pub const PARAMETER_LIST_LENGTH_ERROR: u8 = 0x1a;

pub const INVALID_COMMAND_OPERATION_CODE: u8 = 0x20;

pub const LOGICAL_BLOCK_ADDRESS_OUT_OF_RANGE: u8 = 0x21;

pub const INVALID_FIELD_IN_CDB: u8 = 0x24;

pub const INVALID_FIELD_IN_PARAMETER_LIST: u8 = 0x26;

/// The qualifier with which INVALID FIELD IN PARAMETER LIST is INVALID RELEASE OF PERSISTENT
/// RESERVATION.
pub const INVALID_RELEASE_OF_PERSISTENT_RESERVATION: u8 = 0x04;

// Unit attentions: the additional sense code times 256, and its qualifier (SPC-4, 'Sense key and
// additional sense code definitions').

pub const POWER_ON: u16 = 0x2900;

pub const RESERVATIONS_PREEMPTED: u16 = 0x2a03;

pub const RESERVATIONS_RELEASED: u16 = 0x2a04;

pub const REGISTRATIONS_PREEMPTED: u16 = 0x2a05;

/// The response code of current sense data in fixed format (SPC-4, 'Fixed format sense data').
pub const FIXED_FORMAT: u8 = 0x70;

/// How many I_T nexuses a unit serves at most, each with a key.
pub const MOST_NEXUSES: usize = 16;

// Lengths in bytes.

pub const SIX_BYTE_CDB: usize = 6;

pub const TEN_BYTE_CDB: usize = 10;

/// The longest command descriptor block for which a [`Wire`](crate::Wire) has room.
pub const MOST_CDB_LENGTH: usize = 16;

/// The parameter list of PERSISTENT RESERVE OUT.
pub const PARAMETER_LIST_LENGTH: usize = 24;

/// Sense data in fixed format.
pub const FIXED_SENSE_LENGTH: usize = 18;

/// What of it comes after the byte that says how much does.
pub const ADDITIONAL_SENSE_LENGTH: u8 = 10;

/// The generation and the additional length, with which the data of READ KEYS and of READ RESERVATION
/// begins.
pub const HEADER_LENGTH: usize = 8;

/// A reservation key.
pub const KEY_LENGTH: usize = 8;

/// What the data of READ RESERVATION says of a reservation.
pub const RESERVATION_LENGTH: usize = 16;

/// The data of READ RESERVATION, of a reservation.
pub const RESERVATION_DATA_LENGTH: usize = HEADER_LENGTH + RESERVATION_LENGTH;

/// The data of READ KEYS, of as many keys as there may be. No reply has more.
pub const MOST_DATA_LENGTH: usize = HEADER_LENGTH + KEY_LENGTH * MOST_NEXUSES;
