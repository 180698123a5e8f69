//! Reading a command's bytes.

ghost use Rattle.std.specs.Prelude.{◌≡◌, ◌+◌, ◌%◌, ◌≤◌, ◌≢◌, List, ℕ, length, slice_index};
ghost use Rattle.pr_cdb.specs.Kinds.{kind_of_code};
ghost use Rattle.pr_cdb.specs.Bytes.{be16, be32, be64};
ghost use Rattle.pr_cdb.specs.Requests.{request_of, named_command, length_of, kind_of_byte, has_refused_flag, reserve_in_command, reserve_out_command, AreBytes};
ghost use Rattle.pr_cdb.specs.Ranges.{FitsWhereRead};

use crate::codes::{
    ALL_TG_PT, APTPL, CLEAR, DESC, FIXED_SENSE_LENGTH, ILLEGAL_REQUEST, INQUIRY,
    INVALID_COMMAND_OPERATION_CODE, INVALID_FIELD_IN_CDB, INVALID_FIELD_IN_PARAMETER_LIST,
    KEY_LENGTH, PARAMETER_LIST_LENGTH, PARAMETER_LIST_LENGTH_ERROR, PERSISTENT_RESERVE_IN,
    PERSISTENT_RESERVE_OUT, PREEMPT, PREEMPT_AND_ABORT, READ_10, READ_KEYS, READ_RESERVATION,
    REGISTER, REGISTER_AND_IGNORE_EXISTING_KEY, RELEASE, REPORT_CAPABILITIES, REPORT_LUNS,
    REQUEST_SENSE, RESERVE, SIX_BYTE_CDB, SPEC_I_PT, TEN_BYTE_CDB, TEST_UNIT_READY, WRITE_10,
};
use crate::command::{Command, Kind};
use crate::reply::Sense;
use crate::wire::{Bad, Request};
use byteorder::{BigEndian, ByteOrder};

/// What the logical unit reads the command descriptor block `cdb` and the parameter list `params` as,
/// for every two byte lists (SPC-4, 'PERSISTENT RESERVE IN command' and 'PERSISTENT RESERVE OUT
/// command').
///
/// Bytes past a command's length, and past a whole parameter list, are ignored.
#[tactic(auto, unfolding(crate::specs::Requests::request_of, crate::specs::Requests::named_command, crate::specs::Requests::length_of))]
pub fn decode(cdb: &[u8], params: &[u8]) -> Result<Request, Bad>
    ensures value { result ≡ request_of cdb.now params.now }
    ensures in_range { FitsWhereRead result }
{
    if cdb.is_empty() {
        return Err(Bad::Short);
    }
    let opcode = cdb[0];
    if opcode == INQUIRY || opcode == REPORT_LUNS {
        return Err(Bad::NotModelled(opcode));
    }
    let length = length_of(opcode);
    if length == 0 {
        return Ok(illegal(INVALID_COMMAND_OPERATION_CODE));
    }
    if cdb.len() < length {
        return Err(Bad::Short);
    }
    match opcode {
        TEST_UNIT_READY => Ok(Request::Plain(Command::TestUnitReady)),
        REQUEST_SENSE => request_sense(cdb, params),
        PERSISTENT_RESERVE_IN => reserve_in(cdb, params),
        PERSISTENT_RESERVE_OUT => reserve_out(cdb, params),
        _ => Ok(Request::Plain(transfer(opcode, cdb))),
    }
}

/// What every two byte lists are read as has its fields in their types' ranges.
pub fn reads_in_range()
    ensures { (cdb params : List ℕ) → AreBytes cdb → AreBytes params
        → FitsWhereRead (request_of cdb params) }
{}

// How many bytes a command with this operation code has, or 0 where the unit has no such command.
#[tactic(auto, unfolding(crate::specs::Requests::length_of))]
fn length_of(opcode: u8) -> usize
    ensures { result ≡ length_of opcode }
{
    match opcode {
        TEST_UNIT_READY | REQUEST_SENSE => SIX_BYTE_CDB,
        READ_10 | WRITE_10 | PERSISTENT_RESERVE_IN | PERSISTENT_RESERVE_OUT => TEN_BYTE_CDB,
        _ => 0,
    }
}

fn illegal(asc: u8) -> Request
    ensures { result ≡ Request.Faulty (record { key = ILLEGAL_REQUEST; asc = asc; ascq = 0 }) }
{
    Request::Faulty(Sense {
        key: ILLEGAL_REQUEST,
        asc,
        ascq: 0,
    })
}

// REQUEST SENSE: descriptor format is a fault, and a short allocation length is not modelled.
#[tactic(auto, unfolding(crate::specs::Requests::request_of, crate::specs::Requests::named_command, crate::specs::Requests::length_of))]
fn request_sense(cdb: &[u8], params: &[u8]) -> Result<Request, Bad>
    requires whole { SIX_BYTE_CDB ≤ length cdb.now }
    requires opcode { slice_index cdb.now 0 ≡ REQUEST_SENSE }
    ensures { result ≡ request_of cdb.now params.now }
{
    if cdb[1] & DESC != 0 {
        return Ok(illegal(INVALID_FIELD_IN_CDB));
    }
    if usize::from(cdb[4]) < FIXED_SENSE_LENGTH {
        return Err(Bad::NotModelled(REQUEST_SENSE));
    }
    Ok(Request::Plain(Command::RequestSense))
}

// READ (10) or WRITE (10).
#[tactic(auto, unfolding(crate::specs::Bytes::be32, crate::specs::Bytes::be16))]
fn transfer(opcode: u8, cdb: &[u8]) -> Command
    requires whole { TEN_BYTE_CDB ≤ length cdb.now }
    ensures read { opcode ≢ WRITE_10 → result ≡ Command.Read (be32 cdb.now 2) (be16 cdb.now 7) }
    ensures write { opcode ≡ WRITE_10 → result ≡ Command.Write (be32 cdb.now 2) (be16 cdb.now 7) }
{
    let lba = BigEndian::read_u32(&cdb[2..]);
    let blocks = BigEndian::read_u16(&cdb[7..]);
    if opcode == WRITE_10 {
        Command::Write { lba, blocks }
    } else {
        Command::Read { lba, blocks }
    }
}

#[tactic(auto, unfolding(crate::specs::Requests::request_of, crate::specs::Requests::named_command, crate::specs::Requests::length_of, crate::specs::Bytes::be16))]
fn reserve_in(cdb: &[u8], params: &[u8]) -> Result<Request, Bad>
    requires whole { TEN_BYTE_CDB ≤ length cdb.now }
    requires opcode { slice_index cdb.now 0 ≡ PERSISTENT_RESERVE_IN }
    ensures { result ≡ request_of cdb.now params.now }
{
    match named_in(cdb) {
        Some(command) => Ok(Request::Plain(command)),
        None => Ok(illegal(INVALID_FIELD_IN_CDB)),
    }
}

// The command of the fields of PERSISTENT RESERVE IN.
fn named_in(cdb: &[u8]) -> Option<Command>
    requires { TEN_BYTE_CDB ≤ length cdb.now }
    ensures { result ≡ reserve_in_command (slice_index cdb.now 1 % 32) (be16 cdb.now 7) }
{
    service_action_in(cdb[1] & 0x1f, allocation_length(cdb))
}

#[tactic(auto, unfolding(crate::specs::Bytes::be16))]
fn allocation_length(cdb: &[u8]) -> u16
    requires { TEN_BYTE_CDB ≤ length cdb.now }
    ensures { result ≡ be16 cdb.now 7 }
{
    BigEndian::read_u16(&cdb[7..])
}

#[tactic(auto, unfolding(crate::specs::Requests::request_of, crate::specs::Requests::length_of, crate::specs::Bytes::be32))]
fn reserve_out(cdb: &[u8], params: &[u8]) -> Result<Request, Bad>
    requires whole { TEN_BYTE_CDB ≤ length cdb.now }
    requires opcode { slice_index cdb.now 0 ≡ PERSISTENT_RESERVE_OUT }
    ensures { result ≡ request_of cdb.now params.now }
{
    let action = cdb[1] & 0x1f;
    if action > REGISTER_AND_IGNORE_EXISTING_KEY {
        return Ok(illegal(INVALID_FIELD_IN_CDB));
    }
    if BigEndian::read_u32(&cdb[5..]) as usize != PARAMETER_LIST_LENGTH {
        return Ok(illegal(PARAMETER_LIST_LENGTH_ERROR));
    }
    if params.len() < PARAMETER_LIST_LENGTH {
        return Err(Bad::Short);
    }
    let Some(command) = named_out(cdb, params) else {
        return Ok(illegal(INVALID_FIELD_IN_CDB));
    };
    if has_refused_flag(action, params[20]) {
        return Ok(illegal(INVALID_FIELD_IN_PARAMETER_LIST));
    }
    Ok(Request::Plain(command))
}

// The command of the fields of PERSISTENT RESERVE OUT.
#[tactic(auto, unfolding(crate::specs::Requests::named_command))]
fn named_out(cdb: &[u8], params: &[u8]) -> Option<Command>
    requires whole { TEN_BYTE_CDB ≤ length cdb.now }
    requires opcode { slice_index cdb.now 0 ≡ PERSISTENT_RESERVE_OUT }
    requires list { PARAMETER_LIST_LENGTH ≤ length params.now }
    ensures { result ≡ named_command cdb.now params.now }
{
    let rk = key_at(params, 0);
    let sark = key_at(params, 8);
    service_action_out(cdb[1] & 0x1f, kind_of_byte(cdb[2]), rk, sark)
}

// The key that begins at `place`.
#[tactic(auto, unfolding(crate::specs::Bytes::be64))]
fn key_at(params: &[u8], place: usize) -> u64
    requires { place + KEY_LENGTH ≤ length params.now }
    ensures { result ≡ be64 params.now place }
{
    BigEndian::read_u64(&params[place..])
}

/// The service action of PERSISTENT RESERVE IN with this number, if there is one, over its allocation length.
pub fn service_action_in(action: u8, alloc: u16) -> Option<Command>
    ensures { result ≡ reserve_in_command action alloc }
{
    match action {
        READ_KEYS => Some(Command::ReadKeys { alloc }),
        READ_RESERVATION => Some(Command::ReadReservation { alloc }),
        REPORT_CAPABILITIES => Some(Command::ReportCapabilities { alloc }),
        _ => None,
    }
}

/// The service action of PERSISTENT RESERVE OUT with this number, if there is one, over its type and its keys. RESERVE
/// and RELEASE need a type.
#[tactic(auto, unfolding(crate::specs::Requests::reserve_out_command))]
pub fn service_action_out(action: u8, kind: Option<Kind>, rk: u64, sark: u64) -> Option<Command>
    ensures { result ≡ reserve_out_command action kind rk sark }
{
    match action {
        REGISTER => Some(Command::Register { rk, sark }),
        RESERVE => kind.map(|kind| Command::Reserve { rk, kind }),
        RELEASE => kind.map(|kind| Command::Release { rk, kind }),
        CLEAR => Some(Command::Clear { rk }),
        PREEMPT => Some(Command::Preempt { rk, sark, kind }),
        PREEMPT_AND_ABORT => Some(Command::PreemptAbort { rk, sark, kind }),
        REGISTER_AND_IGNORE_EXISTING_KEY => Some(Command::RegisterIgnore { sark }),
        _ => None,
    }
}

// The type in a byte of scope and type, where the scope is the logical unit's.
#[tactic(auto, unfolding(crate::specs::Requests::kind_of_byte))]
fn kind_of_byte(byte: u8) -> Option<Kind>
    ensures { result ≡ kind_of_byte byte }
{
    if byte & 0xf0 != 0 {
        return None;
    }
    Kind::from_code(byte & 0x0f)
}

// A flag of the parameter list that this service action refuses.
#[tactic(auto, unfolding(crate::specs::Requests::has_refused_flag))]
fn has_refused_flag(action: u8, flags: u8) -> bool
    ensures { result ≡ has_refused_flag action flags }
{
    let registers = action == REGISTER || action == REGISTER_AND_IGNORE_EXISTING_KEY;
    flags & SPEC_I_PT != 0 || (registers && (flags & ALL_TG_PT != 0 || flags & APTPL != 0))
}
