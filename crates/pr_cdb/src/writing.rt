//! Writing a command's bytes.

ghost use Rattle.std.specs.Prelude.{◌≡◌, length, take};
ghost use Rattle.pr_cdb.specs.Requests.{plain_request, request_of_wire};
ghost use Rattle.pr_cdb.specs.Ranges.{Fits};
ghost use Rattle.pr_cdb.specs.Spelling.{spelling, laid_out, kind_byte, six, transfer, reserve_in, reserve_out};
ghost use Rattle.pr_cdb.specs.CommandCodes.{layout_codes, BeginsWithCodes};

use crate::codes::{
    FIXED_SENSE_LENGTH, PARAMETER_LIST_LENGTH, PERSISTENT_RESERVE_IN, PERSISTENT_RESERVE_OUT,
    READ_10, REQUEST_SENSE, TEST_UNIT_READY, WRITE_10,
};
use crate::command::{Command, Kind};
use crate::layout::Layout;
use crate::wire::{Wire, copied};
use byteorder::{BigEndian, ByteOrder};

/// The bytes of a command, with zero in every field that the command does not name.
///
/// What is written is read as the very command.
#[tactic(auto, unfolding(crate::specs::Spelling::spelling))]
pub fn encode(command: &Command) -> Wire
    ensures bytes { result ≡ spelling command.now }
    ensures codes { BeginsWithCodes command.now result }
    ensures read_again { request_of_wire result ≡ plain_request command.now }
{
    laid_out(command.layout())
}

/// What is written of a command whose fields are in their types' ranges is read as that command.
pub fn reads_what_is_written()
    ensures { (c : Command) → Fits c → request_of_wire (spelling c) ≡ plain_request c }
{}

fn laid_out(layout: Layout) -> Wire
    ensures bytes { result ≡ laid_out layout }
    ensures codes { take (length (layout_codes layout)) result.cdb.items ≡ layout_codes layout }
{
    match layout {
        Layout::TestUnitReady => six(TEST_UNIT_READY, 0),
        Layout::RequestSense => six(REQUEST_SENSE, FIXED_SENSE_LENGTH as u8),
        Layout::Read { lba, blocks } => transfer(READ_10, lba, blocks),
        Layout::Write { lba, blocks } => transfer(WRITE_10, lba, blocks),
        Layout::ReserveIn { action, alloc } => reserve_in(action.row().number, alloc),
        Layout::ReserveOut {
            action,
            kind,
            rk,
            sark,
        } => reserve_out(action.row().number, kind_byte(kind), rk, sark),
    }
}

fn kind_byte(kind: Option<Kind>) -> u8
    ensures { result ≡ kind_byte kind }
{
    match kind {
        Some(kind) => kind.code(),
        None => 0,
    }
}

// A command of six bytes.
fn six(opcode: u8, alloc: u8) -> Wire
    ensures { result ≡ six opcode alloc }
{
    Wire {
        cdb: copied(&[opcode, 0, 0, 0, alloc, 0]),
        params: copied(&[]),
    }
}

// READ (10) or WRITE (10).
fn transfer(opcode: u8, lba: u32, blocks: u16) -> Wire
    ensures { result ≡ transfer opcode lba blocks }
{
    let mut cdb = [opcode, 0, 0, 0, 0, 0, 0, 0, 0, 0];
    BigEndian::write_u32(&mut cdb[2..], lba);
    BigEndian::write_u16(&mut cdb[7..], blocks);
    Wire {
        cdb: copied(&cdb),
        params: copied(&[]),
    }
}

// A service action of PERSISTENT RESERVE IN.
fn reserve_in(action: u8, alloc: u16) -> Wire
    ensures { result ≡ reserve_in action alloc }
{
    let mut cdb = [PERSISTENT_RESERVE_IN, action, 0, 0, 0, 0, 0, 0, 0, 0];
    BigEndian::write_u16(&mut cdb[7..], alloc);
    Wire {
        cdb: copied(&cdb),
        params: copied(&[]),
    }
}

// A service action of PERSISTENT RESERVE OUT, with its parameter list.
fn reserve_out(action: u8, kind: u8, rk: u64, sark: u64) -> Wire
    ensures { result ≡ reserve_out action kind rk sark }
{
    let mut cdb = [PERSISTENT_RESERVE_OUT, action, kind, 0, 0, 0, 0, 0, 0, 0];
    cdb[8] = PARAMETER_LIST_LENGTH as u8;
    let mut params = [0; PARAMETER_LIST_LENGTH];
    BigEndian::write_u64(&mut params, rk);
    BigEndian::write_u64(&mut params[8..], sark);
    Wire {
        cdb: copied(&cdb),
        params: copied(&params),
    }
}
