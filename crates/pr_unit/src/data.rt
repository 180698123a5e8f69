//! The data of a command that ends GOOD.

ghost use Rattle.std.specs.Prelude.{◌≡◌};
ghost use Rattle.pr_registry.specs.Registrations.{IsWellFormed};
ghost use Rattle.pr_cdb.specs.declared.codes.TheConstants.{NO_SENSE, NO_ADDITIONAL_SENSE_INFORMATION};
ghost use Rattle.pr_cdb.specs.ReplyData.{capabilities_bytes, cut as bytes_up_to, sense_bytes};
ghost use Rattle.pr_unit.specs.Replies.{reservation, data_of};

use crate::reply::cut;
use arrayvec::ArrayVec;
use pr_cdb::codes::{MOST_DATA_LENGTH, NO_ADDITIONAL_SENSE_INFORMATION, NO_SENSE};
use pr_cdb::{
    Command, Kind, Sense, capabilities, copied, encode_sense, keys_data, reservation_data,
};
use pr_registry::{Held, Registry};

/// The data of the command.
pub(crate) fn data(registry: &Registry, command: Command) -> ArrayVec<u8, MOST_DATA_LENGTH>
    requires { IsWellFormed registry.now }
    ensures { result.items ≡ data_of registry.now command }
{
    match command {
        Command::ReadKeys { alloc } => keys_up_to(registry, alloc),
        Command::ReadReservation { alloc } => reservation_up_to(registry, alloc),
        Command::ReportCapabilities { alloc } => capabilities_up_to(alloc),
        Command::RequestSense => nothing_to_report(),
        // That no other has any is what the contract says.
        _ => ArrayVec::new(),
    }
}

// Each of these four makes its data where the caller wants it. Inlined they would share the caller's room for data, which
// is then copied once for each of them, also for the commands that have none.

#[inline(never)]
fn keys_up_to(registry: &Registry, alloc: u16) -> ArrayVec<u8, MOST_DATA_LENGTH>
    requires { IsWellFormed registry.now }
    ensures { result.items ≡ data_of registry.now (Command.ReadKeys alloc) }
{
    let keys = registry.keys();
    cut(keys_data(registry.generation(), &keys), alloc)
}

#[inline(never)]
fn reservation_up_to(registry: &Registry, alloc: u16) -> ArrayVec<u8, MOST_DATA_LENGTH>
    requires { IsWellFormed registry.now }
    ensures { result.items ≡ data_of registry.now (Command.ReadReservation alloc) }
{
    let held = reservation(registry);
    let bytes = reservation_data(registry.generation(), held);
    cut(copied(&bytes), alloc)
}

#[inline(never)]
fn capabilities_up_to(alloc: u16) -> ArrayVec<u8, MOST_DATA_LENGTH>
    ensures { result.items ≡ bytes_up_to alloc capabilities_bytes }
{
    cut(copied(&capabilities()), alloc)
}

// The data of REQUEST SENSE where no attention is pending.
#[inline(never)]
fn nothing_to_report() -> ArrayVec<u8, MOST_DATA_LENGTH>
    ensures { result.items ≡ sense_bytes (record
        { key = NO_SENSE; asc = NO_ADDITIONAL_SENSE_INFORMATION; ascq = 0 }) }
{
    copied(&encode_sense(&Sense {
        key: NO_SENSE,
        asc: NO_ADDITIONAL_SENSE_INFORMATION,
        ascq: 0,
    }))
}

// The key and the type of the reservation: the holder's key, or zero where all registrants hold.
fn reservation(registry: &Registry) -> Option<(u64, Kind)>
    requires { IsWellFormed registry.now }
    ensures { result ≡ reservation registry.now.keys registry.now.held }
{
    match registry.held()? {
        Held::One(kind, holder) => Some((registry.key(holder).unwrap_or(0), kind)),
        Held::All(kind) => Some((0, kind)),
    }
}
