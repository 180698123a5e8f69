//! The bytes of SCSI commands, of their replies and of their sense.
//!
//! A [`Command`] is what a host asks of a logical unit: TEST UNIT READY, REQUEST SENSE, READ (10),
//! WRITE (10), and the service actions of PERSISTENT RESERVE IN and PERSISTENT RESERVE OUT. A [`Wire`]
//! is a command as it travels: its command descriptor block and its parameter list. [`encode`] writes
//! the one as the other, and [`decode`] reads what any two byte lists ask for.
//!
//! Nothing here takes memory.
#![tactic(auto)]

mod action;
pub mod codes;
mod command;
mod laws;
mod layout;
mod parameter_data;
mod reading;
mod reply;
mod sense_data;
mod wire;
mod writing;

pub use action::{ActionRow, Direction, Field, ServiceAction};
pub use command::{Command, Kind};
pub use laws::{
    each_action_is_listed, in_range, lengths_agree, operation_codes_agree, sense_codes_agree,
    service_actions_agree,
};
pub use layout::Layout;
pub use parameter_data::{capabilities, holder_of, keys_data, keys_of, reservation_data};
pub use reading::{decode, reads_in_range, service_action_in, service_action_out};
pub use reply::{Reply, Sense, Status};
pub use sense_data::{decode_sense, encode_sense};
pub use wire::{Bad, Request, Wire, copied};
pub use writing::{encode, reads_what_is_written};
