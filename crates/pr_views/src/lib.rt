//! What a host can know of the logical unit.
#![tactic(auto)]

mod attentions;
mod numbers;
mod outline;
mod portion;
mod possibilities;
mod sets;
mod table;
mod view;

pub use attentions::{is_among, without};
pub use numbers::{reservation_at, reservation_number};
pub use outline::{Outline, OutlineBy, OutlineOf};
pub use portion::Portion;
pub use possibilities::Possibilities;
pub use table::{Row, Table};
pub use view::{ATTENTION_SETS, MOST_REGISTRATIONS, View, ViewOf, count_of_reservations};
