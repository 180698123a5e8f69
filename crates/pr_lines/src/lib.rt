//! What one line of a scenario's text says: from its bytes to its words and terms, and from these to one
//! [`ScenarioLine`].
//!
//! A text is cut into lines by [`next_line`], and a line into words by [`next_word`]. [`item_of`] says what a line
//! says that begins with a word; a line that does not keep its shape says nothing. What lines mean together, and
//! whether one may stand behind another, is no matter here.
#![tactic(auto)]

mod clauses;
mod cutting;
mod item;
mod keyword;
mod lookup;
mod misfit;
mod options;
mod spelling;
mod terms;
mod versions;

pub use clauses::{BARE_ACTIONS, CONDITIONS};
pub use cutting::{is_text, next_line, next_word};
pub use item::{RefusalKind, ScenarioLine, StartReservation, item_of};
pub use keyword::{KEYWORDS, Keyword, keyword_of};
pub use misfit::{Misfit, Wanted};
pub use options::DIRECTIONS;
pub use spelling::ParsedCommand;
pub use terms::{amount_of, key_or_zero, name_of, value_after};
