//! The versions of the language, and which of them have a line.

use crate::item::ScenarioLine;

/// The versions of the language, as the first line of a text has them.
pub const VERSIONS: [(&[u8], u8); 3] = [(b"1", 1), (b"2", 2), (b"3", 3)];

impl ScenarioLine {
    ghost use Rattle.std.specs.Prelude.{◌≡◌};
    ghost use Rattle.pr_lines.specs.LineValues.{line_of_value};
    ghost use Rattle.pr_lines.specs.Versions.{since};

    /// The version of the language from which on there is such a line: 1, 2 or 3.
    pub fn since(&self) -> u8
        ensures { result ≡ since (line_of_value self.now) }
    {
        match self {
            ScenarioLine::Alone(_) | ScenarioLine::Order => 3,
            ScenarioLine::Refusals(..) | ScenarioLine::Resets(_) => 2,
            ScenarioLine::On(test) => test.since(),
            ScenarioLine::Fence(_) => 1,
            ScenarioLine::Keys(_) | ScenarioLine::Host(_) | ScenarioLine::Guest(_) => 1,
            ScenarioLine::Start(..) | ScenarioLine::Pending(..) => 1,
            ScenarioLine::Reservation(_) | ScenarioLine::Generation(_) => 1,
            ScenarioLine::Role(..) | ScenarioLine::Script(..) | ScenarioLine::Plan(_) => 1,
            ScenarioLine::End => 1,
            ScenarioLine::Send(_) | ScenarioLine::Done | ScenarioLine::Repeat(_) => 1,
            ScenarioLine::Break | ScenarioLine::Stop(_) => 1,
            ScenarioLine::Command(_) => 1,
        }
    }
}
