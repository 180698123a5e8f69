//! The limits of texts in words (docs/FORMATS.md, 'Limits').

use pr_text::Which;

/// What the limit is.
pub fn limit_words(which: Which) -> &'static [u8] {
    match which {
        Which::Hosts =>
            b"There are 1 to 8 hosts and guests together, from version 2 on up to 16.\n",
        Which::Keys => b"There are at most 12 declared keys.\n",
        Which::Statements => b"A script has at most 512 statements.\n",
        Which::Arms => b"A send has at most 16 arms.\n",
        Which::Nesting => b"At most 8 sends and 8 repeats are open at once.\n",
        Which::Repeat => b"A repeat has a count of 1 to 1000.\n",
        Which::Budget => b"A budget is 1 to 4096.\n",
        Which::Roles => b"A role has at most 32 clauses.\n",
        Which::Plan => b"A plan has at most 256 commands.\n",
        Which::Busy =>
            b"BUSY may come 1 to 1000 times; where it never comes, the line is left out.\n",
        Which::Full =>
            b"TASK SET FULL may come 1 to 1000 times; where it never comes, the line is left out.\n",
        Which::Resets =>
            b"The unit may be reset 1 to 1000 times; where it never is, the line is left out.\n",
    }
}
