//! What the words of a command line ask for.

use crate::subcommands::Subcommand;
use clap::ArgMatches;

/// A subcommand with the paths and words behind it. The path of a scenario is `-` where that is standard input.
#[derive(Clone, Copy)]
pub enum Call<'a> {
    /// The verdict on each of these scenarios, by a search where outlines refuse it and that is asked for.
    Check {
        paths: &'a [&'a str],
        searches: bool,
    },

    /// What can be known of the unit at each send of the scripts.
    Outline {
        path: &'a str,
    },

    /// The table of the script of the host with this name, where the verdict accepts.
    Table {
        path: &'a str,
        host: &'a str,
        searches: bool,
    },

    /// A run that shows why the scripts are refused.
    Witness {
        path: &'a str,
    },

    /// Which ends of the scripts come together, or a run to those that these words ask for.
    Ends {
        path: &'a str,
        asked: &'a [&'a str],
    },

    /// Whether it never comes to that all is so for which these words ask, or a run to where it is.
    Never {
        path: &'a str,
        asked: &'a [&'a str],
    },

    /// The trace of these turns, each named by its nexus, or from version 2 on another step.
    Replay {
        path: &'a str,
        steps: &'a [&'a str],
    },

    /// The same of the turns that the text at this path lists.
    ReplayListed {
        path: &'a str,
        list: &'a str,
    },

    /// The trace of a run with a thread for each host and guest, where the verdict accepts.
    Run {
        path: &'a str,
        searches: bool,
    },

    /// Whether what this trace says may have happened.
    Audit {
        path: &'a str,
        trace: &'a str,
    },

    /// In words for people what the verdict means, or what happens in this trace.
    Explain {
        path: &'a str,
        trace: Option<&'a str>,
    },
}

/// What is asked for by words that `matches_of` took, or nothing where they name no subcommand or lack an argument, which it
/// refuses.
pub fn call_of<'a>(matches: &'a ArgMatches<'_>) -> Option<Call<'a>> {
    let (name, arguments) = matches.subcommand()?;
    let call = match Subcommand::of_name(name)? {
        Subcommand::Check => Call::Check {
            paths: arguments.get_strs("FILE")?,
            searches: arguments.get_flag("search"),
        },
        Subcommand::Outline => Call::Outline {
            path: arguments.get_str("FILE")?,
        },
        Subcommand::Table => Call::Table {
            path: arguments.get_str("FILE")?,
            host: arguments.get_str("HOST")?,
            searches: arguments.get_flag("search"),
        },
        Subcommand::Witness => Call::Witness {
            path: arguments.get_str("FILE")?,
        },
        Subcommand::Ends => Call::Ends {
            path: arguments.get_str("FILE")?,
            asked: arguments.get_strs("END").unwrap_or(&[]),
        },
        Subcommand::Never => Call::Never {
            path: arguments.get_str("FILE")?,
            asked: arguments.get_strs("FACT").unwrap_or(&[]),
        },
        Subcommand::Replay => replay_of(arguments)?,
        Subcommand::Run => Call::Run {
            path: arguments.get_str("FILE")?,
            searches: arguments.get_flag("search"),
        },
        Subcommand::Audit => Call::Audit {
            path: arguments.get_str("FILE")?,
            trace: arguments.get_str("TRACE")?,
        },
        Subcommand::Explain => Call::Explain {
            path: arguments.get_str("FILE")?,
            trace: arguments.get_str("TRACE"),
        },
    };
    Some(call)
}

// Of a replay the steps stand behind the path, or in a text.
fn replay_of<'a>(arguments: &'a ArgMatches<'_>) -> Option<Call<'a>> {
    let path = arguments.get_str("FILE")?;
    Some(match arguments.get_str("steps") {
        Some(list) => Call::ReplayListed { path, list },
        None => Call::Replay {
            path,
            steps: arguments.get_strs("STEP")?,
        },
    })
}
