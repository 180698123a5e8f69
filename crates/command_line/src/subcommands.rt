//! The subcommands of the program, with the help for each.

use clap::{Arg, ArgAction, ArgMatches, Command, Error};
use std::alloc::{AllocError, Global};

// What the program is, which language it reads, and the kit for which its proofs are.
const VERSION: &str = "0.1.0 (language fence 3, for rattle-kit-13f)";

const STATUSES: &str =
    "Exit status: 0 done, accepted, safe or legal, or no run ends or comes to be as asked; 1 a script is refused or trapped, a witness is found, a run ends or comes to be as asked, a bound ended a search, or a trace is illegal; 2 the command line is at fault, or help or version was asked for; \
3 input or output is at fault; 4 memory ran out, or a thread could not be started. A fault is told in one line on standard error.";

const CHECK_CALL: &str = "For example: fence check preempted-writer.fence";

const OUTLINE_CALL: &str = "For example: fence outline missing-arm.fence";

const TABLE_CALL: &str = "For example: fence table preempted-writer.fence a";

const WITNESS_CALL: &str = "For example: fence witness missing-arm.fence";

const ENDS_CALL: &str = "For example: fence ends race.fence, or fence ends race.fence a=won b=won";

const NEVER_CALL: &str = "For example: fence never two-nodes.fence a=worked b:write";

const REPLAY_CALL: &str = "For example: fence replay preempted-writer.fence a a b a";

const RUN_CALL: &str = "For example: fence run race.fence";

const AUDIT_CALL: &str = "For example: fence audit preempted-writer.fence preempted-writer.1.trace";

const EXPLAIN_CALL: &str =
    "For example: fence explain missing-arm.fence, or fence explain missing-arm.fence missing-arm.1.trace";

/// What the words of a command line say: the subcommand `check` with one `FILE` or more, `run` with its `FILE`, or `table` with its
/// `FILE` and its `HOST`, each with `--search` or without; `outline` or `witness` with its `FILE`, `ends` with its `FILE` and any
/// number of `END`, `never` with its `FILE` and any number of `FACT`, `replay` with its `FILE` and one `STEP` or more, or the path
/// of a list of them behind `--steps`, `audit` with its `FILE` and its `TRACE`, or `explain` with its `FILE` and at most one `TRACE`.
pub fn matches_of<'a>(alloc: Global, words: &'a [String]) -> Result<ArgMatches<'a>, Error> {
    command(alloc, words)?.try_get_matches_from(words)
}

/// A subcommand of the program.
#[derive(Clone, Copy, PartialEq, Eq)]
pub(crate) enum Subcommand {
    Check,
    Outline,
    Table,
    Witness,
    Ends,
    Never,
    Replay,
    Run,
    Audit,
    Explain,
}

impl Subcommand {
    /// All of them, in the order in which the help lists them.
    const ALL: [Subcommand; 10] = [
        Subcommand::Check,
        Subcommand::Outline,
        Subcommand::Table,
        Subcommand::Witness,
        Subcommand::Ends,
        Subcommand::Never,
        Subcommand::Replay,
        Subcommand::Run,
        Subcommand::Audit,
        Subcommand::Explain,
    ];

    /// The subcommand of this name, if there is one.
    pub(crate) fn of_name(name: &str) -> Option<Subcommand> {
        Subcommand::ALL.into_iter().find(|it| it.name() == name)
    }

    fn name(self) -> &'static str {
        match self {
            Subcommand::Check => "check",
            Subcommand::Outline => "outline",
            Subcommand::Table => "table",
            Subcommand::Witness => "witness",
            Subcommand::Ends => "ends",
            Subcommand::Never => "never",
            Subcommand::Replay => "replay",
            Subcommand::Run => "run",
            Subcommand::Audit => "audit",
            Subcommand::Explain => "explain",
        }
    }

    // It as it is parsed, with its arguments and its help.
    fn command<'a>(self, alloc: Global) -> Result<Command<'a>, AllocError> {
        match self {
            Subcommand::Check => check(alloc),
            Subcommand::Outline => outline(alloc),
            Subcommand::Table => table(alloc),
            Subcommand::Witness => witness(alloc),
            Subcommand::Ends => ends(alloc),
            Subcommand::Never => never(alloc),
            Subcommand::Replay => replay(alloc),
            Subcommand::Run => run(alloc),
            Subcommand::Audit => audit(alloc),
            Subcommand::Explain => explain(alloc),
        }
    }
}

fn command<'a>(alloc: Global, words: &[String]) -> Result<Command<'a>, AllocError> {
    let mut command = Command::new(alloc, "fence")
        .about(
            "Verifies SCSI fencing scripts, runs them against one logical unit, and audits traces",
        )
        .version(VERSION)
        .after_help(STATUSES)
        .subcommand_required(true)
        .arg_required_else_help(true);
    let named = named(words);
    for it in Subcommand::ALL {
        if named.is_none_or(|named| named == it) {
            command = command.subcommand(it.command(alloc)?)?;
        }
    }
    Ok(command)
}

// The subcommand that the words name. No other is built then, since building all takes as long as checking a small scenario.
fn named(words: &[String]) -> Option<Subcommand> {
    Subcommand::of_name(words.get(1)?.as_str())
}

fn check<'a>(alloc: Global) -> Result<Command<'a>, AllocError> {
    Command::new(alloc, "check")
        .about("Verifies the scripts, and writes the verdict")
        .after_help(CHECK_CALL)
        .arg(files(alloc))?
        .arg(searches(alloc))
}

fn outline<'a>(alloc: Global) -> Result<Command<'a>, AllocError> {
    Command::new(alloc, "outline")
        .about(
            "Writes what can be known of the unit at each send of the scripts, and which replies may come",
        )
        .after_help(OUTLINE_CALL)
        .arg(file(alloc))
}

fn table<'a>(alloc: Global) -> Result<Command<'a>, AllocError> {
    let host = Arg::new(alloc, "HOST")
        .help("The name of the host")
        .required(true);
    Command::new(alloc, "table")
        .about(
            "Verifies the scripts, and writes that of a host as a table that another program can follow",
        )
        .after_help(TABLE_CALL)
        .arg(file(alloc))?
        .arg(host)?
        .arg(searches(alloc))
}

fn witness<'a>(alloc: Global) -> Result<Command<'a>, AllocError> {
    Command::new(alloc, "witness")
        .about("Searches for a run that shows why the scripts are refused, and writes it")
        .after_help(WITNESS_CALL)
        .arg(file(alloc))
}

fn ends<'a>(alloc: Global) -> Result<Command<'a>, AllocError> {
    let asked = Arg::new(alloc, "END")
        .help(
            "An end that is asked for, as NAME=WORD, or NAME=trapped:LINE: then a run to those is written, or that there is none",
        )
        .action(ArgAction::Append)
        .num_args(1..);
    Command::new(alloc, "ends")
        .about("Writes with which words the scripts end together")
        .after_help(ENDS_CALL)
        .arg(file(alloc))?
        .arg(asked)
}

fn never<'a>(alloc: Global) -> Result<Command<'a>, AllocError> {
    let asked = Arg::new(alloc, "FACT")
        .help(
            "What is asked for: an end, as NAME=WORD or NAME=trapped:LINE, or NAME:write, NAME:read, NAME:registered, NAME:holder, or behind no- that it is not so, as NAME:no-holder",
        )
        .action(ArgAction::Append)
        .num_args(1..);
    Command::new(alloc, "never")
        .about("Writes that what is asked for is never so all at once, or a run to where it is")
        .after_help(NEVER_CALL)
        .arg(file(alloc))?
        .arg(asked)
}

fn replay<'a>(alloc: Global) -> Result<Command<'a>, AllocError> {
    let steps = Arg::new(alloc, "STEP")
        .help(
            "The name of the host or guest whose turn is next, one word for each turn; from version 2 on also NAME:busy, NAME:full and :reset, from version 3 on NAME:early and NAME:fetched",
        )
        .action(ArgAction::Append)
        .num_args(1..)
        .required_unless_present("steps")?;
    let list = Arg::new(alloc, "steps")
        .long("steps")
        .value_name("PATH")
        .help(
            "A text that lists the steps, one or more a line, with a # before a comment; - is standard input, where FILE is none",
        )
        .conflicts_with("STEP")?;
    Command::new(alloc, "replay")
        .about("Lets hosts and guests take their turns in this order, and writes the trace")
        .after_help(REPLAY_CALL)
        .arg(file(alloc))?
        .arg(steps)?
        .arg(list)
}

fn run<'a>(alloc: Global) -> Result<Command<'a>, AllocError> {
    Command::new(alloc, "run")
        .about(
            "Verifies the scripts, runs the scenario with a thread for each host and guest, and writes the trace",
        )
        .after_help(RUN_CALL)
        .arg(file(alloc))?
        .arg(searches(alloc))
}

fn audit<'a>(alloc: Global) -> Result<Command<'a>, AllocError> {
    let trace = Arg::new(alloc, "TRACE")
        .help("The trace; - is standard input, where FILE is none")
        .required(true);
    Command::new(alloc, "audit")
        .about(
            "Says whether the commands and replies of a trace may have happened, or which is the first that may not",
        )
        .after_help(AUDIT_CALL)
        .arg(file(alloc))?
        .arg(trace)
}

fn explain<'a>(alloc: Global) -> Result<Command<'a>, AllocError> {
    let trace = Arg::new(alloc, "TRACE").help(
        "A trace or a witness of it, which is explained in place of the verdict; - is standard input, where FILE is none",
    );
    Command::new(alloc, "explain")
        .about(
            "Says in words, for people, what a fault or a verdict means, or what happens in a trace",
        )
        .after_help(EXPLAIN_CALL)
        .arg(file(alloc))?
        .arg(trace)
}

fn files<'a>(alloc: Global) -> Arg<'a> {
    file(alloc)
        .help("The scenario; - is standard input. Of several each line is behind its path")
        .action(ArgAction::Append)
        .num_args(1..)
}

fn file<'a>(alloc: Global) -> Arg<'a> {
    Arg::new(alloc, "FILE")
        .help("The scenario; - is standard input")
        .required(true)
}

fn searches<'a>(alloc: Global) -> Arg<'a> {
    Arg::new(alloc, "search")
        .long("search")
        .help(
            "Where the scripts are refused, looks at all states that can come up, and accepts them where nothing goes wrong in any",
        )
        .action(ArgAction::SetTrue)
}
