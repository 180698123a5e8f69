//! What a command of the program can end in, and the one line that says so.

ghost use Rattle.std.specs.Prelude.{◌≡◌, codes, map};
ghost use Rattle.std.specs.IoError.{error_kind};
ghost use Rattle.pr_output.specs.Written.{AppendsFront, Writes};
ghost use Rattle.pr_output.specs.Printed.{printed_word};
ghost use Rattle.pr_commands.specs.FaultText.{args_fault, exit_status_of, fault_text, input_words, open_fault, status_of, told_line, trace_words, which_word};
ghost use Rattle.pr_commands.specs.inside.FaultRows.{row_words};

use pr_output::{Token, WriteFault, put_line};
use pr_roles::Word;
use pr_text::{ReadError, Which};
use pr_trace::TraceError;
use std::alloc::{AllocError, AllocFailed};
use std::io;
use std::io::Write;

/// Why a command of the program came to nothing.
#[derive(Clone, Copy, Debug, PartialEq, Eq)]
pub enum Fault {
    /// The words after the command's name are not what it takes.
    Usage,

    /// A path that can't be opened.
    File,

    /// The text is no scenario, or can't be read to its end.
    Input(ReadError),

    /// The trace is none of the scenario's, or can't be read to its end.
    Trace(TraceError),

    /// The thread of the nexus of this name could not be started.
    Thread(Word),

    /// What stood under a run's lock is not what its threads hand back.
    History,

    /// An allocation failed.
    Memory,

    /// The writer answered an error, or took no byte.
    Output,
}

/// How a command of the program ended.
#[derive(Clone, Copy, Debug, PartialEq, Eq)]
pub enum ExitStatus {
    /// What was asked is done.
    Done,

    /// The answer is no: a script is refused or trapped, or a trace is illegal.
    Refused,

    /// The command line is no command.
    Usage,

    /// The input or the output is at fault, or the history of a run.
    Fault,

    /// Memory ran out, or a thread could not be started.
    Memory,
}

impl ExitStatus {
    /// The program's exit status.
    pub fn exit_status(self) -> u8
        ensures { result ≡ exit_status_of self }
    {
        match self {
            ExitStatus::Done => 0,
            ExitStatus::Refused => 1,
            ExitStatus::Usage => 2,
            ExitStatus::Fault => 3,
            ExitStatus::Memory => 4,
        }
    }
}

impl Fault {
    /// How a command with this fault ended.
    pub fn status(&self) -> ExitStatus
        ensures { result ≡ status_of self.now }
    {
        match self {
            Fault::Usage => ExitStatus::Usage,
            Fault::Memory
            | Fault::Input(ReadError::Memory)
            | Fault::Trace(TraceError::Memory)
            | Fault::Thread(_) => ExitStatus::Memory,
            Fault::File | Fault::Input(_) | Fault::Trace(_) | Fault::History | Fault::Output => {
                ExitStatus::Fault
            }
        }
    }
}

impl From<ReadError> for Fault {
    ghost use Rattle.std.specs.Prelude.{◌≡◌};
    ghost use Rattle.pr_commands.specs.FaultText.{input_fault};

    ghost from_gives = { λ error fault. fault ≡ input_fault error };

    fn from(error: ReadError) -> Self {
        match error {
            ReadError::Memory => Fault::Memory,
            other => Fault::Input(other),
        }
    }
}

impl From<TraceError> for Fault {
    ghost use Rattle.std.specs.Prelude.{◌≡◌};
    ghost use Rattle.pr_commands.specs.FaultText.{trace_fault};

    ghost from_gives = { λ error fault. fault ≡ trace_fault error };

    fn from(error: TraceError) -> Self {
        match error {
            TraceError::Memory => Fault::Memory,
            other => Fault::Trace(other),
        }
    }
}

impl From<WriteFault> for Fault {
    ghost use Rattle.std.specs.Prelude.{◌≡◌};
    ghost use Rattle.pr_commands.specs.declared.fault.Fault.TheVariants.{Output};

    ghost from_gives = { λ _ fault. fault ≡ Output };

    fn from(_fault: WriteFault) -> Self {
        Fault::Output
    }
}

impl From<AllocError> for Fault {
    ghost use Rattle.std.specs.Prelude.{◌≡◌};
    ghost use Rattle.pr_commands.specs.declared.fault.Fault.TheVariants.{Memory};

    ghost from_gives = { λ _ fault. fault ≡ Memory };

    fn from(_refused: AllocError) -> Self {
        Fault::Memory
    }
}

impl<T: Drop> From<AllocFailed<T>> for Fault {
    ghost use Rattle.std.specs.Prelude.{◌≡◌};
    ghost use Rattle.pr_commands.specs.declared.fault.Fault.TheVariants.{Memory};

    ghost from_gives = { λ _ fault. fault ≡ Memory };

    fn from(_refused: AllocFailed<T>) -> Self {
        Fault::Memory
    }
}

/// Why the words of the command line were not to be had: one that is not text is a wrong argument.
pub fn args_fault(error: &io::Error) -> Fault
    ensures { result ≡ args_fault (error_kind error.now) }
{
    if error.kind() == io::ErrorKind::OutOfMemory {
        Fault::Memory
    } else {
        Fault::Usage
    }
}

/// Why a path was not opened.
pub fn file_fault(error: &io::Error) -> Fault
    ensures { result ≡ open_fault (error_kind error.now) }
{
    if error.kind() == io::ErrorKind::OutOfMemory {
        Fault::Memory
    } else {
        Fault::File
    }
}

/// Tells a fault in one line. What the writer does not take of it is dropped.
pub fn tell<W: Write>(errors: &mut W, fault: &Fault)
    ensures { AppendsFront (W.contents errors.old) (W.contents errors.new) (fault_text fault.now) }
{
    let _ = put_fault(errors, fault);
}

/// Writes the one line for a fault.
#[tactic(auto, unfolding(crate::specs::FaultText::fault_text, pr_output::specs::Printed::printed_word))]
pub(crate) fn put_fault<W: Write>(errors: &mut W, fault: &Fault) -> Result<(), WriteFault>
    ensures { Writes W.Write errors (fault_text fault.now) result }
{
    match fault {
        Fault::Usage => put_told(errors, &[Token::Text(b"usage")]),
        Fault::File => put_told(errors, &[Token::Text(b"file")]),
        Fault::Input(error) => put_row(errors, b"input", input_row(*error)),
        Fault::Trace(error) => put_row(errors, b"trace", trace_row(*error)),
        Fault::Thread(name) => put_told(
            errors,
            &[
                Token::Text(b"thread"),
                Token::Text(name.as_str().as_bytes()),
            ],
        ),
        Fault::History => put_told(errors, &[Token::Text(b"history")]),
        Fault::Memory => put_told(errors, &[Token::Text(b"memory")]),
        Fault::Output => put_told(errors, &[Token::Text(b"output")]),
    }
}

/// A row of the tables below: what the line for a fault of a text says of it.
enum FaultRow {
    /// The number and the name of a fault of the whole text.
    Whole(&'static [u8], &'static [u8]),

    /// Those of a fault of a line, and which line.
    Line(&'static [u8], &'static [u8], u32),

    /// Those of a line past a limit, which limit, and which line.
    Limit(&'static [u8], &'static [u8], Which, u32),

    /// Memory ran out, which is no fault of the text and told without its number.
    Memory,
}

// The faults of a scenario's text, in the order of their numbers.
fn input_row(error: ReadError) -> FaultRow
    ensures { row_words (codes "input") result ≡ input_words error }
{
    match error {
        ReadError::TooLarge => FaultRow::Whole(b"1", b"TooLarge"),
        ReadError::NotAscii { line } => FaultRow::Line(b"2", b"NotAscii", line),
        ReadError::LineTooLong { line } => FaultRow::Line(b"3", b"LineTooLong", line),
        ReadError::Syntax { line } => FaultRow::Line(b"4", b"Syntax", line),
        ReadError::UnknownName { line } => FaultRow::Line(b"5", b"UnknownName", line),
        ReadError::Limit { which, line } => FaultRow::Limit(b"6", b"Limit", which, line),
        ReadError::UndeclaredKey { line } => FaultRow::Line(b"7", b"UndeclaredKey", line),
        ReadError::Repeated { line } => FaultRow::Line(b"8", b"Repeated", line),
        ReadError::Unclosed { line } => FaultRow::Line(b"9", b"Unclosed", line),
        ReadError::ReadFault => FaultRow::Whole(b"10", b"ReadFault"),
        ReadError::Memory => FaultRow::Memory,
        ReadError::EmptyStart => FaultRow::Whole(b"12", b"EmptyStart"),
    }
}

// Those of a trace.
fn trace_row(error: TraceError) -> FaultRow
    ensures { row_words (codes "trace") result ≡ trace_words error }
{
    match error {
        TraceError::Syntax { line } => FaultRow::Line(b"1", b"Syntax", line),
        TraceError::UnknownName { line } => FaultRow::Line(b"2", b"UnknownName", line),
        TraceError::TooLong => FaultRow::Whole(b"3", b"TooLong"),
        TraceError::ReadFault => FaultRow::Whole(b"4", b"ReadFault"),
        TraceError::Memory => FaultRow::Memory,
    }
}

// The line for a fault of this text, which is the input or the trace.
#[tactic(auto, unfolding(pr_output::specs::Printed::printed_word))]
fn put_row<W: Write>(errors: &mut W, text: &[u8], row: FaultRow) -> Result<(), WriteFault>
    ensures { Writes W.Write errors (told_line (row_words text.now row)) result }
{
    let text = Token::Text(text);
    match row {
        FaultRow::Whole(number, name) => {
            put_told(errors, &[text, Token::Text(number), Token::Text(name)])
        }
        FaultRow::Line(number, name, line) => put_told(
            errors,
            &[
                text,
                Token::Text(number),
                Token::Text(name),
                Token::Text(b"line"),
                Token::Number(u64::from(line)),
            ],
        ),
        FaultRow::Limit(number, name, which, line) => put_told(
            errors,
            &[
                text,
                Token::Text(number),
                Token::Text(name),
                Token::Text(which_word(which)),
                Token::Text(b"line"),
                Token::Number(u64::from(line)),
            ],
        ),
        FaultRow::Memory => put_told(errors, &[Token::Text(b"memory")]),
    }
}

fn which_word(which: Which) -> &'static [u8]
    ensures { result.now ≡ which_word which }
{
    match which {
        Which::Hosts => b"Hosts",
        Which::Keys => b"Keys",
        Which::Statements => b"Statements",
        Which::Arms => b"Arms",
        Which::Nesting => b"Nesting",
        Which::Repeat => b"Repeat",
        Which::Budget => b"Budget",
        Which::Roles => b"Roles",
        Which::Plan => b"Plan",
        Which::Busy => b"Busy",
        Which::Full => b"Full",
        Which::Resets => b"Resets",
    }
}

// The line with these words after the program's name.
#[tactic(auto, unfolding(pr_output::specs::Printed::printed_word))]
fn put_told<W: Write>(errors: &mut W, words: &[Token<'_>]) -> Result<(), WriteFault>
    ensures { Writes W.Write errors (told_line (map printed_word words.now)) result }
{
    put_line(errors, Token::Text(b"fence:"), words)
}
