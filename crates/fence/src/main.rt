//! The program `fence`: it verifies SCSI fencing scripts against one logical unit that behaves as SPC-4 says, runs them,
//! with a trace of the commands and replies, and audits such traces, its own or another target's.
#![tactic(auto)]

mod explaining;
mod listed;
mod notice;
mod several;
mod source;
mod told;
mod traced;
mod whole;
mod witnessed;

use crate::explaining::do_explain;
use crate::listed::{read_list, steps_in};
use crate::notice::Notice;
use crate::several::{Line, put_labelled, worse};
use crate::source::{Peeked, Source, apart, open, open_beside, opened, opened_or_told};
use crate::traced::do_explain_trace;
use crate::witnessed::{FIRST_LINE, do_explain_witness};
use clap::error::ErrorKind;
use command_line::{Call, call_of, matches_of};
use pr_commands::{
    ExitStatus, Fault, Method, args_fault, do_audit, do_check, do_ends, do_never, do_outline,
    do_replay, do_run, do_table, do_witness, ended,
};
use pr_trace::TraceError;
use std::io::Write;
use std::process::ExitCode;
use std::sync::Wait;
use std::thread::Threads;
use std::{env, io};

fn main(rt: HostRuntime) -> ExitCode {
    ExitCode::from(run(&rt, &rt).exit_status())
}

// Does what the command line says, or tells the fault that comes before any text is read. `main` alone can name the system as what
// starts threads, and so hands it down a second time.
fn run<T: Threads + Wait + Sync>(rt: &HostRuntime, threads: &T) -> ExitStatus {
    match run_words(rt, threads) {
        Ok(status) => status,
        Err(fault) => ended(&mut rt.stderr(), Err(fault)),
    }
}

fn run_words<T: Threads + Wait + Sync>(rt: &HostRuntime, threads: &T) -> Result<ExitStatus, Fault> {
    let words = match words(rt) {
        Ok(words) => words,
        Err(error) => return Err(args_fault(&error)),
    };
    let matches = match matches_of(rt.alloc(), &words) {
        Ok(matches) => matches,
        Err(error) => return refuse(rt, &error),
    };
    match call_of(&matches) {
        Some(call) => run_call(rt, threads, call),
        None => Err(Fault::Usage),
    }
}

// The words of the command line, the program's own name the first.
fn words(rt: &HostRuntime) -> io::Result<Vec<String>> {
    let mut words = Vec::new(rt.alloc());
    for word in env::args(rt)? {
        words.push(word)?;
    }
    Ok(words)
}

fn run_call<T: Threads + Wait + Sync>(
    rt: &HostRuntime,
    threads: &T,
    call: Call<'_>,
) -> Result<ExitStatus, Fault> {
    match call {
        Call::Check { paths, searches } => Ok(check(rt, threads, method_of(searches), paths)),
        Call::Outline { path } => outline(rt, path),
        Call::Table {
            path,
            host,
            searches,
        } => { table(rt, threads, method_of(searches), path, host) }
        Call::Witness { path } => witness(rt, threads, path),
        Call::Ends { path, asked } => ends(rt, threads, path, asked),
        Call::Never { path, asked } => never(rt, threads, path, asked),
        Call::Replay { path, steps } => replay(rt, path, steps),
        Call::ReplayListed { path, list } => replay_listed(rt, path, list),
        Call::Run { path, searches } => run_threads(rt, threads, method_of(searches), path),
        Call::Audit { path, trace } => audit(rt, path, trace),
        Call::Explain { path, trace } => explain(rt, threads, path, trace),
    }
}

// How a scenario may be found safe, where a search was asked for or not.
fn method_of(searches: bool) -> Method {
    if searches {
        Method::Search
    } else {
        Method::Outlines
    }
}

fn check<T: Threads>(rt: &HostRuntime, threads: &T, method: Method, paths: &[&str]) -> ExitStatus {
    match paths {
        [path] => {
            let (mut output, mut errors) = (rt.stdout(), rt.stderr());
            check_path(rt, threads, method, path, &mut output, &mut errors)
        }
        _ => check_paths(rt, threads, method, paths),
    }
}

fn check_path<T: Threads, W: Write, E: Write>(
    rt: &HostRuntime,
    threads: &T,
    method: Method,
    path: &str,
    output: &mut W,
    errors: &mut E,
) -> ExitStatus {
    match opened(open(rt, path)) {
        Ok(mut text) => judged(rt, threads, method, &mut text, |text| {
            do_check(rt.alloc(), method, text, output, errors)
        }),
        Err(fault) => ended(errors, Err(fault)),
    }
}

// Each line behind its path, and the worst status. Where one can't be written, none behind it could be, so that is the end.
fn check_paths<T: Threads>(
    rt: &HostRuntime,
    threads: &T,
    method: Method,
    paths: &[&str],
) -> ExitStatus {
    let mut worst = ExitStatus::Done;
    for path in paths {
        let mut written = Line::new();
        let mut told = Line::new();
        let status = check_path(rt, threads, method, path, &mut written, &mut told);
        worst = worse(worst, status);
        let (mut output, mut errors) = (rt.stdout(), rt.stderr());
        if let Err(fault) = put_labelled(&mut output, &mut errors, path, &written, &told) {
            return worse(worst, ended(&mut errors, Err(fault)));
        }
    }
    worst
}

// A command that judges the text, which may search for long by one of the methods alone.
fn judged<T: Threads, F: FnOnce(&mut Source) -> ExitStatus>(
    rt: &HostRuntime,
    threads: &T,
    method: Method,
    text: &mut Source,
    command: F,
) -> ExitStatus
    requires { F.IsAlwaysCallable command }
{
    match method {
        Method::Outlines => command(text),
        Method::Search => noticed(rt, threads, text, command),
    }
}

fn outline(rt: &HostRuntime, path: &str) -> Result<ExitStatus, Fault> {
    let mut text = opened(open(rt, path))?;
    Ok(do_outline(rt.alloc(), &mut text, &mut rt.stdout(), &mut rt.stderr()))
}

fn table<T: Threads>(
    rt: &HostRuntime,
    threads: &T,
    method: Method,
    path: &str,
    host: &str,
) -> Result<ExitStatus, Fault> {
    let mut text = opened(open(rt, path))?;
    Ok(judged(rt, threads, method, &mut text, |text| {
        do_table(
            rt.alloc(),
            method,
            host,
            text,
            &mut rt.stdout(),
            &mut rt.stderr(),
        )
    }))
}

fn witness<T: Threads>(rt: &HostRuntime, threads: &T, path: &str) -> Result<ExitStatus, Fault> {
    searched(rt, threads, path, |text| {
        do_witness(rt.alloc(), text, &mut rt.stdout(), &mut rt.stderr())
    })
}

fn ends<T: Threads>(
    rt: &HostRuntime,
    threads: &T,
    path: &str,
    asked: &[&str],
) -> Result<ExitStatus, Fault> {
    searched(rt, threads, path, |text| {
        do_ends(rt.alloc(), asked, text, &mut rt.stdout(), &mut rt.stderr())
    })
}

fn never<T: Threads>(
    rt: &HostRuntime,
    threads: &T,
    path: &str,
    asked: &[&str],
) -> Result<ExitStatus, Fault> {
    searched(rt, threads, path, |text| {
        do_never(rt.alloc(), asked, text, &mut rt.stdout(), &mut rt.stderr())
    })
}

// A command that searches the text at this path.
fn searched<T: Threads, F: FnOnce(&mut Source) -> ExitStatus>(
    rt: &HostRuntime,
    threads: &T,
    path: &str,
    command: F,
) -> Result<ExitStatus, Fault>
    requires { F.IsAlwaysCallable command }
{
    let mut text = opened(open(rt, path))?;
    Ok(noticed(rt, threads, &mut text, command))
}

// A command that may search for long, which is said where it does.
fn noticed<T: Threads, F: FnOnce(&mut Source) -> ExitStatus>(
    rt: &HostRuntime,
    threads: &T,
    text: &mut Source,
    command: F,
) -> ExitStatus
    requires { F.IsAlwaysCallable command }
{
    let notice = Notice::begin(rt, threads, text);
    let status = command(text);
    notice.end();
    status
}

fn replay(rt: &HostRuntime, path: &str, steps: &[&str]) -> Result<ExitStatus, Fault> {
    let mut text = opened(open(rt, path))?;
    Ok(do_replay(
        rt.alloc(),
        steps,
        &mut text,
        &mut rt.stdout(),
        &mut rt.stderr(),
    ))
}

// `-` is standard input for one of the two, and the name of a file where that is taken. Both are opened before either is read.
fn replay_listed(rt: &HostRuntime, path: &str, list: &str) -> Result<ExitStatus, Fault> {
    let mut text = opened(open(rt, path))?;
    let mut list = opened(open_beside(rt, &text, list))?;
    apart(&text, &list, Fault::File)?;
    let list = read_list(rt.alloc(), &mut list)?;
    let steps = steps_in(rt.alloc(), &list)?;
    Ok(do_replay(
        rt.alloc(),
        &steps,
        &mut text,
        &mut rt.stdout(),
        &mut rt.stderr(),
    ))
}

fn run_threads<T: Threads + Wait + Sync>(
    rt: &HostRuntime,
    threads: &T,
    method: Method,
    path: &str,
) -> Result<ExitStatus, Fault> {
    let mut text = opened(open(rt, path))?;
    Ok(judged(rt, threads, method, &mut text, |text| {
        do_run(
            threads,
            rt.alloc(),
            method,
            text,
            &mut rt.stdout(),
            &mut rt.stderr(),
        )
    }))
}

// `-` is standard input for one of the two, and the name of a file where that is taken. Both are opened before either is read.
fn audit(rt: &HostRuntime, path: &str, trace: &str) -> Result<ExitStatus, Fault> {
    let mut text = opened(open(rt, path))?;
    let mut trace = opened(open_beside(rt, &text, trace))?;
    apart(&text, &trace, Fault::Trace(TraceError::ReadFault))?;
    Ok(do_audit(
        rt.alloc(),
        &mut text,
        &mut trace,
        &mut rt.stdout(),
        &mut rt.stderr(),
    ))
}

fn explain<T: Threads>(
    rt: &HostRuntime,
    threads: &T,
    path: &str,
    trace: Option<&str>,
) -> Result<ExitStatus, Fault> {
    let mut text = opened_or_told(rt, path, open(rt, path))?;
    match trace {
        Some(trace) => explain_trace(rt, &mut text, trace),
        None => Ok(noticed(rt, threads, &mut text, |text| {
            do_explain(rt.alloc(), text, &mut rt.stdout(), &mut rt.stderr())
        })),
    }
}

// `-` is standard input for one of the two, and the name of a file where that is taken. Both are opened before either is read.
fn explain_trace(rt: &HostRuntime, text: &mut Source, path: &str) -> Result<ExitStatus, Fault> {
    let mut trace = opened_or_told(rt, path, open_beside(rt, text, path))?;
    apart(text, &trace, Fault::Trace(TraceError::ReadFault))?;
    // (by its first line it may be a witness)
    let mut trace = Peeked::new(&mut trace);
    let (mut output, mut errors) = (rt.stdout(), rt.stderr());
    if trace.is_front(FIRST_LINE) {
        return Ok(do_explain_witness(rt.alloc(), text, &mut trace, &mut output, &mut errors));
    }
    if trace.begins_with(b"fence ") || trace.begins_with(b"#") {
        let _ = output.write_all(SECOND_SCENARIO);
    }
    Ok(do_explain_trace(rt.alloc(), text, &mut trace, &mut output, &mut errors))
}

const SECOND_SCENARIO: &[u8] =
    b"The second file looks like a scenario: fence explain takes one scenario, and a trace or a witness of
it behind that.\n";

// Prints clap's text for a command line that it refuses; help and the version come here too.
fn refuse(rt: &HostRuntime, error: &clap::Error) -> Result<ExitStatus, Fault> {
    if error.kind() == ErrorKind::OutOfMemory {
        return Err(Fault::Memory);
    }
    let _ = rt.eprint(error);
    Ok(ExitStatus::Usage)
}
