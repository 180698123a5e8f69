//! The text of a table.

ghost use Rattle.std.specs.Prelude.{◌≡◌, ◌≤◌, ◌+◌, ◌++◌, ◌∷◌, []};
ghost use Rattle.std.specs.List.{flat_map};
ghost use Rattle.pr_cdb.specs.Spelling.{spelling};
ghost use Rattle.pr_script.specs.Trees.{script_of, statement_of, statements_in};
ghost use Rattle.pr_script.specs.inside.ArmLists.{arms_in};
ghost use Rattle.pr_roles.specs.Scenarios.{scenario_of, task};
ghost use Rattle.pr_roles.specs.Tasks.{IsScripted};
ghost use Rattle.pr_output.specs.Written.{Writes};
ghost use Rattle.pr_table.specs.Rows.{again_row, arm_rows, first_row, leave_row, repeat_row, row_count, row_count_of_all, row_count_of_arms, rows_of, rows_of_all, rows_of_arms, send_row, stop_row, table_rows};
ghost use Rattle.pr_table.specs.TableText.{arm_line, host_line, host_table_text, row_text, rows_text, send_line, table_text, version_line};
ghost use Rattle.pr_table.specs.declared.counts.TheConstants.{MOST_ROWS};

use crate::counts::{row_count, row_count_of_all};
use pr_cdb::{Command, encode};
use pr_output::{Token, WriteFault, put, put_line, put_spaced};
use pr_report::put_test;
use pr_roles::{Scenario, Task, nexus_in};
use pr_script::{Arm, Script, Statement, Test};
use std::io::Write;

/// Writes the table of a host's script: the scenario's version, and a row for each statement, with the command's bytes where that
/// is a send, and the row that follows each of its arms. On a fault, what went out is a front of it, and not all.
pub fn write_table<W: Write>(
    writer: &mut W,
    scenario: &Scenario,
    host: u8,
) -> Result<(), WriteFault>
    requires { IsScripted (task (scenario_of scenario.now) host) }
    ensures { Writes W.Write writer (host_table_text (scenario_of scenario.now) host) result }
{
    let version = scenario.parts().version;
    let nexus = nexus_in(scenario, host);
    match &nexus.task {
        Task::Scripted { script, budget } => {
            let name = nexus.name.as_str().as_bytes();
            put_table(writer, version, name, script, *budget)
        }
        Task::Planned(_) => unreachable!(),
    }
}

fn put_table<W: Write>(
    writer: &mut W,
    version: u8,
    name: &[u8],
    script: &Script,
    budget: u32,
) -> Result<(), WriteFault>
    requires { row_count_of_all (script_of script.now) ≤ MOST_ROWS }
    ensures { Writes W.Write writer (table_text version name.now budget
        (table_rows (script_of script.now))) result }
{
    put_version(writer, version)?;
    put_host(writer, name, budget)?;
    put_script(writer, script)
}

#[tactic(auto, unfolding(pr_output::specs::Printed::printed_word, crate::specs::TableText::version_line))]
fn put_version<W: Write>(writer: &mut W, version: u8) -> Result<(), WriteFault>
    ensures { Writes W.Write writer (version_line version) result }
{
    put_line(
        writer,
        Token::Text(b"fence-table"),
        &[Token::Number(u64::from(version))],
    )
}

#[tactic(auto, unfolding(pr_output::specs::Printed::printed_word, crate::specs::TableText::host_line))]
fn put_host<W: Write>(writer: &mut W, name: &[u8], budget: u32) -> Result<(), WriteFault>
    ensures { Writes W.Write writer (host_line name.now budget) result }
{
    let budget = Token::Number(u64::from(budget));
    put_line(
        writer,
        Token::Text(b"host"),
        &[Token::Text(name), Token::Text(b"budget"), budget],
    )
}

// All its rows, the end among them.
fn put_script<W: Write>(writer: &mut W, script: &Script) -> Result<(), WriteFault>
    requires { row_count_of_all (script_of script.now) ≤ MOST_ROWS }
    ensures { Writes W.Write writer (rows_text 1 (table_rows (script_of script.now))) result }
{
    let end = 1 + row_count_of_all(script);
    put_statements(writer, &script.statements, 1, end, end)?;
    put_stop(writer, end, b"end")
}

// The rows of statements from row `at` on, where `next` is the row that follows them, and `past` the one past the innermost repeat.
#[cycle(rows)]
fn put_statements<W: Write>(
    writer: &mut W,
    statements: &[Statement],
    at: u32,
    next: u32,
    past: u32,
) -> Result<(), WriteFault>
    requires { at + row_count_of_all (statements_in statements.now) ≤ MOST_ROWS + 1 }
    ensures { Writes W.Write writer (rows_text at
        (rows_of_all at next past (statements_in statements.now))) result }
{
    let mut row = at;
    for (i, statement) in statements.iter().enumerate() {
        let behind = row + row_count(statement);
        let onto = first_row(behind, next, &statements[i + 1..]);
        put_statement(writer, statement, row, onto, past)?;
        row = behind;
    }
    Ok(())
}

#[cycle(rows)]
#[tactic(auto, using(crate::proofs::lemmas::Rows::Counts::rows_of_send, crate::proofs::lemmas::Rows::Counts::rows_of_repeat))]
fn put_statement<W: Write>(
    writer: &mut W,
    statement: &Statement,
    at: u32,
    next: u32,
    past: u32,
) -> Result<(), WriteFault>
    requires { at + row_count (statement_of statement.now) ≤ MOST_ROWS + 1 }
    ensures { Writes W.Write writer (rows_text at
        (rows_of at next past (statement_of statement.now))) result }
{
    match statement {
        Statement::Send {
            line,
            command,
            arms,
        } => {
            put_send(writer, at, *line, command, arms, next)?;
            put_bodies(writer, arms, at + 1, next, past)
        }
        Statement::Repeat { count, body } => {
            put_repeat(writer, at, *count, next)?;
            put_body(writer, body, at, next)
        }
        Statement::Break => put_leave(writer, at, past),
        Statement::Stop(word) => put_stop(writer, at, word.as_str().as_bytes()),
    }
}

// The rows of a body of the repeat at this row, and the row at its end.
#[cycle(rows)]
fn put_body<W: Write>(
    writer: &mut W,
    body: &Script,
    repeat: u32,
    past: u32,
) -> Result<(), WriteFault>
    requires { repeat + 2 + row_count_of_all (script_of body.now) ≤ MOST_ROWS + 1 }
    ensures { Writes W.Write writer (rows_text (repeat + 1)
        (rows_of_all (repeat + 1) (repeat + 1 + row_count_of_all (script_of body.now)) past
        (script_of body.now) ++ again_row repeat ∷ [])) result }
{
    let again = repeat + 1 + row_count_of_all(body);
    put_statements(writer, &body.statements, repeat + 1, again, past)?;
    put_again(writer, again, repeat)
}

// The rows of the bodies of arms.
#[cycle(rows)]
fn put_bodies<W: Write>(
    writer: &mut W,
    arms: &[Arm],
    at: u32,
    next: u32,
    past: u32,
) -> Result<(), WriteFault>
    requires { at + row_count_of_arms (arms_in arms.now) ≤ MOST_ROWS + 1 }
    ensures { Writes W.Write writer (rows_text at
        (rows_of_arms at next past (arms_in arms.now))) result }
{
    let mut row = at;
    for arm in arms {
        put_statements(writer, &arm.body.statements, row, next, past)?;
        row += row_count_of_all(&arm.body);
    }
    Ok(())
}

// A send, and behind it a line for each arm; the bodies of arms have the rows behind it.
fn put_send<W: Write>(
    writer: &mut W,
    at: u32,
    line: u32,
    command: &Command,
    arms: &[Arm],
    next: u32,
) -> Result<(), WriteFault>
    requires { at + 1 + row_count_of_arms (arms_in arms.now) ≤ MOST_ROWS + 1 }
    ensures { Writes W.Write writer (row_text at (send_row line command.now
        (arm_rows (at + 1) next (arms_in arms.now)))) result }
{
    put_send_line(writer, at, line, command)?;
    put_arms(writer, arms, at + 1, next)
}

#[tactic(auto, unfolding(pr_output::specs::Printed::printed_word))]
fn put_send_line<W: Write>(
    writer: &mut W,
    at: u32,
    line: u32,
    command: &Command,
) -> Result<(), WriteFault>
    ensures { Writes W.Write writer (send_line at line (spelling command.now)) result }
{
    let wire = encode(command);
    put_line(
        writer,
        Token::Number(u64::from(at)),
        &[
            Token::Text(b"send"),
            Token::Number(u64::from(line)),
            Token::Bytes(wire.cdb.as_slice()),
            Token::Bytes(wire.params.as_slice()),
        ],
    )
}

fn put_arms<W: Write>(writer: &mut W, arms: &[Arm], at: u32, next: u32) -> Result<(), WriteFault>
    requires { at + row_count_of_arms (arms_in arms.now) ≤ MOST_ROWS + 1 }
    ensures { Writes W.Write writer (flat_map arm_line
        (arm_rows at next (arms_in arms.now))) result }
{
    let mut row = at;
    for arm in arms {
        put_arm(writer, arm.test, first_row(row, next, &arm.body.statements))?;
        row += row_count_of_all(&arm.body);
    }
    Ok(())
}

// The row at which statements begin that have the rows from `at` on; where there is none it is the row that follows them.
fn first_row(at: u32, next: u32, statements: &[Statement]) -> u32
    ensures { result ≡ first_row at next (statements_in statements.now) }
{
    if statements.is_empty() { next } else { at }
}

// What an arm asks, and the row that follows, behind two spaces.
fn put_arm<W: Write>(writer: &mut W, test: Test, row: u32) -> Result<(), WriteFault>
    ensures { Writes W.Write writer (arm_line (test, row)) result }
{
    put(writer, b" ")?;
    put_test(writer, test)?;
    put_spaced(writer, &[Token::Number(u64::from(row))])?;
    put(writer, b"\n")
}

#[tactic(auto, unfolding(pr_output::specs::Printed::printed_word, crate::specs::TableText::row_text))]
fn put_repeat<W: Write>(writer: &mut W, at: u32, count: u32, past: u32) -> Result<(), WriteFault>
    ensures { Writes W.Write writer (row_text at (repeat_row count past)) result }
{
    put_line(
        writer,
        Token::Number(u64::from(at)),
        &[
            Token::Text(b"repeat"),
            Token::Number(u64::from(count)),
            Token::Text(b"past"),
            Token::Number(u64::from(past)),
        ],
    )
}

#[tactic(auto, unfolding(pr_output::specs::Printed::printed_word, crate::specs::TableText::row_text))]
fn put_again<W: Write>(writer: &mut W, at: u32, repeat: u32) -> Result<(), WriteFault>
    ensures { Writes W.Write writer (rows_text at (again_row repeat ∷ [])) result }
{
    put_line(
        writer,
        Token::Number(u64::from(at)),
        &[Token::Text(b"again"), Token::Number(u64::from(repeat))],
    )
}

#[tactic(auto, unfolding(pr_output::specs::Printed::printed_word, crate::specs::TableText::row_text))]
fn put_leave<W: Write>(writer: &mut W, at: u32, past: u32) -> Result<(), WriteFault>
    ensures { Writes W.Write writer (rows_text at (leave_row past ∷ [])) result }
{
    put_line(
        writer,
        Token::Number(u64::from(at)),
        &[Token::Text(b"leave"), Token::Number(u64::from(past))],
    )
}

#[tactic(auto, unfolding(pr_output::specs::Printed::printed_word, crate::specs::TableText::row_text))]
fn put_stop<W: Write>(writer: &mut W, at: u32, word: &[u8]) -> Result<(), WriteFault>
    ensures { Writes W.Write writer (rows_text at (stop_row word.now ∷ [])) result }
{
    put_line(
        writer,
        Token::Number(u64::from(at)),
        &[Token::Text(b"stop"), Token::Text(word)],
    )
}
