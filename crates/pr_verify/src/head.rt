//! What comes first of a list of statements.

ghost use Rattle.std.specs.Prelude.{◌≡◌};
ghost use Rattle.pr_script.specs.Trees.{statement_of, statements_in};
ghost use Rattle.pr_verify.specs.Places.{out_of, head_of, head_of_all};

use pr_script::Statement;

/// What comes first of a list of statements, or of one.
#[derive(Clone, Copy, Debug, PartialEq, Eq)]
pub enum Head {
    /// The send of this line.
    Line(u32),
    /// Nothing: what stands behind comes next.
    Falls,
    /// A break.
    Breaks,
    /// A stop.
    Stops,
}

impl Head {
    // What comes first of a repeat whose body has this head: a break leaves it.
    fn out_of_repeat(self) -> Head
        ensures { result ≡ out_of self }
    {
        match self {
            Head::Breaks => Head::Falls,
            head => head,
        }
    }
}

/// What comes first of the statements.
#[cycle(heads)]
pub(crate) fn head_in(statements: &[Statement]) -> Head
    ensures { result ≡ head_of_all (statements_in statements.now) }
{
    for statement in statements {
        let head = head_at(statement);
        if head != Head::Falls {
            return head;
        }
    }
    Head::Falls
}

#[cycle(heads)]
fn head_at(statement: &Statement) -> Head
    ensures { result ≡ head_of (statement_of statement.now) }
{
    match statement {
        Statement::Send { line, .. } => Head::Line(*line),
        Statement::Repeat { count, body } => {
            if *count == 0 {
                return Head::Falls;
            }
            head_in(&body.statements).out_of_repeat()
        }
        Statement::Break => Head::Breaks,
        Statement::Stop(_) => Head::Stops,
    }
}
