//! How a place leads to the next send or stop.

ghost use Rattle.std.specs.Prelude.{◌≡◌, ℕ, ◌<◌, ◌≤◌, List, IfSome, IfNone};
ghost use Rattle.arrayvec.specs.ArrayVec.{array_vec_len};
ghost use Rattle.pr_script.specs.declared.limits.TheConstants.{MOST_OPEN};
ghost use Rattle.pr_script.specs.Scripts.{Stmts, none, before, turn, past_mark, becomes, settled_form};
ghost use Rattle.pr_script.specs.Programs.{place, open_configuration, configuration, AreLoops};
ghost use Rattle.pr_script.specs.inside.Program.{meanings, IsPlaced, IsMachine};
ghost use Rattle.pr_script.specs.inside.Advances.{Leads};

use crate::limits::MOST_OPEN;
use crate::rows::{Instruction, Operation};
use arrayvec::ArrayVec;

/// The repeats that are open, the innermost last.
pub(crate) type Loops = ArrayVec<LoopFrame, MOST_LOOPS>;

// As many as may be open.
const MOST_LOOPS: usize = MOST_OPEN as usize;

/// A repeat that is open: how often its body is still to run after this time, where the body begins, and
/// what follows the repeat.
#[derive(Clone, Copy, Default, PartialEq, Eq, Hash)]
pub(crate) struct LoopFrame {
    pub left: u32,
    pub body: usize,
    pub next: usize,
}

/// The place at which a send, a stop or the script's end comes, from this one on.
pub(crate) fn settle(rows: &[Instruction], from: usize, opens: &mut Loops) -> usize
    requires { IsPlaced rows.now from opens.old.items }
    ensures machine { IsMachine rows.now result opens.new.items }
    ensures reached { configuration (meanings rows.now) result opens.new.items
        ≡ settled_form (configuration (meanings rows.now) from opens.old.items) }
{
    let mut at = from;
    while let Some(to) = advance(rows, at, opens) {
        at = to;
    }
    at
}

// Where the place leads, if it is no send, no stop and not the script's end.
fn advance(rows: &[Instruction], at: usize, opens: &mut Loops) -> Option<usize>
    requires { IsPlaced rows.now at opens.old.items }
    ensures placed { IfSome result (λ to. IsPlaced rows.now to opens.new.items) }
    ensures leads { IfSome result (λ to. Leads
        (configuration (meanings rows.now) at opens.old.items)
        (configuration (meanings rows.now) to opens.new.items)) }
    ensures rests { IfNone result (becomes (configuration (meanings rows.now) at opens.old.items)
        ≡ configuration (meanings rows.now) at opens.old.items) }
    ensures same { IfNone result (opens.new ≡ opens.old) }
{
    if at == 0 {
        let again = opens.pop()?;
        return Some(repeat_or_exit(again, opens));
    }
    let row = &rows[at - 1];
    match &row.step {
        Operation::Send { .. } => None,
        Operation::Stop(_) => None,
        Operation::Repeat { count, body } => {
            let again = LoopFrame {
                left: *count,
                body: *body,
                next: row.next,
            };
            Some(repeat_or_exit(again, opens))
        }
        Operation::Break => Some(exit_loop(opens)),
    }
}

// Runs the body once more where it is still to run, and else goes on after the repeat.
fn repeat_or_exit(again: LoopFrame, opens: &mut Loops) -> usize
    requires { 0 < again.left → array_vec_len opens.old < MOST_OPEN }
    ensures to { (ms : List Stmts) → configuration ms result opens.new.items
        ≡ turn again.left (place ms again.body)
        (before (place ms again.next) (open_configuration ms opens.old.items)) }
    ensures within { (top : ℕ) → again.body ≤ top → again.next ≤ top → AreLoops top opens.old.items
        → (result ≤ top) × AreLoops top opens.new.items }
{
    if again.left == 0 {
        return again.next;
    }
    opens.push(LoopFrame {
        left: again.left - 1,
        body: again.body,
        next: again.next,
    });
    again.body
}

// Goes on after the innermost repeat.
fn exit_loop(opens: &mut Loops) -> usize
    ensures to { (ms : List Stmts) → place ms 0 ≡ none
        → configuration ms result opens.new.items
        ≡ past_mark (open_configuration ms opens.old.items) }
    ensures within { (top : ℕ) → AreLoops top opens.old.items
        → (result ≤ top) × AreLoops top opens.new.items }
{
    match opens.pop() {
        Some(left) => left.next,
        None => 0,
    }
}
