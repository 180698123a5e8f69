//! What is declared of a nexus so far.

ghost use Rattle.std.specs.Prelude.{◌≡◌, ◌<◌, IfSome, Some, None, fold, length, position, bytes_eq};
ghost use Rattle.pr_text.specs.Declaring.{codes_of};

use pr_attention::{Attention, Pending};
use pr_lines::RefusalKind;
use pr_roles::{Clause, Task, Word};
use std::alloc::Global;

/// What is declared of a nexus so far.
#[derive(Drop)]
pub struct Draft {
    pub name: Word,
    /// The line that declares it.
    pub line: u32,
    pub is_guest: bool,
    pub start: Option<Vec<Option<u64>>>,
    pub pending: Option<Pending>,
    /// How often it may be answered BUSY, and how often TASK SET FULL.
    pub busy: Option<u32>,
    pub full: Option<u32>,
    /// Nobody else sends on its path.
    pub alone: bool,
    pub role: Vec<Clause>,
    pub task: Option<Task>,
}

impl Draft {
    ghost use Rattle.std.specs.Prelude.{◌≡◌, [], None, false};
    ghost use Rattle.pr_text.specs.Declaring.{count_in};
    ghost use Rattle.pr_text.specs.NextLine.{with_count};
    ghost use Rattle.pr_text.specs.inside.Drafts.{draft_seen};

    /// A nexus of which nothing more is said yet.
    pub fn new(alloc: Global, name: Word, line: u32, is_guest: bool) -> Self
        ensures { draft_seen result ≡ record {
          name = name.bytes;
          line = line;
          is_guest = is_guest;
          start = None;
          pending = None;
          busy = None;
          full = None;
          alone = false;
          role = [];
          task = None;
        } }
    {
        Draft {
            name,
            line,
            is_guest,
            start: None,
            pending: None,
            busy: None,
            full: None,
            alone: false,
            role: Vec::new(alloc),
            task: None,
        }
    }

    /// How often this refusal may come, where a line has said it.
    pub fn count(&self, refusal: RefusalKind) -> Option<u32>
        ensures { result ≡ count_in refusal (draft_seen self.now) }
    {
        match refusal {
            RefusalKind::Busy => self.busy,
            RefusalKind::Full => self.full,
        }
    }

    /// This refusal may come so often.
    pub fn set_count(&mut self, refusal: RefusalKind, count: u32)
        ensures { draft_seen self.new ≡ with_count refusal count (draft_seen self.old) }
    {
        match refusal {
            RefusalKind::Busy => self.busy = Some(count),
            RefusalKind::Full => self.full = Some(count),
        }
    }
}

/// The set of these attentions.
pub fn pending_of(attentions: &[Attention]) -> Pending
    ensures { result ≡ codes_of attentions.now }
{
    let mut pending = Pending::new();
    for attention in attentions {
        pending.add(*attention);
    }
    pending
}

/// The number of the nexus with this name.
pub fn number_in(nexuses: &[Draft], name: &Word) -> Option<usize>
    ensures value { result ≡ position (λ x. bytes_eq x.name.bytes name.now.bytes) nexuses.now }
    ensures within { IfSome result (λ h. h < length nexuses.now) }
{
    nexuses.iter().position(|nexus| nexus.name == *name)
}
