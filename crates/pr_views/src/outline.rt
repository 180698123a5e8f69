//! Outlines.

ghost use Rattle.std.specs.Prelude.{◌≡◌, IfOk};
ghost use Rattle.pr_views.specs.Tables.{outline_of};

use crate::view::ViewOf;
use pr_sets::{ViewSet, WordSet};
use std::alloc::{AllocError, Global};

/// What a host can know of the logical unit at each send of its script, by views of some kind.
// The views are a parameter, and not only their sets, so that whoever has an outline knows that such a view fits in memory.
#[derive(Drop)]
pub struct OutlineBy<V> {
    pub host: u8,
    /// The line of each send, with what the host can know when it sends its command: in the order of the lines.
    pub views: Vec<(u32, V)>,
}

/// The same, by the sets of the views.
pub type OutlineOf<S> = OutlineBy<ViewOf<S>>;

/// An outline whose views take no memory of their own.
pub type Outline = OutlineOf<WordSet>;

impl<S: ViewSet> OutlineBy<ViewOf<S>> {
    /// The same outline by other sets. Where memory is refused, nothing is left behind.
    pub fn in_sets<T: ViewSet>(&self, alloc: Global) -> Result<OutlineOf<T>, AllocError>
        ensures { IfOk result (λ outline. outline_of outline ≡ outline_of self.now) }
    {
        let mut views = Vec::with_capacity(alloc, self.views.len())?;
        for (line, view) in &self.views {
            views.push((*line, view.in_sets(alloc)?))?;
        }
        Ok(OutlineBy {
            host: self.host,
            views,
        })
    }
}
