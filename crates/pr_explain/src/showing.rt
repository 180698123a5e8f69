//! A state of the unit that a view shows, and in which a send is refused.

use crate::circumstance::Circumstance;
use crate::combination::Combination;
use crate::list::List;
use crate::refused_send::RefusedSend;
use pr_sets::MOST;
use pr_views::Possibilities;
use std::alloc::{AllocError, Global};

/// A state that a view shows.
#[derive(Drop)]
pub(crate) struct Shown {
    /// What is so in it, a fact for each list of the view.
    pub facts: Vec<Circumstance>,
    /// Those of them that aren't so in each shown state in which the send is refused.
    pub chance: Combination,
}

/// The first shown state in which the send is refused, if there is one.
pub(crate) fn first_refused(
    alloc: Global,
    refused: &RefusedSend<'_>,
) -> Result<Option<Shown>, AllocError> {
    let whole = refused.view.possibilities();
    if !refused.is_refused(alloc, &whole)? {
        return Ok(None);
    }
    let mut left = whole;
    let mut shown = Shown {
        facts: Vec::new(alloc),
        chance: Combination::NONE,
    };
    let nexuses = (0..refused.view.hosts).map(List::Nexus);
    for list in nexuses.chain([List::Reservation, List::Pending]) {
        let Some(number) = narrow(alloc, refused, &mut left, list)? else {
            continue;
        };
        let Some(fact) = list.fact(refused.view, number) else {
            continue;
        };
        if refused.is_refused(alloc, &list.without(&whole, number))? {
            shown.chance.add(shown.facts.len());
        }
        shown.facts.push(fact)?;
    }
    Ok(Some(shown))
}

// Takes out of the list what the send needn't have to be refused. One item is left, whose number is answered.
fn narrow(
    alloc: Global,
    refused: &RefusedSend<'_>,
    left: &mut Possibilities,
    list: List,
) -> Result<Option<u8>, AllocError> {
    let mut kept = None;
    for number in (0..MOST).rev() {
        let less = list.without(left, number);
        if less == *left {
            continue;
        }
        if refused.is_refused(alloc, &less)? {
            *left = less;
        } else {
            kept = Some(number);
        }
    }
    Ok(kept)
}
