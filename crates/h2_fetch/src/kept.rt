//! What is kept of streams until it is asked for.

ghost use Rattle.std.specs.Prelude.{◌≡◌, ◌∷◌, ◌++◌, [], OnErr, OnOk, true};
ghost use Rattle.h2_fetch.specs.Kept.{KeepsAll, KeepsAlso, TakesKept};
ghost use Rattle.h2_fetch.specs.Several.{kept_on};

use crate::connection::Came;
use h2_numbers::NumberMap;
use std::alloc::{AllocError, Global};
use std::collections::VecDeque;

/// What came on a stream and was not asked for yet, in order.
#[derive(Drop)]
pub(crate) struct Queue {
    /// The parts, the first one first.
    pub(crate) parts: VecDeque<Came>,
}

// rule: engines (own) Responses of several requests are what is handed out, each in order
/// Takes out the first that is kept of a stream.
pub(crate) fn take_kept(kept: &mut NumberMap<Queue>, id: u32) -> Option<Came>
    ensures { TakesKept id kept.old.entries kept.new.entries result }
{
    let came = take_first(kept, id)?;
    if is_empty_at(kept, id) {
        kept.remove(id);
    }
    Some(came)
}

// rule: engines (own) Responses of several requests are what is handed out, each in order
/// Keeps what came on a stream, after all that is kept of it.
///
/// # Errors
///
/// [`AllocError`] if an allocation was refused: it is lost, and nothing else is.
pub(crate) fn keep(
    alloc: Global,
    kept: &mut NumberMap<Queue>,
    id: u32,
    came: Came,
) -> Result<(), AllocError>
    ensures ok { OnOk result (KeepsAlso id came kept.old.entries kept.new.entries) }
    ensures err { OnErr result (KeepsAll kept.old.entries kept.new.entries) }
{
    if let Some(queue) = kept.get_mut(id) {
        return push(queue, came);
    }
    let mut queue = Queue {
        parts: VecDeque::new(alloc),
    };
    push(&mut queue, came)?;
    kept.insert(id, queue)
}

/// Takes out the first that is kept of a stream.
fn take_first(kept: &mut NumberMap<Queue>, id: u32) -> Option<Came>
    ensures { TakesKept id kept.old.entries kept.new.entries result }
{
    kept.get_mut(id)?.parts.pop_front()
}

/// Whether a stream has an entry, and nothing is kept there.
fn is_empty_at(kept: &NumberMap<Queue>, id: u32) -> bool
    ensures { result ≡ true → kept_on id kept.now.entries ≡ [] }
{
    match kept.get(id) {
        Some(queue) => queue.parts.is_empty(),
        None => false,
    }
}

/// Adds to the end of a queue.
fn push(queue: &mut Queue, came: Came) -> Result<(), AllocError>
    ensures ok { OnOk result (queue.new.parts.items ≡ queue.old.parts.items ++ came ∷ []) }
    ensures err { OnErr result (queue.new.parts.items ≡ queue.old.parts.items) }
{
    match queue.parts.push_back(came) {
        Ok(()) => Ok(()),
        Err(_) => Err(AllocError),
    }
}
