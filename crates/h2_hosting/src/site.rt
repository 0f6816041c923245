//! The handler of a folder.

ghost use Rattle.std.specs.Prelude.{◌≡◌, length};
ghost use Rattle.h2_server.specs.Parts.{FitsPart};
ghost use Rattle.h2_hosting.specs.Serving.{GivesSending};

use h2_folder::{Answered, Folder, Sending};
use h2_server::{Cause, FieldList, Handler, HandlerFault, Part, Reply};
use std::alloc::Global;
use std::fs::Files;
use std::io::{Read, Seek};
use std::time::Clock;

/// Answers requests with the files of a folder.
#[derive(Drop)]
pub struct Site<'a, R> {
    /// The folder that is served, of the crate `h2_folder`.
    pub folder: Folder<'a, R>,
}

impl<'a, R: Files + Clock> Handler for Site<'a, R> {
    ghost use Rattle.std.specs.Prelude.{◌≡◌, Ok};
    ghost use Rattle.h2_server.specs.declared.handler.Reply.TheVariants as replies;
    ghost use Rattle.h2_hosting.specs.Serving.{AnswersSite, GivesSite};

    type Work = Option<Sending<R::File>>;

    ghost heads = { λ old id list end result new. (new ≡ old) × AnswersSite list result };

    ghost bodies = { λ old work octets end result after new.
        (new ≡ old) × (after ≡ work) × (result ≡ Ok replies.Later) };

    ghost trails = { λ old work list result after new.
        (new ≡ old) × (after ≡ work) × (result ≡ Ok replies.Later) };

    ghost gives = { λ old work part room after new.
        (new ≡ old) × GivesSite R.File.remaining work part room after };

    ghost ends = { λ old work cause new. new ≡ old };

    // contract: hosts (own) A site answers as its folder does
    // rule: hosts (own) A site answers as its folder does
    fn head(
        &mut self,
        alloc: Global,
        _id: u32,
        list: &FieldList,
        _end: bool,
    ) -> Result<(Option<Sending<R::File>>, Reply), HandlerFault> {
        match self.folder.answer(alloc, list)? {
            // The body of a request is not wanted.
            Answered::Whole(message) => Ok((None, Reply::Refuse(message))),
            Answered::Parts(head, sending) => Ok((Some(sending), Reply::Parts(head))),
        }
    }

    fn body(
        &mut self,
        _alloc: Global,
        _work: &mut Option<Sending<R::File>>,
        _octets: &[u8],
        _end: bool,
    ) -> Result<Reply, HandlerFault> {
        Ok(Reply::Later)
    }

    fn trailers(
        &mut self,
        _alloc: Global,
        _work: &mut Option<Sending<R::File>>,
        _list: &FieldList,
    ) -> Result<Reply, HandlerFault> {
        Ok(Reply::Later)
    }

    fn part(
        &mut self,
        _alloc: Global,
        work: &mut Option<Sending<R::File>>,
        room: &mut [u8],
    ) -> Result<Part, HandlerFault> {
        match work {
            Some(sending) => part_of(sending, room),
            None => Err(HandlerFault::Failed),
        }
    }

    fn over(&mut self, _work: Option<Sending<R::File>>, _cause: Cause) {}
}

// contract: hosts (own) A file is sent in parts, as many octets as its head says
// rule: hosts (own) A file is sent in parts, as many octets as its head says
/// Returns the next part of a file; `Part::Last` if and only if nothing is left after it.
///
/// # Errors
///
/// [`HandlerFault::Failed`] if the file cannot be read, or has become shorter.
fn part_of<F: Read + Seek + Drop>(
    sending: &mut Sending<F>,
    room: &mut [u8],
) -> Result<Part, HandlerFault>
    ensures gives { GivesSending F.remaining sending.old result room.new sending.new }
    ensures length { length room.new ≡ length room.old }
    ensures fits { FitsPart (length room.old) result }
{
    let Some(count) = sending.next_part(room) else {
        return Err(HandlerFault::Failed);
    };
    if sending.is_done() {
        return Ok(Part::Last(count));
    }
    Ok(Part::Octets(count))
}
