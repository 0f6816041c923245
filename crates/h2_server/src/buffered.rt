//! A handler that collects complete requests.

ghost use Rattle.std.specs.Prelude.{◌≡◌, ⊤, List, Option, Result, ℕ};
ghost use Rattle.hpack.specs.declared.types.field.Field.{Field};
ghost use Rattle.h2_message.specs.declared.message.Message.{Message};
ghost use Rattle.h2_server.specs.declared.handler.HandlerFault.{HandlerFault};
ghost use Rattle.h2_server.specs.Buffering.{AnswersGathered, AnswersIfWhole, trailers_of};

use crate::handler::{Cause, Handler, HandlerFault, Part, Reply};
use h2_ends::{Field, FieldList, Message};
use std::alloc::Global;

/// The status of the response to a request whose body is too long (RFC 9110, section 15.5.14).
const TOO_LARGE: u16 = 413;

/// The octets that a field takes besides its name and its value.
const FIELD_SIZE: usize = 64;

/// A complete request.
#[derive(Debug, Drop)]
pub struct Request {
    /// The pseudo-header fields, and then the regular fields.
    pub head: Vec<Field>,
    /// The body.
    pub body: Vec<u8>,
    /// The trailers, if there are any.
    pub trailers: Option<Vec<Field>>,
}

impl Request {
    /// Returns the value of the first field of the head with this name.
    pub fn value(&self, name: &[u8]) -> Option<&[u8]> {
        for field in &self.head {
            if field.name.as_slice() == name {
                return Some(field.value.as_slice());
            }
        }
        None
    }
}

/// What was received of a request. It is kept until its exchange is over, the request is refused,
/// or an error is returned for it.
#[derive(Debug, Drop)]
pub struct BufferedRequest {
    request: Request,
    /// The octets that its fields hold.
    fields: usize,
}

/// Responds to complete requests.
///
/// An implementor may state its behaviour by the `ghost` relation `responds`, as for [`Handler`].
pub trait Service: Drop {
    /// Relates a request's head, body and trailers to the results that it may have.
    ghost responds: { Self → (head : List Field) → (body : List ℕ)
        → (trailers : Option (List Field)) → Result Message HandlerFault → Self → Type 0 } = { λ _ _ _ _ _ _. ⊤ };

    /// Returns the response to a request.
    ///
    /// # Errors
    ///
    /// On an error the response is status 500.
    fn respond(&mut self, alloc: Global, request: &Request) -> Result<Message, HandlerFault>
        ensures { responds self.old request.now.head.items request.now.body.items
            (trailers_of request.now) result self.new };
}

/// Collects each request, and calls a [`Service`] once it is complete. A request whose body is
/// longer than the limit given to [`Buffered::new`] is refused: its response is status 413
/// ([`Reply::Refuse`]).
#[derive(Drop)]
pub struct Buffered<S> {
    service: S,
    most: usize,
}

impl<S: Service> Buffered<S> {
    /// Creates one over a service, for request bodies of at most `most` octets.
    pub fn new(service: S, most: usize) -> Buffered<S>
        ensures { result ≡ record { service = service; most = most } }
    {
        Buffered { service, most }
    }

    /// Responds to a complete request.
    fn answer(&mut self, alloc: Global, request: &Request) -> Result<Reply, HandlerFault>
        ensures answers { AnswersGathered S.responds request.now self.old.service result
            self.new.service }
        ensures most { self.new.most ≡ self.old.most }
    {
        let message = self.service.respond(alloc, request)?;
        Ok(Reply::Whole(message))
    }

    /// Responds to a request if it is complete.
    fn answer_if(
        &mut self,
        whole: bool,
        alloc: Global,
        request: &Request,
    ) -> Result<Reply, HandlerFault>
        ensures { AnswersIfWhole S.responds whole request.now self.old result self.new }
    {
        if !whole {
            return Ok(Reply::Later);
        }
        self.answer(alloc, request)
    }
}

impl<S: Service> Handler for Buffered<S> {
    ghost use Rattle.h2_server.specs.Buffering.{GathersHead, GathersBody, GathersTrailers};
    ghost use Rattle.h2_server.specs.Buffering.{GivesNoPart};

    /// `None` once the request was refused, or an error was returned for it.
    type Work = Option<BufferedRequest>;

    ghost heads = { λ old id list end result new. GathersHead S.responds old list end result new };

    ghost bodies = { λ old work octets end result next new.
        GathersBody S.responds old work octets end result next new };

    ghost trails = { λ old work list result next new.
        GathersTrailers S.responds old work list result next new };

    ghost gives = { λ old work result room next new. GivesNoPart old work result next new };

    ghost ends = { λ old work cause new. new ≡ old };

    // rule: handlers (own) A whole request is answered by what has come of it, all and in order
    fn head(
        &mut self,
        alloc: Global,
        _id: u32,
        list: &FieldList,
        end: bool,
    ) -> Result<(Option<BufferedRequest>, Reply), HandlerFault> {
        let request = Request {
            head: list.to_vec(alloc)?,
            body: Vec::new(alloc),
            trailers: None,
        };
        let reply = self.answer_if(end, alloc, &request)?;
        let fields = octets_of(&request.head);
        Ok((Some(BufferedRequest { request, fields }), reply))
    }

    // contract: handlers (own) A whole request is answered by what has come of it, all and in order
    // rule: handlers (own) A whole request is answered by what has come of it, all and in order
    // contract: HTTP 15.5.14 (own) A body above what is gathered is refused with status 413
    // rule: HTTP 15.5.14 (own) A body above what is gathered is refused with status 413
    fn body(
        &mut self,
        alloc: Global,
        work: &mut Option<BufferedRequest>,
        octets: &[u8],
        end: bool,
    ) -> Result<Reply, HandlerFault> {
        // Put back unless the request is refused or an error is returned.
        let Some(mut gathered) = work.take() else {
            return Ok(Reply::Later);
        };
        if octets.len() > self.most.saturating_sub(gathered.request.body.len()) {
            return Ok(Reply::Refuse(Message::response(alloc, TOO_LARGE)?));
        }
        gathered.request.body.extend_from_slice(octets)?;
        let reply = self.answer_if(end, alloc, &gathered.request)?;
        *work = Some(gathered);
        Ok(reply)
    }

    // rule: handlers (own) A whole request is answered by what has come of it, all and in order
    fn trailers(
        &mut self,
        alloc: Global,
        work: &mut Option<BufferedRequest>,
        list: &FieldList,
    ) -> Result<Reply, HandlerFault> {
        let Some(BufferedRequest { request, fields }) = work.take() else {
            return Ok(Reply::Later);
        };
        let mut request = request;
        let trailers = list.to_vec(alloc)?;
        let fields = fields.saturating_add(octets_of(&trailers));
        request.trailers = Some(trailers);
        let reply = self.answer(alloc, &request)?;
        *work = Some(BufferedRequest { request, fields });
        Ok(reply)
    }

    fn part(
        &mut self,
        _alloc: Global,
        _work: &mut Option<BufferedRequest>,
        _room: &mut [u8],
    ) -> Result<Part, HandlerFault> {
        Err(HandlerFault::Failed)
    }

    fn held(&self, work: &Option<BufferedRequest>) -> usize {
        match work {
            Some(gathered) => gathered.request.body.len().saturating_add(gathered.fields),
            None => 0,
        }
    }

    fn over(&mut self, _work: Option<BufferedRequest>, _cause: Cause) {}
}

/// The octets that fields hold: their names and values, and [`FIELD_SIZE`] for each.
fn octets_of(fields: &[Field]) -> usize {
    let mut octets = 0usize;
    for field in fields {
        let own = field
            .name
            .as_slice()
            .len()
            .saturating_add(field.value.as_slice().len());
        octets = octets.saturating_add(own.saturating_add(FIELD_SIZE));
    }
    octets
}

/// Echoes each request: its method, a space, its path, a newline and its body. The response to
/// HEAD has no body.
#[derive(Clone, Copy, Debug)]
pub struct Echo;

impl Service for Echo {
    fn respond(&mut self, alloc: Global, request: &Request) -> Result<Message, HandlerFault> {
        let method = request.value(b":method").unwrap_or(b"");
        let message = Message::response(alloc, 200)?;
        if method == b"HEAD".as_slice() {
            return Ok(message);
        }
        let path = request.value(b":path").unwrap_or(b"");
        let room = method.len().saturating_add(path.len()).saturating_add(2);
        let mut text = Vec::with_capacity(alloc, room.saturating_add(request.body.len()))?;
        text.extend_from_slice(method)?;
        text.extend_from_slice(b" ")?;
        text.extend_from_slice(path)?;
        text.extend_from_slice(b"\n")?;
        text.extend_from_slice(&request.body)?;
        let length = text.len().to_string(alloc)?;
        let mut message = message.field(alloc, b"content-length", length.as_bytes())?;
        message.body = text;
        Ok(message)
    }
}
