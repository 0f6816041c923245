//! Fetches that begin with a window.

ghost use Rattle.std.specs.Prelude.{◌≡◌, ◌⊎◌, Err, IfErr, IfOk, OnOk, length, map};
ghost use Rattle.h2_spec_log.specs.Acts.{Values};
ghost use Rattle.h2_message.specs.Values.{message_value};
ghost use Rattle.h2_args.specs.Words.{asked_by};
ghost use Rattle.h2_engines.specs.Fetches.{IsNotAccepted};
ghost use Rattle.h2_fetch.specs.Several.{BeginsConnection};
ghost use Rattle.h2_flow.specs.ConfigValues.{values_of};
ghost use Rattle.h2_get.specs.Asking.{BeginsSeveral, MakesNext, RefusesOne, error_of_request};
ghost use Rattle.h2_get.specs.Windows.{BeginsSeveralWithWindow, BeginsWithWindow, WidensSeveralTo};
ghost use Rattle.h2_get.specs.Windows.{IsNotWidened, WidensTo};
ghost use Rattle.h2_get.specs.Windows.{fetch_values, several_values, window_among, window_asked};
ghost use Rattle.h2_get.specs.Windows.{window_of};

use h2_args::{GetOptions, window_or};
use h2_ends::{EndRefusal, Refusal};
use h2_engines::{Config, Message};
use h2_fetch::{ClientConnection, PartFetch};
use h2_frame::limits::{FIRST_TABLE, FIRST_WINDOW, LEAST_MAX_STREAMS};
use h2_net::LinkError;
use std::alloc::Global;

/// The window without `--window`, 4 MiB.
const WINDOW: u32 = 4_194_304;

// contract: engines (own) get has the window of --window, for the connection and for each stream
// rule: engines (own) get has the window of --window, for the connection and for each stream
/// Returns the window that the options ask for, by default 4 MiB. `None` if the value of
/// `--window` is not the size of one: see [`window_or`].
pub fn window_asked(options: &GetOptions<'_>) -> Option<u32>
    ensures { result ≡ window_asked (asked_by options.now) }
{
    window_or(options.window, WINDOW)
}

/// The window that the options ask for, or the default if the value is not a size.
pub(crate) fn window_of(options: &GetOptions<'_>) -> u32
    ensures { result ≡ window_of (asked_by options.now) }
{
    window_asked(options).unwrap_or(WINDOW)
}

// contract: engines (own) get has the window of --window, for the connection and for each stream
// rule: engines (own) get has the window of --window, for the connection and for each stream
/// Begins a fetch whose stream and connection have this window.
pub(crate) fn begin_fetch(
    alloc: Global,
    window: u32,
    message: Message,
) -> Result<PartFetch, LinkError>
    ensures ok { IfOk result (BeginsWithWindow window (message_value message)) }
    ensures refused { IfErr result (λ error. IsNotAccepted (fetch_values window)
        (message_value message) (Err error) ⊎ IsNotWidened error) }
{
    let Ok(config) = Config::new(FIRST_TABLE, window, LEAST_MAX_STREAMS) else {
        return Err(LinkError::Memory);
    };
    let mut fetch = match PartFetch::new(alloc, config, message) {
        Ok(fetch) => fetch,
        Err(error) => return Err(error),
    };
    match widen_fetch(&mut fetch, window) {
        Ok(()) => Ok(fetch),
        Err(error) => {
            drop(fetch);
            Err(error)
        }
    }
}

/// Requests that were made at once on a new connection.
#[derive(Drop)]
pub(crate) struct BegunRequests {
    /// The connection.
    pub(crate) fetch: ClientConnection,
    /// The streams of the requests, in their order.
    pub(crate) ids: Vec<u32>,
}

// rule: engines (own) A response that is waited for has its window, and no other
// rule: engines (own) get has the window of --window, for the connection and for each stream
/// Makes several requests at once on a new connection, which has this window, and each stream its
/// share of it.
pub(crate) fn begin_several(
    alloc: Global,
    window: u32,
    messages: Vec<Message>,
) -> Result<BegunRequests, LinkError>
    ensures ok { IfOk result (λ begun. BeginsSeveralWithWindow window
        (map message_value messages.items) begun.ids.items begun.fetch) }
    ensures refused { IfErr result (λ error. RefusesOne
        (several_values window (length messages.items)) (map message_value messages.items) error
        ⊎ IsNotWidened error) }
{
    let share = window_among(window, messages.len());
    let Ok(config) = Config::new(FIRST_TABLE, share, LEAST_MAX_STREAMS) else {
        return Err(LinkError::Memory);
    };
    let mut begun = match request_all(alloc, config, messages) {
        Ok(begun) => begun,
        Err(error) => return Err(error),
    };
    match widen_several(&mut begun.fetch, window) {
        Ok(()) => Ok(begun),
        Err(error) => {
            drop(begun);
            Err(error)
        }
    }
}

/// Makes requests on a new connection, in their order.
///
/// # Errors
///
/// - [`LinkError::Memory`] (N3) where an allocation was refused.
/// - [`LinkError::NoProgress`] (N5) where the client refuses a request for a reason that is
///   neither N3 nor N7: there are more than 100 requests (C4), or 65,536 octets or more of
///   output wait already (C7).
/// - [`LinkError::Refused`] (N7) where a message breaks a rule, or its head or its trailers
///   are larger than 65,536 octets, with 32 counted for each field.
fn request_all(
    alloc: Global,
    config: Config,
    messages: Vec<Message>,
) -> Result<BegunRequests, LinkError>
    ensures ok { IfOk result (λ begun. BeginsSeveral (values_of config)
        (map message_value messages.items) begun.ids.items begun.fetch) }
    ensures err { IfErr result (RefusesOne (values_of config) (map message_value messages.items)) }
{
    let Ok(mut fetch) = ClientConnection::new(alloc, config) else {
        return Err(LinkError::Memory);
    };
    match request_each(alloc, &mut fetch, messages) {
        Ok(ids) => Ok(BegunRequests { fetch, ids }),
        Err(error) => {
            drop(fetch);
            Err(error)
        }
    }
}

/// Makes requests on a connection, in their order, and returns their streams; or returns how the
/// fetch ends, if one was refused.
fn request_each(
    alloc: Global,
    fetch: &mut ClientConnection,
    messages: Vec<Message>,
) -> Result<Vec<u32>, LinkError>
    ensures ok { IfOk result (λ ids. (values : Values) → BeginsConnection values fetch.old
        → BeginsSeveral values (map message_value messages.items) ids.items fetch.new) }
    ensures err { IfErr result (λ error. (values : Values) → BeginsConnection values fetch.old
        → RefusesOne values (map message_value messages.items) error) }
{
    let mut ids = Vec::new(alloc);
    for message in messages {
        let id = request_next(fetch, message)?;
        if ids.push(id).is_err() {
            return Err(LinkError::Memory);
        }
    }
    Ok(ids)
}

/// Makes a request, and returns its stream; or returns how the fetch ends, if it was refused.
fn request_next(fetch: &mut ClientConnection, message: Message) -> Result<u32, LinkError>
    ensures { MakesNext (message_value message) result fetch.old fetch.new }
{
    match fetch.request(message) {
        Ok(id) => Ok(id),
        Err((_, refusal)) => Err(error_of_request(refusal)),
    }
}

/// Returns how a fetch ends whose request was refused.
fn error_of_request(refusal: EndRefusal) -> LinkError
    ensures { result ≡ error_of_request refusal }
{
    match refusal {
        EndRefusal::BadMessage(_) | EndRefusal::Conn(Refusal::ListTooLarge) => LinkError::Refused,
        EndRefusal::Conn(Refusal::Memory) => LinkError::Memory,
        _ => LinkError::NoProgress,
    }
}

// rule: engines (own) A response that is waited for has its window, and no other
/// The window of each of `streams` streams: its share, so that a response that waits never takes
/// what another one needs.
fn window_among(window: u32, streams: usize) -> u32
    ensures { result ≡ window_among window streams }
{
    match u32::try_from(streams) {
        Ok(streams) if streams > 0 => (window / streams).max(1),
        Ok(_) => window,
        Err(_) => 1,
    }
}

/// Widens the connection to a window, which has 65,535 octets without it (RFC 9113,
/// section 6.9.2).
///
/// # Errors
///
/// [`LinkError::Memory`] if an allocation was refused, [`LinkError::NoProgress`] if 65,536 octets
/// of heads wait already.
fn widen_fetch(fetch: &mut PartFetch, window: u32) -> Result<(), LinkError>
    ensures ok { OnOk result (WidensTo window fetch.old fetch.new) }
    ensures err { IfErr result IsNotWidened }
{
    let count = window.saturating_sub(FIRST_WINDOW);
    if count == 0 {
        return Ok(());
    }
    match fetch.widen(count) {
        Ok(()) => Ok(()),
        Err(refusal) => Err(error_of(refusal)),
    }
}

/// As [`widen_fetch`], for several responses.
fn widen_several(fetch: &mut ClientConnection, window: u32) -> Result<(), LinkError>
    ensures ok { OnOk result (WidensSeveralTo window fetch.old fetch.new) }
    ensures err { IfErr result IsNotWidened }
{
    let count = window.saturating_sub(FIRST_WINDOW);
    if count == 0 {
        return Ok(());
    }
    match fetch.widen(count) {
        Ok(()) => Ok(()),
        Err(refusal) => Err(error_of(refusal)),
    }
}

/// The error of a fetch whose window cannot be widened.
fn error_of(refusal: Refusal) -> LinkError
    ensures { IsNotWidened result }
{
    match refusal {
        Refusal::Memory => LinkError::Memory,
        _ => LinkError::NoProgress,
    }
}
