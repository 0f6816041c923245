//! A client and a server in one process, over one connection.

ghost use Rattle.std.specs.Prelude.{◌≡◌, ◌≢◌, ◌≤◌, ◌<◌, ◌-◌, ◌^◌, ℕ, [], length, IfErr, IfOk, OnOk};
ghost use Rattle.std.specs.Prelude.{Ok};
ghost use Rattle.std.specs.Io.KnownBytes.{Appends};
ghost use Rattle.h2_engines.specs.Failures.{failures_at_end};
ghost use Rattle.h2_engines.specs.WithoutLink.{ClientPutsOut, ServerPutsOut};
ghost use Rattle.h2_message.specs.Values.{message_value};
ghost use Rattle.h2_net.specs.Loopback.{ExchangesPost, IsPosting, IsSilent, NoneHasFailed};
ghost use Rattle.h2_net.specs.Loopback.{PostsOn, post_request, posted_octets};
ghost use Rattle.h2_net.specs.Printing.{exchange_line};

use crate::get::{head_with, status_value};
use crate::parts::WriteParts;
use crate::stream_link::StreamLink;
use h2_engines::{Config, Fetched, Fetcher, Link, LinkError, Message, Responder};
use h2_link::write_all;
use std::alloc::{AllocError, Global};
use std::io::{self, Read, Write};
use std::net::{Ipv4Addr, Net, OpenListener, OpenStream, SocketAddr, TcpListener, TcpStream};

/// The maximum number of octets that an end writes in its turn.
const TURN: usize = 4_096;

/// The period of the octets of a body.
const PERIOD: u32 = 251;

/// The two ends, and the two sides of their connection.
#[derive(Drop)]
struct Ends<S> {
    client: Fetcher,
    server: Responder,
    client_link: StreamLink<S>,
    server_link: StreamLink<S>,
}

/// What is carried in a round.
#[derive(Drop)]
struct Carried {
    /// What the client writes in its turn.
    from_client: Vec<u8>,
    /// What the server writes in its turn.
    from_server: Vec<u8>,
    /// Room for what the other reads: [`TURN`] octets.
    read: Vec<u8>,
}

// rule: engines (own) h2 loop posts octets, and its line says how many came
/// Posts `count` octets, octet k being k mod 251, to `/` of a server in this process over one
/// TCP connection on 127.0.0.1, and returns the response. The ends take turns: each writes at
/// most 4,096 octets, which the other then reads. A turn of each is a round; the exchange ends
/// after the first round in which neither writes.
///
/// # Errors
///
/// [`LinkError::Device`] (N1) if the TCP connection cannot be made, or a call of it failed;
/// [`LinkError::Memory`] (N3) if an allocation was refused; [`LinkError::CutOff`] (N4) if the
/// response is incomplete at the end; [`LinkError::NoProgress`] (N5) after 2^64 - 1 rounds;
/// [`LinkError::Reset`] (N6) with ENHANCE_YOUR_CALM if `count` is above 1,048,576.
/// [`LinkError::Stream`] (N2), N6 with another code, and N5 for any other reason would show a bug
/// in the client or the server. [`LinkError::Refused`] (N7) is never returned.
pub fn exchange<N: Net>(net: &N, alloc: Global, count: u32) -> Result<Fetched, LinkError>
where
    N::Stream: WriteParts,
    ensures { ExchangesPost count result }
{
    let ends = new_ends(net, alloc, count)?;
    exchange_between(alloc, ends)
}

// rule: engines (own) h2 loop posts octets, and its line says how many came
/// Lets both ends write in turns, and returns the response to the client.
fn exchange_between<S: Read + WriteParts + OpenStream + Drop>(
    alloc: Global,
    mut ends: Ends<S>,
) -> Result<Fetched, LinkError>
    requires { NoneHasFailed ends }
    ensures { (count : ℕ) → IsPosting count ends.client → ExchangesPost count result }
{
    let carries = carry_with_room(alloc, &mut ends);
    fetched_by(ends.client, carries)
}

// rule: engines (own) h2 loop posts octets, and its line says how many came
/// Lets both ends write in turns, as [`carry_all`] does, with new buffers.
fn carry_with_room<S: Read + WriteParts + OpenStream>(
    alloc: Global,
    ends: &mut Ends<S>,
) -> Result<bool, LinkError>
    requires { NoneHasFailed ends.old }
    ensures { (count : ℕ) → IsPosting count ends.old.client
        → PostsOn count result ends.new.client }
{
    let mut carried = new_carried(alloc)?;
    carry_all(ends, &mut carried)
}

/// Empty buffers, with room for what is read.
fn new_carried(alloc: Global) -> Result<Carried, LinkError>
    ensures { IfErr result (λ error. error ≡ LinkError.Memory) }
{
    let read = room_for_turn(alloc)?;
    Ok(Carried {
        from_client: Vec::new(alloc),
        from_server: Vec::new(alloc),
        read,
    })
}

// rule: engines (own) h2 loop posts octets, and its line says how many came
/// The response of a client that has posted, if it is complete.
fn fetched_by(client: Fetcher, carries: Result<bool, LinkError>) -> Result<Fetched, LinkError>
    ensures { (count : ℕ) → PostsOn count carries client → ExchangesPost count result }
{
    whole_or_cut_off(carries)?;
    client.into_fetched()
}

// rule: engines (own) h2 loop posts octets, and its line says how many came
/// Fails with N4 unless the response is complete.
fn whole_or_cut_off(carries: Result<bool, LinkError>) -> Result<(), LinkError>
    ensures { (count : ℕ) (client : Fetcher) → PostsOn count carries client
        → PostsOn count result client }
{
    match carries {
        Ok(true) => Ok(()),
        Ok(false) => Err(LinkError::CutOff),
        Err(error) => Err(error),
    }
}

// rule: engines (own) h2 loop posts octets, and its line says how many came
/// Creates two ends, whose client will post this many octets, and their connection.
fn new_ends<N: Net>(net: &N, alloc: Global, count: u32) -> Result<Ends<N::Stream>, LinkError>
where
    N::Stream: WriteParts,
    ensures failures { IfOk result NoneHasFailed }
    ensures posts { IfOk result (λ ends. IsPosting count ends.client) }
    ensures err { IfErr result (λ error. error ≢ LinkError.Refused) }
{
    let message = post_of(alloc, count)?;
    let links = joined(net, alloc)?;
    ends_over(alloc, message, links)
}

/// Creates two ends over the links of a connection, whose client will make this request.
fn ends_over<S: Drop>(
    alloc: Global,
    message: Message,
    links: (StreamLink<S>, StreamLink<S>),
) -> Result<Ends<S>, LinkError>
    requires { (links.0.failures ≡ 0) × (links.1.failures ≡ 0) }
    ensures failures { IfOk result NoneHasFailed }
    ensures posts { (count : ℕ) → message_value message ≡ post_request count
        → IfOk result (λ ends. IsPosting count ends.client) }
    ensures err { (count : ℕ) → message_value message ≡ post_request count
        → IfErr result (λ error. error ≢ LinkError.Refused) }
{
    let (client, server) = machines(alloc, message)?;
    let (client_link, server_link) = links;
    Ok(Ends {
        client,
        server,
        client_link,
        server_link,
    })
}

/// Creates a client that will make this request, and a server.
fn machines(alloc: Global, message: Message) -> Result<(Fetcher, Responder), LinkError>
    ensures posts { (count : ℕ) → message_value message ≡ post_request count
        → IfOk result (λ machines. IsPosting count machines.0) }
    ensures err { (count : ℕ) → message_value message ≡ post_request count
        → IfErr result (λ error. error ≢ LinkError.Refused) }
{
    let client = Fetcher::new(alloc, Config::default(), message)?;
    let server = Responder::new(alloc, Config::default())?;
    Ok((client, server))
}

// rule: engines (own) h2 loop posts octets, and its line says how many came
/// Lets both ends write in turns until a round in which neither does. Returns whether the
/// response is complete.
fn carry_all<S: Read + WriteParts + OpenStream>(
    ends: &mut Ends<S>,
    carried: &mut Carried,
) -> Result<bool, LinkError>
    requires { NoneHasFailed ends.old }
    ensures posts { (count : ℕ) → IsPosting count ends.old.client
        → PostsOn count result ends.new.client }
    ensures silent { OnOk result (IsSilent carried.new) }
{
    let mut is_whole = false;
    for _ in 0..u64::MAX {
        client_turn(ends, carried)?;
        let has_ended = server_turn(ends, carried)?;
        is_whole = is_whole || has_ended;
        if carried.from_client.is_empty() && carried.from_server.is_empty() {
            return Ok(is_whole);
        }
    }
    Err(LinkError::NoProgress)
}

// rule: engines (own) h2 loop posts octets, and its line says how many came
/// Prints one line: the number of octets posted, and the length of the body and the status of the
/// response.
///
/// # Errors
///
/// [`LinkError::Device`] (N1) if a write failed.
pub fn print_exchange<W: Write>(count: u32, fetched: &Fetched, out: &mut W) -> Result<(), LinkError>
    ensures prints { OnOk result (Appends (W.contents out.old) (W.contents out.new)
        (exchange_line count fetched.now)) }
    ensures err { IfErr result (λ error. error ≡ LinkError.Device) }
{
    write_exchange(count, fetched, out)?;
    Ok(())
}

fn write_exchange<W: Write>(count: u32, fetched: &Fetched, out: &mut W) -> io::Result<()>
    ensures { OnOk result (Appends (W.contents out.old) (W.contents out.new)
        (exchange_line count fetched.now)) }
{
    let length = fetched.body.len();
    write!(out, "sent {count} got {length} status ")?;
    out.write_all(status_value(&fetched.head))?;
    out.write_all(b"\n")?;
    out.flush()
}

/// The request that posts this many octets.
fn post_of(alloc: Global, count: u32) -> Result<Message, AllocError>
    ensures { IfOk result (λ message. message_value message ≡ post_request count) }
{
    Ok(Message {
        head: head_with(alloc, b"POST", b"/", b"127.0.0.1")?,
        body: posted_octets(alloc, count)?,
        trailers: None,
    })
}

/// The octets that are posted.
fn posted_octets(alloc: Global, count: u32) -> Result<Vec<u8>, AllocError>
    ensures { IfOk result (λ body. body.items ≡ posted_octets count) }
{
    let mut body = Vec::new(alloc);
    for place in 0..count {
        body.push((place % PERIOD) as u8)?;
    }
    Ok(body)
}

/// Room for what is read in a turn.
fn room_for_turn(alloc: Global) -> Result<Vec<u8>, LinkError>
    ensures { IfErr result (λ error. error ≡ LinkError.Memory) }
{
    Ok(vec![in alloc; 0u8; TURN]?)
}

/// The two sides of a new connection on 127.0.0.1: the one that connects, and the one that accepts.
fn joined<N: Net>(
    net: &N,
    alloc: Global,
) -> Result<(StreamLink<N::Stream>, StreamLink<N::Stream>), LinkError>
where
    N::Stream: WriteParts,
    ensures failures { IfOk result (λ links. (links.0.failures ≡ 0) × (links.1.failures ≡ 0)) }
    ensures err { IfErr result (λ error. error ≢ LinkError.Refused) }
{
    let listener = TcpListener::bind(net, SocketAddr::from((Ipv4Addr::LOCALHOST, 0)))?;
    joined_over(net, alloc, &listener)
}

/// The two sides of a new connection to a listener.
fn joined_over<N: Net>(
    net: &N,
    alloc: Global,
    listener: &N::Listener,
) -> Result<(StreamLink<N::Stream>, StreamLink<N::Stream>), LinkError>
where
    N::Stream: WriteParts,
    ensures failures { IfOk result (λ links. (links.0.failures ≡ 0) × (links.1.failures ≡ 0)) }
    ensures err { IfErr result (λ error. error ≢ LinkError.Refused) }
{
    let client = TcpStream::connect(net, listener.local_addr()?)?;
    let (server, _) = listener.accept()?;
    linked(alloc, client, server)
}

/// Links over both sides of a connection.
fn linked<S: Read + WriteParts + OpenStream + Drop>(
    alloc: Global,
    client: S,
    server: S,
) -> Result<(StreamLink<S>, StreamLink<S>), LinkError>
    ensures failures { IfOk result (λ links. (links.0.failures ≡ 0) × (links.1.failures ≡ 0)) }
    ensures err { IfErr result (λ error. error ≢ LinkError.Refused) }
{
    Ok((
        StreamLink::new(alloc, client)?,
        StreamLink::new(alloc, server)?,
    ))
}

/// The client writes, and the server reads that.
fn client_turn<S: Read + WriteParts + OpenStream>(
    ends: &mut Ends<S>,
    carried: &mut Carried,
) -> Result<(), LinkError>
    requires { NoneHasFailed ends.old }
    ensures failures { OnOk result (NoneHasFailed ends.new) }
    ensures posts { (count : ℕ) → IsPosting count ends.old.client
        → PostsOn count result ends.new.client }
    ensures puts { OnOk result ((count : ℕ) × ClientPutsOut ends.old.client ends.new.client TURN
        [] carried.new.from_client.items (Ok count)) }
{
    carried.from_client.clear();
    ends.client.put_out(TURN, &mut carried.from_client)?;
    let (from, to) = (&mut ends.client_link, &mut ends.server_link);
    let count = carry(from, to, &carried.from_client, &mut carried.read)?;
    ends.server.take_in(&carried.read[..count])?;
    Ok(())
}

/// The server writes, and the client reads that. Returns whether the response is now complete.
fn server_turn<S: Read + WriteParts + OpenStream>(
    ends: &mut Ends<S>,
    carried: &mut Carried,
) -> Result<bool, LinkError>
    requires { NoneHasFailed ends.old }
    ensures failures { OnOk result (NoneHasFailed ends.new) }
    ensures posts { (count : ℕ) → IsPosting count ends.old.client
        → PostsOn count result ends.new.client }
    ensures puts { OnOk result ((count : ℕ) × ServerPutsOut ends.old.server ends.new.server TURN
        [] carried.new.from_server.items (Ok count)) }
    ensures kept { carried.new.from_client ≡ carried.old.from_client }
{
    carried.from_server.clear();
    ends.server.put_out(TURN, &mut carried.from_server)?;
    let (from, to) = (&mut ends.server_link, &mut ends.client_link);
    let count = carry(from, to, &carried.from_server, &mut carried.read)?;
    let is_whole = ends.client.take_in(&carried.read[..count])?;
    Ok(is_whole)
}

/// Writes octets at one side of a connection, at most as many as `room` takes, and reads as many
/// at the other. Returns how many.
fn carry<S: Read + WriteParts + OpenStream>(
    from: &mut StreamLink<S>,
    to: &mut StreamLink<S>,
    octets: &[u8],
    room: &mut [u8],
) -> Result<usize, LinkError>
    requires { (from.old.failures ≡ 0) × (to.old.failures ≡ 0) }
    ensures failures { OnOk result ((from.new.failures ≡ 0) × (to.new.failures ≡ 0)) }
    ensures length { length room.new ≡ length room.old }
    ensures within { IfOk result (λ count. count ≤ length room.new) }
    ensures err { IfErr result (λ error. error ≢ LinkError.Refused) }
{
    let count = octets.len().min(room.len());
    write_all(from, &octets[..count])?;
    from.flush()?;
    read_all(to, &mut room[..count])?;
    Ok(count)
}

/// Reads until `room` is full.
fn read_all<L: Link>(link: &mut L, room: &mut [u8]) -> Result<(), LinkError>
    requires { L.faults link.old < 2 ^ 64 - 1 }
    ensures length { length room.new ≡ length room.old }
    ensures filled { OnOk result (Appends (L.given link.old) (L.given link.new) room.new) }
    ensures failures { L.faults link.new ≡ failures_at_end (L.faults link.old) result }
    ensures err { IfErr result (λ error. error ≢ LinkError.Refused) }
{
    let mut filled = 0;
    while filled < room.len() {
        let count = link.read(&mut room[filled..])?;
        if count == 0 {
            return Err(LinkError::CutOff);
        }
        filled += count;
    }
    Ok(())
}
