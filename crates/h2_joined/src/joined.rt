//! Two joined ends.

ghost use Rattle.std.specs.Prelude.{◌≡◌, ◌↔◌, ℕ, List, [], true, length, IfOk};
ghost use Rattle.h2_flow.specs.ConfigValues.{values_of};
ghost use Rattle.h2_spec_log.specs.Acts.{Values};
ghost use Rattle.h2_spec_log.specs.declared.role.Role.TheVariants as roles;
ghost use Rattle.h2_joined.specs.Headline.{AreQuiet};
ghost use Rattle.h2_joined.specs.Joints.{JointEnd, Made, new_joint_end};
ghost use Rattle.h2_joined.specs.Kept.{MakesAct, HoldsOctets, JoinedRepresents, kept_of, made_of};
ghost use Rattle.h2_joined.specs.Kept.{other_side};

use crate::act::{Acted, JointAct, Side};
use crate::events::HandedEvents;
use crate::kept::{Accepted, Kept};
use h2_ends::{Client, Config, Server};
use std::alloc::{AllocError, Global};

/// A client and a server that are joined by two pipes in memory, with what each end has
/// accepted and handed out.
#[derive(Drop)]
pub struct Joined {
    pub(crate) alloc: Global,
    pub(crate) client: Client,
    pub(crate) server: Server,
    pub(crate) at_client: Kept,
    pub(crate) at_server: Kept,
}

impl Joined {
    // rule: joined (own) Two joined ends are a new client and a new server, pipes empty
    /// Makes a new client and a new server, joined by empty pipes.
    ///
    /// # Errors
    ///
    /// [`AllocError`] where an allocation was refused.
    pub fn new(alloc: Global, client: Config, server: Config) -> Result<Joined, AllocError>
        ensures { IfOk result (λ joined. JoinedRepresents (values_of client) (values_of server)
            joined [] (new_joint_end roles.Client (values_of client))
            (new_joint_end roles.Server (values_of server))) }
    {
        let client = match Client::new(alloc, client) {
            Ok(client) => client,
            Err(_) => return Err(AllocError),
        };
        let server = match Server::new(alloc, server) {
            Ok(server) => server,
            Err(_) => {
                drop(client);
                return Err(AllocError);
            }
        };
        Ok(Joined {
            alloc,
            client,
            server,
            at_client: Kept::new(alloc),
            at_server: Kept::new(alloc),
        })
    }

    // rule: joined (own) An act is the call of its name at its end
    // contract: joined (own) Output is put on the pipe to the other end, as much as is asked
    // contract: joined (own) The first octets of a pipe are given to its end
    // contract: joined (own) Accepted messages, what was handed out, octets on a pipe are kept
    // contract: joined (own) A delivery without memory stops before a call and loses nothing
    /// Performs an act, and returns its result: for a call of an end, what that returns; for
    /// [`JointAct::Move`] and [`JointAct::Deliver`], how many octets were moved or delivered. A
    /// refused act has changed nothing, except for what a `release_all`, `pump` or `pump_some` did
    /// before it was refused.
    ///
    /// Before each call of `take`, a delivery reserves memory for the largest event that the call
    /// can return. If that memory is refused, the delivery stops before the call, with
    /// [`Acted::Memory`] as its result. Then the octets that were used are off the pipe, their
    /// events are kept, and another `Deliver` continues from there. All octets of a delivery
    /// during which the end fails are off the pipe; to an end that has failed none are delivered.
    pub fn act(&mut self, act: &JointAct) -> Acted
        ensures { MakesAct self.old (made_of act.now result) self.new }
    {
        match act {
            JointAct::Request(message) => self.request(message),
            JointAct::Respond { id, message } => self.respond(*id, message),
            JointAct::Begin(head) => self.begin(head),
            JointAct::BeginResponse { id, head } => self.begin_response(*id, head),
            JointAct::SendBody {
                side,
                id,
                octets,
                end,
            } => self.send_body(*side, *id, octets, *end),
            JointAct::SendTrailers { side, id, trailers } => {
                self.send_trailers(*side, *id, trailers)
            }
            JointAct::Pump(side) => self.pump(*side),
            JointAct::PumpSome { side, most } => self.pump_some(*side, *most),
            JointAct::Move { from, count } => self.put_on_pipe(*from, *count),
            JointAct::Deliver { to, count } => self.deliver(*to, *count),
            JointAct::ReleaseAll(side) => self.release_all(*side),
            JointAct::Release { side, id, count } => self.release(*side, *id, *count),
            JointAct::Widen { side, count } => self.widen(*side, *count),
            JointAct::Reset { side, id, code } => self.reset(*side, *id, *code),
            JointAct::Ping { side, octets } => self.ping(*side, *octets),
            JointAct::GoAway(side) => self.go_away(*side),
            JointAct::Fail { side, code } => self.fail(*side, *code),
            JointAct::ChangeSettings { side, config } => self.change_settings(*side, *config),
        }
    }

    // rule: joined (own) Two joined ends are quiet where both are, and both pipes are empty
    /// Returns whether nothing is under way and neither end has anything to do: both are quiet
    /// ([`Client::is_quiet`]), both pipes are empty, and the last delivery to either end did
    /// not stop with [`Acted::Memory`]. An end that has failed is not quiet.
    pub fn quiet(&self) -> bool
        ensures { (client_values server_values : Values) (made : List Made)
            (client server : JointEnd)
            → JoinedRepresents client_values server_values self.now made client server
            → (result ≡ true) ↔ AreQuiet client server }
    {
        if self.at_client.incoming.len() > 0 {
            return false;
        }
        if self.at_server.incoming.len() > 0 {
            return false;
        }
        if self.at_client.unfinished || self.at_server.unfinished {
            return false;
        }
        self.client.is_quiet() && self.server.is_quiet()
    }

    /// Returns the client.
    pub fn client(&self) -> &Client
        ensures { result.now ≡ self.now.client }
    {
        &self.client
    }

    /// Returns the server.
    pub fn server(&self) -> &Server
        ensures { result.now ≡ self.now.server }
    {
        &self.server
    }

    // contract: joined (own) Accepted messages, what was handed out, octets on a pipe are kept
    /// Returns what an end has accepted: one message for each stream, in the order in which the
    /// messages were sent or begun.
    pub fn accepted(&self, side: Side) -> &[Accepted]
        ensures { result.now ≡ (kept_of side self.now).accepted.items }
    {
        match side {
            Side::Client => &self.at_client.accepted,
            Side::Server => &self.at_server.accepted,
        }
    }

    // contract: joined (own) Accepted messages, what was handed out, octets on a pipe are kept
    /// Returns what an end has handed out, in order.
    pub fn handed(&self, side: Side) -> HandedEvents<'_>
        ensures { result.store.now ≡ (kept_of side self.now).handed }
    {
        match side {
            Side::Client => HandedEvents {
                store: &self.at_client.handed,
            },
            Side::Server => HandedEvents {
                store: &self.at_server.handed,
            },
        }
    }

    /// Returns how many octets of an end's output are on the pipe to the other end: moved, but not
    /// yet delivered.
    pub fn piped(&self, side: Side) -> usize
        ensures { (octets : List ℕ)
            → HoldsOctets (kept_of (other_side side) self.now).incoming octets
            → result ≡ length octets }
    {
        match side {
            Side::Client => self.at_server.incoming.len(),
            Side::Server => self.at_client.incoming.len(),
        }
    }
}
