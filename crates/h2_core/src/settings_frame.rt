//! This end's SETTINGS (RFC 9113, section 6.5).

ghost use Rattle.std.specs.Prelude.{◌≡◌, ◌≤◌, ◌+◌, ◌*◌, ◌++◌, length, false};
ghost use Rattle.std.specs.Prelude.{OnOk, IfErr};
ghost use Rattle.h2_frame.specs.Frames.{Settings};
ghost use Rattle.h2_frame.specs.Encoding.{encoding_of, pair_octets};
ghost use Rattle.h2_flow.specs.ConfigValues.{values_of};
ghost use Rattle.h2_spec_log.specs.Acts.{ChangeSettings};
ghost use Rattle.h2_spec_log.specs.CallRules.{opening_pairs, changed_pairs};
ghost use Rattle.h2_core.specs.Endpoint.{end_of};
ghost use Rattle.h2_core.specs.Calls.{CallRefused, CallAccepted};

use crate::endpoint::Endpoint;
use byteorder::{BigEndian, ByteOrder};
use h2_flow::Config;
use h2_frame::limits::{LEAST_MAX_FRAME, MAX_LIST, PAIR};
use h2_frame::{Head, Kind};
use h2_output::Output;
use h2_spec_log::{Refusal, Role};

/// The most octets of SETTINGS that change an end's values.
const MAX_SETTINGS: usize = 33;

// rule: 3.4 Both ends begin with SETTINGS
// rule: 6.5.2 A client sends ENABLE_PUSH 0, and a server sends no ENABLE_PUSH
// rule: 6.5.2 (own) MAX_FRAME_SIZE is sent where it differs from the value sent last
/// Adds an end's first SETTINGS, for which there is room: a client disables push, and both ends
/// limit the size of a field list. It takes no memory.
pub(crate) fn add_opening_settings(output: &mut Output, role: Role, config: Config)
    requires up { output.old.ended ≡ false }
    requires room { 39 ≤ output.old.spare }
    ensures waiting { output.new.waiting ≡ output.old.waiting
        ++ encoding_of (Settings false (opening_pairs role (values_of config))) }
    ensures ended { output.new.ended ≡ false }
{
    let limit = (1, config.table_limit());
    let second = match role {
        Role::Client => (2, 0),
        Role::Server => (3, config.max_streams()),
    };
    let window = (4, config.initial_window());
    let frame = (5, config.max_frame());
    let list = (6, MAX_LIST);
    if config.max_frame() == LEAST_MAX_FRAME {
        add_settings(output, false, &[limit, second, window, list]);
    } else {
        add_settings(output, false, &[limit, second, window, frame, list]);
    }
}

// rule: 3.4 Both ends begin with SETTINGS
/// Adds SETTINGS with these pairs, or with ACK and none, for which there is room. It takes no
/// memory.
pub(crate) fn add_settings(output: &mut Output, ack: bool, pairs: &[(u16, u32)])
    requires up { output.old.ended ≡ false }
    requires few { length pairs.now ≤ 5 }
    requires room { 9 + 6 * length pairs.now ≤ output.old.spare }
    ensures waiting { output.new.waiting
        ≡ output.old.waiting ++ encoding_of (Settings ack pairs.now) }
    ensures ended { output.new.ended ≡ false }
{
    let head = Head {
        length: (PAIR * pairs.len()) as u32,
        kind: Kind::Settings,
        flags: u8::from(ack),
        stream: 0,
    };
    output.add_octets(&head.octets());
    for pair in pairs {
        output.add_octets(&pair_octets(*pair));
    }
}

/// The octets of a pair: 16 bits of identifier and 32 of value (section 6.5.1).
fn pair_octets(pair: (u16, u32)) -> [u8; PAIR]
    ensures { result ≡ pair_octets pair }
{
    let (id, value) = pair;
    let mut octets = [0; PAIR];
    BigEndian::write_u16(&mut octets, id);
    BigEndian::write_u32(&mut octets[2..], value);
    octets
}

impl Endpoint {
    // contract: 6.5.3 (own) Own SETTINGS are changed once those before are acknowledged
    // rule: 6.5.3 (own) Own SETTINGS are changed once those before are acknowledged
    /// Changes this end's settings: sends SETTINGS (RFC 9113, section 6.5.3). They come into
    /// force with the peer's acknowledgment; a greater maximum frame size is accepted at once.
    ///
    /// # Errors
    ///
    /// The first that holds of [`Refusal::Closed`] (C1), [`Refusal::OutputFull`] (C7),
    /// [`Refusal::SettingsWait`] (C13: the last SETTINGS of this end, be it the first one, are
    /// not acknowledged yet) and [`Refusal::Memory`] (C12). A refused call changes nothing.
    pub fn change_settings(&mut self, config: Config) -> Result<(), Refusal>
        ensures ok { OnOk result (CallAccepted (end_of self.old)
            (ChangeSettings (values_of config)) (end_of self.new)) }
        ensures err { IfErr result (λ refusal. CallRefused (end_of self.old)
            (ChangeSettings (values_of config)) refusal (end_of self.new)) }
    {
        self.check_up()?;
        self.check_room()?;
        if self.awaited.is_some() {
            return Err(Refusal::SettingsWait);
        }
        if self.output.reserve(MAX_SETTINGS).is_err() {
            return Err(Refusal::Memory);
        }
        add_changed_settings(&mut self.output, self.role, self.max_frame, config);
        self.awaited = Some(config);
        Ok(())
    }
}

// rule: 6.5.2 (own) MAX_FRAME_SIZE is sent where it differs from the value sent last
// rule: 6.5.3 (own) Own SETTINGS are changed once those before are acknowledged
/// Adds SETTINGS that change an end's values, for which there is room; `written` is the maximum
/// frame size that was sent last. It takes no memory.
fn add_changed_settings(output: &mut Output, role: Role, written: u32, config: Config)
    requires up { output.old.ended ≡ false }
    requires room { 33 ≤ output.old.spare }
    ensures waiting { output.new.waiting ≡ output.old.waiting
        ++ encoding_of (Settings false (changed_pairs role written (values_of config))) }
    ensures ended { output.new.ended ≡ false }
{
    let limit = (1, config.table_limit());
    let streams = (3, config.max_streams());
    let window = (4, config.initial_window());
    let frame = (5, config.max_frame());
    match (role, config.max_frame() == written) {
        (Role::Client, true) => add_settings(output, false, &[limit, window]),
        (Role::Client, false) => add_settings(output, false, &[limit, window, frame]),
        (Role::Server, true) => add_settings(output, false, &[limit, streams, window]),
        (Role::Server, false) => add_settings(output, false, &[limit, streams, window, frame]),
    }
}
