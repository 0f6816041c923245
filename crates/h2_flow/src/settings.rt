//! The settings of a peer.

ghost use Rattle.std.specs.Prelude.{◌≡◌, None, Some, OnOk, IfErr, if◌then◌else◌};
ghost use Rattle.h2_spec_log.specs.Settings.{value_fault, is_server};
ghost use Rattle.h2_flow.specs.Settings.{first_settings, with_value};

use crate::fault::BadSetting;
use h2_frame::Code;
use h2_frame::limits::{FIRST_TABLE, FIRST_WINDOW, GREATEST_WINDOW, LEAST_MAX_FRAME, MAX_PAYLOAD};
use h2_spec_log::Role;

/// The six values of a peer's settings (RFC 9113, section 6.5.2).
#[derive(Clone, Copy, Debug, PartialEq, Eq, Hash)]
pub struct Settings {
    /// SETTINGS_HEADER_TABLE_SIZE: the most octets of the header table of the peer's decoder.
    pub header_table_size: u32,
    /// SETTINGS_ENABLE_PUSH: whether the peer accepts pushed streams.
    pub enable_push: bool,
    /// SETTINGS_MAX_CONCURRENT_STREAMS: the most active streams; `None` if the peer has not
    /// said.
    pub max_concurrent_streams: Option<u32>,
    /// SETTINGS_INITIAL_WINDOW_SIZE: the octets of a new stream's window, at most
    /// 2<sup>31</sup> - 1.
    pub initial_window_size: u32,
    /// SETTINGS_MAX_FRAME_SIZE: the most octets of a payload that the peer reads, from 16,384
    /// to 2<sup>24</sup> - 1.
    pub max_frame_size: u32,
    /// SETTINGS_MAX_HEADER_LIST_SIZE: the greatest field list that the peer accepts, by its
    /// advice; `None` if it has not said.
    pub max_header_list_size: Option<u32>,
}

impl Settings {
    // rule: 6.5.2 Each setting has its first value
    /// Returns the initial values, which hold before any SETTINGS (RFC 9113, section 6.5.2).
    pub fn first() -> Settings
        ensures { result ≡ first_settings }
    {
        Settings {
            header_table_size: FIRST_TABLE,
            enable_push: true,
            max_concurrent_streams: None,
            initial_window_size: FIRST_WINDOW,
            max_frame_size: LEAST_MAX_FRAME,
            max_header_list_size: None,
        }
    }

    // contract: 6.5.2 ENABLE_PUSH above 1 is PROTOCOL_ERROR
    // rule: 6.5.2 ENABLE_PUSH above 1 is PROTOCOL_ERROR
    // contract: 6.5.2 ENABLE_PUSH of 1 from a server is PROTOCOL_ERROR
    // rule: 6.5.2 ENABLE_PUSH of 1 from a server is PROTOCOL_ERROR
    // contract: 6.5.2 INITIAL_WINDOW_SIZE above 2^31-1 is FLOW_CONTROL_ERROR
    // rule: 6.5.2 INITIAL_WINDOW_SIZE above 2^31-1 is FLOW_CONTROL_ERROR
    // contract: 6.5.2 MAX_FRAME_SIZE below 16,384 or above 2^24-1 is PROTOCOL_ERROR
    // rule: 6.5.2 MAX_FRAME_SIZE below 16,384 or above 2^24-1 is PROTOCOL_ERROR
    // rule: 6.5.2 Settings of other identifiers are ignored
    // rule: 6.5.2 A value changes its own setting and no other; one at fault none
    /// Applies a value of SETTINGS that an end of the role `from` has sent. Identifiers other
    /// than 1 to 6 are ignored.
    ///
    /// # Errors
    ///
    /// L3 [`BadSetting`]; the settings are unchanged. Its code is PROTOCOL_ERROR where
    /// ENABLE_PUSH is above 1, or 1 from a server, or MAX_FRAME_SIZE is not from 16,384 to
    /// 2<sup>24</sup> - 1, and FLOW_CONTROL_ERROR where INITIAL_WINDOW_SIZE is above
    /// 2<sup>31</sup> - 1.
    #[tactic(auto, unfolding(crate::proofs::Rules::settings_rules))]
    pub fn apply(&mut self, from: Role, id: u16, value: u32) -> Result<(), BadSetting>
        ensures ok { OnOk result ((value_fault from (id, value) ≡ None)
            × (self.new ≡ with_value self.old (id, value))) }
        ensures err { IfErr result (λ bad. (value_fault from (id, value) ≡ Some bad.0)
            × (self.new ≡ self.old)) }
    {
        match id {
            1 => self.header_table_size = value,
            2 => {
                if value > most_push(from) {
                    return Err(BadSetting(Code::ProtocolError));
                }
                self.enable_push = value == 1;
            }
            3 => self.max_concurrent_streams = Some(value),
            4 => {
                if value > GREATEST_WINDOW {
                    return Err(BadSetting(Code::FlowControlError));
                }
                self.initial_window_size = value;
            }
            5 => {
                if value < LEAST_MAX_FRAME || value > MAX_PAYLOAD {
                    return Err(BadSetting(Code::ProtocolError));
                }
                self.max_frame_size = value;
            }
            6 => self.max_header_list_size = Some(value),
            _ => {}
        }
        Ok(())
    }
}

// rule: 6.5.2 ENABLE_PUSH above 1 is PROTOCOL_ERROR
// rule: 6.5.2 ENABLE_PUSH of 1 from a server is PROTOCOL_ERROR
/// The greatest ENABLE_PUSH that an end of this role may send (section 6.5.2).
fn most_push(from: Role) -> u32
    ensures { result ≡ (if is_server from then 0 else 1) }
{
    match from {
        Role::Client => 1,
        Role::Server => 0,
    }
}
