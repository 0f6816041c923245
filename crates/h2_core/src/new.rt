//! A new end.

ghost use Rattle.std.specs.Prelude.{◌≡◌, ◌++◌, not, false, IfOk, IfErr};
ghost use Rattle.h2_frame.specs.Frames.{Settings as SettingsFrame};
ghost use Rattle.h2_frame.specs.Encoding.{encoding_of};
ghost use Rattle.h2_wire.specs.Streams.{expected_preface};
ghost use Rattle.h2_spec_log.specs.Settings.{is_server};
ghost use Rattle.h2_spec_log.specs.CallRules.{opening_pairs};
ghost use Rattle.h2_flow.specs.ConfigValues.{values_of};
ghost use Rattle.h2_spec_machine.specs.Machine.{new_end};
ghost use Rattle.h2_core.specs.Endpoint.{end_of};

use crate::endpoint::Endpoint;
use crate::settings_frame::add_opening_settings;
use h2_block::Gather;
use h2_flow::{Config, Settings};
use h2_frame::limits::{FIRST_TABLE, FIRST_WINDOW, LEAST_MAX_FRAME};
use h2_output::Output;
use h2_spec_log::{Refusal, Role};
use h2_streams::StreamTable;
use h2_wire::PREFACE;
use hpack::{Decoder, Encoder, FieldList};
use std::alloc::{AllocError, Global};

/// The most octets of the first SETTINGS: a head and five pairs.
const OPENING_SETTINGS: usize = 39;

impl Endpoint {
    // contract: 3.4 Both ends begin with SETTINGS
    // rule: 3.4 Both ends begin with SETTINGS
    // contract: 6.5.2 A client sends ENABLE_PUSH 0, and a server sends no ENABLE_PUSH
    /// Makes an end whose queued output is SETTINGS, preceded by the preface at a client (RFC
    /// 9113, section 3.4).
    ///
    /// # Errors
    ///
    /// [`Refusal::Memory`] (C12) where an allocation was refused.
    pub fn new(alloc: Global, role: Role, config: Config) -> Result<Endpoint, Refusal>
        ensures ok { IfOk result (λ one. end_of one ≡ new_end role (values_of config)) }
        ensures err { IfErr result (λ refusal. refusal ≡ Refusal.Memory) }
    {
        let Ok(output) = first_output(alloc, role, config) else {
            return Err(Refusal::Memory);
        };
        let (Ok(decoder), Ok(encoder)) = (
            Decoder::new(alloc, FIRST_TABLE),
            Encoder::new(alloc, FIRST_TABLE),
        ) else {
            return Err(Refusal::Memory);
        };
        Ok(Endpoint {
            role,
            failed: None,
            started: false,
            gather: Gather::new(alloc),
            decoder,
            list: FieldList::new(alloc),
            streams: StreamTable::new(alloc, FIRST_WINDOW, FIRST_WINDOW),
            active_count: 0,
            highest: 0,
            last_processed: 0,
            resets: 0,
            send_window: FIRST_WINDOW,
            recv_window: FIRST_WINDOW,
            granted: FIRST_WINDOW,
            unreturned: 0,
            peer: Settings::first(),
            max_streams: config.max_streams(),
            max_frame: LEAST_MAX_FRAME,
            awaited: Some(config),
            goaway_sent: None,
            goaway_received: None,
            ping: None,
            encoder,
            block: Vec::new(alloc),
            block_frames: Vec::new(alloc),
            output,
        })
    }
}

/// The output of a new end: its opening.
fn first_output(alloc: Global, role: Role, config: Config) -> Result<Output, AllocError>
    ensures { IfOk result (λ output. (output.ended ≡ false) × (output.waiting
        ≡ expected_preface (not (is_server role)) ++ encoding_of (SettingsFrame false
        (opening_pairs role (values_of config))))) }
{
    let mut output = Output::new(alloc)?;
    output.reserve(PREFACE.len() + OPENING_SETTINGS)?;
    if role == Role::Client {
        output.add_octets(&PREFACE);
    }
    add_opening_settings(&mut output, role, config);
    Ok(output)
}
