//! Received SETTINGS (RFC 9113, section 6.5).

ghost use Rattle.std.specs.Prelude.{◌≡◌, ◌==◌, ◌&&◌, ℕ, List, None, true, false};
ghost use Rattle.std.specs.FinMap as map;
ghost use Rattle.h2_block.specs.Grouping.{alone};
ghost use Rattle.h2_frame.specs.Frames.{Settings as SettingsFrame};
ghost use Rattle.h2_frame.specs.Pairs.{lent_pairs};
ghost use Rattle.h2_spec_log.specs.Settings.{peer_of};
ghost use Rattle.h2_spec_log.specs.ItemEffects.{encoder_after_settings};
ghost use Rattle.h2_streams.specs.Streams.{is_above_by_shift};
ghost use Rattle.h2_spec_machine.specs.End.{any_above, end_view};
ghost use Rattle.h2_core.specs.Endpoint.{end_of, IsSoundEnd};
ghost use Rattle.h2_core.specs.Items.{TakesItem};
ghost use Rattle.h2_core.specs.Settings.{AppliesSettings, KnowsGreatest, shifts_too_far};

use crate::endpoint::Endpoint;
use crate::event::Event;
use crate::settings_frame::add_settings;
use crate::step_error::StepError;
use h2_flow::Settings;
use h2_frame::limits::{GREATEST_WINDOW, MAX_ENCODER_TABLE, MAX_OUTPUT};
use h2_frame::{Code, HEAD_LEN, Pairs};
use h2_spec_log::Role;
use hpack::Encoder;

/// The greatest send window of an end's active streams, and the peer's initial window in force.
#[derive(Clone, Copy, Debug, PartialEq, Eq)]
pub struct GreatestWindow {
    /// `None` where no stream is active.
    window: Option<i64>,
    /// The peer's initial window.
    initial: u32,
}

impl GreatestWindow {
    /// Whether another initial window brings it above 2<sup>31</sup> - 1 (RFC 9113, section 6.9.2).
    pub fn shifts_too_far(self, initial: u32) -> bool
        ensures { result ≡ shifts_too_far self initial }
    {
        is_above(self.window, self.initial, initial)
    }
}

impl Endpoint {
    // contract: 4.3.1 The encoder follows each HEADER_TABLE_SIZE, up to 4,096 (own)
    // rule: 4.3.1 The encoder follows each HEADER_TABLE_SIZE, up to 4,096 (own)
    // rule: 6.5.3 Settings apply in order: the first fault decides, the last value counts
    // rule: 6.5.3 SETTINGS are acknowledged before anything else is sent
    // rule: 6.9.2 INITIAL_WINDOW_SIZE shifts the window of each stream
    // rule: 10.5 (own) Replies above 262,144 waiting octets are ENHANCE_YOUR_CALM
    /// Takes SETTINGS: all pairs are checked in order, then applied, and acknowledged.
    pub(crate) fn take_settings<'a>(
        &mut self,
        pairs: Pairs<'_>,
    ) -> Result<Option<Event<(), &'a [u8]>>, StepError>
        requires sound { IsSoundEnd (end_of self.old) }
        requires up { self.old.failed ≡ None }
        ensures { TakesItem (end_of self.old) None
            (alone (SettingsFrame false (lent_pairs pairs.entry))) self.new.list result
            (end_of self.new) }
    {
        let settings = self.settings_after(pairs)?;
        if self.output.len() + HEAD_LEN > MAX_OUTPUT {
            return Err(StepError::fault(Code::EnhanceYourCalm));
        }
        self.output.reserve(HEAD_LEN)?;
        limit_encoder(&mut self.encoder, pairs);
        add_settings(&mut self.output, true, &[]);
        self.streams.set_send_initial(settings.initial_window_size);
        self.peer = settings;
        self.started = true;
        Ok(None)
    }

    // rule: 6.5.3 Settings apply in order: the first fault decides, the last value counts
    // rule: 6.9.2 A shift of a window above 2^31-1 is FLOW_CONTROL_ERROR
    /// Returns the settings after all pairs, or the fault of the first that has one: a value
    /// out of its range, or an initial window that would bring a stream's send window above
    /// 2<sup>31</sup> - 1 (section 6.9.2). It goes over the active streams at most once.
    fn settings_after(&self, pairs: Pairs<'_>) -> Result<Settings, StepError>
        ensures { AppliesSettings self.now (lent_pairs pairs.entry) result }
    {
        let mut settings = self.peer;
        let mut greatest = None;
        for (id, value) in pairs.iter() {
            if let Err(bad) = settings.apply(self.peer_role(), id, value) {
                return Err(StepError::fault(bad.0));
            }
            if self.overflows(id, value, &mut greatest) {
                return Err(StepError::fault(Code::FlowControlError));
            }
        }
        Ok(settings)
    }

    /// Returns the role of the other end. It takes no memory.
    pub fn peer_role(&self) -> Role
        ensures { result ≡ peer_of (end_of self.now).role }
    {
        match self.role {
            Role::Client => Role::Server,
            Role::Server => Role::Client,
        }
    }

    /// Whether a pair is an initial window that brings some send window above
    /// 2<sup>31</sup> - 1. If the table does not know, the greatest send window is computed,
    /// and kept in `greatest`.
    fn overflows(&self, id: u16, value: u32, greatest: &mut Option<Option<i64>>) -> bool
        requires known { KnowsGreatest self.now.streams greatest.old }
        ensures overflows { result ≡ (id == 4 && any_above self.now.streams.send_initial value
            (map.entries self.now.streams.entries)) }
        ensures known { KnowsGreatest self.now.streams greatest.new }
    {
        if id != 4 || self.streams.is_none_above(value) {
            return false;
        }
        let window = match *greatest {
            Some(window) => window,
            None => self.streams.greatest_send_window(),
        };
        *greatest = Some(window);
        is_above(window, self.peer.initial_window_size, value)
    }

    /// Returns the greatest send window of the active streams, which decides for each initial
    /// window whether it brings one of them above 2<sup>31</sup> - 1 (section 6.9.2). It goes
    /// over the active streams, and takes no memory.
    pub fn greatest_send_window(&self) -> GreatestWindow
        ensures { (initial : ℕ) → shifts_too_far result initial
            ≡ (end_view (end_of self.now)).overflows initial }
    {
        GreatestWindow {
            window: self.streams.greatest_send_window(),
            initial: self.peer.initial_window_size,
        }
    }

    // rule: 4.2 The limit of an end is its greatest MAX_FRAME_SIZE of those in force
    // rule: 6.5.3 Own SETTINGS hold once they are acknowledged, and not before
    // rule: 6.5.3 An acknowledgment that is awaited is reported, others are ignored
    // rule: 6.9.3 Until a lower own window is acknowledged the one before it holds
    /// Takes the acknowledgment of this end's SETTINGS, which come into force (section 6.5.3).
    pub(crate) fn take_acknowledgment<'a>(
        &mut self,
    ) -> Result<Option<Event<(), &'a [u8]>>, StepError>
        requires sound { IsSoundEnd (end_of self.old) }
        requires up { self.old.failed ≡ None }
        ensures { (pairs : List (ℕ × ℕ)) → TakesItem (end_of self.old) None
            (alone (SettingsFrame true pairs)) self.new.list result (end_of self.new) }
    {
        let Some(config) = self.awaited else {
            return Ok(None);
        };
        self.decoder.set_limit(config.table_limit());
        self.streams.set_recv_initial(config.initial_window());
        self.max_streams = config.max_streams();
        self.max_frame = config.max_frame();
        self.awaited = None;
        Ok(Some(Event::Acked))
    }
}

/// Sets the encoder's limit to each value of identifier 1, in order (RFC 7541, section 4.2).
fn limit_encoder(encoder: &mut Encoder, pairs: Pairs<'_>)
    ensures { encoder.new ≡ encoder_after_settings encoder.old (lent_pairs pairs.entry) }
{
    for (id, value) in pairs.iter() {
        if id == 1 {
            encoder.set_limit(value.min(MAX_ENCODER_TABLE));
        }
    }
}

/// Whether another initial window brings the greatest send window, if there is one, above
/// 2<sup>31</sup> - 1.
fn is_above(greatest: Option<i64>, old: u32, new: u32) -> bool
    ensures { result ≡ is_above_by_shift old new greatest }
{
    match greatest {
        Some(window) => window > i64::from(GREATEST_WINDOW) + i64::from(old) - i64::from(new),
        None => false,
    }
}
