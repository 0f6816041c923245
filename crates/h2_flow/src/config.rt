//! The values of an end's own settings.

ghost use Rattle.std.specs.Prelude.{◌≡◌, None, Some, OnOk, IfOk, IfErr};
ghost use Rattle.h2_spec_log.specs.Acts.{AreInRange};
ghost use Rattle.h2_flow.specs.Configs.{first_bad};

use h2_frame::limits::{
    FIRST_TABLE, FIRST_WINDOW, GREATEST_WINDOW, LEAST_MAX_FRAME, LEAST_MAX_STREAMS,
    MAX_TABLE_LIMIT, MOST_MAX_FRAME, MOST_MAX_STREAMS,
};
use thiserror::Error;

/// The values of an end's own settings, each within its bounds (RFC 9113, section 6.5.2).
#[derive(Clone, Copy, Debug, PartialEq, Eq, Hash)]
pub struct Config {
    table_limit: u32,
    initial_window: u32,
    max_streams: u32,
    max_frame: u32,
    ghost in_range: { AreInRange (record {
      table_limit = table_limit;
      initial_window = initial_window;
      max_streams = max_streams;
      max_frame = max_frame;
    }) },
}

/// Why a [`Config`] cannot be made: the first of its values that is out of its bounds.
#[derive(Clone, Copy, Debug, PartialEq, Eq, Hash, Error)]
pub enum BadConfig {
    /// K1: the table limit is above 65,536 octets.
    #[error("K1 TableLimit: the header table's limit is above 65536")]
    TableLimit,
    /// K2: the initial window is 0, or above 2,147,483,647 octets.
    #[error("K2 InitialWindow: the initial window isn't from 1 to 2147483647")]
    InitialWindow,
    /// K3: the number of streams is below 100, or above 1,000.
    #[error("K3 MaxStreams: the number of streams isn't from 100 to 1000")]
    MaxStreams,
    /// K4: the maximum frame size is below 16,384, or above 1,048,576 octets.
    #[error("K4 MaxFrame: the greatest frame isn't from 16384 to 1048576")]
    MaxFrame,
}

impl Config {
    // contract: calls (own) A configuration is made of values within their bounds
    // rule: calls (own) A configuration is made of values within their bounds
    /// Makes a configuration of these values. Payloads of up to 16,384 octets are read, unless
    /// [`Config::with_max_frame`] says otherwise.
    ///
    /// - `table_limit` is the largest header table, in octets, that the peer's encoder may use,
    ///   from 0 to 65,536.
    /// - `initial_window` is the window of a new stream in octets, from 1 to 2,147,483,647.
    ///   Above 65,535 it is used only as far as `widen` has widened the connection's window.
    /// - `max_streams` is the maximum number of active streams at a server, from 100 to 1,000.
    ///
    /// # Errors
    ///
    /// The first that holds of [`BadConfig::TableLimit`] (K1), [`BadConfig::InitialWindow`]
    /// (K2) and [`BadConfig::MaxStreams`] (K3).
    pub fn new(table_limit: u32, initial_window: u32, max_streams: u32) -> Result<Config, BadConfig>
        ensures values { IfOk result (λ config. (config.table_limit ≡ table_limit)
            × (config.initial_window ≡ initial_window) × (config.max_streams ≡ max_streams)
            × (config.max_frame ≡ 16384)) }
        ensures good { OnOk result (first_bad (record {
          table_limit = table_limit;
          initial_window = initial_window;
          max_streams = max_streams;
          max_frame = 16384;
        }) ≡ None) }
        ensures bad { IfErr result (λ bad. first_bad (record {
          table_limit = table_limit;
          initial_window = initial_window;
          max_streams = max_streams;
          max_frame = 16384;
        }) ≡ Some bad) }
    {
        if table_limit > MAX_TABLE_LIMIT {
            Err(BadConfig::TableLimit)
        } else if initial_window < 1 || initial_window > GREATEST_WINDOW {
            Err(BadConfig::InitialWindow)
        } else if max_streams < LEAST_MAX_STREAMS || max_streams > MOST_MAX_STREAMS {
            Err(BadConfig::MaxStreams)
        } else {
            Ok(Config {
                table_limit,
                initial_window,
                max_streams,
                max_frame: LEAST_MAX_FRAME,
            })
        }
    }

    // contract: calls (own) A configuration is made of values within their bounds
    // rule: calls (own) A configuration is made of values within their bounds
    /// Returns the same values with another SETTINGS_MAX_FRAME_SIZE: `max_frame`, from 16,384 to
    /// 1,048,576, is the largest payload, in octets, that is read (RFC 9113, sections 4.2 and
    /// 6.5.2). It is sent if it differs from the value sent last. A greater value holds from the
    /// SETTINGS frame that has it, a smaller one from its acknowledgment.
    ///
    /// The connection's window is 65,535 octets until `widen` is called, so DATA with a longer
    /// payload still ends the connection: with FLOW_CONTROL_ERROR if the stream is active, was
    /// reset by this end, or is above the last stream of the GOAWAY that this end has sent; with
    /// PROTOCOL_ERROR if the stream is idle; otherwise with STREAM_CLOSED. The limit of a field
    /// block stays 65,552 octets.
    ///
    /// # Errors
    ///
    /// [`BadConfig::MaxFrame`] (K4) where `max_frame` is out of its bounds.
    pub fn with_max_frame(self, max_frame: u32) -> Result<Config, BadConfig>
        ensures values { IfOk result (λ config. (config.table_limit ≡ self.table_limit)
            × (config.initial_window ≡ self.initial_window)
            × (config.max_streams ≡ self.max_streams) × (config.max_frame ≡ max_frame)) }
        ensures good { OnOk result (first_bad (record {
          table_limit = self.table_limit;
          initial_window = self.initial_window;
          max_streams = self.max_streams;
          max_frame = max_frame;
        }) ≡ None) }
        ensures bad { IfErr result (λ bad. first_bad (record {
          table_limit = self.table_limit;
          initial_window = self.initial_window;
          max_streams = self.max_streams;
          max_frame = max_frame;
        }) ≡ Some bad) }
    {
        if max_frame < LEAST_MAX_FRAME || max_frame > MOST_MAX_FRAME {
            return Err(BadConfig::MaxFrame);
        }
        Ok(Config {
            table_limit: self.table_limit,
            initial_window: self.initial_window,
            max_streams: self.max_streams,
            max_frame,
        })
    }

    // rule: calls (own) A configuration is made of values within their bounds
    /// Returns SETTINGS_HEADER_TABLE_SIZE: the largest header table, in octets, that the peer's
    /// encoder may use.
    pub fn table_limit(&self) -> u32
        ensures { result ≡ self.now.table_limit }
    {
        self.table_limit
    }

    // rule: calls (own) A configuration is made of values within their bounds
    /// Returns SETTINGS_INITIAL_WINDOW_SIZE: the octets of a new stream's window.
    pub fn initial_window(&self) -> u32
        ensures { result ≡ self.now.initial_window }
    {
        self.initial_window
    }

    // rule: calls (own) A configuration is made of values within their bounds
    /// Returns SETTINGS_MAX_CONCURRENT_STREAMS: the maximum number of active streams at a server.
    pub fn max_streams(&self) -> u32
        ensures { result ≡ self.now.max_streams }
    {
        self.max_streams
    }

    // rule: calls (own) A configuration is made of values within their bounds
    /// Returns SETTINGS_MAX_FRAME_SIZE: the largest payload, in octets, that is read.
    pub fn max_frame(&self) -> u32
        ensures { result ≡ self.now.max_frame }
    {
        self.max_frame
    }
}

impl Default for Config {
    /// A table limit of 4,096 octets, a window of 65,535 and payloads of 16,384, which are the
    /// initial values of RFC 9113, section 6.5.2, and 100 streams.
    fn default() -> Config
        ensures { (result.table_limit ≡ 4096) × (result.initial_window ≡ 65535)
            × (result.max_streams ≡ 100) × (result.max_frame ≡ 16384) }
    {
        Config {
            table_limit: FIRST_TABLE,
            initial_window: FIRST_WINDOW,
            max_streams: LEAST_MAX_STREAMS,
            max_frame: LEAST_MAX_FRAME,
        }
    }
}
