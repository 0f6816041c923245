//! The settings of an end.

ghost use Rattle.std.specs.Prelude.{◌≡◌, None, Some, OnOk, IfOk, IfErr};
ghost use Rattle.h2_flow.specs.ConfigValues.{values_of};
ghost use Rattle.h2_flow.specs.Configs.{first_bad};
ghost use Rattle.belkjoef.specs.Configs.{values_given, first_config};

use h2_ends::{BadConfig, Config};

/// `bj_config`: the settings of an end (RFC 9113, section 6.5.2).
#[repr(C)]
#[derive(Drop)]
pub struct BjConfig {
    /// HEADER_TABLE_SIZE of this end: the most octets of the peer's header table.
    pub table_limit: u32,
    /// INITIAL_WINDOW_SIZE: the window of a new stream, in octets.
    pub initial_window: u32,
    /// MAX_CONCURRENT_STREAMS: the most active streams at a server.
    pub max_streams: u32,
    /// MAX_FRAME_SIZE: the most octets of a payload that is read.
    pub max_frame: u32,
}

impl BjConfig {
    // rule: c (own) A new end is made in an empty place, of values within bounds
    /// Returns the configuration, if each value is within its bounds.
    pub(crate) fn config(&self) -> Result<Config, BadConfig>
        ensures values { IfOk result (λ config. values_of config ≡ values_given self.now) }
        ensures good { OnOk result (first_bad (values_given self.now) ≡ None) }
        ensures bad { IfErr result (λ bad. first_bad (values_given self.now) ≡ Some bad) }
    {
        Config::new(self.table_limit, self.initial_window, self.max_streams)?.with_max_frame(
            self.max_frame,
        )
    }
}

/// Stores the settings with which a connection begins.
#[unsafe(no_mangle)]
pub extern "C" fn bj_config_default(config: &mut BjConfig)
    ensures { config.new ≡ first_config }
{
    let first = Config::default();
    config.table_limit = first.table_limit();
    config.initial_window = first.initial_window();
    config.max_streams = first.max_streams();
    config.max_frame = first.max_frame();
}
