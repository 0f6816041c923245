//! What an end makes of the frames that it reads.

ghost use Rattle.h2_spec_log.specs.declared.role.Role.{Role};
ghost use Rattle.h2_spec_log.specs.Acts.{Values};
ghost use Rattle.h2_spec_log.specs.Log.{Log};
ghost use Rattle.h2_spec_log.specs.Histories.{IsLog};
ghost use Rattle.h2_laws_end.specs.Grouped.{AreGrouped};
ghost use Rattle.h2_laws_end.specs.Readings.{HasReadings};

// contract: 4.3 A field block is its HEADERS' fragment and those of CONTINUATION
// contract: 4.3 A field block ends with the frame that has END_HEADERS
/// The items that an end has read, and the field block that has begun, are its frames, grouped, up
/// to a frame with which the connection failed (RFC 9113, sections 4.3 and 6.10).
pub fn items_are_frames_grouped()
    ensures { (role : Role) (values : Values) (log : Log) → IsLog role values log
        → AreGrouped log }
{}

// contract: 4.3 Each received block is decoded, also one that is ignored
// contract: 5.4.2 A stream error is answered by RST_STREAM with its code, and reported
// contract: 6.8 The last stream of GOAWAY never grows: the least so far is reported
/// The events are those of the items, in order, at most one of each, and besides them the streams
/// that the peer didn't process. Each field block is decoded at the table after all before it, and
/// each is reported with its fields unless this end had closed its stream by then, or it is a fault
/// of the stream; so is DATA. GOAWAY is reported with the least last stream so far.
pub fn events_are_of_the_items()
    ensures { (role : Role) (values : Values) (log : Log) → IsLog role values log
        → HasReadings log }
{}
