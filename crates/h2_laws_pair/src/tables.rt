//! The header tables of both ends.

ghost use Rattle.std.specs.Prelude.{◌≡◌, List};
ghost use Rattle.h2_block.specs.Grouping.{Item};
ghost use Rattle.h2_spec_log.specs.Acts.{Values};
ghost use Rattle.h2_spec_log.specs.Items.{total};
ghost use Rattle.h2_spec_log.specs.Settings.{one_ack};
ghost use Rattle.h2_spec_log.specs.Log.{acked};
ghost use Rattle.h2_laws_pair.specs.Pairs.{Half, IsPair};
ghost use Rattle.h2_laws_pair.specs.Directions.{AreUnderWay};
ghost use Rattle.h2_laws_pair.specs.HeaderTables.{HeaderTablesInStep};

/// Each acknowledgment of SETTINGS that an end has received was awaited, and was reported.
pub fn acknowledgments_are_awaited()
    ensures at_server { (client_values server_values : Values) (client server : Half)
        → IsPair client_values server_values client server
        → acked server.log ≡ total one_ack server.log.received }
    ensures at_client { (client_values server_values : Values) (client server : Half)
        → IsPair client_values server_values client server
        → acked client.log ≡ total one_ack client.log.received }
{}

/// The reader's header table, after the field blocks under way, is the writer's; and each of these
/// blocks decodes at its place to the list that the writer was given, whatever limits change
/// meanwhile, and also once an end has failed (RFC 9113, section 4.3).
pub fn tables_of_a_pair()
    ensures to_server { (client_values server_values : Values) (client server : Half)
        (way : List Item) → IsPair client_values server_values client server
        → AreUnderWay client.log server.log way
        → HeaderTablesInStep client.log server.log way }
    ensures to_client { (client_values server_values : Values) (client server : Half)
        (way : List Item) → IsPair client_values server_values client server
        → AreUnderWay server.log client.log way
        → HeaderTablesInStep server.log client.log way }
{}
