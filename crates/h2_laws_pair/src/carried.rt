//! What is carried between the ends.

ghost use Rattle.std.specs.Prelude.{◌≡◌, List, [], length, None};
ghost use Rattle.h2_block.specs.Grouping.{Item};
ghost use Rattle.h2_spec_log.specs.declared.role.Role.TheVariants.{Client, Server};
ghost use Rattle.h2_spec_log.specs.Acts.{Values};
ghost use Rattle.h2_spec_log.specs.Histories.{IsLog};
ghost use Rattle.h2_laws_pair.specs.Pairs.{Half, IsPair};
ghost use Rattle.h2_laws_pair.specs.Directions.{CarriesOctets, AreUnderWay};

/// Each end of a pair has a log that comes about by itself: what is known of one end against
/// anybody is known of it.
pub fn logs_of_a_pair()
    ensures client { (client_values server_values : Values) (client server : Half)
        → IsPair client_values server_values client server
        → IsLog Client client_values client.log }
    ensures server { (client_values server_values : Values) (client server : Half)
        → IsPair client_values server_values client server
        → IsLog Server server_values server.log }
{}

/// What came in at one end, what was lost there once it had failed, and what is on the pipe are
/// what the other end has given out, in order: both ways, and after faults and being out of memory
/// too.
pub fn octets_are_carried()
    ensures to_server { (client_values server_values : Values) (client server : Half)
        → IsPair client_values server_values client server → CarriesOctets client server }
    ensures to_client { (client_values server_values : Values) (client server : Half)
        → IsPair client_values server_values client server → CarriesOctets server client }
{}

/// The items that one end has received are the first of those that the other has sent; the others
/// are under way.
pub fn items_are_carried()
    ensures to_server { (client_values server_values : Values) (client server : Half)
        → IsPair client_values server_values client server
        → (way : List Item) × AreUnderWay client.log server.log way }
    ensures to_client { (client_values server_values : Values) (client server : Half)
        → IsPair client_values server_values client server
        → (way : List Item) × AreUnderWay server.log client.log way }
{}

/// Once an end has given out all that it has written, and all of it was delivered, the other one,
/// as long as it hasn't failed, has received all that was sent: nothing is under way.
pub fn all_arrives()
    ensures to_server { (client_values server_values : Values) (client server : Half)
        → IsPair client_values server_values client server → server.log.failed ≡ None
        → server.incoming ≡ [] → client.log.given ≡ length client.log.written
        → server.log.received ≡ client.log.sent }
    ensures to_client { (client_values server_values : Values) (client server : Half)
        → IsPair client_values server_values client server → client.log.failed ≡ None
        → client.incoming ≡ [] → server.log.given ≡ length server.log.written
        → client.log.received ≡ server.log.sent }
{}
