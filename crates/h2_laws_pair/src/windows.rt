//! Windows are conserved between the ends (RFC 9113, section 6.9).

ghost use Rattle.std.specs.Prelude.{◌≡◌, ℕ, List, None};
ghost use Rattle.h2_block.specs.Grouping.{Item};
ghost use Rattle.h2_spec_log.specs.Acts.{Values};
ghost use Rattle.h2_laws_pair.specs.Pairs.{Half, IsPair};
ghost use Rattle.h2_laws_pair.specs.Directions.{AreUnderWay, ConservesConnection, BoundsStreams};
ghost use Rattle.h2_laws_pair.specs.Directions.{IsCarried};
ghost use Rattle.h2_laws_pair.specs.Directions.{ConservesStream};

/// As long as the reader hasn't failed, nothing of the connection's window is lost, in either
/// direction.
pub fn connection_window_of_a_pair()
    ensures to_server { (client_values server_values : Values) (client server : Half)
        (way back : List Item) (bound : ℕ) → IsPair client_values server_values client server
        → server.log.failed ≡ None
        → AreUnderWay client.log server.log way → AreUnderWay server.log client.log back
        → BoundsStreams server.log bound
        → ConservesConnection client.log server.log way back bound }
    ensures to_client { (client_values server_values : Values) (client server : Half)
        (way back : List Item) (bound : ℕ) → IsPair client_values server_values client server
        → client.log.failed ≡ None
        → AreUnderWay server.log client.log way → AreUnderWay client.log server.log back
        → BoundsStreams client.log bound
        → ConservesConnection server.log client.log way back bound }
{}

/// Nothing is lost of the window of a stream that is active at the writer, that the reader has not
/// closed by itself, and whose end it has not read: whatever settings changed meanwhile, and after
/// a failure of either end too.
pub fn stream_window_of_a_pair()
    ensures to_server { (client_values server_values : Values) (client server : Half)
        (way back : List Item) (i : ℕ) → IsPair client_values server_values client server
        → AreUnderWay client.log server.log way → AreUnderWay server.log client.log back
        → IsCarried client.log server.log i → ConservesStream client.log server.log way back i }
    ensures to_client { (client_values server_values : Values) (client server : Half)
        (way back : List Item) (i : ℕ) → IsPair client_values server_values client server
        → AreUnderWay server.log client.log way → AreUnderWay client.log server.log back
        → IsCarried server.log client.log i → ConservesStream server.log client.log way back i }
{}
