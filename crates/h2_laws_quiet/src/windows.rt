//! The streams and the windows of a quiet pair.

ghost use Rattle.std.specs.Prelude.{◌≡◌, ℕ, true, None};
ghost use Rattle.h2_spec_log.specs.Acts.{Values};
ghost use Rattle.h2_spec_log.specs.Log.{active, state};
ghost use Rattle.h2_spec_log.specs.States.{Active};
ghost use Rattle.h2_laws_pair.specs.Pairs.{Half, IsPair};
ghost use Rattle.h2_laws_pair.specs.Quiet.{IsQuiet};
ghost use Rattle.h2_laws_quiet.specs.OpenWindows.{HasOpenWindows};

// contract: joined (own) Two ends that are driven get quiet, and all that was accepted arrives
/// The same streams are active at both ends of a quiet pair of which neither end has failed:
/// none that is active at one end is closed at the other (RFC 9113, section 5.1). This holds
/// whatever was reset, and whatever requests the server does not process, which the client has
/// reported.
pub fn quiet_ends_have_the_same_streams()
    ensures same { (client_values server_values : Values) (client server : Half) (i : ℕ)
        → IsPair client_values server_values client server → client.log.failed ≡ None
        → server.log.failed ≡ None → IsQuiet client server
        → active client.log i ≡ active server.log i }
    ensures at_server { (client_values server_values : Values) (client server : Half) (i : ℕ)
        → IsPair client_values server_values client server → client.log.failed ≡ None
        → server.log.failed ≡ None → IsQuiet client server
        → active client.log i ≡ true → state server.log i ≡ Active }
    ensures at_client { (client_values server_values : Values) (client server : Half) (i : ℕ)
        → IsPair client_values server_values client server → client.log.failed ≡ None
        → server.log.failed ≡ None → IsQuiet client server
        → active server.log i ≡ true → state client.log i ≡ Active }
{}

// contract: joined (own) Two ends that are driven get quiet, and all that was accepted arrives
/// All windows are open, both ways, at a quiet pair of which neither end has failed: 65,535
/// octets, and what the other end widened its window by, may go on the connection, and on each
/// active stream that the end has not ended its initial window, which is at least 1 (RFC 9113,
/// section 6.9). This holds whatever settings changed and whatever was reset before.
pub fn windows_of_a_quiet_pair()
    ensures at_client { (client_values server_values : Values) (client server : Half)
        → IsPair client_values server_values client server → client.log.failed ≡ None
        → server.log.failed ≡ None → IsQuiet client server
        → HasOpenWindows client.log server.log }
    ensures at_server { (client_values server_values : Values) (client server : Half)
        → IsPair client_values server_values client server → client.log.failed ≡ None
        → server.log.failed ≡ None → IsQuiet client server
        → HasOpenWindows server.log client.log }
{}
