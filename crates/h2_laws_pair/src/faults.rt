//! Neither end reports a fault.

ghost use Rattle.std.specs.Prelude.{◌≡◌, ◌≤◌, None};
ghost use Rattle.h2_spec_log.specs.Acts.{Values};
ghost use Rattle.h2_spec_log.specs.Log.{waiting};
ghost use Rattle.h2_laws_pair.specs.Pairs.{Half, IsPair};
ghost use Rattle.h2_laws_pair.specs.Undisturbed.{IsUndisturbed, IsFaultless};

/// As long as an end hasn't failed, its waiting output stays below 210,000 octets, whatever is put
/// out: its peer has one SETTINGS and one PING under way at most. So no reply exceeds the 262,144
/// octets that may wait.
pub fn waiting_of_a_pair()
    ensures at_client { (client_values server_values : Values) (client server : Half)
        → IsPair client_values server_values client server → client.log.failed ≡ None
        → waiting client.log ≤ 210000 }
    ensures at_server { (client_values server_values : Values) (client server : Half)
        → IsPair client_values server_values client server → server.log.failed ≡ None
        → waiting server.log ≤ 210000 }
{}

/// Where no connection failed because it was out of memory or by the layer above, neither end has
/// failed, none has reset a stream for a fault of the other, and each reset was asked for (RFC
/// 9113, section 5.4).
pub fn no_faults_of_a_pair()
    ensures at_client { (client_values server_values : Values) (client server : Half)
        (pair : IsPair client_values server_values client server) → IsUndisturbed pair
        → IsFaultless client.log server.log }
    ensures at_server { (client_values server_values : Values) (client server : Half)
        (pair : IsPair client_values server_values client server) → IsUndisturbed pair
        → IsFaultless server.log client.log }
{}
