//! How a connection over a link ends, by the result of a call of its end.

ghost use Rattle.std.specs.Prelude.{◌≡◌, ◌≢◌, Ok, Err, IfOk, IfErr};
ghost use Rattle.h2_engines.specs.Failures.{IsOfCall, IsOfClient, IsOfServer, error_after};
ghost use Rattle.h2_engines.specs.ServerSteps.{error_with};

use h2_ends::{Code, ConnFault, EndRefusal, Refusal};
use h2_link::LinkError;

// contract: engines (own) N2 has the code with which the connection failed; memory is N3
// rule: engines (own) N2 has the code with which the connection failed; memory is N3
/// Returns how a connection over a link ends once it has failed with a code:
/// [`Code::InternalError`] becomes [`LinkError::Memory`] (N3), any other code
/// [`LinkError::Stream`] (N2) with its number.
pub fn error_of_code(code: Code) -> LinkError
    ensures error { result ≡ error_with code }
    ensures kind { IsOfServer result }
    ensures client { IsOfClient result }
    ensures goes { result ≢ LinkError.CutOff }
{
    match code {
        Code::InternalError => LinkError::Memory,
        code => LinkError::Stream(code.number()),
    }
}

// rule: engines (own) N2 has the code with which the connection failed; memory is N3
/// Returns the value of a call of `take`.
///
/// # Errors
///
/// [`error_of_code`] of the code with which the connection has failed.
pub fn unless_failed<T>(answer: Result<T, ConnFault>) -> Result<T, LinkError>
    ensures ok { IfOk result (λ value. answer ≡ Ok value) }
    ensures err { IfErr result (λ error. (fault : ConnFault) × (answer ≡ Err fault)
        × (error ≡ error_with fault.code)) }
    ensures kind { IfErr result IsOfServer }
    ensures client { IfErr result IsOfClient }
    ensures goes { IfErr result (λ error. error ≢ LinkError.CutOff) }
{
    match answer {
        Ok(value) => Ok(value),
        Err(fault) => Err(error_of_code(fault.code)),
    }
}

// rule: engines (own) N2 has the code with which the connection failed; memory is N3
// rule: engines (own) N5 comes only where a write has taken nothing
/// Returns how a connection ends once a call was refused: [`Refusal::Memory`] (C12) becomes
/// [`LinkError::Memory`] (N3), any other refusal [`LinkError::NoProgress`] (N5). Over a link no
/// other is expected. Without a link [`Refusal::OutputFull`] (C7) comes where so much output waits
/// that a request can't be answered or a stream can't be reset.
pub fn error_of_refusal(refusal: EndRefusal) -> LinkError
    ensures error { result ≡ error_after refusal }
    ensures kind { IsOfCall result }
{
    match refusal {
        EndRefusal::Conn(Refusal::Memory) => LinkError::Memory,
        _ => LinkError::NoProgress,
    }
}

/// Returns the value of a call of an end.
///
/// # Errors
///
/// [`error_of_refusal`] of the reason for which the call was refused.
pub fn unless_refused<T, E: Into<EndRefusal>>(answer: Result<T, E>) -> Result<T, LinkError>
    ensures ok { IfOk result (λ value. answer ≡ Ok value) }
    ensures err { IfErr result (λ error. (refused : E) × (refusal : EndRefusal)
        × (answer ≡ Err refused) × E.converts refused refusal × (error ≡ error_after refusal)) }
    ensures kind { IfErr result IsOfCall }
{
    match answer {
        Ok(value) => Ok(value),
        Err(refused) => Err(error_of_refusal(refused.into())),
    }
}
