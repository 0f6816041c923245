//! Laws of hosts over sequences of steps.

ghost use Rattle.std.specs.Prelude.{◌≡◌, ◌≢◌, ◌≤◌, List, Option, Some};
ghost use Rattle.h2_host.specs.declared.host.Made.{Made};
ghost use Rattle.h2_host.specs.declared.host.Reply.{Reply};
ghost use Rattle.h2_host.specs.declared.state.HostState.{HostState};
ghost use Rattle.h2_host.specs.declared.table.Slot.{Slot};
ghost use Rattle.h2_host.specs.declared.token.Token.{Token};
ghost use Rattle.h2_host.specs.Isolation.{HappensAt, MoveOf, RunsAlone};
ghost use Rattle.h2_host.specs.Runs.{AreNew, GetsTurnBefore, IsReadyAt, IsRun, IsRunApart};
ghost use Rattle.h2_host.specs.Runs.{RunsWhile};
ghost use Rattle.h2_host.specs.Runs.{WithinOneTurn, given_in, taken_in, tokens_opened};
ghost use Rattle.h2_host.specs.Sound.{IsSoundHost};
ghost use Rattle.h2_host.specs.Steps.{GivesTurn};
ghost use Rattle.h2_host.specs.Turns.{most_given, most_taken};

use crate::party::Party;

// contract: hosts (own) A connection is what its own steps make of it
/// Each connection that stays open is the result of its own steps alone, one after another,
/// whatever happens to the others.
pub fn connections_run_alone<P: Party>()
    ensures alone { (old new : List (Slot P)) (moves : List MoveOf)
        → HappensAt P.steps new old moves → RunsAlone P.steps old new moves }
    ensures apart { (old new : HostState P) (made : List (Made P)) (replies : List (Reply P))
        → IsRun P.steps P.held_of P.ready_of old new made replies
        → IsRunApart P.steps old new }
{}

// contract: hosts (own) No token is given twice, and an old one changes nothing
/// No token is given twice.
pub fn tokens_are_new<P: Party>()
    ensures { (old new : HostState P) (made : List (Made P)) (replies : List (Reply P))
        → IsRun P.steps P.held_of P.ready_of old new made replies
        → AreNew old (tokens_opened replies) }
{}

// contract: hosts (own) All that are ready have a turn before any has a second
/// Once a connection has its turn, each other that is and stays ready has one before that
/// connection has a second.
pub fn ready_ones_go_first<P: Party>()
    ensures { (before old new : HostState P) (made : List (Made P)) (replies : List (Reply P))
        (first other : Token) → IsSoundHost P.held_of P.ready_of old
        → GivesTurn P.ready_of before old (Some other) → first.place ≢ other.place
        → RunsWhile P.steps P.held_of P.ready_of (IsReadyAt P.ready_of first) new old made replies
        → GetsTurnBefore first other replies }
{}

// contract: hosts (own) A turn takes 32,786 octets and gives 65,536 at most
/// In one turn at most 32,786 octets are taken and at most 65,536 given, in all steps together.
pub fn turns_are_bounded<P: Party>()
    ensures taken { (old new : HostState P) (made : List (Made P)) (replies : List (Reply P))
        → IsRun P.steps P.held_of P.ready_of old new made replies → WithinOneTurn made
        → taken_in made replies ≤ most_taken }
    ensures given { (old new : HostState P) (made : List (Made P)) (replies : List (Reply P))
        → IsRun P.steps P.held_of P.ready_of old new made replies → WithinOneTurn made
        → given_in made replies ≤ most_given }
{}
