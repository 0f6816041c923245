//! Laws of messages.

ghost use Rattle.std.specs.Prelude.{◌≡◌, ◌↔◌, ◌++◌, ◌∷◌, [], ℕ, Bool, List, length, None};
ghost use Rattle.std.specs.List.{sum_by};
ghost use Rattle.h2_message.specs.declared.reading.Reads.{Reads};
ghost use Rattle.h2_message.specs.declared.reading.Reads.TheVariants.{Requests, Responses};
ghost use Rattle.h2_message.specs.Broken.{broken_after};
ghost use Rattle.h2_message.specs.Messages.{SentMessage, broken_by_request, broken_by_response};
ghost use Rattle.h2_message.specs.Reading.{Part, IsReadable, IsWellRead, as_read};

// contract: 8.1 (own) A message that breaks no rule as sent breaks none as read
/// A message that breaks no rule when it is sent breaks none when it is read, in however many
/// DATA frames its body comes.
pub fn sent_messages_are_well_read()
    ensures request { (message : SentMessage) (data_parts : List (List ℕ))
        → broken_by_request message ≡ None → sum_by length data_parts ≡ length message.body
        → IsWellRead Requests (as_read message data_parts) }
    ensures response { (to_head : Bool) (message : SentMessage) (data_parts : List (List ℕ))
        → broken_by_response to_head message ≡ None
        → sum_by length data_parts ≡ length message.body
        → IsWellRead (Responses to_head) (as_read message data_parts) }
{}

// contract: 8.1.1 (own) A part that is refused breaks a rule, the least of which is named
/// After the parts that were read, the next part is read if and only if it breaks no rule.
pub fn refused_parts_break_a_rule()
    ensures { (reads : Reads) (parts : List (Part × Bool)) (part : Part × Bool)
        → IsReadable reads parts
        → (broken_after reads parts part ≡ None) ↔ IsReadable reads (parts ++ part ∷ []) }
{}
