//! The machine, and the logs that it represents.

ghost use Rattle.std.specs.Prelude.{◌≡◌, ◌≢◌, ℕ, List, Option, None};
ghost use Rattle.h2_frame.specs.Frames.{Frame};
ghost use Rattle.h2_spec_log.specs.ItemRules.{Decoded};
ghost use Rattle.h2_frame.specs.declared.code.Code.TheVariants.{InternalError};
ghost use Rattle.h2_wire.specs.declared.fault.WireFault.{WireFault};
ghost use Rattle.h2_wire.specs.Faults.{wire_fault_code};
ghost use Rattle.h2_spec_machine.specs.End.{end_view, End};
ghost use Rattle.h2_spec_log.specs.LogView.{log_view};
ghost use Rattle.h2_spec_log.specs.Acts.{Values, AreInRange, Act, Answer, IsTypedAct};
ghost use Rattle.h2_spec_log.specs.Log.{Log, next_unprocessed};
ghost use Rattle.h2_spec_log.specs.LogSteps.{took_part, took_frame, took_fault};
ghost use Rattle.h2_spec_log.specs.LogSteps.{took_out_of_memory, took_none};
ghost use Rattle.h2_spec_log.specs.LogCalls.{opened, MayAnswer, with_call};
ghost use Rattle.h2_spec_log.specs.CallRules.{refusal_of};
ghost use Rattle.h2_spec_log.specs.Histories.{IsLog, TakesOctets, TakesPart, TakesFrame};
ghost use Rattle.h2_spec_log.specs.Histories.{TakesFault, IsDecodedFor, MayRunOutOfMemory};
ghost use Rattle.h2_spec_machine.specs.Machine.{new_end, after_frame, fail, close_unprocessed};
ghost use Rattle.h2_spec_machine.specs.Machine.{unprocessed_of_end};
ghost use Rattle.h2_spec_machine.specs.Represents.{Represents};
ghost use Rattle.h2_spec_log.specs.declared.role.Role.{Role};
ghost use Rattle.h2_laws_machine.specs.Machines.{end_after, MachineStep, MayStep, log_after};
ghost use Rattle.h2_laws_machine.specs.Machines.{machine_after};

/// A new machine represents the log of a new end.
pub fn new_end_represents()
    ensures { (role : Role) (values : Values) → AreInRange values
        → Represents values (new_end role values) (opened role values) }
{}

// contract: calls (own) A call does what it says, or is refused for its first condition
/// A machine refuses a call just where the log that it represents does, and after the call it
/// represents the log with the call.
pub fn calls_preserve_representation()
    ensures refusal { (values : Values) (e : End) (log : Log) (act : Act) → Represents values e log
        → refusal_of (end_view e) act ≡ refusal_of (log_view log) act }
    ensures call { (values : Values) (e : End) (log : Log) (act : Act) (answer : Answer)
        → Represents values e log → IsTypedAct act → MayAnswer log act answer
        → Represents values (end_after e act answer) (with_call log act answer) }
{}

/// After each step in which no frame ends a machine represents the log with it: octets that end
/// none, octets that make a fault, being out of memory, and a stream that is reported as
/// unprocessed, which is the one that the log says.
pub fn steps_without_frames_preserve_representation()
    ensures part { (values : Values) (e : End) (log : Log) (octets unparsed : List ℕ)
        → Represents values e log → TakesOctets log
        → TakesPart log.role log octets unparsed
        → Represents values e (took_part log octets unparsed) }
    ensures fault { (values : Values) (e : End) (log : Log) (octets : List ℕ) (fault : WireFault)
        → Represents values e log → TakesOctets log
        → TakesFault log.role log octets fault → Represents values (fail (wire_fault_code fault)
        e.streams.last_processed e) (took_fault log octets fault) }
    ensures out_of_memory { (values : Values) (e : End) (log : Log) (octets : List ℕ)
        → Represents values e log → log.failed ≡ None
        → MayRunOutOfMemory log.role log octets
        → Represents values (fail InternalError e.streams.last_processed e) (took_out_of_memory
        log octets) }
    ensures next { (values : Values) (e : End) (log : Log) → Represents values e log
        → log.failed ≡ None
        → unprocessed_of_end e.role e.streams.entries e.goaway.received ≡ next_unprocessed log }
    ensures unprocessed { (values : Values) (e : End) (log : Log) → Represents values e log
        → log.failed ≡ None → next_unprocessed log ≢ 0
        → Represents values (close_unprocessed e (next_unprocessed log)) (took_none log) }
{}

/// After a frame a machine represents the log with it: whatever the frame, the field block that it
/// ends, its fault and the limits that it meets.
pub fn frames_preserve_representation()
    ensures { (values : Values) (e : End) (log : Log) (octets : List ℕ) (frame : Frame)
        (decoded : Option Decoded) → Represents values e log → TakesOctets log
        → TakesFrame log.role log octets frame → IsDecodedFor log decoded frame
        → Represents values (after_frame e decoded frame) (took_frame log octets decoded frame) }
{}

/// After every step that a log may take a machine that represents it represents the log after it.
/// So of each log that comes about there is a machine that represents it.
pub fn steps_preserve_representation()
    ensures step { (values : Values) (e : End) (log : Log) (step : MachineStep)
        → Represents values e log
        → MayStep log step → Represents values (machine_after e step) (log_after log step) }
    ensures every { (role : Role) (values : Values) (log : Log) → IsLog role values log
        → (e : End) × Represents values e log }
{}
