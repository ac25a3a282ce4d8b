// Laws of an interrupt handler's answer, and of the value that the handler reads from ICR.

ghost use Rattle.host_calls.specs.CausesLaws.{AnswersTellCauses, CallsTellCauses};
ghost use Rattle.host_calls.specs.CausesLaws.{EarlyOutcomesBearZero, FirstReadsStay};

use stations::Observer;

/// An interrupt handler reads ICR first. The handler's answer implies which causes were recorded, or what happened,
/// before this read.
/// - `answers`: if the handler answers `NotMine`, no cause that a driver handles was recorded when the handler was
///   called. No earlier step or delivery at this host put a frame on the wire, missed a frame, or wrote back the last
///   piece of a frame. If the handler answers `Handled`, at least one of two facts is true. A cause that a
///   driver handles was recorded when the handler was called. Or a step or a delivery at this host before the read had
///   an outcome other than `Nothing`.
/// - `calls`: if a host that is ready reads ICR first over a lent bus, the value that was read implies these facts. A
///   value without a cause that a driver handles implies what `NotMine` implies, and any other value what `Handled`
///   implies.
/// - `stay`: the first read of ICR in some steps remains the first read if further steps follow.
/// - `zero`: the outcomes with 0 accesses before them are those of the steps before the read.
pub fn answers_tell_causes<O: Observer>()
    ensures answers { AnswersTellCauses }
    ensures calls { CallsTellCauses O.Observer }
    ensures stay { FirstReadsStay }
    ensures zero { EarlyOutcomesBearZero }
{}
