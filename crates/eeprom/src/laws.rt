// The law of EERD over all lists of writes and ticks.

ghost use Rattle.eeprom.specs.EerdHistory.{AnswersByHistory};

/// The value of EERD after any list of writes and ticks. Without a write with START, the value is 0. Otherwise the
/// value contains the ADDR of the last such write. If a tick followed this write, the value also contains the word at
/// this ADDR, and DONE. If not, the value contains only ADDR.
pub fn answers_by_history()
    ensures { AnswersByHistory }
{}
