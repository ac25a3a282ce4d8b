// Laws of reading texts.

ghost use Rattle.scenario.specs.Laws.{RefusalsAreOne, TextsAreReadOrRefused};

/// A text that can be read isn't refused for a line. A text is refused for at most one line, with at most one fault.
///
/// The function does nothing: its contract is the law.
pub fn texts_are_read_or_refused()
    ensures read { TextsAreReadOrRefused }
    ensures once { RefusalsAreOne }
{}
