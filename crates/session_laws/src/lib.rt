//! Laws of sessions.
#![tactic(auto)]

ghost use Rattle.session_laws.specs.Determined.{AnswersDetermine};

/// Two runs of one script that begin alike and give the same answers leave the same databases, and the same files but for
/// the names whose write failed, as long as no line reads a file that one before it failed to write.
pub fn answers_determine()
    ensures { AnswersDetermine }
{}
