// Transcripts of scripts without faults: their answers are those of one plain volume.
ghost use Rattle.ec_machine_laws.specs.PlainLines.{LegalLinesAnswerPlainly};

/// Where lines only wait, reply or tell what is durable, and have a legal history, their answers are those of the plain volume.
pub fn legal_lines_are_answered_plainly()
    ensures { LegalLinesAnswerPlainly }
{}
