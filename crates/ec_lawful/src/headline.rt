// The headline: what a run shows is lawful, told by its lines alone, and how the facts on all nodes give it.
ghost use Rattle.ec_lawful.specs.HeadlineLaws.{FactsShow, LineTells, NothingTells, QuietTells};

/// Where all facts hold and the lines tell what became of each operation, they show a lawful run on the
/// volume at the beginning, with the ids that new objects were given.
pub fn facts_show_lawful_runs()
    ensures { FactsShow }
{}

/// The lines tell so before any of them, and go on to tell so behind a step that shows nothing, and behind
/// one that shows a line.
pub fn lines_go_on_to_tell()
    ensures nothing { NothingTells }
    ensures quiet { QuietTells }
    ensures line { LineTells }
{}
