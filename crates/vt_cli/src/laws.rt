//! What holds of every score. The function does nothing; its contract is the law.

ghost use Rattle.vt_cli.specs.ScoreLaws.{ScoresAreInOrder};

/// The events of a score are in order of place, and its living threads in order of their lists; none stands twice.
pub fn scores_are_in_order()
    ensures { ScoresAreInOrder }
{}
