//! What holds of every text that is checked, as laws of the definitions. The function does nothing:
//! its contract is the law.
ghost use Rattle.run_check.specs.Laws.{FirstBadIsOne, LegalHasNone, TextFixesHistory};

/// A legal text tells what its clients were told, and the history: whoever reads it as legal reads
/// the same. A legal text has no first bad line, and no text has two.
pub fn texts_have_one_verdict()
    ensures fixed { TextFixesHistory }
    ensures none { LegalHasNone }
    ensures one { FirstBadIsOne }
{}
