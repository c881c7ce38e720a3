//! What holds of the words of every seed. The functions do nothing: each is there for its clause.

ghost use Rattle.vt_rand.specs.Draw.{DrawsAddUp};
ghost use Rattle.vt_rand.specs.Word.{WordsFit, WordsRepeat};

/// Each word is a number of 32 bits.
pub fn words_fit()
    ensures { WordsFit }
{}

/// The words repeat after 2^64 of them, so the number of words drawn modulo 2^64 says where a stream stands.
pub fn words_repeat()
    ensures { WordsRepeat }
{}

/// A stream that has drawn n words and then m more has drawn n + m.
pub fn draws_add_up()
    ensures { DrawsAddUp }
{}
