//! Generated sessions, and choices of workers.

use std::test::Fail;
use vt_gen::{choices_of, session_text};

/// Two loops of the seed 0, whose first words are 298703107 (3 modulo 4, and 16 modulo 40 after a division by 4) and 4236525527.
const SESSION: &str = "# beats 8
live_loop :l1 do
  play 56 + rand_i(12)
  set :s1, tick
  sleep 4 * 0.125
end
live_loop :l2 do
  sync :l1
  play get(:s1)
end
";

#[test]
fn a_session_is_made_of_the_words_of_its_seed(rt: HostRuntime) -> Result<(), Fail> {
    let text = session_text(rt.alloc(), 0, 2, 8)?;
    assert!(rt; text.as_slice() == SESSION.as_bytes());
    Ok(())
}

#[test]
fn choices_are_words_modulo_the_workers(rt: HostRuntime) -> Result<(), Fail> {
    let choices = choices_of(rt.alloc(), 0, 4, 4)?;
    assert!(rt; choices.as_slice() == [3, 3, 3, 2].as_slice());
    Ok(())
}
