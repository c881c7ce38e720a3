//! The laws of the reach, over the threads of texts: what these lead to, and what they write. Each contract is a law.

ghost use Rattle.vt_meaning.specs.Leading.{MayIsOne, OpeningsFit, RenderedByReach, TextsActByReach, TextsLead, TextsReach, TextsTellReach};

use crate::laws::match_test_is_right;
use crate::real_threads::{
    openings_are_orderly, threads_of_texts_act, threads_of_texts_have_the_laws,
};

/// With the reach of their blocks, the threads of checked texts lead to what the texts can lead to, and write what their blocks
/// may write.
pub fn threads_of_texts_lead()
    ensures { TextsLead }
{
    vt_reached::steps_are_led();
    vt_run::actions_are_within_limits();
    threads_of_texts_act();
    match_test_is_right();
}

/// So they have all laws that the theory of stores asks for.
pub fn threads_of_texts_keep_within_their_reach()
    ensures { TextsReach }
{
    threads_of_texts_lead();
    threads_of_texts_have_the_laws();
}

/// What a rendered session begins with is what its texts can lead to.
pub fn openings_begin_as_texts_can()
    ensures { OpeningsFit }
{
    vt_run::texts_start_within_limits();
    vt_run::refusals_stand_first();
    vt_run::inputs_are_within_limits();
    openings_are_orderly();
}

/// The functions of the reach tell it.
pub fn functions_tell_the_reach()
    ensures { TextsTellReach }
{
    match_test_is_right();
}

/// So with the reach of their blocks the threads of checked texts have all laws that the theory of stores asks for.
pub fn threads_of_checked_texts_have_the_laws()
    ensures { TextsActByReach }
{
    functions_tell_the_reach();
    threads_of_texts_keep_within_their_reach();
}

/// And a rendered session begins and goes on within the reach of its blocks.
pub fn rendered_sessions_keep_within_their_reach()
    ensures { RenderedByReach }
{
    functions_tell_the_reach();
    threads_of_texts_lead();
    openings_begin_as_texts_can();
}

/// Whatever tells what a start may write answers as the function of the reach does.
pub fn reach_has_one_answer()
    ensures { MayIsOne }
{
    match_test_is_right();
}
