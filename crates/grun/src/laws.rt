//! Laws of answers.

ghost use Rattle.grun.specs.Answer.{AnswersAreOne};

use g_program_laws::program_laws;

/// An answer is one: for the same words, bytes and trace no two replies are right.
pub fn answer_laws()
    ensures { AnswersAreOne }
{
    program_laws();
}
