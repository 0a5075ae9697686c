//! Laws of the definitions that this crate's contracts cite. Each function does nothing; its contract is the law.

ghost use Rattle.std.specs.Prelude.{◌≡◌, ℕ, List};
ghost use Rattle.text_io.specs.Lines.{Line};
ghost use Rattle.text_io.specs.Printing.{IsFunctional, EndsAt, Prints};
ghost use Rattle.text_io.specs.declared.ending.Done.{Done as TheDone};
ghost use Rattle.text_io.specs.declared.ending.Done.TheVariants.{Whole};

use crate::machine::Machine;

/// From every sound world, any list of lines has an answer.
pub fn lines_have_a_text<M: Machine>()
    ensures { (lines : List Line) (met : ℕ) (start : M.World) → M.rules.is_sound start
        → (text : List ℕ) × (done : TheDone) × Prints M.rules met start lines text done }
{}

/// If the rules are functional, a list of lines has at most one answer.
pub fn lines_have_one_text<M: Machine>()
    ensures { IsFunctional M.rules → (lines : List Line) (met : ℕ) (start : M.World)
        → (one other : List ℕ) (ends other_ends : TheDone)
        → Prints M.rules met start lines one ends → Prints M.rules met start lines other other_ends
        → (one ≡ other) × (ends ≡ other_ends) }
{}

/// Lines lead to a last world with a text exactly if the text answers these lines and the run then ends with Whole.
pub fn whole_texts_end_at_a_world<M: Machine>()
    ensures leads { (lines : List Line) (met : ℕ) (start : M.World) (text : List ℕ)
        → Prints M.rules met start lines text Whole → (last : M.World) × EndsAt M.rules met start lines text last }
    ensures prints { (lines : List Line) (met : ℕ) (start last : M.World) (text : List ℕ)
        → EndsAt M.rules met start lines text last → Prints M.rules met start lines text Whole }
{}
