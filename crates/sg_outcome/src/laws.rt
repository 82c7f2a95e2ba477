//! The law of outcome lines, over the definitions alone.

ghost use Rattle.std.specs.Prelude.{◌≡◌, ◌≤◌, ℕ, List, length, Ok};
ghost use Rattle.sg_outcome.specs.OutcomeFields.{FitsOutcome};
ghost use Rattle.sg_outcome.specs.OutcomeOf.{outcome_of};
ghost use Rattle.sg_outcome.specs.OutcomeText.{outcome_line};
ghost use Rattle.sg_outcome.specs.declared.outcomes.Outcome.{Outcome};

/// What is spelled so is read, in lines of at most 70,000 octets, and what is read is spelled so.
pub fn outcomes_have_one_spelling()
    ensures again { (o : Outcome) → FitsOutcome o → length (outcome_line o) ≤ 70000 → outcome_of (outcome_line o) ≡ Ok o }
    ensures takes { (octets : List ℕ) (o : Outcome) → outcome_of octets ≡ Ok o → (octets ≡ outcome_line o) × FitsOutcome o }
{}
