//! Laws of joins that follow one another.

ghost use Rattle.std.specs.Prelude.{◌≡◌, ℕ, Option, List, [], ◌∷◌, ◌++◌};
ghost use Rattle.labels.specs.Labels.{Function};
ghost use Rattle.bdd_nodes.specs.Shelf.{Contents, limit_of};
ghost use Rattle.bdd_nodes.specs.Changes.{Keeps};
ghost use Rattle.bdd_walk.specs.declared.joiner.Joiner.{Joiner};
ghost use Rattle.bdd_walk.specs.Answers.{Answers, KeepsAnswers};
ghost use Rattle.bdd_walk.specs.declared.set_joiner.SetJoiner.{SetJoiner};
ghost use Rattle.bdd_walk.specs.Fits.{Fits, FitsSets};
ghost use Rattle.bdd_walk.specs.Under.{AddsAmong, Exceeds, ExceedsAmong};

/// What a joiner keeps goes on being right where the shelf keeps its nodes and the rule its answers.
pub fn a_joiner_fits_what_goes_on()
    ensures { (joiner : Joiner) (dropped : Option ℕ) (old new : Contents) (answers more : Answers) → Keeps old new
        → KeepsAnswers answers more → Fits joiner dropped old answers → Fits joiner dropped new more }
{}

/// What a joiner of sets keeps goes on being right where the shelf keeps its nodes and the rule its answers.
pub fn a_set_joiner_fits_what_goes_on()
    ensures { (joiner : SetJoiner) (dropped : ℕ) (old new : Contents) (answers more : Answers) → Keeps old new
        → KeepsAnswers answers more → FitsSets joiner dropped old answers → FitsSets joiner dropped new more }
{}

/// What joins add counts up: the functions of later joins were missing from the shelf that has those of earlier ones. And
/// where one has no room, all that came before it counts too.
pub fn joins_add_up()
    ensures none { (shelf : Contents) → AddsAmong shelf shelf [] }
    ensures more { (first old new : Contents) (wholes others : List Function) → Keeps first old → Keeps old new
        → AddsAmong first old wholes → AddsAmong old new others → AddsAmong first new (others ++ wholes) }
    ensures alone { (shelf : Contents) (whole : Function) → Exceeds shelf whole → ExceedsAmong shelf (whole ∷ []) }
    ensures limit { (first old : Contents) (wholes others : List Function) → Keeps first old → limit_of old ≡ limit_of first
        → AddsAmong first old wholes → ExceedsAmong old others → ExceedsAmong first (others ++ wholes) }
{}
