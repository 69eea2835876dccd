//! What the formulas of terms, assertions, claims and parts mean.

ghost use Rattle.std.specs.Prelude.{◌↔◌, ℕ, ◌<◌, ◌≤◌, IsTrue, List, Option, IfSome, map, option_map};
ghost use Rattle.std.specs.List.{AllByRecursion};
ghost use Rattle.gta_theory.specs.Assignments.{Assignment, PositionSet, IsFiniteSet, replace};
ghost use Rattle.ws2s_core.specs.declared.track.Track.{Track};
ghost use Rattle.ws2s_core.specs.Satisfaction.{WSat};
ghost use Rattle.ws2s_forms.specs.Forms.{track};
ghost use Rattle.store_core.specs.declared.ids.VarId.{VarId};
ghost use Rattle.store_core.specs.declared.ids.TypeId.{TypeId};
ghost use Rattle.store_core.specs.Stores.{StoreMap};
ghost use Rattle.store_logic.specs.declared.term.Term.{Term};
ghost use Rattle.store_logic.specs.declared.assertion.Assertion.{Assertion};
ghost use Rattle.store_logic.specs.declared.pred.PredDef.{PredDef};
ghost use Rattle.store_logic.specs.Sorts.{Sort, Truth, Cell, TermFits};
ghost use Rattle.store_logic.specs.Fits.{IsKnownDataVar, FitsIn, AssertionFits};
ghost use Rattle.store_logic.specs.Terms.{Environment, outside, truth_at};
ghost use Rattle.store_logic.specs.Satisfaction.{SatAll};
ghost use Rattle.store_exec.specs.declared.triple.Claim.{Claim};
ghost use Rattle.store_exec.specs.declared.triple.Start.{Start};
ghost use Rattle.store_exec.specs.Cuts.{IsMet, AreMet, Escapes};
ghost use Rattle.store_exec.specs.Fits.{ClaimFits};
ghost use Rattle.tree_encode.specs.Layouts.{LaidOut};
ghost use Rattle.tree_encode.specs.Tracks.{track_count};
ghost use Rattle.graph_view.specs.declared.view.View.{View};
ghost use Rattle.graph_view.specs.Sights.{sight_of};
ghost use Rattle.graph_view.specs.After.{Standing};
ghost use Rattle.graph_meaning.specs.Live.Meaning.{Agrees, MeansHere};
ghost use Rattle.graph_meaning.specs.Walks.Wells.{ShowsWell};
ghost use Rattle.site_list.specs.States.{State, sight, value_of};
ghost use Rattle.site_list.specs.Claims.{is_value, is_true_term, assertion, claim};
ghost use Rattle.site_list.specs.Parts.{is_part, escapes};
ghost use Rattle.site_list.specs.Cuts.{claims};
ghost use Rattle.site_list.specs.Triples.{at_start, start_holds};
ghost use Rattle.triple_meaning.specs.Claims.Bound.{AreBound, TermAt, scope_under};
ghost use Rattle.triple_meaning.specs.Claims.Given.{HasPart, IsGiven, IsRegionGiven, IsRegionOf, IsPartGiven, HasNamedPart, NameLive};
ghost use Rattle.triple_meaning.specs.Claims.Stating.{view_of};

/// The formula of a term's cell holds exactly where the live cell stands that the term is, and that of a term's truth exactly where
/// the term is true. Names stand for variables, or for what is on the tracks of quantifiers.
pub fn terms_are_told()
    ensures cells { (l : LaidOut) (view : View) (a b : Assignment) (first s t : StoreMap) (at : Standing) (count own : ℕ) (sorts : List Sort)
        (e : Environment) (term : Term) (ty : TypeId) → ShowsWell l view a first s t at count → Agrees count a b → count ≤ own →
        AreBound at b own sorts e.bound → TermFits l.types (scope_under l.vars sorts) term (Cell ty) →
        MeansHere own b (λ next x. is_value l.types (sight_of l.vars view) view.vars own term next x) (TermAt t at e term) }
    ensures truths { (l : LaidOut) (view : View) (a b : Assignment) (first s t : StoreMap) (at : Standing) (count own : ℕ) (sorts : List Sort)
        (e : Environment) (term : Term) → ShowsWell l view a first s t at count → Agrees count a b → count ≤ own →
        AreBound at b own sorts e.bound → TermFits l.types (scope_under l.vars sorts) term Truth →
        WSat (is_true_term l.types (sight_of l.vars view) view.vars own term) b ↔ IsTrue (truth_at t e term) }
{}

/// The formula of an assertion that fits holds exactly where what is read of the seen store satisfies the assertion: inside
/// quantifiers, where what they bind is on the tracks before the next one, and outside of all.
pub fn assertions_are_told()
    ensures inside { (l : LaidOut) (view : View) (a b : Assignment) (first s t : StoreMap) (at : Standing) (count own : ℕ) (sorts : List Sort)
        (e : Environment) (preds : List PredDef) (it : Assertion) → ShowsWell l view a first s t at count → Agrees count a b → count ≤ own →
        AreBound at b own sorts e.bound → FitsIn l.types it (scope_under l.vars sorts) →
        WSat (assertion l.types (sight_of l.vars view) view.vars it own) b ↔ SatAll l.types preds t e it }
    ensures whole { (l : LaidOut) (view : View) (a b : Assignment) (first s t : StoreMap) (at : Standing) (count next : ℕ) (preds : List PredDef)
        (it : Assertion) → ShowsWell l view a first s t at count → Agrees count a b → count ≤ next → AssertionFits l.types l.vars it →
        WSat (assertion l.types (sight_of l.vars view) view.vars it next) b ↔ SatAll l.types preds t outside it }
{}

/// Where a view shows all of the store, and a track has the part of which a claim speaks, the formula of the claim holds exactly
/// where the store satisfies the assertion on the region.
pub fn claims_are_told()
    ensures { (l : LaidOut) (view : View) (a b : Assignment) (first s : StoreMap) (at : Standing) (count next : ℕ) (part : Option Track) (it : Claim) →
        ShowsWell l view a first s s at count → Agrees count a b → count ≤ next → IsRegionGiven l.types l.vars a at s count part it.region →
        AssertionFits l.types l.vars it.assertion →
        WSat (claim l.types (sight_of l.vars view) view.vars part it next) b ↔ IsMet l.types l.vars s it }
{}

/// The formula of a part holds exactly where the track has what data fields reach from the data variables, and the dead cells that
/// these name, where they name any. Such a track there always is.
pub fn parts_are_told()
    ensures any { (l : LaidOut) (view : View) (a b : Assignment) (first s : StoreMap) (at : Standing) (count next x : ℕ) (roots : List VarId) →
        ShowsWell l view a first s s at count → Agrees count a b → count ≤ next → x < next → AllByRecursion (IsKnownDataVar l.vars) roots →
        WSat (is_part l.types (sight_of l.vars view) (map (value_of view.vars) roots) x next) b
        ↔ HasNamedPart l.types l.vars b at (track x) s roots }
    ensures live { (l : LaidOut) (view : View) (a b : Assignment) (first s : StoreMap) (at : Standing) (count next x : ℕ) (roots : List VarId) →
        ShowsWell l view a first s s at count → Agrees count a b → count ≤ next → x < next → AllByRecursion (IsKnownDataVar l.vars) roots →
        NameLive s roots → WSat (is_part l.types (sight_of l.vars view) (map (value_of view.vars) roots) x next) b
        ↔ HasPart l.types l.vars b at (track x) s roots }
    ensures there { (l : LaidOut) (view : View) (a b : Assignment) (first s : StoreMap) (at : Standing) (count next x : ℕ) (roots : List VarId) →
        ShowsWell l view a first s s at count → Agrees count a b → count ≤ x → x < next → AllByRecursion (IsKnownDataVar l.vars) roots →
        (set : PositionSet) × IsFiniteSet set
        × WSat (is_part l.types (sight_of l.vars view) (map (value_of view.vars) roots) x next) (replace b x set) }
{}

/// Where the track has the part of these data variables, the formula of escapes holds exactly where some pointer variable names a
/// cell on the wrong side of the part.
pub fn escapes_are_told()
    ensures { (l : LaidOut) (view : View) (a b : Assignment) (first s : StoreMap) (at : Standing) (count next x : ℕ) (roots inside : List VarId) →
        ShowsWell l view a first s s at count → Agrees count a b → count ≤ next → IsGiven l.types l.vars a at s count roots (track x) →
        WSat (escapes l.vars inside view.vars x next) b ↔ Escapes l.types l.vars s roots inside }
{}

/// What a state of symbolic execution sees: the formulas of an assertion, of claims on all cells or on one part and its rest, and of
/// a part, read after the state's events, mean the same of the store.
pub fn states_are_told()
    ensures assertions { (l : LaidOut) (st : State) (a b : Assignment) (first s : StoreMap) (at : Standing) (count next : ℕ) (preds : List PredDef)
        (it : Assertion) → ShowsWell l (view_of l.types l.vars st) a first s s at count → Agrees count a b → count ≤ next →
        AssertionFits l.types l.vars it → WSat (assertion l.types (sight l.vars st) st.values it next) b ↔ SatAll l.types preds s outside it }
    ensures claims { (l : LaidOut) (st : State) (a b : Assignment) (first s : StoreMap) (at : Standing) (count next x : ℕ)
        (named : Option (List VarId)) (asserts : List Claim) → ShowsWell l (view_of l.types l.vars st) a first s s at count → Agrees count a b →
        count ≤ next → IsPartGiven l.types l.vars a at s count x named → AllByRecursion (λ (c : Claim). IsRegionOf named c.region) asserts →
        AllByRecursion (ClaimFits l.types l.vars) asserts →
        WSat (claims l.types l.vars asserts (option_map (λ (roots : List VarId). track x) named) st next) b ↔ AreMet l.types l.vars s asserts }
    ensures parts { (l : LaidOut) (st : State) (a b : Assignment) (first s : StoreMap) (at : Standing) (count next x : ℕ) (roots : List VarId) →
        ShowsWell l (view_of l.types l.vars st) a first s s at count → Agrees count a b → count ≤ next → x < next →
        AllByRecursion (IsKnownDataVar l.vars) roots →
        WSat (is_part l.types (sight l.vars st) (map (value_of st.values) roots) x next) b ↔ HasNamedPart l.types l.vars b at (track x) s roots }
{}

/// The formula of a triple's start holds exactly where the claims of the start are met and, after a call, no pointer variable is on
/// the wrong side of the returned part.
pub fn starts_are_told()
    ensures { (l : LaidOut) (a b : Assignment) (first s : StoreMap) (at : Standing) (count next : ℕ) (start : Start) →
        ShowsWell l (view_of l.types l.vars (at_start l.types l.vars)) a first s s at count → Agrees count a b → count ≤ next →
        IsPartGiven l.types l.vars a at s count (track_count l.types l.vars) start.returned →
        AllByRecursion (λ (c : Claim). IsRegionOf start.returned c.region) start.asserts →
        AllByRecursion (ClaimFits l.types l.vars) start.asserts → WSat (start_holds l.types l.vars start next) b
        ↔ (AreMet l.types l.vars s start.asserts × IfSome start.returned (λ part. Escapes l.types l.vars s part start.inside → ⊥)) }
{}
