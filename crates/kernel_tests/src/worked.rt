//! The formulas of lists with one data variable.

ghost use Rattle.std.specs.Prelude.{◌≡◌, [], ◌∷◌};
ghost use Rattle.store_core.specs.declared.kind.Route.TheOpen.{Route-F};
ghost use Rattle.tree_formula.specs.Worked.{list_types, list_vars, t};
ghost use Rattle.graph_view.specs.declared.view.Sym.TheVariants.{At};
ghost use Rattle.graph_view.specs.declared.view.CutCheck.TheVariants as check;
ghost use Rattle.graph_view.specs.Live.{lives_in};
ghost use Rattle.graph_view.specs.Routes.{names};
ghost use Rattle.graph_view.specs.Cuts.{cut_formula};
ghost use Rattle.kernel_tests.specs.Worked.{list_type, list_next, list_rules, at_start, pushed, dropped};
ghost use Rattle.kernel_tests.specs.Worked.{pushed_lives, pushed_names, dropped_lives, rounds_at_start, up_to_leaf};
ghost use Rattle.kernel_tests.specs.Worked.{dangling_at_start, shared_at_start, leaked_at_start};

/// After `y = new T; y.n = x;`, after a free under a guard, and at the start: what is live and named, two walks, and three
/// conditions of cuts.
pub fn lists_have_their_formulas()
    ensures pushed_live { lives_in list_types pushed 5 list_type 3 ≡ pushed_lives }
    ensures pushed_field { names list_types pushed 5 list_next 3 4 ≡ pushed_names }
    ensures dropped_live { lives_in list_types dropped 5 list_type 4 ≡ dropped_lives }
    ensures rounds { list_rules (Route-F.Star (list_rules (Route-F.Down (110 ∷ [])))) 4 2 3 ≡ rounds_at_start }
    ensures up { list_rules (Route-F.Then (list_rules Route-F.UpAny) (list_rules Route-F.Leaf)) 4 2 3 ≡ up_to_leaf }
    ensures dangling { cut_formula list_types at_start list_vars (At (t 1) ∷ []) check.DanglingRef 2 ≡ dangling_at_start }
    ensures shared { cut_formula list_types at_start list_vars (At (t 1) ∷ []) check.Shared 2 ≡ shared_at_start }
    ensures leak { cut_formula list_types at_start list_vars (At (t 1) ∷ []) check.Leak 2 ≡ leaked_at_start }
{}
