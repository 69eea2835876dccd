//! Codes and flows.

ghost use Rattle.std.specs.Prelude.{◌≡◌, ◌↔◌, List};
ghost use Rattle.store_core.specs.Tables.{TypeEntry};
ghost use Rattle.store_core.specs.Stores.{StoreMap};
ghost use Rattle.store_exec.specs.declared.outcome.Outcome.{Outcome};
ghost use Rattle.store_exec.specs.Runs.{RunsCode};
ghost use Rattle.hoare_split.specs.declared.point.Point.{Point};
ghost use Rattle.hoare_split.specs.Flows.{Flow, code_in};
ghost use Rattle.whole_run.specs.FlowRuns.{Leading, RunsFlow, outcome_of};

/// The code of a flow leads from a store where the flow does.
pub fn codes_run_as_their_flows()
    ensures { (types : List TypeEntry) (points : List Point) (flow : Flow) (s : StoreMap) (out : Outcome) →
        RunsCode types (code_in points flow) s out ↔ ((lead : Leading) × RunsFlow types flow s lead × (out ≡ outcome_of points lead)) }
{}
