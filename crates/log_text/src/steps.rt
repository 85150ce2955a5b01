//! What the steps of a node add to its log. Each law is a function with an empty body.

ghost use Rattle.std.specs.Prelude.{◌≡◌, ℕ, ◌<◌, ◌≤◌, List, Option, Some, slice_get};
ghost use Rattle.metering_model.specs.Limits.{most_agents, most_nodes, most_periods, most_rounds};
ghost use Rattle.metering_model.specs.Sheet.{Sheet, Issuer};
ghost use Rattle.metering_model.specs.World.{World, Node, Packet, Event, current_period, opening_with};
ghost use Rattle.metering_model.specs.Step.{kept_now, play};
ghost use Rattle.metering_model.specs.KeptText.{HasText, KeptAmong};
ghost use Rattle.log_text.specs.LogText.{HasLog, Increment, LogHead, kept_after, kept_at_first};
ghost use Rattle.log_text.specs.Steps.{AddsAtMostOne, Begins, Gets, GoesOnTo, MayBe, NodeStep, node_after};

/// Each step of a node, whether it gets a packet or begins a ballot, adds at most one increment to its log, and none where
/// what it keeps stays. With it the log tells what the node keeps then, which has a text. So of a log that tells what the
/// node keeps before the step, and goes on with that increment, what it keeps after it is read.
pub fn a_step_adds_at_most_one_increment()
    ensures one { (w : World) (i : ℕ) (n : Node) (s : NodeStep) → HasText (kept_now w n)
        → MayBe w i n s →
        AddsAtMostOne (kept_now w n) (kept_now w (node_after w i n s)) }
    ensures has { (w : World) (i : ℕ) (n : Node) (s : NodeStep) → HasText (kept_now w n)
        → MayBe w i n s →
        HasText (kept_now w (node_after w i n s)) }
    ensures read { (w : World) (i : ℕ) (n : Node) (s : NodeStep) (h : LogHead)
        (base : Option KeptAmong) (increments : List Increment) → MayBe w i n s
        → HasLog h base increments → kept_after (kept_at_first h base) increments ≡ kept_now w n →
        GoesOnTo h base increments (kept_now w (node_after w i n s)) }
{}

/// So it is in every run: what was sent may be got by each node, and a voter may begin a ballot while there are periods and
/// rounds.
pub fn a_step_of_a_run_adds_at_most_one_increment()
    ensures gets { (room voters observers agents : ℕ) (sheet : Sheet) (issuer : Issuer)
        (events : List Event) → voters ≤ most_nodes → 1 ≤ agents → agents ≤ most_agents →
        (k i : ℕ) (p : Packet) (n : Node)
        → slice_get
        (play (opening_with room voters observers agents sheet issuer) events).1.packets k
        ≡ Some p
        → slice_get
        (play (opening_with room voters observers agents sheet issuer) events).1.nodes i
        ≡ Some n →
        AddsAtMostOne
        (kept_now (play (opening_with room voters observers agents sheet issuer) events).1 n)
        (kept_now (play (opening_with room voters observers agents sheet issuer) events).1
        (node_after (play (opening_with room voters observers agents sheet issuer) events).1 i n
        (Gets p))) }
    ensures begins { (room voters observers agents : ℕ) (sheet : Sheet) (issuer : Issuer)
        (events : List Event) → voters ≤ most_nodes → 1 ≤ agents → agents ≤ most_agents →
        (i : ℕ) (n : Node) → i < voters → current_period n < most_periods
        → n.kept.round < most_rounds
        → slice_get
        (play (opening_with room voters observers agents sheet issuer) events).1.nodes i
        ≡ Some n →
        AddsAtMostOne
        (kept_now (play (opening_with room voters observers agents sheet issuer) events).1 n)
        (kept_now (play (opening_with room voters observers agents sheet issuer) events).1
        (node_after (play (opening_with room voters observers agents sheet issuer) events).1 i n
        Begins)) }
{}
