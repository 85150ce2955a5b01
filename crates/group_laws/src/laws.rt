//! The headline over every list of events, and what the bodies of a group rest on.

ghost use Rattle.std.specs.Prelude.{◌≡◌, ◌≢◌, ℕ, ◌≤◌, List, [], ◌++◌, map, Some, Ok, Err, All, true, slice_get};
ghost use Rattle.metering_model.specs.Limits.{most_agents, most_nodes};
ghost use Rattle.metering_model.specs.Sheet.{Sheet, Issuer};
ghost use Rattle.metering_model.specs.Cut.{Cut};
ghost use Rattle.metering_model.specs.declared.Refusal.{Refusal};
ghost use Rattle.metering_model.specs.declared.Refusal.TheVariants.{WorldFull};
ghost use Rattle.metering_model.specs.Batch.{Batch};
ghost use Rattle.metering_model.specs.World.{World, Node, Event, Deliver, Journal, Offer, Restart, Revive, KeptOffer, KeptGood, Restarted, Refused, opening_with};
ghost use Rattle.metering_model.specs.KeptText.{HasText, kept_text};
ghost use Rattle.metering_model.specs.Step.{batch_of, kept_now, step, play};
ghost use Rattle.metering_model.specs.History.{Entry, IsLegal};
ghost use Rattle.group_laws.specs.Headline.{IsPrefixOf, AreTheCuts, HoldsAfter};
ghost use Rattle.group_laws.specs.EveryRun.{KeepsLimits};
ghost use Rattle.group_laws.specs.Observers.{without, IsFollowed};
ghost use Rattle.group_laws.specs.Alone.{CanBeDoneAlone};
ghost use Rattle.group_laws.specs.Revivals.{refusal_of_other};
ghost use Rattle.group_laws.specs.OneAgent.{AgreeAtAgent, SameJournalOf, ChangesOnlyAgent};
ghost use Rattle.group_laws.specs.SentPackets.{SendsAsTold, told_number};
ghost use Rattle.group_laws.specs.OneNode.{AgreeAtNode, SameStepAt, ChangesOnlyNode, is_input_at, is_at};

/// The headline: after every list of events, in a world with room for however many packets, and after every history
/// that one thread could have made, the chosen cuts are one growing list, and each export is of one of them and of the
/// one before it. A run's list is a prefix of the list of each run that goes on from it.
pub fn runs()
    ensures holds { (room voters observers agents : ℕ) (sheet : Sheet) (issuer : Issuer)
        (events : List Event) →
        HoldsAfter voters observers agents sheet issuer events
        (play (opening_with room voters observers agents sheet issuer) events).0
        (play (opening_with room voters observers agents sheet issuer) events).1 }
    ensures histories { (room voters observers agents : ℕ) (sheet : Sheet) (issuer : Issuer)
        (history : List Entry) (reached : World) →
        IsLegal (opening_with room voters observers agents sheet issuer) history reached →
        HoldsAfter voters observers agents sheet issuer (map (λ e. e.event) history)
        (map (λ e. e.reply) history) reached }
    ensures grows { (room voters observers agents : ℕ) (sheet : Sheet) (issuer : Issuer)
        (events more : List Event) (before after : List Cut) →
        AreTheCuts (play (opening_with room voters observers agents sheet issuer) events).1 before →
        AreTheCuts (play (opening_with room voters observers agents sheet issuer)
        (events ++ more)).1 after →
        IsPrefixOf before after }
{}

/// After every list of events packets, votes, attempts, tallies and learned lists are within their limits, and what a
/// node holds is a part of the journals.
pub fn every_run_keeps_its_limits()
    ensures holds { (room voters observers agents : ℕ) (sheet : Sheet) (issuer : Issuer)
        (events : List Event) →
        KeepsLimits room voters observers agents
        (play (opening_with room voters observers agents sheet issuer) events).1 }
{}

/// Without what happens at its observers a group has the same journals, and its voters keep, try and count the same:
/// after the very events that are left, unless a packet of an observer was delivered to a voter, or something refused
/// for a full world; and after some events, none at an observer, with the same chosen cuts. Of these the replies at
/// voters and to agents are those of the group, in order, but for the numbers of packets and for what a full world
/// refused; between them stand deliveries that send and learn nothing.
pub fn observers_change_nothing()
    ensures follows { (room voters observers agents : ℕ) (sheet : Sheet) (issuer : Issuer)
        (events others : List Event) →
        without voters [] 0 events
        (play (opening_with room voters observers agents sheet issuer) events).0
        ≡ Some others →
        All (λ r. r ≢ Refused WorldFull)
        (play (opening_with room voters observers agents sheet issuer) events).0 →
        IsFollowed voters (play (opening_with room voters observers agents sheet issuer) events).1
        (play (opening_with room voters 0 agents sheet issuer) others).1 }
    ensures all { (room voters observers agents : ℕ) (sheet : Sheet) (issuer : Issuer)
        (events : List Event) →
        CanBeDoneAlone voters events (opening_with room voters observers agents sheet issuer)
        (opening_with room voters 0 agents sheet issuer) }
{}

/// In a run, a revival that is answered Restarted does what a restart of that node does. In a group of up to 99 voters
/// and 1 to 64 agents, what a node keeps has a text, and a revival from it is a restart. In any world each other offer
/// to a node that is there is refused, and changes nothing.
pub fn a_revival_is_a_restart()
    ensures restarts { (room voters observers agents : ℕ) (sheet : Sheet) (issuer : Issuer)
        (events : List Event) (node : ℕ) (offer : KeptOffer) →
        (step (play (opening_with room voters observers agents sheet issuer) events).1
        (Revive node offer)).0
        ≡ Restarted →
        step (play (opening_with room voters observers agents sheet issuer) events).1
        (Revive node offer)
        ≡ step (play (opening_with room voters observers agents sheet issuer) events).1
        (Restart node) }
    ensures has_text { (room voters observers agents : ℕ) (sheet : Sheet) (issuer : Issuer)
        (events : List Event) → voters ≤ most_nodes → 1 ≤ agents → agents ≤ most_agents →
        (node : ℕ) (n : Node)
        → slice_get (play (opening_with room voters observers agents sheet issuer) events).1.nodes
        node ≡ Some n →
        HasText (kept_now
        (play (opening_with room voters observers agents sheet issuer) events).1 n) }
    ensures taken { (room voters observers agents : ℕ) (sheet : Sheet) (issuer : Issuer)
        (events : List Event) → voters ≤ most_nodes → 1 ≤ agents → agents ≤ most_agents →
        (node : ℕ) (n : Node)
        → slice_get (play (opening_with room voters observers agents sheet issuer) events).1.nodes
        node ≡ Some n →
        step (play (opening_with room voters observers agents sheet issuer) events).1
        (Revive node (KeptGood (kept_text
        (kept_now (play (opening_with room voters observers agents sheet issuer) events).1 n))))
        ≡ step (play (opening_with room voters observers agents sheet issuer) events).1
        (Restart node) }
    ensures others { (w : World) (node : ℕ) (n : Node) (offer : KeptOffer)
        → slice_get w.nodes node ≡ Some n →
        offer ≢ KeptGood (kept_text (kept_now w n)) →
        step w (Revive node offer) ≡ (Refused (refusal_of_other offer), w) }
{}

/// An agent journals by itself: in any two worlds with the same sheet, as many agents, the same batches of that agent,
/// journals in order and room for a packet more, a batch of it gets the same reply but for its packet's number, adds the
/// same to that agent's batches, and is sent alike. All else stays, and so does all where the bytes are no batch.
pub fn an_agent_journals_by_itself()
    ensures journaled { (w v : World) (offer : Offer) (b : Batch) → batch_of offer ≡ Ok b →
        AgreeAtAgent b.agent w v →
        SameJournalOf b.agent w v (step w (Journal offer)) (step v (Journal offer)) }
    ensures changes { (w : World) (offer : Offer) (b : Batch) → batch_of offer ≡ Ok b →
        ChangesOnlyAgent b.agent w (step w (Journal offer)) }
    ensures bad { (w : World) (offer : Offer) (refusal : Refusal) → batch_of offer ≡ Err refusal →
        step w (Journal offer) ≡ (Refused refusal, w) }
{}

/// A node acts by itself: in any two worlds with the same sheet and issuer, as many voters and agents, the same node of
/// a number, if any, and room for a packet more, the same packet under whatever number, and any other event at that node,
/// gets the same reply but for a packet's number, leaves the node the same and sends the same. All else stays.
pub fn a_node_acts_by_itself()
    ensures delivered { (w v : World) (i k l : ℕ) → AgreeAtNode i w v →
        slice_get v.packets l ≡ slice_get w.packets k →
        SameStepAt i w v (step w (Deliver k i)) (step v (Deliver l i)) }
    ensures inputs { (w v : World) (i : ℕ) (e : Event) → AgreeAtNode i w v →
        is_input_at i e ≡ true → SameStepAt i w v (step w e) (step v e) }
    ensures changes { (w : World) (i : ℕ) (e : Event) → is_at i e ≡ true →
        ChangesOnlyNode i w (step w e) }
{}

/// One packet more is sent just where the reply tells its number, which is the next one. Those before it stay.
pub fn a_reply_tells_what_was_sent()
    ensures sent { (w : World) (e : Event) →
        SendsAsTold w (step w e).1 (told_number (step w e).0) }
{}
