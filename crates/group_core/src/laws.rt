//! The headline over everything that a group can do.

ghost use Rattle.std.specs.Prelude.{ℕ, List, ◌++◌, map};
ghost use Rattle.metering_model.specs.Sheet.{Sheet, Issuer};
ghost use Rattle.metering_model.specs.Cut.{Cut};
ghost use Rattle.metering_model.specs.World.{World, Event, opening_with};
ghost use Rattle.metering_model.specs.Step.{play};
ghost use Rattle.metering_model.specs.History.{Entry, IsLegal};
ghost use Rattle.group_laws.specs.Headline.{IsPrefixOf, AreTheCuts, HoldsAfter};

/// The headline holds of each history that one thread could have made, as of each list of events, in a world with any
/// room, and the list of cuts after some events is a prefix of that after more.
pub fn runs()
    ensures histories { (room voters observers agents : ℕ) (sheet : Sheet) (issuer : Issuer)
        (history : List Entry) (reached : World) →
        IsLegal (opening_with room voters observers agents sheet issuer) history reached →
        HoldsAfter voters observers agents sheet issuer (map (λ e. e.event) history)
        (map (λ e. e.reply) history) reached }
    ensures holds { (room voters observers agents : ℕ) (sheet : Sheet) (issuer : Issuer)
        (events : List Event) →
        HoldsAfter voters observers agents sheet issuer events
        (play (opening_with room voters observers agents sheet issuer) events).0
        (play (opening_with room voters observers agents sheet issuer) events).1 }
    ensures grows { (room voters observers agents : ℕ) (sheet : Sheet) (issuer : Issuer)
        (events more : List Event) (before after : List Cut) →
        AreTheCuts (play (opening_with room voters observers agents sheet issuer) events).1 before →
        AreTheCuts (play (opening_with room voters observers agents sheet issuer)
        (events ++ more)).1 after →
        IsPrefixOf before after }
{
    group_laws::laws::runs();
}
