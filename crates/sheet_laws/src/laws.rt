//! What a longer sheet leaves as it was: replies, files of closed months, and rows. Each law is a function with an
//! empty body.

ghost use Rattle.std.specs.Prelude.{◌≡◌, ◌≢◌, ◌↔◌, ℕ, List, [], ◌++◌, map, Some, Ok, Err, ℤ, ◌≤ℤ◌};
ghost use Rattle.std.specs.List.{AllZip, Contains};
ghost use Rattle.metering_model.specs.Dates.{period_end};
ghost use Rattle.metering_model.specs.Batch.{Batch, Reading};
ghost use Rattle.metering_model.specs.Cut.{Cut};
ghost use Rattle.metering_model.specs.Sheet.{Sheet, Issuer};
ghost use Rattle.metering_model.specs.SheetRules.{IsSheet, IsIssuer};
ghost use Rattle.metering_model.specs.PriceInForce.{region_named};
ghost use Rattle.metering_model.specs.Holding.{Holding, Position, reading_at, put, up_to};
ghost use Rattle.metering_model.specs.JournalRules.{MeetsJournalRules};
ghost use Rattle.metering_model.specs.Rows.{placed_rows};
ghost use Rattle.metering_model.specs.Rows as model;
ghost use Rattle.metering_model.specs.declared.Refusal.TheVariants.{Unpriced};
ghost use Rattle.metering_model.specs.World.{World, Event, Snapshot, Exported, opening};
ghost use Rattle.metering_model.specs.Step.{play};
ghost use Rattle.metering_model.specs.Transcript.{file_of, transcript};
ghost use Rattle.transcript_laws.specs.Shown.{Shows};
ghost use Rattle.sheet_laws.specs.Longer.{GoesOnFrom, NamesAlike, NamesAllAlike, IsLonger, day_start};
ghost use Rattle.sheet_laws.specs.Runs.{under_sheet, world_under, AreAllPriced, PricesAllOf, replies_kept, events_kept};
ghost use Rattle.sheet_laws.specs.Pairs.{IsPricedBefore, StayAlike};
ghost use Rattle.metering_model.specs.RatedAlone.{journaled_in, placed_rows_alone, file_by};

/// Under two sheets of one base month the same events get the same replies, and lead to the same world, but for the
/// sheet: where under neither of them a batch is refused for a price or a commitment.
pub fn runs()
    ensures replies { (voters observers agents : ℕ) (old new : Sheet) (issuer : Issuer)
        (events : List Event) → new.base ≡ old.base →
        AreAllPriced (play (opening voters observers agents old issuer) events).0 →
        AreAllPriced (play (opening voters observers agents new issuer) events).0 →
        (play (opening voters observers agents new issuer) events).0
        ≡ map (under_sheet new) (play (opening voters observers agents old issuer) events).0 }
    ensures world { (voters observers agents : ℕ) (old new : Sheet) (issuer : Issuer)
        (events : List Event) → new.base ≡ old.base →
        AreAllPriced (play (opening voters observers agents old issuer) events).0 →
        AreAllPriced (play (opening voters observers agents new issuer) events).0 →
        (play (opening voters observers agents new issuer) events).1
        ≡ world_under new (play (opening voters observers agents old issuer) events).1 }

    // Where the new sheet has a price and a fit commitment for whatever reading the old one has them for, none is
    // refused so under the new one if none is under the old.
    ensures priced { (voters observers agents : ℕ) (old new : Sheet) (issuer : Issuer)
        (events : List Event) → new.base ≡ old.base →
        PricesAllOf old new → AreAllPriced
        (play (opening voters observers agents old issuer) events).0 →
        AreAllPriced (play (opening voters observers agents new issuer) events).0 }

    // Without the events that were refused so a run leads to the same world, and its replies are the others.
    ensures left_out { (w : World) (events : List Event) →
        play w (events_kept events (play w events).0)
        ≡ (replies_kept (play w events).0, (play w events).1) }
{}

/// The files of months that end by a day stay as they were under a sheet that goes on from that day, if it names the
/// regions of their exports' batches alike.
pub fn months()
    // The file of an export of such a month is the same bytes under the new sheet.
    ensures files { (voters observers agents : ℕ) (old new : Sheet) (issuer : Issuer)
        (events : List Event) (day : ℤ) → GoesOnFrom day old new →
        (s : Snapshot) → Contains (play (opening voters observers agents old issuer) events).0
        (Exported s) →
        period_end old.base s.period ≤ℤ day_start day → NamesAllAlike old new s.batches →
        file_of (record s { sheet = new }) ≡ file_of s }

    // Exports have their regions named alike where all batches that were journaled have them so.
    ensures named { (voters observers agents : ℕ) (old new : Sheet) (issuer : Issuer)
        (events : List Event) →
        NamesAllAlike old new (play
        (opening voters observers agents old issuer) events).1.journals →
        (s : Snapshot) → Contains (play (opening voters observers agents old issuer) events).0
        (Exported s) → NamesAllAlike old new s.batches }

    // Where both sheets and the issuer meet their rules, and under neither sheet a batch is refused for a price or a
    // commitment, the transcripts of the same events show the same file under such a month, and no other.
    ensures shown { (voters observers agents : ℕ) (old new : Sheet) (issuer : Issuer)
        (events : List Event) (day : ℤ) → IsSheet old → IsSheet new → IsIssuer issuer
        → GoesOnFrom day old new →
        AreAllPriced (play (opening voters observers agents old issuer) events).0 →
        AreAllPriced (play (opening voters observers agents new issuer) events).0 →
        (period : ℕ) → period_end old.base period ≤ℤ day_start day →
        ((s : Snapshot) → Contains (play (opening voters observers agents old issuer) events).0
        (Exported s) → s.period ≡ period → NamesAllAlike old new s.batches) →
        (shown : List ℕ) →
        Shows (transcript (play (opening voters observers agents old issuer) events).0) period shown
        ↔ Shows (transcript (play
        (opening voters observers agents new issuer) events).0) period shown }
    ensures same { (voters observers agents : ℕ) (old new : Sheet) (issuer : Issuer)
        (events : List Event) (day : ℤ) → IsSheet old → IsSheet new → IsIssuer issuer
        → GoesOnFrom day old new →
        AreAllPriced (play (opening voters observers agents old issuer) events).0 →
        AreAllPriced (play (opening voters observers agents new issuer) events).0 →
        (period : ℕ) → period_end old.base period ≤ℤ day_start day →
        ((s : Snapshot) → Contains (play (opening voters observers agents old issuer) events).0
        (Exported s) → s.period ≡ period → NamesAllAlike old new s.batches) →
        (one two : List ℕ) →
        Shows (transcript (play (opening voters observers agents old issuer) events).0) period one →
        Shows (transcript (play (opening voters observers agents new issuer) events).0) period two
        → one ≡ two }

    // Then the transcripts are the same bytes, if all that is exported is of such months.
    ensures transcripts { (voters observers agents : ℕ) (old new : Sheet) (issuer : Issuer)
        (events : List Event) (day : ℤ) → GoesOnFrom day old new →
        AreAllPriced (play (opening voters observers agents old issuer) events).0 →
        AreAllPriced (play (opening voters observers agents new issuer) events).0 →
        ((s : Snapshot) → Contains (play (opening voters observers agents old issuer) events).0
        (Exported s) → (period_end old.base s.period ≤ℤ day_start day)
        × NamesAllAlike old new s.batches) →
        transcript (play (opening voters observers agents new issuer) events).0
        ≡ transcript (play (opening voters observers agents old issuer) events).0 }
{}

/// The files that two transcripts show of such months are the same also where batches were refused with G4 under the old sheet,
/// if the new one prices all that the old one does: its transcript is of the other events.
pub fn months_played_again()
    // The events that were not refused with G4, and any further ones after them, have under the new sheet a transcript
    // that shows the file that the old one shows under a month whose regions are named alike, and no other there.
    ensures shown_again { (voters observers agents : ℕ) (old new : Sheet) (issuer : Issuer)
        (events more : List Event) (day : ℤ) → IsSheet old → IsSheet new → IsIssuer issuer
        → GoesOnFrom day old new → PricesAllOf old new →
        (period : ℕ) → period_end old.base period ≤ℤ day_start day →
        ((s : Snapshot) → Contains (play (opening voters observers agents old issuer) events).0
        (Exported s) → s.period ≡ period → NamesAllAlike old new s.batches) →
        (shown : List ℕ) →
        Shows (transcript
        (play (opening voters observers agents old issuer) events).0) period shown →
        Shows (transcript (play (opening voters observers agents new issuer)
        (events_kept events (play (opening voters observers agents old issuer) events).0
        ++ more)).0) period shown }
    ensures again { (voters observers agents : ℕ) (old new : Sheet) (issuer : Issuer)
        (events more : List Event) (day : ℤ) → IsSheet old → IsSheet new → IsIssuer issuer
        → GoesOnFrom day old new → PricesAllOf old new →
        (period : ℕ) → period_end old.base period ≤ℤ day_start day →
        ((s : Snapshot) → Contains (play (opening voters observers agents old issuer) events).0
        (Exported s) → s.period ≡ period → NamesAllAlike old new s.batches) →
        (one two : List ℕ) →
        Shows (transcript (play (opening voters observers agents old issuer) events).0) period one →
        Shows (transcript (play (opening voters observers agents new issuer)
        (events_kept events (play (opening voters observers agents old issuer) events).0
        ++ more)).0) period two → one ≡ two }
{}

/// Under a sheet that goes on from a day, and of any month, journals that meet the rules under both sheets up to the later
/// cut have rows at the same places in the same order, and each two of them stay alike: they differ at most in the
/// region's name, if the sheets name it otherwise, and in the columns that a price gives, if they price the reading
/// otherwise.
pub fn rows()
    // Priced alike are usage and purchases that start before the day, and credits, taxes and adjustments of any day.
    ensures pairs { (day : ℤ) (old new : Sheet) → GoesOnFrom day old new
        → (issuer : Issuer) (h : Holding) (period : ℕ) (from to : Cut) →
        MeetsJournalRules old (up_to to h) → MeetsJournalRules new (up_to to h) →
        AllZip (StayAlike day old new h) (placed_rows old issuer h period from to)
        (placed_rows new issuer h period from to) }

    // Where each reading up to the later cut starts before the day or has no price, and its region is named alike, the
    // rows are the same, whatever the new sheet says of the rules.
    ensures all { (day : ℤ) (old new : Sheet) → GoesOnFrom day old new
        → (issuer : Issuer) (h : Holding) (period : ℕ) (from to : Cut) →
        MeetsJournalRules old (up_to to h) →
        ((at : Position) (r : Reading) → reading_at (up_to to h) at ≡ Some r
        → IsPricedBefore day r) →
        NamesAllAlike old new (up_to to h) →
        model.rows new issuer h period from to ≡ model.rows old issuer h period from to }
{}

/// A batch that is rated by itself, and under neither sheet refused for a price or a commitment, is refused under both
/// or under neither. Under a sheet that goes on from a day its file is the same bytes where the period ends by the day, or
/// where all its readings start before it or have no price, if its regions are named alike; and of any period its rows
/// under both sheets stay alike, as those of `rows`.
pub fn rated()
    ensures batches { (old new : Sheet) (issuer : Issuer) (text : List ℕ) →
        journaled_in old issuer text ≢ Err Unpriced → journaled_in new issuer text ≢ Err Unpriced →
        journaled_in new issuer text ≡ journaled_in old issuer text }
    ensures priced { (old new : Sheet) (issuer : Issuer) (text : List ℕ) → PricesAllOf old new →
        journaled_in old issuer text ≢ Err Unpriced
        → journaled_in new issuer text ≡ journaled_in old issuer text }
    ensures files { (day : ℤ) (old new : Sheet) → GoesOnFrom day old new
        → (issuer : Issuer) (text : List ℕ) (period : ℕ) →
        journaled_in old issuer text ≢ Err Unpriced → journaled_in new issuer text ≢ Err Unpriced →
        ((b : Batch) → journaled_in old issuer text ≡ Ok b → NamesAllAlike old new (put [] b)) →
        period_end old.base period ≤ℤ day_start day →
        file_by new issuer period text ≡ file_by old issuer period text }
    ensures all { (day : ℤ) (old new : Sheet) → GoesOnFrom day old new
        → (issuer : Issuer) (text : List ℕ) (period : ℕ) →
        journaled_in old issuer text ≢ Err Unpriced → journaled_in new issuer text ≢ Err Unpriced →
        ((b : Batch) → journaled_in old issuer text ≡ Ok b → NamesAllAlike old new (put [] b)) →
        ((b : Batch) → journaled_in old issuer text ≡ Ok b → (at : Position) (r : Reading)
        → reading_at (put [] b) at ≡ Some r → IsPricedBefore day r) →
        file_by new issuer period text ≡ file_by old issuer period text }
    ensures pairs { (day : ℤ) (old new : Sheet) → GoesOnFrom day old new
        → (issuer : Issuer) (text : List ℕ) (period : ℕ) (b : Batch) →
        journaled_in old issuer text ≡ Ok b → journaled_in new issuer text ≡ Ok b →
        AllZip (StayAlike day old new (put [] b)) (placed_rows_alone old issuer b period)
        (placed_rows_alone new issuer b period) }
{}

/// Journals that meet the rules under a sheet meet them under one that prices all that it does.
pub fn rules_are_kept()
    ensures { (old new : Sheet) (h : Holding) → PricesAllOf old new
        → MeetsJournalRules old h → MeetsJournalRules new h }
{}

/// How a sheet comes to go on from another: it has the same base month and the same price rows from before the day, but
/// for any that begin before all of their SKU in the old one, a price in force where a row of the old one begins, and
/// each of its commitments and regions. So it has all that the other laws ask of two sheets, but that it keeps a reader's rules
/// (`IsSheet`), and that a region which the old one does not name is not named by it either. Of sheets that each go on
/// from the one before up to one day, the last goes on from the first up to it, and up to each earlier day; and it names
/// alike what each of them does.
pub fn longer()
    ensures goes_on { (day : ℤ) (old new : Sheet) → IsLonger day old new → GoesOnFrom day old new }
    ensures priced { (day : ℤ) (old new : Sheet) → IsLonger day old new → PricesAllOf old new }
    ensures named { (day : ℤ) (old new : Sheet) → IsLonger day old new → (id name : List ℕ)
        → region_named old id ≡ Some name → NamesAlike old new id }
    ensures chained { (day : ℤ) (first second third : Sheet) → GoesOnFrom day first second
        → GoesOnFrom day second third → GoesOnFrom day first third }
    ensures earlier { (day before : ℤ) (old new : Sheet) → before ≤ℤ day
        → GoesOnFrom day old new → GoesOnFrom before old new }
    ensures names { (first second third : Sheet) (id : List ℕ) → NamesAlike first second id
        → NamesAlike second third id → NamesAlike first third id }
{}
