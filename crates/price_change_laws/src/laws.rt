//! What the processes of a group do while their sheet becomes longer, and what they export meanwhile. Here the sheet of the
//! group is the last one, which its processes have in the end, be it all of them or not.

ghost use Rattle.std.specs.Prelude.{◌≡◌, ◌≢◌, ◌+◌, ◌<◌, ◌≤◌, true, ℕ, List, Some, map, slice_get, ℤ, ◌≤ℤ◌};
ghost use Rattle.std.specs.List.{AllZip, Contains};
ghost use Rattle.metering_model.specs.Batch.{Reading};
ghost use Rattle.metering_model.specs.Cut.{last_of};
ghost use Rattle.metering_model.specs.Dates.{period_end};
ghost use Rattle.metering_model.specs.Holding.{Position, reading_at, up_to};
ghost use Rattle.metering_model.specs.Rows.{placed_rows};
ghost use Rattle.metering_model.specs.Sheet.{Sheet};
ghost use Rattle.metering_model.specs.World.{Node, Snapshot};
ghost use Rattle.metering_model.specs.Transcript.{file_of};
ghost use Rattle.group_laws.specs.OneAgent.{batches_of};
ghost use Rattle.sheet_laws.specs.Longer.{GoesOnFrom, IsLonger, NamesAllAlike, day_start};
ghost use Rattle.sheet_laws.specs.Pairs.{IsPricedBefore, StayAlike};
ghost use Rattle.process_laws.specs.LocalSteps.{Group, HasExported, Unfit, exporting, refusing, saying};
ghost use Rattle.process_laws.specs.Histories.{Processes, IsHistory, after, answers, begun};
ghost use Rattle.price_change_laws.specs.SheetedHistories.{SheetedAct, group_under, sheeted_acted, sheeted_answers, sheeted_after, IsSheetedHistory, IsTakenOver, AreTakenOver, lacks_price, answers_kept, acts_kept, answer_under, AreAlike, EndsBeforeChange};

/// Where the last sheet has the base month of each sheet before it, and prices all that they do, its processes do under
/// all of them what they do under the last one alone, but for the sheet of an export: without the acts that were refused
/// for want of a price or of a commitment, which changed nothing.
pub fn prices_may_change()
    ensures history { (g : Group) (acts : List SheetedAct) → IsSheetedHistory g (begun g) acts →
        AreTakenOver g.sheet acts →
        IsHistory g (begun g) (acts_kept acts (sheeted_answers g (begun g) acts)) }

    // Each answer is the same. In that of an export the last sheet stands in place of the one that it was done under.
    ensures answers { (g : Group) (acts : List SheetedAct) → IsSheetedHistory g (begun g) acts →
        AreTakenOver g.sheet acts →
        answers g (begun g) (acts_kept acts (sheeted_answers g (begun g) acts))
        ≡ map (answer_under g.sheet) (answers_kept (sheeted_answers g (begun g) acts)) }
    ensures processes { (g : Group) (acts : List SheetedAct) → IsSheetedHistory g (begun g) acts →
        AreTakenOver g.sheet acts →
        AreAlike (sheeted_after g (begun g) acts)
        (after g (begun g) (acts_kept acts (sheeted_answers g (begun g) acts))) }

    // An act that is refused for want of a price changes nothing, whatever the sheets.
    ensures left_out { (g : Group) (s : Processes) (x : SheetedAct) →
        lacks_price (sheeted_acted g s x).answer ≡ true → AreAlike (sheeted_acted g s x).after s }

    // A node that has the last sheet refuses no export as unfit. So it exports what it refused so under another one.
    ensures fit { (g : Group) (acts : List SheetedAct) → IsSheetedHistory g (begun g) acts →
        AreTakenOver g.sheet acts →
        (i period : ℕ) (n : Node) → slice_get (sheeted_after g (begun g) acts).nodes i ≡ Some n →
        exporting g n period ≢ refusing Unfit }
    ensures unfit { (g : Group) (acts : List SheetedAct) → IsSheetedHistory g (begun g) acts →
        AreTakenOver g.sheet acts →
        (i period : ℕ) (n : Node) → slice_get (sheeted_after g (begun g) acts).nodes i ≡ Some n →
        (old : Sheet) → exporting (group_under old g) n period ≡ refusing Unfit →
        (s : Snapshot) × (exporting g n period ≡ saying (HasExported s)) }
{}

/// So the file of a month that ends by a day up to which the last sheet goes on from these sheets, and whose regions they
/// name alike, is the same bytes, whichever node exports it, whenever, and under whichever of them. And whatever the
/// sheets of two files are, they are made of the same cuts and batches, so that no batch is between the two cuts of two
/// periods.
pub fn closed_months_stay()
    // The file is the same bytes as under the last sheet.
    ensures files { (g : Group) (acts : List SheetedAct) → IsSheetedHistory g (begun g) acts →
        AreTakenOver g.sheet acts → (s : Snapshot) →
        Contains (sheeted_answers g (begun g) acts) (saying (HasExported s)) →
        EndsBeforeChange g.sheet s → file_of (record s { sheet = g.sheet }) ≡ file_of s }

    // So any two files of such a period are.
    ensures same { (g : Group) (acts : List SheetedAct) → IsSheetedHistory g (begun g) acts →
        AreTakenOver g.sheet acts → (s t : Snapshot) →
        Contains (sheeted_answers g (begun g) acts) (saying (HasExported s)) →
        Contains (sheeted_answers g (begun g) acts) (saying (HasExported t)) →
        s.period ≡ t.period → EndsBeforeChange g.sheet s → EndsBeforeChange g.sheet t →
        file_of s ≡ file_of t }

    // Of whichever period, two exports differ at most in the sheet.
    ensures made { (g : Group) (acts : List SheetedAct) → IsSheetedHistory g (begun g) acts →
        AreTakenOver g.sheet acts → (s t : Snapshot) →
        Contains (sheeted_answers g (begun g) acts) (saying (HasExported s)) →
        Contains (sheeted_answers g (begun g) acts) (saying (HasExported t)) →
        s.period ≡ t.period → record s { sheet = t.sheet } ≡ t }
    ensures once { (g : Group) (acts : List SheetedAct) → IsSheetedHistory g (begun g) acts →
        AreTakenOver g.sheet acts → (s t : Snapshot) →
        Contains (sheeted_answers g (begun g) acts) (saying (HasExported s)) →
        Contains (sheeted_answers g (begun g) acts) (saying (HasExported t)) → (agent seq : ℕ) →
        last_of s.from agent < seq → seq ≤ last_of s.to agent →
        last_of t.from agent < seq → seq ≤ last_of t.to agent → s.period ≡ t.period }
    ensures follows { (g : Group) (acts : List SheetedAct) → IsSheetedHistory g (begun g) acts →
        AreTakenOver g.sheet acts → (s t : Snapshot) →
        Contains (sheeted_answers g (begun g) acts) (saying (HasExported s)) →
        Contains (sheeted_answers g (begun g) acts) (saying (HasExported t)) →
        s.period + 1 ≡ t.period → t.from ≡ s.to }
    ensures batches { (g : Group) (acts : List SheetedAct) → IsSheetedHistory g (begun g) acts →
        AreTakenOver g.sheet acts → (s : Snapshot) →
        Contains (sheeted_answers g (begun g) acts) (saying (HasExported s)) →
        (agent : ℕ) → batches_of agent s.batches
        ≡ up_to s.to ((sheeted_after g (begun g) acts).journals agent) }
{}

/// Of a later month too, where the last sheet goes on from an older one from some day, that one's file has its rows at the
/// places of the last sheet's, in the same order, and each two of them stay alike as in `sheet_laws`: they differ at most
/// in the columns that a price gives, if the sheets price their reading otherwise, and in the region's name, if they name
/// it otherwise.
pub fn later_months_stay_alike()
    ensures pairs { (g : Group) (acts : List SheetedAct) → IsSheetedHistory g (begun g) acts →
        AreTakenOver g.sheet acts → (s : Snapshot) →
        Contains (sheeted_answers g (begun g) acts) (saying (HasExported s)) →
        (day : ℤ) → GoesOnFrom day s.sheet g.sheet →
        AllZip (StayAlike day s.sheet g.sheet s.batches)
        (placed_rows s.sheet s.issuer s.batches s.period s.from s.to)
        (placed_rows g.sheet s.issuer s.batches s.period s.from s.to) }

    // Where each reading up to its cut starts before the day or has no price, and its region is named alike, the file is the
    // same bytes.
    ensures all { (g : Group) (acts : List SheetedAct) → IsSheetedHistory g (begun g) acts →
        AreTakenOver g.sheet acts → (s : Snapshot) →
        Contains (sheeted_answers g (begun g) acts) (saying (HasExported s)) →
        (day : ℤ) → GoesOnFrom day s.sheet g.sheet →
        ((at : Position) (r : Reading) → reading_at s.batches at ≡ Some r → IsPricedBefore day r) →
        NamesAllAlike s.sheet g.sheet s.batches →
        file_of (record s { sheet = g.sheet }) ≡ file_of s }
{}

/// How a process comes to have a sheet that the last one takes over, and an export to end before the change: the last sheet
/// is longer, by the rows that can be looked up in both (`sheet_laws`).
pub fn longer_sheets_take_over()
    ensures taken { (day : ℤ) (old last : Sheet) → IsLonger day old last → IsTakenOver last old }
    ensures itself { (last : Sheet) → IsTakenOver last last }

    // So where one sheet after the other is taken over by the next.
    ensures chained { (first second third : Sheet) → IsTakenOver second first
        → IsTakenOver third second → IsTakenOver third first }
    ensures ends { (day : ℤ) (last : Sheet) (s : Snapshot) → IsLonger day s.sheet last →
        period_end last.base s.period ≤ℤ day_start day → NamesAllAlike s.sheet last s.batches →
        EndsBeforeChange last s }

    // Nothing is asked of an export under the last sheet itself.
    ensures ends_itself { (s : Snapshot) → EndsBeforeChange s.sheet s }

    // Regions are named alike in what is exported where they are in what the agents journaled.
    ensures named { (g : Group) (acts : List SheetedAct) → IsSheetedHistory g (begun g) acts →
        AreTakenOver g.sheet acts → (s : Snapshot) →
        Contains (sheeted_answers g (begun g) acts) (saying (HasExported s)) →
        ((agent : ℕ) → NamesAllAlike s.sheet g.sheet
        ((sheeted_after g (begun g) acts).journals agent)) →
        NamesAllAlike s.sheet g.sheet s.batches }
{}
