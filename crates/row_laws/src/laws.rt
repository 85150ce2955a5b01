//! What the files of all periods say together, and how the columns of a row depend on each other. Each law is a
//! function with an empty body.

ghost use Rattle.std.specs.Prelude.{◌≡◌, ℕ, ◌≤◌, ◌&&◌, ◌||◌, true, nat_le, nat_lt, if◌then◌else◌, List, [], ◌∷◌, length, map, filter, All, Some, None, ℤ, pos, ◌*ℤ◌, option_map, slice_get};
ghost use Rattle.std.specs.Option.{is_some, option_to_list};
ghost use Rattle.metering_model.specs.Limits.{most_periods};
ghost use Rattle.metering_model.specs.Dates.{IsBaseMonth, IsPeriod};
ghost use Rattle.metering_model.specs.Batch.{Reading};
ghost use Rattle.metering_model.specs.BatchReading.{lines_in};
ghost use Rattle.metering_model.specs.Cut.{Cut, IsAtLeast, IsGrowing, last_of};
ghost use Rattle.metering_model.specs.Sheet.{Sheet, Issuer};
ghost use Rattle.metering_model.specs.PriceInForce.{commitment_with};
ghost use Rattle.metering_model.specs.SheetRules.{IsSheet, IsIssuer};
ghost use Rattle.metering_model.specs.Holding.{Holding, IsHolding, IsPartOf, LacksNothingUpTo, Position, reading_at};
ghost use Rattle.metering_model.specs.JournalRules.{MeetsJournalRules};
ghost use Rattle.metering_model.specs.ValueAtSequence.{value_at};
ghost use Rattle.metering_model.specs.Front.{AreDueBetween};
ghost use Rattle.metering_model.specs.Rows.{placed_rows, row_of_reading, rows};
ghost use Rattle.metering_model.specs.Step.{cut_before};
ghost use Rattle.metering_model.specs.File.{header_line, file};
ghost use Rattle.metering_model.specs.Totals.{amounts_of, added_up, sum_of, at_place, rows_of_place};
ghost use Rattle.metering_model.specs.Totals as model;
ghost use Rattle.metering_model.specs.World.{last_cut};
ghost use Rattle.row_laws.specs.Charged.{files, all_rows, is_new, charged_at_once, charges_up_to};
ghost use Rattle.row_laws.specs.Columns.{line_of_row, sum_of_first_column};
ghost use Rattle.row_laws.specs.Due.{WereDueBefore, AreDueOver, StartsBeforeItsPeriodEnds};
ghost use Rattle.row_laws.specs.Priced.{IsPriceTimesQuantity, is_usage, is_purchase, PriceColumnsAre, CommitmentColumnsAre};

/// Over growing cuts, the rows of a reading add up to what it would be charged once, at its value as of the last cut:
/// in both quantities and all four costs.
pub fn totals()
    ensures { (sheet : Sheet) (issuer : Issuer) (h : Holding) (agents : ℕ) (cuts : List Cut)
        (at : Position) (r : Reading) →
        IsHolding h → IsGrowing agents cuts → reading_at h at ≡ Some r →
        model.totals (rows_of_place sheet issuer h agents cuts at)
        ≡ amounts_of (charged_at_once sheet r
        (value_at h at (last_of (last_cut agents cuts) at.agent))) }
{}

/// A part of a holding has the rows of the whole, where it lacks nothing of it up to the later cut.
pub fn rows_stay()
    ensures { (sheet : Sheet) (issuer : Issuer) (part whole : Holding) (period : ℕ)
        (from to : Cut) →
        IsHolding part → IsHolding whole → IsPartOf part whole → LacksNothingUpTo to part whole
        → IsAtLeast to from →
        rows sheet issuer part period from to ≡ rows sheet issuer whole period from to }
{}

/// In one period a place has at most one row: where the later cut reaches it, that of the reading there.
pub fn a_place_has_at_most_one_row_a_period()
    ensures at_most { (sheet : Sheet) (issuer : Issuer) (h : Holding) (period : ℕ) (from to : Cut)
        (at : Position) →
        IsHolding h → length (at_place at (placed_rows sheet issuer h period from to)) ≤ 1 }
    ensures which { (sheet : Sheet) (issuer : Issuer) (h : Holding) (period : ℕ) (from to : Cut)
        (at : Position) (r : Reading) →
        IsHolding h → reading_at h at ≡ Some r →
        at_place at (placed_rows sheet issuer h period from to)
        ≡ (if nat_le at.seq (last_of to at.agent) then option_to_list
        (row_of_reading sheet issuer h period from to at r) else []) }
    ensures no_reading { (sheet : Sheet) (issuer : Issuer) (h : Holding) (period : ℕ)
        (from to : Cut) (at : Position) →
        IsHolding h → reading_at h at ≡ None
        → at_place at (placed_rows sheet issuer h period from to) ≡ [] }
{}

/// Over growing cuts, a reading up to the last cut is charged as new exactly once: in the period whose cut is the first
/// to reach it.
pub fn each_reading_is_new_once()
    ensures at_most_once { (sheet : Sheet) (issuer : Issuer) (h : Holding) (agents : ℕ)
        (cuts : List Cut) (at : Position) →
        IsHolding h → IsGrowing agents cuts →
        length (filter is_new (rows_of_place sheet issuer h agents cuts at)) ≤ 1 }
    ensures if_reached { (sheet : Sheet) (issuer : Issuer) (h : Holding) (agents : ℕ)
        (cuts : List Cut) (at : Position) (r : Reading) →
        IsHolding h → IsGrowing agents cuts → reading_at h at ≡ Some r →
        length (filter is_new (rows_of_place sheet issuer h agents cuts at))
        ≡ (if nat_le at.seq (last_of (last_cut agents cuts) at.agent) then 1 else 0) }
    ensures when { (sheet : Sheet) (issuer : Issuer) (h : Holding) (period : ℕ) (from to : Cut)
        (at : Position) (r : Reading) →
        IsHolding h → IsAtLeast to from → reading_at h at ≡ Some r →
        length (filter is_new (at_place at (placed_rows sheet issuer h period from to)))
        ≡ (if nat_lt (last_of from at.agent) at.seq
        && nat_le at.seq (last_of to at.agent) then 1 else 0) }
{}

/// Over growing cuts, the rows of all files together add up to what each reading up to the last cut would be charged
/// once, at its value as of that cut: in both quantities and all four costs.
pub fn files_add_up_to_their_readings()
    ensures { (sheet : Sheet) (issuer : Issuer) (h : Holding) (agents : ℕ) (cuts : List Cut) →
        IsHolding h → IsGrowing agents cuts →
        model.totals (all_rows (files sheet issuer h agents cuts))
        ≡ added_up (map amounts_of (charges_up_to sheet h (last_cut agents cuts))) }
{}

/// Where sheet and issuer meet their rules, the lines of a file are its header line and one line for each row, and
/// nothing stands after the last line feed.
pub fn a_file_has_one_line_for_each_row()
    ensures { (sheet : Sheet) (issuer : Issuer) (h : Holding) (period : ℕ) (from to : Cut) →
        IsHolding h → IsSheet sheet → IsIssuer issuer →
        lines_in (file (rows sheet issuer h period from to))
        ≡ record {
          lines = header_line ∷ map line_of_row (rows sheet issuer h period from to);
          rest = [];
        } }
{}

/// Over growing cuts, where sheet and issuer meet their rules, the numbers of the first column, read back from the
/// bytes of all files, add up to what the readings up to the last cut would be billed once.
pub fn texts_add_up_to_their_readings()
    ensures { (sheet : Sheet) (issuer : Issuer) (h : Holding) (agents : ℕ) (cuts : List Cut) →
        IsHolding h → IsGrowing agents cuts → IsSheet sheet → IsIssuer issuer →
        sum_of_first_column (map file (files sheet issuer h agents cuts))
        ≡ Some (sum_of (λ x. x.billed) (charges_up_to sheet h (last_cut agents cuts))) }
{}

/// A row's charge starts before its billing period ends, where the batches between the cuts are due for that period
/// and those before for an earlier one.
pub fn charges_start_before_their_periods_end()
    ensures period { (sheet : Sheet) (issuer : Issuer) (h : Holding) (period : ℕ) (from to : Cut) →
        IsHolding h → IsBaseMonth sheet.base → IsPeriod period →
        AreDueBetween sheet.base period h from to → WereDueBefore sheet.base period h from →
        All StartsBeforeItsPeriodEnds (rows sheet issuer h period from to) }
    ensures periods { (sheet : Sheet) (issuer : Issuer) (h : Holding) (agents : ℕ)
        (cuts : List Cut) →
        IsHolding h → IsBaseMonth sheet.base → length cuts ≤ most_periods
        → AreDueOver sheet.base h agents cuts →
        All StartsBeforeItsPeriodEnds (all_rows (files sheet issuer h agents cuts)) }
{}

/// The file of a period is of the rows between its cut and the one before it, which is zero before the first.
pub fn each_file_is_between_two_cuts()
    ensures { (sheet : Sheet) (issuer : Issuer) (h : Holding) (agents : ℕ) (cuts : List Cut)
        (period : ℕ) (to : Cut) →
        slice_get cuts period ≡ Some to →
        slice_get (files sheet issuer h agents cuts) period
        ≡ Some (rows sheet issuer h period (cut_before agents cuts period) to) }
{}

/// What is due between each cut and the one before it is due over all of them.
pub fn what_is_due_in_each_period_is_due_over_all()
    ensures { (base : ℕ) (h : Holding) (agents : ℕ) (cuts : List Cut) →
        ((period : ℕ) (to : Cut) → slice_get cuts period ≡ Some to →
        AreDueBetween base period h (cut_before agents cuts period) to) →
        AreDueOver base h agents cuts }
{}

/// In each row, of a Correction too, a unit price times the PricingQuantity is the cost, to the last unit of 10^-12,
/// where price and quantity are not null.
pub fn unit_prices_times_quantities_are_costs()
    ensures list { (sheet : Sheet) (issuer : Issuer) (h : Holding) (period : ℕ) (from to : Cut) →
        All (λ x. IsPriceTimesQuantity x.list_unit_price x.pricing_quantity x.list_cost)
        (rows sheet issuer h period from to) }
    ensures contracted { (sheet : Sheet) (issuer : Issuer) (h : Holding) (period : ℕ)
        (from to : Cut) →
        All (λ x. IsPriceTimesQuantity x.contracted_unit_price x.pricing_quantity x.contracted_cost)
        (rows sheet issuer h period from to) }
{}

/// In each row the columns that a price gives are all null or none; so are the two of what was metered, those of a
/// commitment and those of a region.
pub fn columns_are_null_together()
    ensures price { (sheet : Sheet) (issuer : Issuer) (h : Holding) (period : ℕ) (from to : Cut) →
        All (λ x. PriceColumnsAre (is_some x.pricing_quantity) x)
        (rows sheet issuer h period from to) }
    ensures consumed { (sheet : Sheet) (issuer : Issuer) (h : Holding) (period : ℕ)
        (from to : Cut) →
        All (λ x. is_some x.consumed_quantity ≡ is_some x.consumed_unit)
        (rows sheet issuer h period from to) }
    ensures commitment { (sheet : Sheet) (issuer : Issuer) (h : Holding) (period : ℕ)
        (from to : Cut) →
        All (λ x. CommitmentColumnsAre (is_some x.commitment_discount_id) x)
        (rows sheet issuer h period from to) }
    ensures region { (sheet : Sheet) (issuer : Issuer) (h : Holding) (period : ℕ) (from to : Cut) →
        All (λ x. is_some x.region_id ≡ is_some x.region_name)
        (rows sheet issuer h period from to) }
{}

/// In each row a commitment stands on usage and purchases alone, its status just on usage with one, and
/// PricingCategory just on usage and purchases.
pub fn some_columns_are_of_usage_and_purchases_alone()
    ensures named { (sheet : Sheet) (issuer : Issuer) (h : Holding) (period : ℕ) (from to : Cut) →
        All (λ x. is_some x.commitment_discount_id ≡ true → (is_usage x || is_purchase x) ≡ true)
        (rows sheet issuer h period from to) }
    ensures status { (sheet : Sheet) (issuer : Issuer) (h : Holding) (period : ℕ) (from to : Cut) →
        All (λ x. is_some x.commitment_discount_status
        ≡ (is_usage x && is_some x.commitment_discount_id))
        (rows sheet issuer h period from to) }
    ensures category { (sheet : Sheet) (issuer : Issuer) (h : Holding) (period : ℕ)
        (from to : Cut) →
        All (λ x. is_some x.pricing_category ≡ (is_usage x || is_purchase x))
        (rows sheet issuer h period from to) }
{}

/// Where the journals meet their rules, just usage and purchases have the columns that a price gives, and just usage
/// has a ConsumedQuantity.
pub fn usage_and_purchases_have_their_price()
    ensures price { (sheet : Sheet) (issuer : Issuer) (h : Holding) (period : ℕ) (from to : Cut)
        → MeetsJournalRules sheet h →
        All (λ x. PriceColumnsAre (is_usage x || is_purchase x) x)
        (rows sheet issuer h period from to) }
    ensures consumed { (sheet : Sheet) (issuer : Issuer) (h : Holding) (period : ℕ)
        (from to : Cut) →
        MeetsJournalRules sheet h
        → All (λ x. is_some x.consumed_quantity ≡ is_usage x)
        (rows sheet issuer h period from to) }
{}

/// Where the journals meet their rules, usage under a commitment bills nothing, and all else bills the contracted cost.
/// The effective cost of usage under a commitment is the commitment's rate times the PricingQuantity, that of its
/// purchase is 0, and without a commitment it is the contracted cost.
pub fn commitments_are_billed_where_they_are_bought()
    ensures billed { (sheet : Sheet) (issuer : Issuer) (h : Holding) (period : ℕ) (from to : Cut)
        → MeetsJournalRules sheet h →
        All (λ x. x.billed_cost ≡
        (if is_usage x && is_some x.commitment_discount_id then pos 0 else x.contracted_cost))
        (rows sheet issuer h period from to) }
    ensures bought { (sheet : Sheet) (issuer : Issuer) (h : Holding) (period : ℕ) (from to : Cut)
        → MeetsJournalRules sheet h →
        All (λ x. is_purchase x ≡ true → is_some x.commitment_discount_id ≡ true
        → x.effective_cost ≡ pos 0)
        (rows sheet issuer h period from to) }
    ensures used { (sheet : Sheet) (issuer : Issuer) (h : Holding) (period : ℕ) (from to : Cut) →
        All (λ x. (id : List ℕ) (q : ℤ) →
        is_usage x ≡ true → x.commitment_discount_id ≡ Some id → x.pricing_quantity ≡ Some q →
        option_map (λ c. pos c.rate *ℤ q) (commitment_with sheet id) ≡ Some x.effective_cost)
        (rows sheet issuer h period from to) }
    ensures others { (sheet : Sheet) (issuer : Issuer) (h : Holding) (period : ℕ) (from to : Cut) →
        All (λ x. x.commitment_discount_id ≡ None → x.effective_cost ≡ x.contracted_cost)
        (rows sheet issuer h period from to) }
{}
