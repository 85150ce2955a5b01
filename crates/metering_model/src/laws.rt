//! What ties the definitions to one another. Each law is a function with an empty body.

ghost use Rattle.std.specs.Prelude.{◌≡◌, ℕ, ◌+◌, ◌^◌, ◌<◌, ◌≤◌, ◌↔◌, ◌⊎◌, true, false, List, [], ◌∷◌, ◌++◌, length, slice_set, Some, None, Ok, ℤ, unsigned_abs, unwrap_or, slice_get, All, Err, pos, ◌≤ℤ◌, ◌<ℤ◌};
ghost use Rattle.std.specs.Option.{is_some};
ghost use Rattle.std.specs.List.{flat_map, filter_map, Contains};
ghost use Rattle.metering_model.specs.Limits.{most_agents, most_batches};
ghost use Rattle.metering_model.specs.NumberText.{Spells, number_in, spelling, Range, value_in, value_limit, price_in, price_limit};
ghost use Rattle.metering_model.specs.Dates.{IsMonthText, IsDayText, IsStampText, month_in, day_in, stamp_in};
ghost use Rattle.metering_model.specs.Batch.{Batch, Reading, IsBatch, IsWellFormed, is_priced};
ghost use Rattle.metering_model.specs.BatchReading.{batch_in};
ghost use Rattle.metering_model.specs.Cut.{Cut, IsAtLeast, zero_cut, last_of};
ghost use Rattle.metering_model.specs.Holding.{Holding, IsHolding, IsPartOf, LacksNothingUpTo, AgreeUpTo, Position, held, is_batch_at, put, placed, reading_at, up_to};
ghost use Rattle.metering_model.specs.ValueAtSequence.{value_at};
ghost use Rattle.metering_model.specs.Sheet.{Sheet, Issuer, PriceRow};
ghost use Rattle.metering_model.specs.SheetRules.{IsSheet};
ghost use Rattle.metering_model.specs.PriceInForce.{price_in_force};
ghost use Rattle.metering_model.specs.Rating.{IsRounded, pricing_quantity};
ghost use Rattle.metering_model.specs.Rows.{PlacedRow, placed_row, placed_rows, rows};
ghost use Rattle.metering_model.specs.JournalRules.{MeetsJournalRules, next_seq, first_broken};
ghost use Rattle.metering_model.specs.Front.{IsDueAt, AreDueBetween, front};
ghost use Rattle.metering_model.specs.World.{World, Event, Good, Journal, Revive, KeptGood, offer_of};
ghost use Rattle.metering_model.specs.KeptText.{KeptAmong, HasText, IsKeptText, kept_text, kept_in, kept_offer_of};
ghost use Rattle.metering_model.specs.Step.{first_missing, step, play};
ghost use Rattle.metering_model.specs.Row.{charge, priced_kind, price_of, commitment_of};
ghost use Rattle.metering_model.specs.Totals.{amounts_of, amounts_in, AreWithinLimits};

/// Reading a text as a number returns the number that the text spells, and no other.
pub fn numbers_are_read_as_they_are_spelled()
    ensures { (places : ℕ) (text : List ℕ) (n : ℤ) →
        (number_in places text ≡ Some n) ↔ Spells places text n }
{}

/// A number of magnitude below 10^64 units has one spelling, which is the computed one, and a text spells at most one
/// number.
pub fn numbers_have_one_spelling()
    ensures spelled { (places : ℕ) (n : ℤ) → unsigned_abs n < 10 ^ 64
        → Spells places (spelling places n) n }
    ensures unique { (places : ℕ) (text : List ℕ) (n : ℤ) → unsigned_abs n < 10 ^ 64 →
        Spells places text n → text ≡ spelling places n }
    ensures one_number { (places : ℕ) (text : List ℕ) (m n : ℤ) → Spells places text m
        → Spells places text n → m ≡ n }
{}

/// Reading a month, a day or a stamp returns the number that the calendar gives it.
pub fn dates_are_read_as_they_are_written()
    ensures months { (text : List ℕ) (m : ℕ) → (month_in text ≡ Some m) ↔ IsMonthText text m }
    ensures days { (text : List ℕ) (n : ℤ) → (day_in text ≡ Some n) ↔ IsDayText text n }
    ensures stamps { (text : List ℕ) (n : ℤ) → (stamp_in text ≡ Some n) ↔ IsStampText text n }
{}

/// A text is read as a batch exactly where it is the join of that batch's parts.
pub fn a_batch_is_read_where_its_parts_are_joined()
    ensures joined { (text : List ℕ) (b : Batch) → (batch_in text ≡ Ok b) ↔ IsBatch text b }
    ensures well_formed { (text : List ℕ) (b : Batch) → batch_in text ≡ Ok b → IsWellFormed b }
{}

/// A text is read as the kept state of a node exactly where it is the join of that state's parts. A state that has a
/// text is read back from it, and two such states with the same text are equal. A holding of agents up to 64 has at
/// most 64,000,000 batches.
pub fn what_is_kept_is_read_where_its_parts_are_joined()
    ensures joined { (text : List ℕ) (k : KeptAmong) → (kept_in text ≡ Ok k) ↔ IsKeptText text k }
    ensures back { (k : KeptAmong) → HasText k → kept_in (kept_text k) ≡ Ok k }
    ensures one { (k l : KeptAmong) → HasText k → HasText l → kept_text k ≡ kept_text l → k ≡ l }
    ensures few { (h : Holding) → IsHolding h → All (λ b. b.agent ≤ most_agents) h
        → length h ≤ most_batches }
{}

/// For `per` above 0, a pricing quantity is the value divided by `per`, rounded half to even, and no other number is.
pub fn pricing_quantities_are_rounded_half_to_even()
    ensures { (per : ℕ) (v q : ℤ) → 0 < per → (IsRounded per v q) ↔ (q ≡ pricing_quantity per v) }
{}

/// Putting a well-formed batch into a holding leaves a holding. It has then the batch, or the one that was at that
/// agent and sequence before, and the same batches elsewhere. What is up to a cut is a holding too.
pub fn holdings_are_maps()
    ensures stays { (h : Holding) (b : Batch) → IsHolding h → IsWellFormed b → IsHolding (put h b) }
    ensures found { (h : Holding) (b : Batch) → IsHolding h →
        held (put h b) b.agent b.seq ≡ Some (unwrap_or (held h b.agent b.seq) b) }
    ensures others { (h : Holding) (b : Batch) (agent seq : ℕ) → IsHolding h →
        is_batch_at agent seq b ≡ false → held (put h b) agent seq ≡ held h agent seq }
    ensures there { (h : Holding) (b c : Batch) → IsHolding h → held h b.agent b.seq ≡ Some c
        → put h b ≡ h }
    ensures cuts { (h : Holding) (cut : Cut) → IsHolding h → IsHolding (up_to cut h) }
{}

/// A holding is a part of itself, and a part of a part is one of the whole. A part stays one while only batches of the
/// whole are put into it, and a whole that grows keeps its parts. What a holding has up to a cut is a part of it.
pub fn holdings_have_parts()
    ensures itself { (h : Holding) → IsPartOf h h }
    ensures onward { (h k l : Holding) → IsPartOf h k → IsPartOf k l → IsPartOf h l }
    ensures grown { (h : Holding) (b : Batch) → IsHolding h → IsPartOf h (put h b) }
    ensures stays { (h k : Holding) (b : Batch) → IsHolding h → IsPartOf h k →
        held k b.agent b.seq ≡ Some b → IsPartOf (put h b) k }
    ensures part { (h : Holding) (cut : Cut) → IsPartOf (up_to cut h) h }
{}

/// Where a part of a holding lacks nothing up to a cut, the two agree up to it. What a holding has up to a cut lacks
/// nothing there.
pub fn parts_of_holdings_agree_where_they_lack_nothing()
    ensures agree { (h k : Holding) (cut : Cut) → IsPartOf h k → LacksNothingUpTo cut h k
        → AgreeUpTo cut h k }
    ensures lacks_nothing { (h : Holding) (cut : Cut) → LacksNothingUpTo cut (up_to cut h) h }
{}

/// A holding misses nothing up to a cut exactly where it has each batch up to it. What is reported missing is an absent
/// batch up to the cut, and each batch before it, by agent and then by sequence, is there. A part that misses nothing
/// agrees with the whole up to the cut.
pub fn what_is_missing_up_to_a_cut_is_the_least_absent()
    ensures nothing { (h : Holding) (cut : Cut) → (first_missing h cut ≡ None)
        ↔ ((agent seq : ℕ) → 0 < seq → seq ≤ last_of cut agent
        → is_some (held h agent seq) ≡ true) }
    ensures absent { (h : Holding) (cut : Cut) (agent seq : ℕ)
        → first_missing h cut ≡ Some (agent, seq) →
        (0 < seq) × (seq ≤ last_of cut agent) × (held h agent seq ≡ None) }
    ensures least { (h : Holding) (cut : Cut) (agent seq : ℕ)
        → first_missing h cut ≡ Some (agent, seq) →
        (a s : ℕ) → (a < agent) ⊎ ((a ≡ agent) × (s < seq)) → 0 < s → s ≤ last_of cut a
        → is_some (held h a s) ≡ true }
    ensures agree { (h k : Holding) (cut : Cut) → IsHolding h → IsHolding k → IsPartOf h k →
        first_missing h cut ≡ None → AgreeUpTo cut h k }
{}

/// "At least" holds between a cut and itself, passes on, and holds of any cut over the zero cut of its length. Of cuts
/// of one length it is "at least" agent by agent.
pub fn cuts_are_ordered()
    ensures itself { (cut : Cut) → IsAtLeast cut cut }
    ensures onward { (a b c : Cut) → IsAtLeast b a → IsAtLeast c b → IsAtLeast c a }
    ensures above_zero { (cut : Cut) → IsAtLeast cut (zero_cut (length cut)) }
    ensures each { (a b : Cut) (agent : ℕ) → IsAtLeast b a → last_of a agent ≤ last_of b agent }
    ensures each_is_enough { (a b : Cut) → length a ≡ length b →
        ((agent : ℕ) → last_of a agent ≤ last_of b agent) → IsAtLeast b a }
{}

/// An entry of a cut that is set is there, and no other changes.
pub fn entries_of_cuts_are_set_alone()
    ensures was_put { (cut : Cut) (i seq : ℕ) → i < length cut
        → last_of (slice_set cut i seq) (i + 1) ≡ seq }
    ensures others { (cut : Cut) (i seq agent : ℕ) → (agent ≡ i + 1 → ⊥) →
        last_of (slice_set cut i seq) agent ≡ last_of cut agent }
{}

/// Holdings that agree up to a cut give the same batches, values and rows up to it.
pub fn what_agrees_up_to_a_cut_is_charged_alike()
    ensures batches { (h k : Holding) (to : Cut) → IsHolding h → IsHolding k → AgreeUpTo to h k →
        up_to to h ≡ up_to to k }
    ensures values { (h k : Holding) (to : Cut) (at : Position) (upto : ℕ) →
        IsHolding h → IsHolding k → AgreeUpTo to h k →
        upto ≤ last_of to at.agent → value_at h at upto ≡ value_at k at upto }
    ensures placed { (sheet : Sheet) (issuer : Issuer) (h k : Holding) (period : ℕ)
        (from to : Cut) →
        IsHolding h → IsHolding k → AgreeUpTo to h k → IsAtLeast to from →
        placed_rows sheet issuer h period from to ≡ placed_rows sheet issuer k period from to }
    ensures rows { (sheet : Sheet) (issuer : Issuer) (h k : Holding) (period : ℕ) (from to : Cut) →
        IsHolding h → IsHolding k → AgreeUpTo to h k → IsAtLeast to from →
        rows sheet issuer h period from to ≡ rows sheet issuer k period from to }
{}

/// A revival from a text gets the same reply, and leaves the same world, as one from what reading that text gives.
pub fn texts_and_their_offer_are_revived_alike()
    ensures { (w : World) (node : ℕ) (text : List ℕ)
        → step w (Revive node (kept_offer_of text)) ≡ step w (Revive node (KeptGood text)) }
{}

/// Journaling a text gets the same reply, and leaves the same world, as journaling what reading that text gives.
pub fn bytes_and_their_offer_are_journaled_alike()
    ensures { (w : World) (text : List ℕ) →
        step w (Journal (Good text)) ≡ step w (Journal (offer_of text)) }
{}

/// The journals meet their rules after each batch that is next of its agent and breaks no rule. An agent's batches are
/// just those below its next sequence. What the journals have up to a cut meets the rules too.
pub fn journals_keep_their_rules()
    ensures none { (sheet : Sheet) → MeetsJournalRules sheet [] }
    ensures taken { (sheet : Sheet) (h : Holding) (b : Batch) →
        MeetsJournalRules sheet h → IsWellFormed b → b.seq ≡ next_seq h b.agent →
        first_broken sheet (put h b) (placed b) ≡ None → MeetsJournalRules sheet (put h b) }
    ensures below_next { (sheet : Sheet) (h : Holding) (agent seq : ℕ) (b : Batch) →
        MeetsJournalRules sheet h → held h agent seq ≡ Some b → seq < next_seq h agent }
    ensures all_below_next { (sheet : Sheet) (h : Holding) (agent seq : ℕ) →
        MeetsJournalRules sheet h → 0 < seq → seq < next_seq h agent
        → is_some (held h agent seq) ≡ true }
    ensures cuts { (sheet : Sheet) (h : Holding) (cut : Cut) → MeetsJournalRules sheet h
        → MeetsJournalRules sheet (up_to cut h) }
{}

/// A front is at least the cut that it is taken of, each batch in between is held and due, and for no agent does this
/// hold up to a greater sequence. A part of a holding has no greater front than the whole.
pub fn a_front_goes_on_from_its_cut()
    ensures grows { (base period : ℕ) (h : Holding) (cut : Cut)
        → IsAtLeast (front base h cut period) cut }
    ensures due { (base period : ℕ) (h : Holding) (cut : Cut)
        → AreDueBetween base period h cut (front base h cut period) }
    ensures greatest { (base period : ℕ) (h : Holding) (cut : Cut) (agent seq : ℕ) → 1 ≤ agent
        → agent ≤ length cut →
        ((s : ℕ) → last_of cut agent < s → s ≤ seq → IsDueAt base period h agent s) →
        seq ≤ last_of (front base h cut period) agent }
    ensures size { (base period : ℕ) (h : Holding) (cut : Cut)
        → length (front base h cut period) ≡ length cut }
    ensures parts { (base period : ℕ) (h k : Holding) (cut : Cut) → IsPartOf h k →
        IsAtLeast (front base k cut period) (front base h cut period) }
{}

/// No two rows between two cuts have the same place. Those of null class are of batches between the cuts, and each
/// reading between the cuts has one. They are the rows of the batches up to the later cut, one batch after the other.
pub fn rows_between_two_cuts_have_their_places()
    ensures apart { (sheet : Sheet) (issuer : Issuer) (h : Holding) (period : ℕ) (from to : Cut)
        (k l : ℕ) (x y : PlacedRow) →
        IsHolding h → slice_get (placed_rows sheet issuer h period from to) k ≡ Some x →
        slice_get (placed_rows sheet issuer h period from to) l ≡ Some y → x.place ≡ y.place
        → k ≡ l }
    ensures new { (sheet : Sheet) (issuer : Issuer) (h : Holding) (period : ℕ) (from to : Cut)
        (k : ℕ) (x : PlacedRow) →
        slice_get (placed_rows sheet issuer h period from to) k ≡ Some x
        → x.row.charge_class ≡ None →
        (last_of from x.place.agent < x.place.seq) × (x.place.seq ≤ last_of to x.place.agent) }
    ensures each { (sheet : Sheet) (issuer : Issuer) (h : Holding) (period : ℕ) (from to : Cut)
        (at : Position) (r : Reading) →
        reading_at h at ≡ Some r → last_of from at.agent < at.seq → at.seq ≤ last_of to at.agent →
        (k : ℕ) × (x : PlacedRow)
        × (slice_get (placed_rows sheet issuer h period from to) k ≡ Some x)
        × (x.row.charge_class ≡ None) × (x.place ≡ at) }
    ensures batches { (sheet : Sheet) (issuer : Issuer) (h : Holding) (period : ℕ) (from to : Cut) →
        placed_rows sheet issuer h period from to
        ≡ flat_map (λ b. filter_map (placed_row sheet issuer h period from to) (placed b))
        (up_to to h) }
{}

/// Playing one more event at the end is one more step from the world that the run leaves. Playing two lists one after
/// the other is playing the joined list.
pub fn one_more_event_is_one_more_step()
    ensures world { (w : World) (events : List Event) (e : Event) →
        (play w (events ++ e ∷ [])).1 ≡ (step (play w events).1 e).1 }
    ensures replies { (w : World) (events : List Event) (e : Event) →
        (play w (events ++ e ∷ [])).0 ≡ (play w events).0 ++ (step (play w events).1 e).0 ∷ [] }
    ensures more { (w : World) (events more : List Event) →
        (play w (events ++ more)).1 ≡ (play (play w events).1 more).1 }
    ensures more_replies { (w : World) (events more : List Event) →
        (play w (events ++ more)).0 ≡ (play w events).0 ++ (play (play w events).1 more).0 }
{}

/// Reading a text as a value or as a price returns the number that the text spells in millionths, where it is within
/// its limit. Where it spells one beyond the limit, the fault is Range.
pub fn values_and_prices_are_read_as_they_are_spelled()
    ensures values { (text : List ℕ) (n : ℤ) →
        (value_in text ≡ Ok n) ↔ (Spells 6 text n × (unsigned_abs n < value_limit)) }
    ensures values_beyond { (text : List ℕ) →
        (value_in text ≡ Err Range) ↔ ((n : ℤ) × Spells 6 text n × (value_limit ≤ unsigned_abs n)) }
    ensures prices { (text : List ℕ) (n : ℕ) →
        (price_in text ≡ Ok n) ↔ (Spells 6 text (pos n) × (n < price_limit)) }
    ensures prices_beyond { (text : List ℕ) →
        (price_in text ≡ Err Range) ↔ ((n : ℕ) × Spells 6 text (pos n) × (price_limit ≤ n)) }
{}

/// The spelling of a value or of a price within its limit is read back as that number.
pub fn values_and_prices_are_read_back()
    ensures values { (n : ℤ) → unsigned_abs n < value_limit → value_in (spelling 6 n) ≡ Ok n }
    ensures prices { (n : ℕ) → n < price_limit → price_in (spelling 6 (pos n)) ≡ Ok n }
{}

/// The price in force on a day is a price row of the SKU that has begun, and no row that has begun is later. On a sheet
/// that meets its rules no other row of the SKU begins on the same day. There is none exactly where no row of the SKU
/// has begun. A row that begins after the day changes nothing.
pub fn the_price_in_force_is_the_latest_that_has_begun()
    ensures has_begun { (sheet : Sheet) (sku : List ℕ) (day : ℤ) (p : PriceRow) →
        price_in_force sheet sku day ≡ Some p → Contains sheet.prices p × (p.sku ≡ sku)
        × (p.from ≤ℤ day) }
    ensures latest { (sheet : Sheet) (sku : List ℕ) (day : ℤ) (p : PriceRow) →
        price_in_force sheet sku day ≡ Some p →
        All (λ q. q.sku ≡ sku → q.from ≤ℤ day → q.from ≤ℤ p.from) sheet.prices }
    ensures alone { (sheet : Sheet) (sku : List ℕ) (day : ℤ) (p : PriceRow) →
        IsSheet sheet → price_in_force sheet sku day ≡ Some p →
        All (λ q. q.sku ≡ sku → q.from ≡ p.from → q ≡ p) sheet.prices }
    ensures none { (sheet : Sheet) (sku : List ℕ) (day : ℤ) →
        (price_in_force sheet sku day ≡ None)
        ↔ All (λ q. q.sku ≡ sku → day <ℤ q.from) sheet.prices }
    ensures later { (sheet : Sheet) (before after : List PriceRow) (q : PriceRow) (sku : List ℕ)
        (day : ℤ) →
        day <ℤ q.from →
        price_in_force (record sheet { prices = before ++ q ∷ after }) sku day
        ≡ price_in_force (record sheet { prices = before ++ after }) sku day }
{}

/// A pricing quantity of a value that is not negative lies between 0 and the value, and no pricing quantity has a
/// greater magnitude than its value.
pub fn pricing_quantities_lie_between_0_and_their_values()
    ensures between { (per : ℕ) (v : ℤ) → pos 0 ≤ℤ v →
        (pos 0 ≤ℤ pricing_quantity per v) × (pricing_quantity per v ≤ℤ v) }
    ensures magnitude { (per : ℕ) (v : ℤ) → unsigned_abs (pricing_quantity per v) ≤ unsigned_abs v }
{}

/// The value of a reading at a sequence has a magnitude below the limit of values. In journals that meet their rules,
/// that of usage or a purchase is not negative.
pub fn values_keep_their_limits()
    ensures limit { (h : Holding) (at : Position) (upto : ℕ) → IsHolding h
        → unsigned_abs (value_at h at upto) < value_limit }
    ensures not_negative { (sheet : Sheet) (h : Holding) (at : Position) (r : Reading) (upto : ℕ) →
        MeetsJournalRules sheet h → reading_at h at ≡ Some r → is_priced r.kind ≡ true →
        pos 0 ≤ℤ value_at h at upto }
{}

/// By a sheet that meets its rules, quantities and costs keep their limits: those of a charge between two values within
/// theirs, and those of each row.
pub fn amounts_keep_their_limits()
    ensures charges { (sheet : Sheet) (r : Reading) (was now : ℤ) →
        IsSheet sheet → unsigned_abs was < value_limit → unsigned_abs now < value_limit →
        AreWithinLimits (amounts_of
        (charge (priced_kind r.kind) (price_of sheet r) (commitment_of sheet r) was now)) }
    ensures rows { (sheet : Sheet) (issuer : Issuer) (h : Holding) (period : ℕ) (from to : Cut) →
        IsHolding h → IsSheet sheet
        → All (λ x. AreWithinLimits (amounts_in x)) (rows sheet issuer h period from to) }
{}
