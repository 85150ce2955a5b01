//! What the items of an input are, what is said of it, and of what it is warned. Each law is a function with an empty body.

ghost use Rattle.std.specs.Prelude.{◌≡◌, ◌+◌, ◌-◌, ◌++◌, [], ◌∷◌, ℕ, List, None, Ok, Err, length};
ghost use Rattle.metering_model.specs.BatchReading.{lines_in};
ghost use Rattle.metering_model.specs.RatedAlone.{world_before};
ghost use Rattle.metering_model.specs.Transcript.{line};
ghost use Rattle.metering_model.specs.World.{World};
ghost use Rattle.batch_view.specs.Extents.{counted};
ghost use Rattle.input_sections.specs.RateInput.{RateInput, rate_input_in};
ghost use Rattle.input_sections.specs.declared.faults.ScheduleFault.{ScheduleFault};
ghost use Rattle.fault_lines.specs.Ahead.{ahead_of_all};
ghost use Rattle.fault_lines.specs.Told.{said_of_fault};
ghost use Rattle.fault_lines.specs.UnknownKeys.{unknown_on};
ghost use Rattle.schedule_writer.specs.Checks.{CountsWhatIsJournaled, journaled_of, said_of_input, warned_of_input};
ghost use Rattle.schedule_writer.specs.Inputs.{Item, Offered, Offers, batches_of, head_text, items_of, items_text, offered_length};
ghost use Rattle.schedule_writer.specs.Refusals.{IsRefused, IsTaken};

/// The items of an input are what stands after its sections, cut in order: no byte is left out, and none belongs to two of them. Each
/// batch begins where those above it end. A first line that is no head of a batch stands by itself, however long it is.
pub fn items_are_the_input_cut_in_order()
    ensures whole { (input : List ℕ) (given : RateInput) → rate_input_in input ≡ Ok given
        → items_text (items_of input given) ≡ given.batch }
    ensures places { (input : List ℕ) (given : RateInput) (before behind : List Item) (b : Offered)
        → rate_input_in input ≡ Ok given → items_of input given ≡ before ++ Offers b ∷ behind
        → b.from ≡ (length input - length given.batch) + length (items_text before) }
    ensures alone { (text : List ℕ) → counted (lines_in text).lines ≡ None
        → offered_length text ≡ length (head_text text) }
{}

/// What `check` says of an input begins with what `schedule` refuses: the fault of its sections alone; or first the line for which one
/// of its batches is refused, whatever stands after it; and nothing exactly where its sections are read and each of its batches is
/// journaled after those above it.
pub fn what_is_said_is_what_is_refused()
    ensures section { (input : List ℕ) (fault : ScheduleFault) → rate_input_in input ≡ Err fault
        → said_of_input input ≡ said_of_fault input fault }
    ensures first { (input told : List ℕ) → IsRefused input told
        → (rest : List ℕ) × (said_of_input input ≡ line told ++ rest) }
    ensures none { (input : List ℕ) → IsTaken input → said_of_input input ≡ [] }
    ensures only { (input : List ℕ) → said_of_input input ≡ [] → IsTaken input }
{}

/// Where the sections are refused nothing is warned of. Else the keys that no reader takes come first, and then the readings of the
/// batches that count: just those that a group of one node and 64 agents journals after those above them that it did journal, in their
/// order, each with as many lines as stand above its head.
pub fn what_is_journaled_counts_for_a_warning()
    ensures refused { (input : List ℕ) (fault : ScheduleFault) → rate_input_in input ≡ Err fault
        → warned_of_input input ≡ [] }
    ensures told { (input : List ℕ) (given : RateInput) → rate_input_in input ≡ Ok given
        → warned_of_input input ≡ unknown_on 1 input ++ ahead_of_all []
        (journaled_of input (world_before given.sheet given.issuer)
        (batches_of (items_of input given))) }
    ensures counted { (input : List ℕ) (w : World) (bs : List Offered)
        → CountsWhatIsJournaled input w bs }
{}
