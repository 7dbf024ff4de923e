//! Laws about what was collected and settled.

ghost use Rattle.std.specs.Prelude.{◌≡◌, ℕ, List, [], ◌++◌};
ghost use Rattle.std.specs.List.{flat_map};
ghost use Rattle.sip_desk.specs.declared.desk.Desk.{Desk};
ghost use Rattle.sip_desk.specs.declared.ended.Ended.{Ended};
ghost use Rattle.sip_desk.specs.declared.settle_fault.SettleFault.TheVariants.{NotDrained};
ghost use Rattle.sip_desk.specs.Merge.{IsMerge, HoldsParts};
ghost use Rattle.sip_desk.specs.Lines.{TakesNothing, taken, seen, all_posted};
ghost use Rattle.sip_desk.specs.Collected.{Collects, IsDry, Because};

/// Laws. A merge that is cut into rounds holds each part whole and in order. Two collections, one
/// after the other, are one. A call that takes nothing, such as `settle`, collects nothing, so it
/// may stand between two that collect. If nothing was taken before, and all that was collected is
/// cut into rounds, the rounds hold the events taken from each line, in order and each once.
pub fn merges_in_rounds<E>()
    ensures cut { (parts : ℕ → List E) (rounds : List (List E))
        → IsMerge parts (flat_map (λ round. round) rounds) → HoldsParts parts rounds }
    ensures in_turn { (first between last : Desk E) (some more : List E)
        → Collects first between some → Collects between last more
        → Collects first last (some ++ more) }
    ensures between { (old new : Desk E) → TakesNothing old new → Collects old new [] }
    ensures from_the_opening { (first last : Desk E) (rounds : List (List E))
        → ((line : ℕ) → taken first line ≡ [])
        → Collects first last (flat_map (λ round. round) rounds) → HoldsParts (taken last) rounds }
{}

/// Law: if an end wasn't settled because events were left, and if collecting then leaves nothing
/// that was seen, the end isn't refused again because events are left.
pub fn drained_line_settles<E>()
    ensures { (refused dry : Desk E) (ended : Ended E) (events : List E)
        → all_posted ended ≡ taken refused ended.line ++ seen refused ended.line
        → Collects refused dry events → IsDry dry → ¬ Because dry ended.line ended NotDrained }
{}
