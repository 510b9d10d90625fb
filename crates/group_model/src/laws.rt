//! The laws of groups that send suffixes: functions that do nothing, whose clauses are the laws. `specs/Laws.antt` says each in
//! words. They are those of groups that send whole logs.

ghost use Rattle.std.specs.Prelude.{ℕ, ◌≡◌, Some, None, List, length, true, [], ◌∷◌, ◌++◌, replicate};
ghost use Rattle.store_core.specs.declared.sealed.GroupId.{GroupId};
ghost use Rattle.store_core.specs.Request.{Sealed};
ghost use Rattle.group_model_whole.specs.Asked.{HasSubmit};
ghost use Rattle.group_model_whole.specs.Each.{Each};
ghost use Rattle.group_messages.specs.declared.fault.GroupFault.{GroupFault as Fault};
ghost use Rattle.group_model_whole.specs.Group.{Event, IsSet, Submit, Lose};
ghost use Rattle.group_model_whole.specs.Calm.{IsSmall, IsCalm, unserved_cost, taken, all_taken};
ghost use Rattle.group_model_whole.specs.Quiet.{IsQuiet, opening_cost, request_cost};
ghost use Rattle.group_model_whole.specs.Recovering.{IsLoss};
ghost use Rattle.group_model.specs.Group.{Group, run, start, group_step, refusal_of, left_by, settle};
ghost use Rattle.group_model.specs.Reached.{IsReached};
ghost use Rattle.group_model.specs.Budget.{settled_group, settle_count};
ghost use Rattle.group_model.specs.Recovery.{is_ready};
ghost use Rattle.group_model.specs.Calm.{IsCalmGroup};
ghost use Rattle.group_model.specs.Recovering.{IsReady, lost_all, Recovers};
ghost use Rattle.group_model.specs.Within.{IsReachedWithin};
ghost use Rattle.group_model.specs.Laws.{OnlyAdds, IsSameGroup, AnswersAreDecided, SettlingEnds, OneEntryIsOpen, AppendsGoToOthers, ServesInTime, made_so_far, DecidesInOrder, AnswersNothing, KeepsCount};
ghost use Rattle.group_model.specs.WorkedCases.{IsLostReply, IsLate, IsHalfDone, IsCounted, IsRecovered, IsServedCalmly};

/// Whatever is submitted, delivered, lost, repeated, moved, restarted or kicked, in whatever order, only adds: what was
/// decided is one growing list, and each answer stands.
pub fn calls_only_add()
    ensures { (g : Group) → IsReached g → OnlyAdds g }
{}

/// An answer is the reply that was decided on the request of its number.
pub fn answers_are_decided()
    ensures { (g : Group) → IsReached g → AnswersAreDecided g }
{}

/// Each request that a group has was submitted to it.
pub fn requests_were_submitted()
    ensures { (g : Group) (reached : IsReached g) → Each (HasSubmit reached.events) g.requests }
{}

/// No event changes which placement group a group is, nor its `min_size`. Its requests are those that it took: a submission that
/// is not refused adds its own at the end, and nothing else changes them.
pub fn groups_stay_the_same()
    ensures steps { (g : Group) (e : Event) → IsSameGroup g (taken g.requests e) (group_step g e) }
    ensures runs { (g : Group) (events : List Event) → IsSameGroup g (all_taken events g.requests) (run events g) }
    ensures settles { (g : Group) (n : ℕ) → IsSameGroup g g.requests (settle n g) }
    ensures submits { (g : Group) (s : Sealed) → refusal_of g (Submit s) ≡ None → taken g.requests (Submit s) ≡ g.requests ++ s ∷ [] }
{}

/// The sets of a group are small and hold each daemon once, and what is refused leaves the group as it was.
pub fn limits_hold()
    ensures sets { (g : Group) → IsReached g → Each IsSet g.sets }
    ensures refused { (g : Group) (e : Event) (fault : Fault) → refusal_of g e ≡ Some fault → group_step g e ≡ left_by g e fault }
{}

/// Settling ends: each delivery lowers a budget.
pub fn settling_ends()
    ensures { (g : Group) → IsReached g → SettlingEnds g }
{}

/// At most the last entry of a copy's log is open: the others were held by each member of its base's interval or of one
/// before.
pub fn one_entry_is_open()
    ensures { (g : Group) → IsReached g → OneEntryIsOpen g }
{}

/// Each entry on its way goes from the primary of its interval to another member. So a copy that has an entry in flight hears of
/// no other entry of its interval, and its entry in flight stays the last of its log.
pub fn appends_go_to_others()
    ensures { (g : Group) → IsReached g → AppendsGoToOthers g }
{}

/// A group that stays in one interval, with enough members and all of them up, serves: the client submits, the oldest message
/// is delivered, and daemons outside of the set may come, go and restart. Settling answers every request and empties the wire,
/// and takes a number of deliveries that is known before.
pub fn one_interval_serves_all()
    ensures serves { (min_size count : ℕ) (acting up : List ℕ) (g : Group) → IsQuiet min_size count acting up →
        (calm : IsCalmGroup min_size count acting up g) → ServesInTime (length acting) (made_so_far calm) g }
    ensures opening { (group : GroupId) (min_size count : ℕ) (acting up : List ℕ) → IsQuiet min_size count acting up →
        settle_count (start group min_size count acting up) ≡ opening_cost (length acting) }
{}

/// Such a group decides its requests in the order in which they were submitted. So what it answers is a function of what was
/// submitted; and which requests a group takes is one too, whatever happens.
pub fn requests_are_decided_in_order()
    ensures order { (min_size count : ℕ) (acting up : List ℕ) (g : Group) → IsQuiet min_size count acting up → IsCalmGroup min_size count acting up g → DecidesInOrder g }
    ensures taken { (group : GroupId) (min_size count : ℕ) (acting up : List ℕ) (events : List Event) →
        (run events (start group min_size count acting up)).requests ≡ all_taken events [] }
{}

/// A group whose one set has too few members to serve, all of them up, answers and decides nothing, and its wire empties all the
/// same.
pub fn small_sets_answer_nothing()
    ensures waits { (min_size count : ℕ) (acting up : List ℕ) (g : Group) → IsSmall min_size count acting up →
        (calm : IsCalmGroup min_size count acting up g) → AnswersNothing (length acting) (made_so_far calm) g }
    ensures opening { (group : GroupId) (min_size count : ℕ) (acting up : List ℕ) → IsSmall min_size count acting up →
        settle_count (start group min_size count acting up) ≡ length acting }
{}

/// A calm group is one after each calm event, and once it settled; and the deliveries that are due are counted.
pub fn calm_groups_stay_calm()
    ensures begins { (group : GroupId) (min_size count : ℕ) (acting up : List ℕ) → IsCalmGroup min_size count acting up (start group min_size count acting up) }
    ensures steps { (min_size count : ℕ) (acting up : List ℕ) (g : Group) (e : Event) → IsCalmGroup min_size count acting up g → IsCalm acting e → IsCalmGroup min_size count acting up (group_step g e) }
    ensures settles { (min_size count : ℕ) (acting up : List ℕ) (g : Group) → IsCalmGroup min_size count acting up g → IsCalmGroup min_size count acting up (settled_group g) }
    ensures served { (min_size count : ℕ) (acting up : List ℕ) (g : Group) (e : Event) → IsQuiet min_size count acting up →
        IsCalmGroup min_size count acting up g → IsCalm acting e → KeepsCount (request_cost (length acting)) g e }
    ensures unserved { (min_size count : ℕ) (acting up : List ℕ) (g : Group) (e : Event) → IsSmall min_size count acting up →
        IsCalmGroup min_size count acting up g → IsCalm acting e → KeepsCount (unserved_cost (length acting)) g e }
{}

/// Nobody is stranded. Take a group each of whose acting sets lay within the daemons that were passed as up, and that
/// is ready: its last set is large enough, and each earlier one that is, from the greatest base of a copy that is up,
/// has a member that is up. Where all messages are lost and the group is kicked, settling answers every request and
/// empties the wire. It takes at most as many deliveries as the budget. Whichever way the messages are lost, the same
/// group is left.
pub fn a_kick_recovers()
    ensures recovers { (g : Group) → IsReachedWithin g → IsReady g → Recovers g }
    ensures lost { (g : Group) (losses : List Event) → Each IsLoss losses → (run losses g).wire ≡ [] → run losses g ≡ lost_all g }
    ensures loses { (g : Group) → run (replicate (length g.wire) (Lose 0)) g ≡ lost_all g }
    ensures ready { (g : Group) → is_ready g ≡ true → IsReady g }
    ensures unready { (g : Group) → IsReady g → is_ready g ≡ true }
{}

/// Worked cases, by computation.
pub fn worked_cases()
    ensures lost_reply { (group : GroupId) (s : Sealed) → IsLostReply group s }
    ensures late { (group : GroupId) (s : Sealed) → IsLate group s }
    ensures half_done { (group : GroupId) (s : Sealed) → IsHalfDone group s }
    ensures counted { (group : GroupId) (s : Sealed) → IsCounted group s }
    ensures recovered { (group : GroupId) (s : Sealed) → IsRecovered group s }
    ensures calm { (group : GroupId) (s : Sealed) → IsServedCalmly group s }
{}
