//! The laws of peering by suffixes: functions that do nothing, whose clauses are the laws. `specs/Refinement.antt` says each in words.

ghost use Rattle.store_core.specs.declared.sealed.GroupId.{GroupId};
ghost use Rattle.store_core.specs.Request.{Sealed};
ghost use Rattle.group_model.specs.Refinement.{DecidedIsHeld, FitAnswersTrue, PromisesAreKept, RefusesAlike, SettlesAlike, SuffixesRefineWholeLogs};
ghost use Rattle.group_model.specs.SuffixCases.{IsAllThere, IsFitted, IsHalfDone, IsSentAgain};

/// Whatever is submitted, delivered, lost, repeated, moved, restarted or kicked, in whatever order: a group whose peering sends
/// suffixes stands for the group whose peering sends whole logs and to which the same happened. Intervals, requests, answers
/// and what was decided are equal, and so are each copy's promise, base, log, kind of role and waiting requests. The messages
/// agree one by one in kind, interval, sender and addressee. Both refuse the same events, and settle in as many deliveries.
pub fn suffixes_refine_whole_logs()
    ensures stands { SuffixesRefineWholeLogs }
    ensures refuses { RefusesAlike }
    ensures settles { SettlesAlike }
{}

/// Each log that such a group fits to a part fits: no choice and no Install is passed over for want of entries.
pub fn fit_answers_true()
    ensures { FitAnswersTrue }
{}

/// No event lowers a copy's promise or its base. A copy drops no more than the last entry of its log, and none that it showed to
/// be decided. What was decided only grows, and each answer is a reply of it. All but the last entry of any log was decided; and
/// where an active copy is the latest, what was decided begins the log of each member of its interval.
pub fn promises_are_kept()
    ensures keeps { PromisesAreKept }
    ensures holds { DecidedIsHeld }
{}

/// Worked cases, by computation: copies that have everything send no request, peerings that were left half done send the one that
/// is missing, a kick sends the same again, and two of these messages have a log fitted.
pub fn suffix_cases()
    ensures all_there { (group : GroupId) (s : Sealed) → IsAllThere group s }
    ensures half_done { (group : GroupId) (s : Sealed) → IsHalfDone group s }
    ensures kicked { (group : GroupId) (s : Sealed) → IsSentAgain group s }
    ensures fitted { (group : GroupId) (s : Sealed) → IsFitted group s }
{}
