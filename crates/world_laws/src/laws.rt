//! Laws of the world, each the contract of a function that does nothing.

ghost use Rattle.world_front.specs.Merging.{PartsAreLegalTogether};
ghost use Rattle.world_core.specs.Answers.{DecidedIsOneList, AuditGrows, AnswersStand, AnswersAreDecided};
ghost use Rattle.world_core.specs.Service.{ServiceKeepsItsWord, ServiceGrows};
ghost use Rattle.world_laws.specs.Serving.{WorldsBegin, WorldsServe, PartsServe};
ghost use Rattle.world_front.specs.Tickets.{TicketsAreRead};
ghost use Rattle.world_laws.specs.Audit.{RunsTell};
ghost use Rattle.world_core.specs.Holds.{WorldHolds, HoldsOn};
ghost use Rattle.world_laws.specs.Accepted.{RequestsAreSubmissions, FrontTellsRequests, AcceptedHasNumbers, AcceptedHolds, AcceptedAnswers, IntervalsAreTheMaps, GroupsAreServed};
ghost use Rattle.world_laws.specs.Places.{EveryPlaceHasItsGroup, PlacesStay, GroupsAreFoundByPlace};
ghost use Rattle.world_laws.specs.Recovery.{KickRecovers, LossesLoseAll};
ghost use Rattle.world_laws.specs.ListingLaws.{ListsHavePieces, ListingsAreTold, AcceptedListings};
ghost use Rattle.world_laws.specs.Pieces.{PiecesAreTheNamespace, PiecesAnswerTheNamespace};

/// Entries of different groups touch different objects: lists that are legal in each group are legal together, in any order that keeps each group's own.
pub fn parts_are_legal_together()
    ensures { PartsAreLegalTogether }
{}

/// Whatever happens to a world, in whatever order: what was decided is one legal list, merged from the groups' lists; each
/// request in it was submitted; each answer is the reply that stands there. It only grows, and each answer stands.
pub fn decided_is_one_list()
    ensures one { DecidedIsOneList }
    ensures grows { AuditGrows }
    ensures stand { AnswersStand }
{}

/// Whatever happens: each answer is what one store without daemons and groups gives at its place in that list, to the request
/// that was submitted under the number; it is a denial just where the request's own ticket does not allow it at its own tick.
pub fn answers_are_decided()
    ensures { AnswersAreDecided }
{}

/// Whatever the service does: each request is decided at most once, performed just where its ticket allows it, and otherwise
/// denied by each grant's first failed condition and without effect; each answer is the reply that one store gives. It only grows.
pub fn the_service_keeps_its_word()
    ensures keeps { ServiceKeepsItsWord }
    ensures grows { ServiceGrows }
{}

/// A world is the service: it begins as the service does, each list of accepted events is as many of its steps, and so is a
/// world that is put together of parts.
pub fn worlds_serve()
    ensures begins { WorldsBegin }
    ensures serve { WorldsServe }
    ensures parts { PartsServe }
{}

/// A user's ticket is a function of its osd text.
pub fn tickets_are_read()
    ensures { TicketsAreRead }
{}

/// What was decided can be told by places in the groups' own lists, one run for each part of an event that decides something.
pub fn runs_tell_the_audit()
    ensures { RunsTell }
{}

/// Whatever happens to a world: users, map and sessions are what the front says without any group, and each group is what
/// its own part of the events makes of it alone.
pub fn worlds_hold()
    ensures all { WorldHolds }
    ensures next { HoldsOn }
{}

/// Where each event was accepted, each group's requests are the submissions for it, in their order; and no group refuses a
/// request that the front does not, so the front alone says whether a request is accepted.
pub fn requests_are_submissions()
    ensures submissions { RequestsAreSubmissions }
    ensures front { FrontTellsRequests }
{}

/// Where each event was accepted, there are fewer than 2^32 requests, so what is proved of worlds whose ids have room holds
/// without that premise.
pub fn accepted_have_numbers()
    ensures numbers { AcceptedHasNumbers }
    ensures holds { AcceptedHolds }
    ensures answers { AcceptedAnswers }
{}

/// Where each event was accepted, the sets of each group are the intervals that the map has for its place.
pub fn intervals_are_the_maps()
    ensures { IntervalsAreTheMaps }
{}

/// Where each event was accepted, each group is one that there can be, whose last set is the map's present one, and whose
/// sets lay within the daemons that were up: what the law of recovery asks of a group.
pub fn groups_are_served()
    ensures { GroupsAreServed }
{}

/// The pieces of a list, one for each group of the pool: where each is decided on a store that has the same objects in that
/// pool and namespace, their names together, sorted, are exactly those of these objects; and that is what the client is shown where each is allowed.
pub fn pieces_are_the_namespace()
    ensures names { PiecesAreTheNamespace }
    ensures answer { PiecesAnswerTheNamespace }
{}

/// Whatever happens, the groups of a world are those of the map's places, in their order. Where each event was accepted, a
/// group is found just where the map has its pool and its number, which is just where the front does not refuse them.
pub fn every_place_has_its_group()
    ensures all { EveryPlaceHasItsGroup }
    ensures next { PlacesStay }
    ensures found { GroupsAreFoundByPlace }
{}

/// Where each event was accepted and a group is ready: once all its messages are lost, in whichever way, a kick and the
/// delivery of message 0 until none is left answer every request for the group. Each of these events is accepted, or drops a
/// message to a daemon that is down. They are no more deliveries than the group's budget. Users, map, sessions and the other
/// groups stay.
pub fn a_kick_recovers()
    ensures recovers { KickRecovers }
    ensures loses { LossesLoseAll }
{}

/// Whatever happens, each list of the front is one request for each group of its pool, under consecutive numbers. A piece is
/// answered the names at its place in the audit, or its denial. The list is nothing until each piece was answered, and then
/// their sorted names, or the denial. Where nothing between its pieces changes which objects the pool's namespace has, it is
/// exactly these objects.
pub fn listings_are_told()
    ensures pieces { ListsHavePieces }
    ensures told { ListingsAreTold }
    ensures accepted { AcceptedListings }
{}
