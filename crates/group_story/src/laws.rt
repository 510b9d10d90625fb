//! What holds of every step of a group: functions that do nothing, whose clauses are the laws.

ghost use Rattle.group_model.specs.Group.{Group, Event};
ghost use Rattle.group_story.specs.Wire.{TakesAndSends};

/// Whatever happens to a group, its wire is then the one before without the message that was taken, and behind it what was sent. So
/// `tell_step` tells each message that a step takes or sends, once and in order.
pub fn steps_take_and_send()
    ensures { (g : Group) (e : Event) → TakesAndSends g e }
{}
