//! Laws of the definitions: each function does nothing, and its contract is the law.

ghost use Rattle.traffic_message.specs.Common.{CheckForm as TheForm, FillsCapsule, M16};
ghost use Rattle.std.specs.Prelude.{◌≡◌, ◌↔◌, ◌++◌, Bool, true, false, List, Some, drop, get_or};
ghost use Rattle.std.specs.Prelude.{length};
ghost use Rattle.traffic_message.specs.Admitted.{traffic_admits, HasTrafficMessage};
ghost use Rattle.traffic_message.specs.Messages.{traffic_message_body, traffic_capsule, Message};
ghost use Rattle.traffic_message.specs.Messages.{IsTrafficMessage};
ghost use Rattle.traffic_message.specs.Multiplex.{joined, split_9600};
ghost use Rattle.traffic_message.specs.Reading.{traffic_body_reading, traffic_reading};

/// Two messages with the same spelling are equal.
pub fn spelling_has_one_message()
    ensures { (form : TheForm) (m n : Message) →
        IsTrafficMessage m → IsTrafficMessage n → traffic_capsule form m ≡ traffic_capsule form n →
        m ≡ n }
{}

/// Reading a list by the layouts of its parts returns a message exactly if the list is the
/// message's capsule, and likewise for its body.
pub fn reading_turns_spelling_back()
    ensures capsule { (form : TheForm) (capsule : List Bool) (m : Message) →
        (traffic_reading form capsule ≡ Some m)
        ↔ (IsTrafficMessage m × (capsule ≡ traffic_capsule form m)) }
    ensures body { (body : List Bool) (m : Message) →
        (traffic_body_reading body ≡ Some m)
        ↔ (IsTrafficMessage m × (body ≡ traffic_message_body m)) }
{}

/// A body that fills a capsule belongs to a message exactly if its type, its length and the numbers
/// that count its records admit it. No other body belongs to a message.
pub fn type_and_length_admit()
    ensures fills { (m : Message) → IsTrafficMessage m → FillsCapsule M16 (traffic_message_body m) }
    ensures admitted { (body : List Bool) →
        FillsCapsule M16 body →
        (traffic_admits body ≡ true) ↔ HasTrafficMessage body }
{}

/// The parts of a frame of 9,600 bits per second are all of its bits after the mode bits, in order.
pub fn parts_are_the_frame()
    ensures mixed { (bits : List Bool) → get_or bits 0 false ≡ true →
        joined (split_9600 bits) ≡ drop 4 bits }
    ensures plain { (bits : List Bool) → get_or bits 0 false ≡ false →
        joined (split_9600 bits) ≡ drop 1 bits }
{}
