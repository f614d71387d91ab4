//! Laws of the definitions: each function does nothing, and its contract is the law.

ghost use Rattle.sync_message.specs.Common.{octets, M30, SyncFields as TheFields};
ghost use Rattle.std.specs.Prelude.{◌≡◌, ◌↔◌, Bool, List, Some, ◌≤◌, ◌*◌, ◌-◌, ◌+◌, length, IsNone};
ghost use Rattle.std.specs.Prelude.{IsSome};
ghost use Rattle.chip_core.specs.declared.check_form.CheckForm.{CheckForm as TheForm};
ghost use Rattle.sync_message.specs.Reading.{sync_reading};
ghost use Rattle.sync_message.specs.SyncMessage.{IsSyncMessage, sync_body, sync_capsule};

/// Messages with the same spelling are equal.
pub fn spelling_has_one_message()
    ensures { (form : TheForm) (m n : TheFields) → IsSyncMessage m → IsSyncMessage n →
        sync_capsule form m ≡ sync_capsule form n → m ≡ n }
{}

/// A message of 25 octets has no frequency and 3 bits of rest. A message of 26 octets or more has a
/// frequency, and 8 bits of rest for each octet past 26.
pub fn octets_tell_the_rest()
    ensures least { (m : TheFields) → IsSyncMessage m → 25 ≤ octets M30 (sync_body m) }
    ensures shortest { (m : TheFields) → IsSyncMessage m → octets M30 (sync_body m) ≡ 25 →
        IsNone m.freq × (length m.rest ≡ 3) }
    ensures longer { (m : TheFields) → IsSyncMessage m → 26 ≤ octets M30 (sync_body m) →
        IsSome m.freq × (length m.rest ≡ 8 * (octets M30 (sync_body m) - 26)) }
{}

/// Reading a list by the places of the fields returns a message exactly if the list is the
/// message's capsule.
pub fn reading_turns_spelling_back()
    ensures { (form : TheForm) (capsule : List Bool) (m : TheFields) →
        (sync_reading form capsule ≡ Some m) ↔ (IsSyncMessage m × (capsule ≡ sync_capsule form m)) }
{}
