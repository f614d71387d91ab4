//! Laws of the definitions: each function does nothing, and its contract is the law.

ghost use Rattle.message_layout.specs.Common.{Contents as TheContents};
ghost use Rattle.std.specs.Prelude.{◌≡◌, ◌↔◌, Bool, true, List, Some};
ghost use Rattle.message_layout.specs.Reading.{reading};
ghost use Rattle.message_layout.specs.Shapes.{is_lawful, MessageShape};
ghost use Rattle.message_layout.specs.Spelling.{spelling, IsOf};

/// Reading a list of bits by a layout returns contents exactly if the list is their spelling.
pub fn reading_turns_spelling_back()
    ensures { (s : MessageShape) (bits : List Bool) (c : TheContents) → is_lawful s ≡ true →
        (reading s bits ≡ Some c) ↔ (IsOf s c × (bits ≡ spelling s c)) }
{}

/// Contents of the same layout with the same spelling are equal.
pub fn spelling_has_one_reading()
    ensures { (s : MessageShape) (c d : TheContents) → is_lawful s ≡ true → IsOf s c → IsOf s d →
        spelling s c ≡ spelling s d → c ≡ d }
{}
