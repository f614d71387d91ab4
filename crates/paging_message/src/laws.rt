//! Laws of the definitions: each function does nothing, and its contract is the law.

ghost use Rattle.paging_message.specs.Common.{number, FillsCapsule, M30, CheckForm as TheForm};
ghost use Rattle.std.specs.Prelude.{◌≡◌, ◌↔◌, ◌<◌, ◌++◌, Bool, true, false, List, Some, length};
ghost use Rattle.std.specs.Prelude.{map, replicate, take};
ghost use Rattle.paging_message.specs.Admitted.{admits, HasMessage};
ghost use Rattle.quality_bits.specs.declared.rate.Rate.{Rate as TheRate};
ghost use Rattle.paging_message.specs.HalfFrames.{capsules_in, half_frame_body, IsPagingRate};
ghost use Rattle.paging_message.specs.Laying.{fill, half_frames_of, laid_all, nothing_laid, Laid};
ghost use Rattle.paging_message.specs.Laying.{AreLawful, HasLaid, Place, Put};
ghost use Rattle.paging_message.specs.Messages.{message_body, paging_capsule, IsPagingMessage};
ghost use Rattle.paging_message.specs.Reading.{body_reading, paging_reading};
ghost use Rattle.paging_message.specs.declared.message.PagingMessage.{PagingMessage as TheMessage};

/// Two messages with the same spelling are equal.
pub fn spelling_has_one_message()
    ensures { (form : TheForm) (m n : TheMessage) →
        IsPagingMessage m → IsPagingMessage n → paging_capsule form m ≡ paging_capsule form n →
        m ≡ n }
{}

/// Reading a list by the places of the fields returns a message exactly if the list is the
/// message's capsule, and likewise for its body.
pub fn reading_turns_spelling_back()
    ensures capsule { (form : TheForm) (capsule : List Bool) (m : TheMessage) →
        (paging_reading form capsule ≡ Some m)
        ↔ (IsPagingMessage m × (capsule ≡ paging_capsule form m)) }
    ensures body { (body : List Bool) (m : TheMessage) →
        (body_reading body ≡ Some m) ↔ (IsPagingMessage m × (body ≡ message_body m)) }
{}

/// A body that fills a capsule is that of a message exactly if its type admits its length. Every
/// message's body fills a capsule.
pub fn type_and_length_admit()
    ensures fills { (m : TheMessage) → IsPagingMessage m → FillsCapsule M30 (message_body m) }
    ensures admitted { (body : List Bool) →
        FillsCapsule M30 body →
        (admits (number (take 8 body)) (length body) ≡ true) ↔ HasMessage body }
{}

/// The bits that are laid, padded with zeros to a whole half-frame, carry exactly the capsules that
/// were put, in order. The condition is that each is whole and follows another at once only if at
/// least 8 body bits of its half-frame are left.
pub fn laid_capsules_are_carried()
    ensures padded { (layout : Place) (l : Laid) (bits : List Bool) →
        0 < layout.size →
        HasLaid layout l bits →
        half_frames_of layout.size l ≡ bits ++ replicate (fill layout.size (length l.body)) false }
    ensures carried { (rate : TheRate) (puts : List Put) →
        IsPagingRate rate →
        AreLawful (half_frame_body rate) nothing_laid puts →
        capsules_in (half_frame_body rate)
        (half_frames_of (half_frame_body rate)
        (laid_all (half_frame_body rate) nothing_laid puts))
        ≡ map (λ p. p.capsule) puts }
{}
