//! Laws of the definitions. Each function's clause is the law, and its body is empty.

ghost use Rattle.std.specs.Prelude.{◌≡◌, ◌<◌, ◌≤◌, ◌++◌, ℕ, ◌*◌, [], List, All, Option, Some, Ok};
ghost use Rattle.std.specs.Prelude.{Result, MatchResult, length, take, drop};
ghost use Rattle.std.specs.List.{flat_map};
ghost use Rattle.std.specs.Io.KnownBytes.{Consumes};
ghost use Rattle.chip_core.specs.declared.sample.Sample.{Sample};
ghost use Rattle.cdma_io.specs.declared.file_fault.FileFault.{FileFault};
ghost use Rattle.cdma_io.specs.declared.header.Header.{Header};
ghost use Rattle.chip_core.specs.declared.width.Width.{Width};
ghost use Rattle.cdma_io.specs.SampleFile.{CutsShort, HasBits, IsLawfulHeader, IsSampleFile, Opens};
ghost use Rattle.cdma_io.specs.SampleFile.{Reading, RunsOn, header_spelling, opening, sample_len};
ghost use Rattle.cdma_io.specs.SampleFile.{sample_spelling};

/// A file's bytes determine its header and its samples.
pub fn file_is_unique()
    ensures { (bytes : List ℕ) (header other_header : Header)
        (samples other_samples : List Sample) →
        IsSampleFile bytes header samples → IsSampleFile bytes other_header other_samples →
        (header ≡ other_header) × (samples ≡ other_samples) }
{}

/// Bytes that begin with the spelling of a lawful header open with that header.
pub fn spelled_header_opens()
    ensures { (header : Header) (rest : List ℕ) → IsLawfulHeader header →
        opening (header_spelling header ++ rest) ≡ Ok header }
{}

/// Bytes that open as a file begin with the spelling of their header, which is lawful.
pub fn opened_header_is_spelled()
    ensures { (bytes : List ℕ) (header : Header) →
        All (λ b. b < 256) bytes → opening bytes ≡ Ok header →
        IsLawfulHeader header × ((rest : List ℕ) × (bytes ≡ header_spelling header ++ rest)) }
{}

/// A lawful file opens with its header, unless a read failed.
pub fn file_opens()
    ensures { (bytes : List ℕ) (header : Header) (samples : List Sample)
        (answer : Result Reading FileFault) →
        IsSampleFile bytes header samples → Opens answer (opening bytes) →
        MatchResult answer (λ reading. reading.header ≡ header) (λ e. e ≡ FileFault.ReadFault) }
{}

/// If the source's remaining bytes spell samples, a read returns the first of these, and the bytes
/// that then remain spell the others.
pub fn file_is_read_in_order()
    ensures { (width : Width) (samples next : List Sample) (new : Option (List ℕ)) →
        All (HasBits width) samples → All (HasBits width) next →
        length next ≤ length samples →
        Consumes (Some (flat_map (sample_spelling width) samples)) new
        (flat_map (sample_spelling width) next) →
        (next ≡ take (length next) samples)
        × (new ≡ Some (flat_map (sample_spelling width) (drop (length next) samples))) }
{}

/// No read within the source's remaining samples is cut short, unless a read failed.
pub fn file_is_not_short()
    ensures { (e : FileFault) (width : Width) (samples : List Sample) (count from : ℕ)
        (new : Option (List ℕ)) →
        count ≤ length samples →
        CutsShort e (sample_len width * count) from
        (Some (flat_map (sample_spelling width) samples)) new →
        e ≡ FileFault.ReadFault }
{}

/// No further byte comes from a source at its end, unless a read failed.
pub fn file_is_not_long()
    ensures { (e : FileFault) (end : ℕ) → RunsOn e end (Some []) → e ≡ FileFault.ReadFault }
{}
