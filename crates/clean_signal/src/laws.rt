//! Laws of the definitions: each function does nothing, and its contract is the law.

ghost use Rattle.clean_signal.specs.BoundedNoise.{BearsAllWithin, BearsBelowItsAmplitude};
ghost use Rattle.clean_signal.specs.BoundedNoise.{LessIsBorne, MarginsAreOne, NoNoiseIsBorne};
ghost use Rattle.clean_signal.specs.BoundedNoise.{NoisyChannelsHaveSentSigns, OtherCellsAreNoise};
ghost use Rattle.clean_signal.specs.BoundedNoise.{NoisyCodewordsAreTheOnlyBest, MarginsAreExact};
ghost use Rattle.clean_signal.specs.BoundedNoise.{NoisyStreamsShowSymbols, TheLeastBearsForAll};
ghost use Rattle.clean_signal.specs.BoundedNoise.{ChannelsAreTakenAway};
ghost use Rattle.clean_signal.specs.ChannelLaws.{ChannelCodewordsAreTheOnlyBest, SilentRowsAreZero};
ghost use Rattle.clean_signal.specs.ChannelLaws.{ChannelsHaveSentSigns, EarlyFramesAreZero};
ghost use Rattle.clean_signal.specs.ChannelLaws.{StreamsShowSymbols, StrengthsArePositive};
ghost use Rattle.clean_signal.specs.NearFiles.{NearWithinNoneIsSame, NoiseAddsUp, RoundingIsNoise};
ghost use Rattle.clean_signal.specs.NearFiles.{LouderLinksAreLouder, OtherPathsAreNoise};
ghost use Rattle.clean_signal.specs.NoisySearch.{FoundThroughLess, NearFilesAreFound};
ghost use Rattle.clean_signal.specs.NoisySearch.{LoudPilotsAreFoundFirst, LoudPilotsAreGreatest};
ghost use Rattle.clean_signal.specs.NoisySearch.{LouderPilotsAreFound, LouderPlansAreFiles};
ghost use Rattle.clean_signal.specs.NoisySearch.{LouderPilotsBearNoise, SearchBearsNoise};

/// On a clean link the soft values of each frame in the file are `4 |h|^2 g0 g V C` times the signs
/// of the symbols that the channel sends in it, where h is the link, g0 and g are the gains of the
/// pilot and of the channel, and V and C the chips of a window and of a symbol: 1,024 and 256 on
/// the sync channel, 1,536 and 64 on the others. They are 0 on a row that no channel has, and
/// before the channel's first frame. Descrambled by a stream's scrambling, they show the symbols
/// before scrambling.
pub fn channels_have_the_sent_signs()
    ensures channel { ChannelsHaveSentSigns }
    ensures silent { SilentRowsAreZero }
    ensures early { EarlyFramesAreZero }
    ensures descrambled { StreamsShowSymbols }
    ensures positive { StrengthsArePositive }
{}

/// The frames of a span are one codeword, whose start bits are the last eight of the frame before
/// it. Among all codewords of its length, with any start bits, only it has the largest score.
pub fn channel_codewords_are_the_only_best()
    ensures channel { ChannelCodewordsAreTheOnlyBest }
{}

/// A channel bears noise of size e if sixteen inequalities of the gains, the link and e hold. Then
/// no noise that changes each sample of a file by at most e in I and by at most e in Q turns the
/// sign of one of the channel's symbols. The sixteen are the corners of the region to which such
/// noise can move the levels of pilot and channel, so they hold everywhere inside it. Over a link
/// along one axis, a channel that is no louder than the pilot bears exactly the noise below its own
/// amplitude. A channel also bears any smaller noise, and a louder channel bears what a weaker one
/// does. So the margin of several channels, the largest noise that all of them bear, is that of the
/// smallest gain. Each channel of a receivable cell bears noise of size 0 if its gain is above 0.
/// Another cell, or another path, is noise of the size of its loudness.
///
/// In a file with noise that it bears, each soft value of the channel's frames has the sign of the
/// symbol that was sent, and none is 0. So the codeword that was sent has a greater score than any
/// other codeword of the frame's span.
pub fn bounded_noise()
    ensures within { BearsAllWithin }
    ensures axis { BearsBelowItsAmplitude }
    ensures less { LessIsBorne }
    ensures least { TheLeastBearsForAll }
    ensures one { MarginsAreOne }
    ensures none { NoNoiseIsBorne }
    ensures other { OtherCellsAreNoise }
    ensures channel { NoisyChannelsHaveSentSigns }
    ensures descrambled { NoisyStreamsShowSymbols }
    ensures codewords { NoisyCodewordsAreTheOnlyBest }
{}

/// The margin of a channel is limited by its own amplitude. Noise of that size can remove the
/// channel: the cell's samples without it differ from those with it by no more, and each soft value
/// of its frames is 0 in them. So over a link along one axis, for a channel that is no louder than
/// the pilot, the margin is exact. The channel bears noise of a size if, and only if, the soft
/// values of a frame have the sent signs in every file with noise of that size.
pub fn margins_are_exact()
    ensures taken { ChannelsAreTakenAway }
    ensures exact { MarginsAreExact }
{}

/// Samples that differ from others by at most 0 are equal to them, and noise upon noise is noise of
/// the sum of both sizes. A second path to the cell is noise, like another cell: its size is at
/// most the sum of its link's absolute parts, times the sum of the cell's gains. Rounding is noise
/// too. Over a link d times as strong, the cell's samples are d times as large. If samples differ
/// from those by at most e times d and are divided by d and rounded (up, down or to the nearest),
/// they differ from the cell's by at most e. A file of 16 bits can be reduced to 8 bits in this
/// way.
pub fn rounding_is_noise()
    ensures none { NearWithinNoneIsSame }
    ensures sum { NoiseAddsUp }
    ensures path { OtherPathsAreNoise }
    ensures louder { LouderLinksAreLouder }
    ensures rounded { RoundingIsNoise }
{}

/// If a phase's energy stands out from those of all other phases in samples without noise, it is
/// the best phase of all samples that differ little from those. Noise of the size e changes the
/// absolute value of a phase's sum by at most 2 e for each sample, so the roots of two energies
/// keep their order if they are more than 4 e apart for each sample. For what a cell sends, this
/// can be computed from only the script, and it holds for each file with such noise.
pub fn the_search_bears_noise()
    ensures less { FoundThroughLess }
    ensures search { SearchBearsNoise }
    ensures files { NearFilesAreFound }
{}

/// If a cell's pilot is as loud as all of its other channels together, each sample that it sends is
/// a nonnegative number times the link and the code's chip. So no phase has more energy than the
/// path's own, in any number of samples, and the search finds the path if its phase is 0. If the
/// pilot is louder than all of them, the search finds the path at any phase, from sixteen samples
/// on: no other phase of the pilot's codes has the same sixteen chips, turned or not. It still
/// finds the path through noise of less than about a 64th of the amplitude that the pilot has to
/// spare over the link: twice its gain less the sum of all gains, times the absolute value of the
/// link's factor.
pub fn loud_pilots_are_found()
    ensures greatest { LoudPilotsAreGreatest }
    ensures first { LoudPilotsAreFoundFirst }
    ensures louder { LouderPilotsAreFound }
    ensures file { LouderPlansAreFiles }
    ensures noise { LouderPilotsBearNoise }
{}
