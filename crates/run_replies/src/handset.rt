//! Opens a handset on the pilot's paths.

ghost use Rattle.std.specs.Prelude.{◌≡◌, ◌≤◌, List, [], IfOk};
ghost use Rattle.mobile_core.specs.Standing.{StandsFor, has_room};
ghost use Rattle.chip_core.specs.declared.sample.Sample.{Sample as TheSample};
ghost use Rattle.heard_events.specs.Tuning.{tuning_by};
ghost use Rattle.run_replies.specs.Handsets.{IsBest};
ghost use Rattle.run_replies.specs.Hearing.{AreNearTo, AreReady, IsLawfulHandset, settings_for};
ghost use Rattle.run_replies.specs.Hearing.{tuning_for};
ghost use Rattle.run_replies.specs.Trials.{trial_settings};
ghost use Rattle.cell_plan.specs.Transmitter.{header_of};
ghost use Rattle.chip_core.specs.declared.width.Width.TheVariants.{Sixteen};
ghost use Rattle.trial_link.specs.Trial.{trial_plan};

use cdma_io::Header;
use chip_core::OutOfMemory;
use mobile_core::{Mobile, Settings, Traffic};
use pilot_search::{Best, Near};
use short_code::Codes;
use std::alloc::Global;
use trial_link::trial_serial_number;

/// Returns the settings of a handset for a file with this header: `fingers` paths (1 to 3), the
/// number of its paging channel (1 to 7), and its traffic channel, if any.
pub fn settings_for(header: &Header, fingers: u8, paging: u8, traffic: Option<Traffic>) -> Settings
    ensures { result ≡ settings_for header.now fingers paging traffic }
{
    Settings {
        fingers,
        paging,
        traffic,
        check30: header.check30,
        check16: header.check16,
        count: header.count,
    }
}

/// Returns the settings to receive the link of trial `number` with this header: one finger, paging
/// channel 1, and the traffic channel whose frames are drawn from the number.
pub fn trial_settings(number: u64, header: &Header) -> Settings
    requires { header.now ≡ header_of Sixteen (trial_plan number) }
    ensures { result ≡ trial_settings number }
{
    let traffic = Traffic {
        esn: trial_serial_number(number),
        row: 8,
        offset: 0,
    };
    settings_for(header, 1, 1, Some(traffic))
}

/// Opens a handset with these settings on paths near the pilot's phase.
#[tactic(auto, using(crate::proofs::Handsets::sound_assignment))]
pub fn open_handset(
    alloc: Global,
    settings: Settings,
    best: Best,
    near: Near,
    codes: Codes,
) -> Result<Mobile, OutOfMemory>
    requires lawful { IsLawfulHandset settings.fingers settings.paging settings.traffic }
    requires count { settings.count ≤ 67108864 }
    requires near { AreReady near }
    requires each { near.count ≡ settings.fingers }
    ensures given { (first : List TheSample) → IsBest first best →
        AreNearTo first best.phase settings.fingers near →
        IfOk result (λ mobile. StandsFor (tuning_for settings first) mobile [] []) }
    ensures stands { IfOk result (λ mobile.
        StandsFor (tuning_by settings best near) mobile [] []) }
    ensures room { IfOk result (λ mobile. has_room mobile ≡ settings.count) }
{
    Mobile::new(alloc, settings, codes, best, near)
}

/// Opens a handset as [`open_handset`] does, in its own box.
// Not inlined: its frame holds several copies of the handset, and is freed before the handset runs.
#[inline(never)]
pub fn boxed_handset(
    alloc: Global,
    settings: Settings,
    best: Best,
    near: Near,
    codes: Codes,
) -> Result<Box<Mobile>, OutOfMemory>
    requires lawful { IsLawfulHandset settings.fingers settings.paging settings.traffic }
    requires count { settings.count ≤ 67108864 }
    requires near { AreReady near }
    requires each { near.count ≡ settings.fingers }
    ensures given { (first : List TheSample) → IsBest first best →
        AreNearTo first best.phase settings.fingers near →
        IfOk result (λ mobile. StandsFor (tuning_for settings first) mobile.value [] []) }
    ensures room { IfOk result (λ mobile. has_room mobile.value ≡ settings.count) }
{
    let mobile = open_handset(alloc, settings, best, near, codes)?;
    Ok(Box::new(alloc, mobile)?)
}
