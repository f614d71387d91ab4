//! Options shared by the commands that receive a signal: how it is received, and which traffic
//! channel is followed.

ghost use Rattle.std.specs.Prelude.{◌≡◌, IfSome};
ghost use Rattle.command_line.specs.Args.{IsLawfulChannel, IsLawfulReception, IsLawfulTraffic};
ghost use Rattle.command_line.specs.Args.{channel_entries, channel_with, has_none, numbers_by};
ghost use Rattle.command_line.specs.Args.{reception_entries, reception_with, traffic_with};

use crate::grammar::{FINGERS, OFFSET, ROW, SERIAL_NUMBER, SPAN, WORKERS};
use crate::texts::{Texts, number_by};
use chip_core::Traffic;
use chip_core::air::SYNC_ROW;

/// The options for receiving a signal.
#[derive(Clone, Copy)]
pub struct ReceptionOptions {
    /// How many samples the pilot search uses, 64 to 32,768.
    pub span: u16,
    /// How many workers search the pilot, 1 to 64.
    pub workers: u8,
    /// How many paths of the signal are followed, 1 to 3.
    pub fingers: u8,
}

/// Returns the options for receiving the signal.
pub fn reception_with<T: Texts>(texts: &T) -> Option<ReceptionOptions>
    ensures value { result ≡ reception_with (numbers_by reception_entries (T.text_at texts.now)) }
    ensures lawful { IfSome result IsLawfulReception }
{
    let span = number_by(texts, &SPAN)?;
    let workers = number_by(texts, &WORKERS)?;
    let fingers = number_by(texts, &FINGERS)?;
    Some(ReceptionOptions {
        span: span as u16,
        workers: workers as u8,
        fingers: fingers as u8,
    })
}

/// Returns the traffic channel of a serial number, a row and an offset (default 0); `None` if
/// serial number or row is missing, or if the row is the sync channel's.
pub fn channel_with<T: Texts>(texts: &T) -> Option<Traffic>
    ensures value { result ≡ channel_with (numbers_by channel_entries (T.text_at texts.now)) }
    ensures lawful { IfSome result IsLawfulChannel }
{
    let esn = number_by(texts, &SERIAL_NUMBER)?;
    let row = number_by(texts, &ROW)?;
    let offset = number_by(texts, &OFFSET);
    if row == u128::from(SYNC_ROW) {
        return None;
    }
    Some(Traffic {
        esn: esn as u32,
        row: row as u8,
        offset: offset.unwrap_or(0) as u8,
    })
}

/// Returns the traffic channel next to a paging channel, if one is given; `None` if its options
/// don't go together or if its row is the paging channel's.
pub fn traffic_with<T: Texts>(texts: &T, paging: u128) -> Option<Option<Traffic>>
    ensures value { result ≡ traffic_with paging
        (numbers_by channel_entries (T.text_at texts.now)) }
    ensures lawful { IfSome result (IsLawfulTraffic paging) }
{
    if has_no_channel(texts) {
        return Some(None);
    }
    let channel = channel_with(texts)?;
    if u128::from(channel.row) == paging {
        return None;
    }
    Some(Some(channel))
}

/// Whether no option of a traffic channel is given.
fn has_no_channel<T: Texts>(texts: &T) -> bool
    ensures { result ≡ has_none (numbers_by channel_entries (T.text_at texts.now)) }
{
    let esn = number_by(texts, &SERIAL_NUMBER);
    let row = number_by(texts, &ROW);
    let offset = number_by(texts, &OFFSET);
    esn.is_none() && row.is_none() && offset.is_none()
}
