//! Layouts: a new kind of message with each kind of part, read and written with only its table.

ghost use Rattle.std.specs.Prelude.{◌≡◌, ◌<◌, IfSome};

use chip_core::{BitWriter, Bits, Full};
use message_layout::{Contents, Group, MessageLayout, Octets, Presence, Records, append, read};
use std::test::Fail;

/// Two fields, two more after a flag bit, octets after two bits that are 0 and their count, records
/// of three fields, and at most 7 bits.
const ALL_PARTS: MessageLayout = MessageLayout {
    name: "all",
    fixed: &[("first", 5), ("second", 42)],
    group: Group {
        presence: Presence::Flagged,
        fields: &[("third", 3), ("fourth", 20)],
    },
    octets: Octets { zeros: 2, width: 3 },
    records: Records {
        name: "records",
        fields: &[("pn", 9), ("comb", 1), ("row", 8)],
        least: 1,
    },
    most: Some(7),
};

/// Makes a body of that layout, with `records` records and `rest` bits that are 1.
fn body_with(zeros: u64, records: u8, rest: u8) -> Result<Bits, Full>
    requires { zeros < 4 }
{
    let mut writer = BitWriter::new();
    writer.put(5, 19)?;
    writer.put(42, 2_199_023_255_552)?;
    writer.put(1, 1)?;
    writer.put(3, 6)?;
    writer.put(20, 700_000)?;
    writer.put(2, zeros)?;
    writer.put(3, 1)?;
    writer.put(8, 0xa5)?;
    for record in 0..records {
        writer.put(9, u64::from(record))?;
        writer.put(1, 1)?;
        writer.put(8, 17)?;
    }
    for _bit in 0..rest {
        writer.put(1, 1)?;
    }
    Ok(writer.done())
}

/// Returns the contents of a body.
#[tactic(auto, unfolding(message_layout::specs::Shapes::is_lawful))]
fn told(body: &Bits) -> Option<Contents> {
    let _most = body.len();
    read(&ALL_PARTS, body)
}

/// Reads a body of the layout and writes its contents again.
#[tactic(auto, unfolding(message_layout::specs::Shapes::is_lawful))]
fn written_again(body: &Bits) -> Option<Bits>
    ensures { IfSome result (λ again. again ≡ body.now) }
{
    let _most = body.len();
    let contents = read(&ALL_PARTS, body)?;
    let mut again = Bits::empty();
    append(&ALL_PARTS, &contents, &mut again);
    Some(again)
}

#[test]
fn each_part_is_read(rt: HostRuntime) -> Result<(), Fail> {
    let body = body_with(0, 2, 3)?;
    let contents = told(&body).ok_or("the body has no contents")?;
    assert_eq!(rt;
        (contents.fixed.get(0), contents.fixed.get(1)),
        (19, 2_199_023_255_552)
    );
    let group = contents.group.ok_or("the group is missing")?;
    assert_eq!(rt; (group.get(0), group.get(1)), (6, 700_000));
    assert_eq!(rt; contents.octets.len(), 8);
    assert_eq!(rt; contents.columns[0].len(), 2);
    assert_eq!(rt; contents.rest.len(), 3);
    assert_eq!(rt; written_again(&body), Some(body));
    Ok(())
}

#[test]
fn what_does_not_fit_is_refused(rt: HostRuntime) -> Result<(), Fail> {
    for (zeros, records, rest, is_one) in [
        (0, 1, 0, true),
        (0, 1, 7, true),
        (0, 1, 8, false),
        (0, 0, 7, false),
        (1, 1, 0, false),
        (2, 1, 0, false),
    ] {
        let body = body_with(zeros, records, rest)?;
        assert_eq!(rt; told(&body).is_some(), is_one);
    }
    Ok(())
}
