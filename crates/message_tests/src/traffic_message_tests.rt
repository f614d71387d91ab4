//! The names of fields as in the standard, which no clause specifies.

use traffic_message::{
    HEAD_FIELDS, IN_TRAFFIC_FIELDS, SEARCH_FIELDS, TIME_FIELDS, head_name, in_traffic_name,
    search_name, time_name,
};

#[test]
fn names_of_fields(rt: HostRuntime) {
    assert_eq!(rt; (HEAD_FIELDS[3].0, head_name(0)), ("enc", "ack"));
    assert_eq!(rt;
        (IN_TRAFFIC_FIELDS[9].0, in_traffic_name(7)),
        ("age", "tcomp")
    );
    assert_eq!(rt; (TIME_FIELDS[0].0, time_name(2)), ("use", "hdm"));
    assert_eq!(rt; (SEARCH_FIELDS[4].0, search_name(0)), ("ttdrop", "wina"));
}
